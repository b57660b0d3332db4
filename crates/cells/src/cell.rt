ghost use Rattle.std.specs.Prelude.{◌≡◌, ◌+◌, min, ◌==◌};
ghost use Rattle.cells.specs.Capped.{capped};

// What a taken cell holds: a key's record, the arrivals counted since it entered, how many it may
// have had before (its mark), and what the user of the cells keeps beside.
#[derive(Clone, Copy, Debug, PartialEq, Eq)]
pub struct Slot<R, X> {
    pub key: R,
    pub count: u32,
    pub mark: u32,
    pub beside: X,
}

// A place for one key: free, or taken by a key.
pub type Cell<R, X> = Option<Slot<R, X>>;

impl<R, X> Slot<R, X> {
    // The high end of the key's range; the low end is the count.
    pub fn high(&self) -> u32
        ensures { result ≡ capped (self.now.count + self.now.mark) }
    {
        self.count.saturating_add(self.mark)
    }

    // Whether a level reaches the slot.
    pub(crate) fn is_reached(&self, level: u32) -> bool
        ensures { result ≡ (self.now.count + self.now.mark == level) }
    {
        u64::from(self.count) + u64::from(self.mark) == u64::from(level)
    }
}
