ghost use Rattle.std.specs.Prelude.{◌≡◌, Some};
ghost use Rattle.trials.specs.Shuffled.{next_number};

// A fixed sequence of pseudo-random numbers, by a linear congruential generator. It has no end.
#[derive(Clone, Copy, Debug, PartialEq, Eq)]
pub struct Shuffle {
    latest: u32,
}

impl Shuffle {
    // The sequence after a number.
    pub fn new(seed: u32) -> Shuffle
        ensures { result.latest ≡ seed }
    {
        Shuffle { latest: seed }
    }
}

impl Iterator for Shuffle {
    type Item = u32;

    ghost next_gives = { λ s r t. (r ≡ Some (next_number s.latest)) × (t.latest ≡ next_number s.latest) };

    fn next(&mut self) -> Option<u32> {
        self.latest = self.latest.wrapping_mul(1664525).wrapping_add(1013904223);
        Some(self.latest)
    }
}
