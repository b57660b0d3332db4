use crate::shape::Shape;
use cells::cell::Cell;
use keys::key::Key;
use tally::run::Run;

// How many slots a ring can have: the current pane and 64 complete ones.
pub(crate) const SLOTS: usize = 65;

// A ring in cells that the caller lends: the panes' levels by slot, the plan and how far the ring
// has turned, and the arrivals since the latest clear.
#[derive(Drop)]
pub struct PaneRing<'a, K: Key> {
    pub(crate) cells: &'a mut [Cell<K::Record, ()>],
    // Kept as an array of its own, with room for the largest plan: the caller lends cells alone.
    pub(crate) levels: [u32; SLOTS],
    pub(crate) shape: Shape,
    pub(crate) run: Run,
}
