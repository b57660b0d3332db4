use cells::cell::Cell;
use keys::key::Key;
use tally::run::Run;

// A table in cells that the caller lends: its level, and the arrivals since the latest clear.
// Kept as a lent slice: the core has no heap.
#[derive(Drop)]
pub struct CountTable<'a, K: Key> {
    pub(crate) cells: &'a mut [Cell<K::Record, ()>],
    pub(crate) level: u32,
    pub(crate) run: Run,
}
