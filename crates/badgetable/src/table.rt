use cells::cell::Cell;
use keys::key::Key;
use tally::run::Run;

// A table in two areas that the caller lends: rows for readers (A), each with its seen count for a
// count and the level E of its badge table beside, and cells for badges (B), as many for each row.
// Its level D, and the run since the latest clear.
// Two lent slices: the core has no heap, and J is known only when a table is opened.
#[derive(Drop)]
pub struct BadgeTable<'a, A: Key, B: Key> {
    pub(crate) rows: &'a mut [Cell<A::Record, u32>],
    pub(crate) cells: &'a mut [Cell<B::Record, ()>],
    pub(crate) level: u32,
    pub(crate) run: Run,
}
