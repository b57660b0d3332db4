use keys::key::Key;
use tally::run::Run;

// How many arrivals a log keeps, at most.
pub(crate) const MOST_KEPT: usize = 65_536;

// A log of the latest arrivals, in an area of records that the caller lends: the place that the
// next arrival goes to, and the arrivals since the latest clear.
// Kept as a ring in a lent slice: the core has no heap.
#[derive(Drop)]
pub struct ExactLog<'a, K: Key> {
    pub(crate) area: &'a mut [K::Record],
    pub(crate) next: usize,
    pub(crate) run: Run,
}
