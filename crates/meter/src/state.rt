use badgetable::table::BadgeTable;
use keys::key::Key;
use tally::Tally;

// One tally of readers and one table of badges by reader, side by side.
#[derive(Drop)]
pub struct Meter<'a, A: Key, B: Key, T: Tally<Key = A>> {
    pub tally: T,
    pub table: BadgeTable<'a, A, B>,
}
