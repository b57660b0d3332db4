ghost use Rattle.std.specs.Prelude.{IsTrue, length};
ghost use Rattle.counttable.specs.Tables.{key_in, most_cells, range_of, vouches};
ghost use Rattle.tally.specs.Owed.{most_arrivals};
ghost use Rattle.tally.specs.Plans.{plannable};

use crate::table::CountTable;
use cells::each::{key_at, range_in};
use keys::key::Key;
use keys::refusal::Refusal;
use tally::{MOST_ARRIVALS, Tally};

// The count table as a tally: its reach is the whole run.
impl<'a, K: Key> Tally for CountTable<'a, K> {
    type Key = K;

    ghost vouches = { vouches K.Key };

    ghost planned = { λ t. IsTrue (plannable most_cells (length t.cells.now)) };

    ghost noted = { λ t. t.run };

    ghost reaches = { λ t. most_arrivals };

    ghost low = { λ t k. (range_of K.Key t k).0 };

    ghost high = { λ t k. (range_of K.Key t k).1 };

    ghost wide = { λ t. t.level };

    ghost top = { λ t. t.level };

    ghost spots = { λ t. length t.cells.now };

    ghost held = { key_in K.Key };

    fn arrivals(&self) -> u32 {
        self.run.arrivals()
    }

    fn reach(&self) -> u32 {
        MOST_ARRIVALS
    }

    fn range(&self, key: K) -> (u32, u32) {
        range_in(self.cells, self.level, key)
    }

    // No range is wider than the level.
    fn width(&self) -> u32 {
        self.level
    }

    // No key held at no place has a higher end.
    fn ceiling(&self) -> u32 {
        self.width()
    }

    fn places(&self) -> usize {
        self.cells.len()
    }

    fn key_at(&self, place: usize) -> Option<K> {
        key_at(self.cells, place)
    }

    fn note(&mut self, key: K) -> Result<(), Refusal> {
        self.count(key)
    }

    fn clear(&mut self) {
        self.empty();
    }
}
