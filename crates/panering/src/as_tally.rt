ghost use Rattle.std.specs.Prelude.{IsTrue, length};
ghost use Rattle.panering.specs.PaneRing.{high_of, key_of, low_of, reach_of, spots_of, top_of, vouches, width_of};
ghost use Rattle.panering.specs.Panes.{has_plan};

use crate::ring::PaneRing;
use cells::each::key_at;
use keys::key::Key;
use keys::refusal::Refusal;
use tally::Tally;

// The pane ring as a tally: its reach is P panes.
impl<'a, K: Key> Tally for PaneRing<'a, K> {
    type Key = K;

    ghost vouches = { vouches K.Key };

    ghost planned = { λ t. IsTrue (has_plan t.shape (length t.cells.now)) };

    ghost noted = { λ t. t.run };

    ghost reaches = { reach_of };

    ghost low = { low_of K.Key };

    ghost high = { high_of K.Key };

    ghost wide = { width_of };

    ghost top = { top_of };

    ghost spots = { spots_of };

    ghost held = { key_of K.Key };

    fn arrivals(&self) -> u32 {
        self.run.arrivals()
    }

    fn reach(&self) -> u32 {
        u32::from(self.shape.panes) * u32::from(self.shape.length)
    }

    fn range(&self, key: K) -> (u32, u32) {
        (self.low_end(key), self.high_end(key))
    }

    fn width(&self) -> u32 {
        self.spread()
    }

    fn ceiling(&self) -> u32 {
        self.top()
    }

    fn places(&self) -> usize {
        self.shape.spots()
    }

    // The key at a place, from the current pane back to the oldest, cell by cell.
    fn key_at(&self, place: usize) -> Option<K> {
        if place >= self.shape.spots() {
            return None;
        }
        let k = usize::from(self.shape.k);
        let back = place / k;
        if back >= self.shape.kept() {
            return None;
        }
        key_at(self.pane_back(back), place % k)
    }

    fn note(&mut self, key: K) -> Result<(), Refusal> {
        self.count(key)
    }

    fn clear(&mut self) {
        self.empty();
    }
}
