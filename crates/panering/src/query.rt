ghost use Rattle.std.specs.Prelude.{◌≡◌, ◌+◌, ◌/◌, ◌≤◌, List, slice_index};
ghost use Rattle.keys.specs.OfKey.{of_key};
ghost use Rattle.panering.specs.PaneRing.{high_of, low_of, reach_of, top_of, vouches, width_of};
ghost use Rattle.panering.specs.Panes.{ends_back, level_back, pane_back};
ghost use Rattle.tally.specs.Owed.{most_end};

use crate::ring::PaneRing;
use crate::sum::sum;
use cells::cell::Cell;
use cells::each::range_in;
use keys::key::Key;
use parts::part::part_of;

impl<'a, K: Key> PaneRing<'a, K> {
    // The level of the pane in a slot.
    pub(crate) fn level_in(&self, slot: usize) -> u32
        ensures { result ≡ slice_index self.now.levels slot }
    {
        self.levels.get(slot).copied().unwrap_or(0)
    }

    // The level of the pane that came j panes before the current one.
    fn level_back(&self, j: usize) -> u32
        ensures { result ≡ level_back self.now.shape self.now.levels j }
    {
        self.level_in(self.shape.slot_back(j))
    }

    // The cells of that pane.
    pub(crate) fn pane_back(&self, j: usize) -> &[Cell<K::Record, ()>]
        ensures { result.now ≡ pane_back self.now.shape self.now.cells.now j }
    {
        part_of(
            self.cells,
            usize::from(self.shape.k),
            self.shape.slot_back(j),
        )
    }

    // The range of a key in that pane.
    fn ends_back(&self, key: K, j: usize) -> (u32, u32)
        ensures { result ≡ ends_back (of_key K.eq K.Key.reads key) self.now.shape self.now.levels self.now.cells.now j }
    {
        range_in(self.pane_back(j), self.level_back(j), key)
    }

    // The low end of a key's range: the tail is left out.
    pub(crate) fn low_end(&self, key: K) -> u32
        ensures { result ≡ low_of K.Key self.now key }
    {
        sum(self.shape.inside(), |j| self.ends_back(key, j).0)
    }

    // The high end of a key's range: all panes are taken.
    pub(crate) fn high_end(&self, key: K) -> u32
        ensures { result ≡ high_of K.Key self.now key }
    {
        sum(self.shape.kept(), |j| self.ends_back(key, j).1)
    }

    // All levels.
    pub(crate) fn top(&self) -> u32
        ensures { result ≡ top_of self.now }
    {
        sum(self.shape.kept(), |j| self.level_back(j))
    }

    // The levels without the tail's, and the pane length for a tail: at most b + W/(k + 1).
    pub fn spread(&self) -> u32
        ensures value { result ≡ width_of self.now }
        ensures narrow { (xs : List K) → vouches K.Key self.now xs → (k : K) → high_of K.Key self.now k ≤ low_of K.Key self.now k + result }
        ensures bounded { (xs : List K) → vouches K.Key self.now xs → result ≤ most_end }
        ensures share { (xs : List K) → vouches K.Key self.now xs → result ≤ self.now.shape.length + reach_of self.now / (self.now.shape.k + 1) }
    {
        sum(self.shape.inside(), |j| self.level_back(j)).saturating_add(self.shape.tail())
    }
}
