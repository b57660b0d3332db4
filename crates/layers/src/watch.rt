ghost use Rattle.std.specs.Prelude.{◌≡◌, ◌+◌, ◌≤◌, true, List, [], ◌∷◌, ◌++◌, length, if◌then◌else◌, Ok, Err, MatchResult, ◌==◌, nat_eq};
ghost use Rattle.keys.specs.declared.refusal.Refusal.TheVariants.{RunFull};
ghost use Rattle.layers.specs.Watched.{Noted, Watches, high_of, is_whole, low_of, watch_high, watch_low};
ghost use Rattle.tally.specs.Owed.{most_arrivals};

use keys::key::{Key, same_key};
use keys::refusal::Refusal;
use tally::Tally;

// A layer that watches one key: it counts that key's arrivals since the latest clear, and so knows
// them exactly while the whole run is within reach.
#[derive(Drop)]
pub struct Watch<T: Tally> {
    below: T,
    key: <T::Key as Key>::Record,
    seen: u32,
    // False where the tally below had arrivals at opening, until a clear: what is vouched for hangs on
    // it. Kept as a flag: the range goes by the count in both states, so no Option says it plainer, and
    // a ghost field holds a fact and no value.
    fresh: bool,
}

// Whether the whole run is within reach.
fn is_whole<T: Tally>(tally: &T) -> bool
    ensures { result ≡ is_whole T.Tally tally.now }
{
    tally.arrivals() <= tally.reach()
}

// The ends of a range over those below. Kept with two tests beside the count: in all three cases the
// ends are said of it, and an Option would hide which of them is meant.
fn pick(watched: bool, whole: bool, seen: u32, below: (u32, u32)) -> (u32, u32)
    ensures { result ≡ (low_of watched whole seen below.0, high_of watched whole seen below.1) }
{
    match (watched, whole) {
        (false, _) => below,
        (true, true) => (seen, seen),
        (true, false) => (below.0, seen.min(below.1)),
    }
}

impl<T: Tally> Watch<T> {
    // Watches a key over a tally. Over one that has arrivals it vouches for no list until a clear.
    pub fn over(below: T, key: T::Key) -> Self
        ensures start { result ≡ record { below = below; key = T.Key.Key.lies key; seen = 0; fresh = (T.Tally.noted below == 0) } }
        ensures vouched { T.Tally.noted below ≡ 0 → T.Tally.vouches below [] → Watches T.Key.Key T.Tally result [] }
    {
        let fresh = below.arrivals() == 0;
        Watch {
            below,
            key: key.record(),
            seen: 0,
            fresh,
        }
    }

    // Notes an arrival below, and counts it where it is the watched key's.
    pub fn count(&mut self, key: T::Key) -> Result<(), Refusal>
        ensures answer { result ≡ (if nat_eq (T.Tally.noted self.old.below) most_arrivals then Err RunFull else Ok tt) }
        ensures plan { T.Tally.planned self.old.below → T.Tally.planned self.new.below }
        ensures few { T.Tally.noted self.old.below ≤ most_arrivals }
        ensures counted { (xs : List T.Key) → Watches T.Key.Key T.Tally self.old xs → length xs ≡ T.Tally.noted self.old.below }
        ensures after { MatchResult result (λ _. Noted T.Key.Key T.Tally self.old key self.new) (λ _. self.new ≡ self.old) }
    {
        let watched = same_key(self.key, key);
        self.below.note(key)?;
        self.seen = self.seen.saturating_add(u32::from(watched));
        Ok(())
    }

    // Clears the tally below and starts to count anew.
    pub fn restart(&mut self)
        ensures start { self.new ≡ record self.old { below = self.new.below; seen = 0; fresh = true } }
        ensures plan { T.Tally.planned self.old.below → T.Tally.planned self.new.below }
        ensures counted { T.Tally.noted self.new.below ≡ 0 }
        ensures vouched { Watches T.Key.Key T.Tally self.new [] }
    {
        self.below.clear();
        self.seen = 0;
        self.fresh = true;
    }
}

impl<T: Tally> Tally for Watch<T> {
    type Key = T::Key;

    ghost vouches = { Watches T.Key.Key T.Tally };

    ghost planned = { λ w. T.Tally.planned w.below };

    ghost noted = { λ w. T.Tally.noted w.below };

    ghost reaches = { λ w. T.Tally.reaches w.below };

    ghost low = { watch_low T.Key.Key T.Tally };

    ghost high = { watch_high T.Key.Key T.Tally };

    ghost wide = { λ w. T.Tally.wide w.below };

    ghost top = { λ w. T.Tally.top w.below };

    ghost spots = { λ w. T.Tally.spots w.below };

    ghost held = { λ w. T.Tally.held w.below };

    fn arrivals(&self) -> u32 {
        self.below.arrivals()
    }

    fn reach(&self) -> u32 {
        self.below.reach()
    }

    fn range(&self, key: T::Key) -> (u32, u32) {
        let below = self.below.range(key);
        let watched = same_key(self.key, key);
        pick(watched, is_whole(&self.below), self.seen, below)
    }

    // No range gets wider.
    fn width(&self) -> u32 {
        self.below.width()
    }

    // A watched key that is held nowhere has come at most as often as the ceiling below, too.
    #[tactic(auto, using(crate::proofs::Watching::watched_missed))]
    fn ceiling(&self) -> u32 {
        self.below.ceiling()
    }

    fn places(&self) -> usize {
        self.below.places()
    }

    fn key_at(&self, place: usize) -> Option<T::Key> {
        self.below.key_at(place)
    }

    fn note(&mut self, key: T::Key) -> Result<(), Refusal> {
        self.count(key)
    }

    fn clear(&mut self) {
        self.restart();
    }
}
