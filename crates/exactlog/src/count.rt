ghost use Rattle.std.specs.Prelude.{◌≡◌, ◌≤◌, List, [], ◌∷◌, ◌++◌, if◌then◌else◌, Ok, Err, MatchResult, OnOk, nat_lt};
ghost use Rattle.exactlog.specs.ExactLog.{Noted, SameArea, reach_of, vouches};
ghost use Rattle.exactlog.specs.Logs.{kept};
ghost use Rattle.keys.specs.declared.refusal.Refusal.TheVariants.{RunFull};
ghost use Rattle.tally.specs.Owed.{most_arrivals};

use crate::log::{ExactLog, MOST_KEPT};
use crate::places::{after, write_at};
use keys::key::Key;
use keys::refusal::Refusal;

impl<'a, K: Key> ExactLog<'a, K> {
    // How many arrivals the area keeps.
    pub(crate) fn size(&self) -> usize
        ensures value { result ≡ reach_of self.now }
        ensures bound { result ≤ 65536 }
    {
        self.area.len().min(MOST_KEPT)
    }

    // Notes an arrival at the next place. Refused as run full, with everything as it was, at
    // 100,000,000 arrivals.
    pub fn count(&mut self, key: K) -> Result<(), Refusal>
        ensures answer { result ≡ (if nat_lt self.old.run most_arrivals then Ok tt else Err RunFull) }
        ensures few { self.old.run ≤ most_arrivals }
        ensures noted { MatchResult result (λ _. Noted (K.Key.lies key) self.old self.new) (λ _. self.new ≡ self.old) }
        ensures logged { OnOk result ((xs : List K) → vouches K.Key self.old xs → vouches K.Key self.new (xs ++ key ∷ [])) }
        ensures same { SameArea self.old self.new }
    {
        self.run.add()?;
        let size = self.size();
        write_at(self.area, size, self.next, key.record());
        self.next = after(self.next, size);
        Ok(())
    }

    // The records of the arrivals within reach, as they lie in the area.
    pub(crate) fn records(&self) -> &[K::Record]
        ensures { result.now ≡ kept self.now.run self.now.area.now }
    {
        let held = (self.run.arrivals() as usize).min(self.size());
        &self.area[..held]
    }
}
