ghost use Rattle.std.specs.Prelude.{◌≡◌, ◌≤◌, List, [], ◌∷◌, ◌++◌, if◌then◌else◌, Ok, Err, MatchResult, OnOk, nat_lt};
ghost use Rattle.counttable.specs.Tables.{Noted, has_run, vouches};
ghost use Rattle.keys.specs.declared.refusal.Refusal.TheVariants.{RunFull};
ghost use Rattle.tally.specs.Owed.{most_arrivals};

use crate::table::CountTable;
use cells::note::note_in;
use keys::key::Key;
use keys::refusal::Refusal;

impl<'a, K: Key> CountTable<'a, K> {
    // Counts an arrival by the rule that it meets: it stands at the end of every list that the table
    // vouches for. Refused as run full, with everything as it was, at 100,000,000 arrivals.
    pub fn count(&mut self, key: K) -> Result<(), Refusal>
        ensures answer { result ≡ (if nat_lt self.old.run most_arrivals then Ok tt else Err RunFull) }
        ensures few { self.old.run ≤ most_arrivals }
        ensures noted { MatchResult result (λ _. Noted K.Key key self.old self.new) (λ _. self.new ≡ self.old) }
        ensures vouched { OnOk result ((xs : List K) → vouches K.Key self.old xs → vouches K.Key self.new (xs ++ key ∷ [])) }
        ensures ran { OnOk result ((xs : List K) → has_run K.Key self.old xs → has_run K.Key self.new (xs ++ key ∷ [])) }
    {
        self.run.add()?;
        let level = self.level;
        let rule = note_in(self.cells, level, key, ());
        self.level = rule.level_after(level);
        Ok(())
    }
}
