ghost use Rattle.std.specs.Prelude.{◌≡◌, ◌≤◌, ◌<◌, List, [], ◌∷◌, ◌++◌, length, if◌then◌else◌, Ok, Err, MatchResult, nat_lt};
ghost use Rattle.badgetable.specs.Rows.{swept};
ghost use Rattle.badgetable.specs.Tables.{Entered, Kept, Noted, accounts_for, arrivals_in, cell_count};
ghost use Rattle.cells.specs.Rules.{Within};
ghost use Rattle.cells.specs.declared.rule.Rule.TheVariants.{Count};
ghost use Rattle.keys.specs.declared.refusal.Refusal.TheVariants.{RunFull};
ghost use Rattle.tally.specs.Owed.{most_arrivals};

use crate::row::{badge_level, with_badge_level};
use crate::table::BadgeTable;
use cells::note::note_in;
use cells::rule::Rule;
use keys::key::Key;
use keys::refusal::Refusal;
use parts::part::{empty_part, note_part};

impl<'a, A: Key, B: Key> BadgeTable<'a, A, B> {
    // Enters a badge in the badge table of row i.
    fn show(&mut self, i: usize, badge: B)
        requires { i < length self.old.rows.now }
        ensures { Entered B.Key badge (Count i) self.old self.new }
    {
        let j = self.cells_a_row();
        let row = self.rows[i];
        let level = note_part(self.cells, j, i, badge_level(row), badge);
        self.rows[i] = with_badge_level(row, level);
    }

    // Frees the badge cells of all free rows.
    fn sweep(&mut self)
        ensures rows { self.new.rows.now ≡ self.old.rows.now }
        ensures cells { self.new.cells.now ≡ swept (cell_count self.old) 0 self.old.rows.now self.old.cells.now }
        ensures kept { Kept self.old self.new }
    {
        let j = self.cells_a_row();
        // Kept by index: tried over `self.rows.iter()`, which the borrow checker does not cover where
        // the rows are lent in a field.
        for i in 0..self.rows.len() {
            if self.rows[i].is_none() {
                empty_part::<B>(self.cells, j, i);
            }
        }
    }

    // What the rule that an arrival met does with its badge. A match, since a rule is data.
    fn follow(&mut self, rule: Rule, badge: B)
        requires { Within (length self.old.rows.now) rule }
        ensures { Entered B.Key badge rule self.old self.new }
    {
        match rule {
            Rule::Count(i) => self.show(i, badge),
            Rule::Enter(i) => {
                let j = self.cells_a_row();
                empty_part::<B>(self.cells, j, i);
                self.show(i, badge);
            }
            Rule::Raise => self.sweep(),
        }
    }

    // Counts an arrival of a reader with a badge: it stands at the end of every list that the table
    // accounts for. Refused as run full, with everything as it was, at 100,000,000 arrivals. A reader and a
    // badge are kept as two arguments, here and above: two kinds of key, which a list alone holds as one.
    pub fn note(&mut self, reader: A, badge: B) -> Result<(), Refusal>
        ensures answer { result ≡ (if nat_lt (arrivals_in self.old) most_arrivals then Ok tt else Err RunFull) }
        ensures few { arrivals_in self.old ≤ most_arrivals }
        ensures after { MatchResult result (λ _. Noted A.Key B.Key reader badge self.old self.new) (λ _. self.new ≡ self.old) }
        ensures accounts { MatchResult result (λ _. (ps : List (A × B)) → accounts_for A.Key B.Key self.old ps → accounts_for A.Key B.Key self.new (ps ++ ((reader, badge) ∷ []))) (λ _. self.new ≡ self.old) }
    {
        self.run.add()?;
        let rule = note_in(self.rows, self.level, reader, 0);
        self.level = rule.level_after(self.level);
        self.follow(rule, badge);
        Ok(())
    }
}
