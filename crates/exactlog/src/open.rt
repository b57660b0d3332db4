ghost use Rattle.std.specs.Prelude.{◌≡◌, [], length, if◌then◌else◌, Ok, Err, MatchResult, OnOk};
ghost use Rattle.exactlog.specs.ExactLog.{IsEmpty, vouches};
ghost use Rattle.exactlog.specs.Logs.{most_kept};
ghost use Rattle.tally.specs.Plans.{plan_fits};
ghost use Rattle.keys.specs.declared.refusal.Refusal.TheVariants.{MisfitPlan};

use crate::log::{ExactLog, MOST_KEPT};
use keys::key::Key;
use keys::refusal::Refusal;
use tally::plan::fits;
use tally::run::Run;

impl<'a, K: Key> ExactLog<'a, K> {
    // Holds an area, as it is, for a log that is still to be opened. Each table says this of its own area,
    // and the answers of `open` and of a count by equations: what each call answers, and no fact of a value.
    pub fn over(area: &'a mut [K::Record]) -> Self
        ensures area { (result.area.now ≡ area.old) × (result.area.ghost_name ≡ area.entry.ghost_name) }
        ensures start { IsEmpty result }
    {
        ExactLog {
            area,
            next: 0,
            run: Run::new(),
        }
    }

    // Forgets all arrivals. What lies in the area stays, and counts no more.
    pub fn empty(&mut self)
        ensures area { self.new.area ≡ self.old.area }
        ensures start { IsEmpty self.new }
        ensures logged { vouches K.Key self.new [] }
    {
        self.next = 0;
        self.run = Run::new();
    }

    // Opens an empty log of the latest w arrivals. Refused as a misfit plan, with everything as it
    // was, where w is not 1 to 65,536, or the area has another number of records. Kept beside the count
    // table's `open`: what both share is `fits`, and each empties an area of its own.
    pub fn open(&mut self, w: usize) -> Result<(), Refusal>
        ensures answer { result ≡ (if plan_fits most_kept w (length self.old.area.now) then Ok tt else Err MisfitPlan) }
        ensures area { self.new.area ≡ self.old.area }
        ensures start { MatchResult result (λ _. IsEmpty self.new) (λ _. self.new ≡ self.old) }
        ensures logged { OnOk result (vouches K.Key self.new []) }
    {
        if !fits(MOST_KEPT, w, self.area.len()) {
            return Err(Refusal::MisfitPlan);
        }
        self.empty();
        Ok(())
    }
}
