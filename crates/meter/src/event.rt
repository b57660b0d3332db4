ghost use Rattle.std.specs.Prelude.{◌≡◌, ◌||◌, if◌then◌else◌, Some, Ok, Err, ◌==◌};
ghost use Rattle.keys.specs.declared.refusal.Refusal.TheVariants.{RunFull};
ghost use Rattle.meter.specs.Book.{Agrees, Book, is_full};
ghost use Rattle.meter.specs.Runs.{KeepsBooks, Taken, are_full, event_rule};

use crate::call::Call;
use crate::state::Meter;
use keys::key::Key;
use keys::refusal::Refusal;
use tally::{MOST_ARRIVALS, Tally};

impl<'a, A: Key, B: Key, T: Tally<Key = A>> Meter<'a, A, B, T> {
    // Whether one of the two can count no further arrival; the book says the same.
    fn is_full(&self) -> bool
        ensures value { result ≡ are_full T.Tally self.now }
        ensures book { (b : Book A B) → Agrees A.Key B.Key T.Tally self.now (Some b) → result ≡ is_full b }
    {
        self.tally.arrivals() == MOST_ARRIVALS || self.table.arrivals() == MOST_ARRIVALS
    }

    // Tells an event to both, or to neither.
    pub(crate) fn event(&mut self, reader: A, badge: B) -> Result<(), Refusal>
        ensures answer { result ≡ event_rule A.Key B.Key T.Tally self.old }
        ensures after { Taken A.Key B.Key T.Tally (event_rule A.Key B.Key T.Tally self.old) reader badge self.old self.new }
        ensures kept { KeepsBooks A.Key B.Key T.Tally self.old (Call.Event reader badge) self.new }
        ensures book { (b : Book A B) → Agrees A.Key B.Key T.Tally self.old (Some b) → result ≡ (if is_full b then Err RunFull else Ok tt) }
    {
        if self.is_full() {
            return Err(Refusal::RunFull);
        }
        self.tally.note(reader)?;
        self.table.note(reader, badge)?;
        Ok(())
    }
}
