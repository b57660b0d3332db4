ghost use Rattle.std.specs.Prelude.{◌≡◌};
ghost use Rattle.flowreport.specs.Flows.{answered, counted, reported};

use keys::refusal::Refusal;
use keys::share::{Fraction, Share};
use records::record::Record;
use tally::run::Run;

// How many of the latest events are within reach: eight panes of 64.
const REACH: u32 = 512;

// What a report begins with: the events since the latest clear, and how many are within reach.
// Kept beside the head of the crate `report`, which tells of listings that are not printed yet.
#[derive(Clone, Copy, Debug, PartialEq, Eq)]
pub(crate) struct Counts {
    pub(crate) n: u32,
    pub(crate) t: u32,
}

// What a record is answered: the counts that a report asks for, or the refusal.
pub(crate) type Answer = Result<Option<Counts>, Refusal>;

// The events taken since the latest clear.
#[derive(Drop)]
pub(crate) struct Flow {
    run: Run,
}

fn report(n: u32, readers: Fraction, badges: Fraction) -> Answer
    ensures { result ≡ reported n readers badges }
{
    Share::try_from(readers)?;
    Share::try_from(badges)?;
    Ok(Some(Counts { n, t: n.min(REACH) }))
}

impl Flow {
    pub(crate) fn new() -> Flow
        ensures { result.run ≡ 0 }
    {
        Flow { run: Run::new() }
    }

    // Takes a record, and answers it.
    pub(crate) fn take(&mut self, heard: Record) -> Answer
        ensures answer { result ≡ answered self.old.run heard }
        ensures after { self.new.run ≡ counted self.old.run heard }
    {
        match heard {
            Record::Event(_, _) => {
                self.run.add()?;
                Ok(None)
            }
            Record::Report(readers, badges) => report(self.run.arrivals(), readers, badges),
            Record::Clear => {
                self.run = Run::new();
                Ok(None)
            }
        }
    }
}
