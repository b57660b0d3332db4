ghost use Rattle.std.specs.Prelude.{◌≡◌, ℕ, ◌+◌, ◌≤◌, if◌then◌else◌, Ok, Err, OnErr, nat_lt};
ghost use Rattle.keys.specs.declared.refusal.Refusal.TheVariants.{RunFull};
ghost use Rattle.tally.specs.Owed.{most_arrivals};

use crate::MOST_ARRIVALS;
use keys::refusal::Refusal;
use std::marker::Model;

// A run: the arrivals since the latest clear, as far as they can be counted.
#[derive(Clone, Copy, Debug, PartialEq, Eq)]
pub struct Run {
    arrivals: u32,
}

// A contract sees a run as its number of arrivals. The bound stands here and not in a ghost field: tables
// that borrow their cells hold a run, and with a ghost field in it the borrow checker would not cover
// a function that names a layer over such a table.
impl Model for Run {
    ghost Value = { ℕ };

    ghost view = { λ run. run.arrivals };

    ghost inverse = { λ n. record { arrivals = n } };

    ghost invariant = { λ run. run.arrivals ≤ most_arrivals };
}

impl Run {
    // A run of no arrivals.
    pub fn new() -> Run
        ensures { result ≡ 0 }
    {
        Run { arrivals: 0 }
    }

    // n: how many arrivals the run has.
    pub fn arrivals(self) -> u32
        ensures value { result ≡ self }
        ensures few { result ≤ most_arrivals }
    {
        self.arrivals
    }

    // One arrival more. Refused as run full, with the run as it was, at 100,000,000 arrivals.
    pub fn add(&mut self) -> Result<(), Refusal>
        ensures answer { result ≡ (if nat_lt self.old most_arrivals then Ok tt else Err RunFull) }
        ensures few { self.old ≤ most_arrivals }
        ensures refused { OnErr result (self.new ≡ self.old) }
        ensures after { self.new ≡ (if nat_lt self.old most_arrivals then self.old + 1 else self.old) }
    {
        if self.arrivals >= MOST_ARRIVALS {
            return Err(Refusal::RunFull);
        }
        *self = Run {
            arrivals: self.arrivals + 1,
        };
        Ok(())
    }
}
