ghost use Rattle.std.specs.Prelude.{◌≡◌, Some, decimal};
ghost use Rattle.keys.specs.Refusals.{number_of};
ghost use Rattle.keys.specs.declared.refusal.Refusal.{Refusal};

use std::error::Error;
use std::fmt;

// Why a call was turned away, by its number. A refused call changes nothing.
#[derive(Clone, Copy, Debug, PartialEq, Eq, PartialOrd, Ord)]
pub enum Refusal {
    // The first two bytes are no mark.
    StrangeMark = 1,
    // Fewer bytes than two, or than the mark needs.
    CutShort = 2,
    // Reader number 0.
    NoReader = 3,
    // A badge frame that is not well formed.
    MisreadBadge = 4,
    // A share outside its limits.
    ImpossibleShare = 5,
    // A plan number outside its limits, or an area of another length than the plan needs.
    MisfitPlan = 6,
    // No further arrival can be counted.
    RunFull = 7,
    // A listing at this share could miss a key.
    TooFine = 8,
    // More to write than the page holds.
    PageShort = 9,
}

impl Refusal {
    // The number by which the refusal is told; no two refusals share one.
    pub fn number(self) -> u8
        ensures value { result ≡ number_of self }
        ensures alone { (other : Refusal) → number_of other ≡ result → other ≡ self }
    {
        self as u8
    }
}

// A refusal is told by its number.
impl fmt::Display for Refusal {
    ghost output = { λ r. Some (decimal (number_of r)) };

    fn fmt<W: fmt::Write>(&self, f: &mut fmt::Formatter<W>) -> fmt::Result {
        write!(f, "{}", self.number())
    }
}

impl Error for Refusal {}
