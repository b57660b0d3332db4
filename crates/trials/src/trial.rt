ghost use Rattle.std.specs.Prelude.{◌≡◌, ◌≤◌, List, [], ◌∷◌, ◌++◌, IfOk, MatchResult, Some, codes, decimal};

use crate::shuffle::Shuffle;
use keys::refusal::Refusal;
use std::alloc::{AllocError, Global};
use std::fmt;

// What is tried. What it means is the set of arrival lists that it vouches for.
pub trait Trial {
    type Arrival: Copy;

    // Which lists of arrivals, oldest first, it vouches for.
    ghost vouches: { Self → List Self.Arrival → Type 0 };

    // The arrival that a pseudo-random number stands for, if it stands for one.
    fn arrival(number: u32) -> Option<Self::Arrival>;

    // Puts an arrival at the end of every list vouched for; a refusal leaves it as it was.
    fn note(&mut self, arrival: Self::Arrival) -> Result<(), Refusal>
        ensures { MatchResult result (λ _. (xs : List Self.Arrival) → vouches self.old xs → vouches self.new (xs ++ arrival ∷ [])) (λ _. self.new ≡ self.old) };

    // How many of its answers are false of all arrivals: none, of a list that it vouches for.
    fn count_wrong(&self, history: &[Self::Arrival]) -> u32
        ensures { vouches self.now history.now → result ≡ 0 };
}

// How a trial went: how many arrivals were noted, and how many answers were wrong.
#[derive(Clone, Copy, Debug, PartialEq, Eq)]
pub struct Outcome {
    pub arrivals: usize,
    pub wrong: u32,
}

impl fmt::Display for Outcome {
    ghost output = { λ o. Some (decimal o.arrivals ++ (codes " arrivals, " ++ (decimal o.wrong ++ codes " answers wrong"))) };

    fn fmt<W: fmt::Write>(&self, f: &mut fmt::Formatter<W>) -> fmt::Result {
        write!(
            f,
            "{} arrivals, {} answers wrong",
            self.arrivals, self.wrong
        )
    }
}

// Runs a trial over so many pseudo-random numbers, and compares its answers after each with a plain
// list of all arrivals. One that vouches for the empty list gives no wrong answer. Kept as a loop with its
// sum: each turn changes the trial and the list, and may find no memory.
pub fn run<T: Trial>(
    trial: &mut T,
    seed: u32,
    turns: usize,
    heap: Global,
) -> Result<Outcome, AllocError>
    ensures few { IfOk result (λ o. o.arrivals ≤ turns) }
    ensures right { T.vouches trial.old [] → IfOk result (λ o. o.wrong ≡ 0) }
{
    let mut history = Vec::new(heap);
    let mut wrong: u32 = 0;
    for number in Shuffle::new(seed).take(turns) {
        if let Some(arrival) = T::arrival(number) {
            if trial.note(arrival).is_ok() {
                history.push(arrival)?;
            }
        }
        wrong = wrong.saturating_add(trial.count_wrong(history.as_slice()));
    }
    Ok(Outcome {
        arrivals: history.len(),
        wrong,
    })
}
