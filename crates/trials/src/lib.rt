// Trials over long pseudo-random arrivals, beside a plain list of all of them.
#![tactic(auto)]

pub mod range;
pub mod shuffle;
#[cfg(test)]
mod tests;
pub mod trial;
