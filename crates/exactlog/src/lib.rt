// The exact log: a tally that keeps its latest arrivals, and so counts them exactly.
#![tactic(auto)]

pub mod as_tally;
pub mod count;
pub mod log;
pub mod open;
mod places;
mod records;
#[cfg(test)]
mod tests;
