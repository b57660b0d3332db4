// What every other part speaks of: refusals by their numbers, shares of the traffic, and keys,
// of which there are two kinds, readers and badges.
#![tactic(auto)]

pub mod badge;
pub mod key;
pub mod reader;
pub mod refusal;
pub mod share;
#[cfg(test)]
mod tests;
