// The count table: a tally of the whole run in k cells, by the method of Misra and Gries.
#![tactic(auto)]

pub mod as_tally;
pub mod count;
pub mod open;
pub mod table;
#[cfg(test)]
mod tests;
