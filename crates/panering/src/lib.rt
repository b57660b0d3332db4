// The pane ring: a tally of the latest arrivals, in panes that are count tables.
#![tactic(auto)]

pub mod as_tally;
pub mod count;
pub mod open;
mod query;
pub mod ring;
pub mod shape;
mod sum;
#[cfg(test)]
mod tests;
