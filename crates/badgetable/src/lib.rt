// Badges by reader: which badges fill a reader's traffic. A table of readers by the count table's
// rules, each row of which has a small count table of the badges that were shown there.
#![tactic(auto)]

pub mod note;
pub mod open;
pub mod query;
mod row;
pub mod table;
#[cfg(test)]
mod tests;
pub mod view;
