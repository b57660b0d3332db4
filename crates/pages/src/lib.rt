// Listings onto pages: what has places with rows, and how their rows are counted, written onto a
// caller's page, or gathered.
#![tactic(auto)]

pub mod list;
pub mod source;
#[cfg(test)]
mod tests;
