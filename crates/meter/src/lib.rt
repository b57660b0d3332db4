// The meter: one tally of readers and one table of badges by reader, side by side. Of a tally it sees
// the interface's promise alone.
#![tactic(auto)]

mod answer;
mod call;
mod event;
mod query;
mod report;
mod run;
mod state;
pub mod verdict;
