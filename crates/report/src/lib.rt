// The report's text: lines of numbers and words for what a report tells.
#![tactic(auto)]

mod line;
mod text;
