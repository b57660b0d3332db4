// Layers over any tally; any pile of them is a tally.
#![tactic(auto)]

pub mod trim;
pub mod watch;
