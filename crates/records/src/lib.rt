// What the core hears, as bytes: events, reports and clears, and the badge frames in events.
#![tactic(auto)]

mod field;
pub mod frame;
pub mod mark;
pub mod read;
pub mod record;
#[cfg(test)]
mod tests;
