// Listings: which readers of a tally pass a share, and which badges of a badge table fill such a
// reader's traffic, as rows on a page or in memory of their own.
#![tactic(auto)]

pub mod badge_listing;
mod badges;
pub mod reader_listing;
mod readers;
mod room;
pub mod row;
#[cfg(test)]
mod tests;
