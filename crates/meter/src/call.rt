use crate::verdict::Verdict;
use keys::refusal::Refusal;
use keys::share::Fraction;
use listings::row::{BadgeRow, ReaderRow};

// What the meter is asked to do.
#[derive(Clone, Copy, Debug, PartialEq, Eq)]
pub enum Call<A, B> {
    // A badge is shown to a reader.
    Event(A, B),
    // Everything is forgotten.
    Clear,
    // The range of a reader, by the tally.
    ReaderRange(A),
    // The range of a badge at a reader, by the badge table.
    BadgeRange(A, B),
    // Whether a reader is above a share.
    Judge(A, Fraction),
    // Which readers are above a share.
    ListReaders(Fraction),
    // Which badges are above a share at readers above a share.
    ListBadges(Fraction, Fraction),
    // Both listings at one moment.
    Report(Fraction, Fraction),
}

// What a call is answered.
#[derive(Drop)]
pub enum Answer<R, S> {
    // An event was taken, or everything was forgotten.
    Done,
    // A low and a high end, as tallies and tables tell them. Kept as a pair: the interface has it so, and
    // a type of its own would be taken apart by all who read it.
    Range((u32, u32)),
    Judged(Verdict),
    Readers(Vec<ReaderRow<R>>),
    Badges(Vec<BadgeRow<R, S>>),
    Reported(Report<R, S>),
}

// What a call is told: its answer, or why it was turned away. Memory that runs out is no refusal: it
// ends a run, and stands apart.
pub type Told<R, S> = Result<Answer<R, S>, Refusal>;

// A report: the tally's n and T, and both listings.
#[derive(Drop)]
pub struct Report<R, S> {
    pub arrivals: u32,
    pub latest: u32,
    pub readers: Vec<ReaderRow<R>>,
    pub badges: Vec<BadgeRow<R, S>>,
}

// How many rows a listing may have: the room of a page for readers, and of one for badges. The heap is
// handed on beside it: it is a handle, and no limit.
#[derive(Clone, Copy, Debug, PartialEq, Eq)]
pub struct Rooms {
    pub readers: usize,
    pub badges: usize,
}
