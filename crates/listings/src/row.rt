// A listed reader: its record, and its range.
#[derive(Clone, Copy, Debug, PartialEq, Eq)]
pub struct ReaderRow<R> {
    pub key: R,
    pub low: u32,
    pub high: u32,
}

// A listed badge at a reader: both records, and the badge's range there.
// Kept beside the other row: one generic row would name neither a reader nor a badge.
#[derive(Clone, Copy, Debug, PartialEq, Eq)]
pub struct BadgeRow<R, S> {
    pub reader: R,
    pub badge: S,
    pub low: u32,
    pub high: u32,
}
