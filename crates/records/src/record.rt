use keys::badge::Badge;
use keys::reader::Reader;
use keys::share::Fraction;

// What the core hears.
#[derive(Clone, Copy, Debug, PartialEq, Eq)]
pub enum Record {
    // A badge was shown at a reader.
    Event(Reader, Badge),
    // A report is asked for: a share for readers, and one for badges, as they came.
    Report(Fraction, Fraction),
    // All counts start anew.
    Clear,
}
