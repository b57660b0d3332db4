ghost use Rattle.std.specs.Prelude.{Some};
ghost use Rattle.report.specs.Texts.{badge_line, first_line, judged_line};

use keys::badge::Badge;
use listings::row::{BadgeRow, ReaderRow};
use meter::verdict::Verdict;
use std::fmt;

// The first line of a report: n and T. Kept beside the counts of `flowreport`, which does not use this
// crate before it prints listings.
#[derive(Clone, Copy, Debug, PartialEq, Eq)]
pub(crate) struct Head {
    pub(crate) n: u32,
    pub(crate) t: u32,
}

impl fmt::Display for Head {
    ghost output = { λ head. Some (first_line head.n head.t) };

    fn fmt<W: fmt::Write>(&self, f: &mut fmt::Formatter<W>) -> fmt::Result {
        write!(f, "report {} {}\n", self.n, self.t)
    }
}

// The line of a listed reader, with the verdict on it.
#[derive(Clone, Copy)]
pub(crate) struct ReaderLine {
    pub(crate) row: ReaderRow<u16>,
    pub(crate) verdict: Verdict,
}

impl fmt::Display for ReaderLine {
    ghost output = { λ line. Some (judged_line line.row line.verdict) };

    fn fmt<W: fmt::Write>(&self, f: &mut fmt::Formatter<W>) -> fmt::Result {
        let ReaderRow { key, low, high } = self.row;
        let verdict = self.verdict;
        write!(f, "reader {key} {low} {high} {verdict}\n")
    }
}

// The line of a listed badge.
#[derive(Clone, Copy)]
pub(crate) struct BadgeLine(pub(crate) BadgeRow<u16, Badge>);

impl fmt::Display for BadgeLine {
    ghost output = { λ line. Some (badge_line line.0) };

    fn fmt<W: fmt::Write>(&self, f: &mut fmt::Formatter<W>) -> fmt::Result {
        let BadgeRow {
            reader,
            badge: Badge { site, card },
            low,
            high,
        } = self.0;
        write!(f, "badge {reader} {site} {card} {low} {high}\n")
    }
}
