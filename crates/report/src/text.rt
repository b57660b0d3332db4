ghost use Rattle.std.specs.Prelude.{◌≡◌, IfOk, string_bytes};
ghost use Rattle.report.specs.Texts.{report_text};

use crate::line::{BadgeLine, Head, ReaderLine};
use keys::badge::Badge;
use keys::share::Fraction;
use listings::row::{BadgeRow, ReaderRow};
use meter::verdict::Verdict;
use std::alloc::{AllocError, Global};

// The whole text of a report, whose verdicts are those at a share of T.
pub(crate) fn text_of(
    heap: Global,
    head: Head,
    share: Fraction,
    readers: &[ReaderRow<u16>],
    badges: &[BadgeRow<u16, Badge>],
) -> Result<String, AllocError>
    ensures { IfOk result (λ s. string_bytes s ≡ report_text head.n head.t share.p share.q readers.now badges.now) }
{
    let mut text = format!(in heap; "{head}")?;
    for &row in readers {
        let verdict = Verdict::on(share, head.t, (row.low, row.high));
        write!(text, "{}", ReaderLine { row, verdict })?;
    }
    for &badge in badges {
        write!(text, "{}", BadgeLine(badge))?;
    }
    text.push_str("end\n")?;
    Ok(text)
}
