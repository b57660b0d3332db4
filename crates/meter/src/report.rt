ghost use Rattle.std.specs.Prelude.{◌≡◌, IfOk, vec_items};
ghost use Rattle.keys.specs.Refusals.{told};
ghost use Rattle.meter.specs.Runs.{IsRight, Reply, joined, reply_to, report_rule, with_counts};

use crate::call::{Answer, Call, Report, Rooms, Told};
use crate::query::ask_all;
use crate::state::Meter;
use keys::key::Key;
use keys::refusal::Refusal;
use keys::share::Fraction;
use listings::badge_listing::gather_badges;
use listings::reader_listing::gather_readers;
use listings::row::{BadgeRow, ReaderRow};
use std::alloc::{AllocError, Global};
use tally::Tally;

// Both listings as one report, or the first of their refusals. Its two numbers are the tally's n and T,
// which only a report holds together.
fn join<R: Copy, S: Copy>(
    readers: Result<Vec<ReaderRow<R>>, Refusal>,
    badges: Result<Vec<BadgeRow<R, S>>, Refusal>,
    arrivals: u32,
    latest: u32,
) -> Told<R, S>
    ensures { reply_to result ≡ told Reply.reported (with_counts arrivals latest (joined (told vec_items readers) (told vec_items badges))) }
{
    match (readers, badges) {
        (Ok(readers), Ok(badges)) => Ok(Answer::Reported(Report {
            arrivals,
            latest,
            readers,
            badges,
        })),
        (Err(refusal), Err(other)) => Err(refusal.min(other)),
        (Err(refusal), Ok(_)) | (Ok(_), Err(refusal)) => Err(refusal),
    }
}

impl<'a, A: Key, B: Key, T: Tally<Key = A>> Meter<'a, A, B, T> {
    // Answers a report, rightly of every book that agrees.
    pub(crate) fn answer_report(
        &self,
        readers: Fraction,
        badges: Fraction,
        rooms: Rooms,
        heap: Global,
    ) -> Result<Told<A::Record, B::Record>, AllocError>
        ensures told { IfOk result (λ a. reply_to a ≡ told Reply.reported (report_rule A.Key B.Key T.Tally rooms self.now readers badges)) }
        ensures right { IfOk result (IsRight A.Key B.Key T.Tally self.now (Call.Report readers badges)) }
    {
        ask_all(&self.tally);
        let listed = gather_readers(&self.tally, readers, rooms.readers, heap)?;
        let shown = gather_badges(&self.table, readers, badges, rooms.badges, heap)?;
        Ok(join(listed, shown, self.tally.arrivals(), self.tally.within()))
    }
}
