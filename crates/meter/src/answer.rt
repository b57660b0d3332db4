ghost use Rattle.std.specs.Prelude.{◌≡◌, IfOk, Ok, MatchResult};
ghost use Rattle.badgetable.specs.Tables.{badge_ends_of};
ghost use Rattle.keys.specs.Refusals.{told};
ghost use Rattle.listings.specs.Listings.{badges_at, readers_at};
ghost use Rattle.meter.specs.Runs.{Answered, Cleared, IsRight, KeepsBooks, Reply, RightByTable, RightByTally, Taken, event_rule, reply_to, verdict_rule};

use crate::call::{Answer, Call, Rooms, Told};
use crate::query::{ask_all, judge};
use crate::state::Meter;
use keys::key::Key;
use keys::share::Fraction;
use listings::badge_listing::gather_badges;
use listings::reader_listing::gather_readers;
use std::alloc::{AllocError, Global};
use tally::Tally;

// Each call has a function of its own, since what makes its answer right differs: the tally's promise,
// or the table's.
impl<'a, A: Key, B: Key, T: Tally<Key = A>> Meter<'a, A, B, T> {
    // Answers the reader listing, rightly of every list that the tally vouches for.
    fn answer_readers(
        &self,
        share: Fraction,
        room: usize,
        heap: Global,
    ) -> Result<Told<A::Record, B::Record>, AllocError>
        ensures told { IfOk result (λ a. reply_to a ≡ told Reply.readers (readers_at A.Key T.Tally self.now.tally share room)) }
        ensures right { IfOk result (RightByTally A.Key B.Key T.Tally self.now (Call.ListReaders share)) }
    {
        ask_all(&self.tally);
        // By cases, since `map` takes no function whose result names a type that its argument does not.
        match gather_readers(&self.tally, share, room, heap)? {
            Ok(rows) => Ok(Ok(Answer::Readers(rows))),
            Err(refusal) => Ok(Err(refusal)),
        }
    }

    // Answers the badge listing, rightly of every list that the table accounts for.
    fn answer_badges(
        &self,
        readers: Fraction,
        badges: Fraction,
        room: usize,
        heap: Global,
    ) -> Result<Told<A::Record, B::Record>, AllocError>
        ensures told { IfOk result (λ a. reply_to a ≡ told Reply.badges (badges_at self.now.table readers badges room)) }
        ensures right { IfOk result (RightByTable A.Key B.Key T.Tally self.now (Call.ListBadges readers badges)) }
    {
        let rows = gather_badges(&self.table, readers, badges, room, heap)?;
        Ok(rows.map(Answer::Badges))
    }

    // Answers the range of a reader, by the tally.
    fn answer_range(&self, reader: A) -> Told<A::Record, B::Record>
        ensures told { reply_to result ≡ Ok (Reply.range (T.Tally.low self.now.tally reader, T.Tally.high self.now.tally reader)) }
        ensures right { RightByTally A.Key B.Key T.Tally self.now (Call.ReaderRange reader) result }
    {
        ask_all(&self.tally);
        Ok(Answer::Range(self.tally.range(reader)))
    }

    // Answers a verdict, by the tally.
    fn answer_verdict(&self, reader: A, share: Fraction) -> Told<A::Record, B::Record>
        ensures told { reply_to result ≡ told Reply.judged (verdict_rule T.Tally share.p share.q self.now.tally reader) }
        ensures right { RightByTally A.Key B.Key T.Tally self.now (Call.Judge reader share) result }
    {
        ask_all(&self.tally);
        Ok(Answer::Judged(judge(&self.tally, reader, share)?))
    }

    // Answers the range of a badge at a reader, by the table.
    fn answer_badge_range(&self, reader: A, badge: B) -> Told<A::Record, B::Record>
        ensures told { reply_to result ≡ Ok (Reply.range (badge_ends_of A.Key B.Key self.now.table reader badge)) }
        ensures right { RightByTable A.Key B.Key T.Tally self.now (Call.BadgeRange reader badge) result }
    {
        Ok(Answer::Range(self.table.badge_range(reader, badge)))
    }

    // Tells an event to both, or to neither, rightly of every book that agrees.
    fn answer_event(&mut self, reader: A, badge: B) -> Told<A::Record, B::Record>
        ensures told { reply_to result ≡ told (λ _. Reply.done) (event_rule A.Key B.Key T.Tally self.old) }
        ensures after { Taken A.Key B.Key T.Tally (event_rule A.Key B.Key T.Tally self.old) reader badge self.old self.new }
        ensures kept { KeepsBooks A.Key B.Key T.Tally self.old (Call.Event reader badge) self.new }
        ensures right { IsRight A.Key B.Key T.Tally self.old (Call.Event reader badge) result }
    {
        self.event(reader, badge)?;
        Ok(Answer::Done)
    }

    // Forgets everything, in both, likewise.
    fn answer_clear(&mut self) -> Told<A::Record, B::Record>
        ensures told { reply_to result ≡ Ok Reply.done }
        ensures after { Cleared A.Key B.Key T.Tally self.old self.new }
        ensures right { IsRight A.Key B.Key T.Tally self.old Call.Clear result }
        ensures kept { KeepsBooks A.Key B.Key T.Tally self.old Call.Clear self.new }
    {
        self.tally.clear();
        self.table.clear();
        Ok(Answer::Done)
    }

    // Answers one call.
    pub(crate) fn answer(
        &mut self,
        call: Call<A, B>,
        rooms: Rooms,
        heap: Global,
    ) -> Result<Told<A::Record, B::Record>, AllocError>
        ensures told { IfOk result (λ a. Answered A.Key B.Key T.Tally rooms self.old call a self.new) }
        ensures right { IfOk result (IsRight A.Key B.Key T.Tally self.old call) }
        ensures kept { MatchResult result (λ _. KeepsBooks A.Key B.Key T.Tally self.old call self.new) (λ _. self.new ≡ self.old) }
    {
        match call {
            Call::Event(reader, badge) => Ok(self.answer_event(reader, badge)),
            Call::Clear => Ok(self.answer_clear()),
            Call::ReaderRange(reader) => Ok(self.answer_range(reader)),
            Call::BadgeRange(reader, badge) => Ok(self.answer_badge_range(reader, badge)),
            Call::Judge(reader, share) => Ok(self.answer_verdict(reader, share)),
            Call::ListReaders(share) => self.answer_readers(share, rooms.readers, heap),
            Call::ListBadges(readers, badges) => {
                self.answer_badges(readers, badges, rooms.badges, heap)
            }
            Call::Report(readers, badges) => self.answer_report(readers, badges, rooms, heap),
        }
    }
}
