use crate::row::ReaderRow;
use keys::key::Key;
use keys::refusal::Refusal;
use keys::share::{Fraction, Share};
use pages::source::Source;
use tally::Tally;

// What the reader listing goes through: the tally's places, at a share of T.
#[derive(Drop)]
pub(crate) struct Chosen<'t, A: Key, T: Tally<Key = A>> {
    tally: &'t T,
    share: Share,
}

impl<'t, A: Key, T: Tally<Key = A>> Chosen<'t, A, T> {
    ghost use Rattle.std.specs.Prelude.{◌≡◌, Ok};
    ghost use Rattle.keys.specs.Refusals.{told};
    ghost use Rattle.listings.specs.Listings.{passed, reader_gate, reader_rows};

    // A tally at a share at which no key held nowhere could be above, or the refusal.
    pub(crate) fn at(tally: &'t T, share: Fraction) -> Result<Self, Refusal>
        ensures { told (λ c. reader_rows A.Key T.Tally c.tally.now c.share.p c.share.q) result ≡ passed (reader_gate A.Key T.Tally tally.now share.p share.q) (Ok (reader_rows A.Key T.Tally tally.now share.p share.q)) }
    {
        let share = Share::try_from(share)?;
        if share.passed_by(tally.ceiling(), tally.within()) {
            return Err(Refusal::TooFine);
        }
        Ok(Chosen { tally, share })
    }
}

impl<'t, A: Key, T: Tally<Key = A>> Source for Chosen<'t, A, T> {
    ghost use Rattle.listings.specs.Listings.{row_held};

    type Row = ReaderRow<A::Record>;

    ghost size = { λ c. T.Tally.spots c.tally.now };

    ghost row = { λ c i. row_held A.Key T.Tally c.tally.now c.share.p c.share.q i (T.Tally.held c.tally.now i) };

    fn places(&self) -> usize {
        self.tally.places()
    }

    fn row_at(&self, place: usize) -> Option<ReaderRow<A::Record>> {
        let key = self.tally.key_at(place)?;
        let (low, high) = self.tally.range(key);
        let passes = self.share.passed_by(high, self.tally.within());
        let is_named = passes && !self.tally.is_held_before(key, place);
        is_named.then_some(ReaderRow {
            key: key.record(),
            low,
            high,
        })
    }
}
