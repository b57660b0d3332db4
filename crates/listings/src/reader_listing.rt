ghost use Rattle.std.specs.Prelude.{◌≡◌, length, IfOk, vec_items};
ghost use Rattle.keys.specs.Refusals.{told};
ghost use Rattle.listings.specs.Listings.{readers_at, written};
ghost use Rattle.pages.specs.Listed.{counted};

use crate::readers::Chosen;
use crate::room::gather_within;
use crate::row::ReaderRow;
use keys::key::Key;
use keys::refusal::Refusal;
use keys::share::Fraction;
use pages::list::list;
use std::alloc::{AllocError, Global};
use tally::Tally;

// Writes the reader listing at a share over the first rows of a page, and tells how many there are.
// Refused, with the page as it was, for an impossible share, then where the ceiling passes the
// share, then where there are more rows than the page holds.
// Kept on a page that the caller lends, and told by its number of rows: no heap is needed. The tally and
// the share are the call's own arguments; what is gone through holds both (`Chosen`).
#[tactic(auto, using(crate::proofs::Gates::behind, crate::proofs::Gates::page_behind))]
pub fn list_readers<A: Key, T: Tally<Key = A>>(
    tally: &T,
    share: Fraction,
    page: &mut [ReaderRow<A::Record>],
) -> Result<usize, Refusal>
    ensures answer { result ≡ counted (readers_at A.Key T.Tally tally.now share (length page.old)) }
    ensures page { page.new ≡ written (readers_at A.Key T.Tally tally.now share (length page.old)) page.old }
{
    list(&Chosen::at(tally, share)?, page)
}

// The reader listing in memory of its own, where so many rows have room, or its refusal: that is an
// answer, and so stands inside of what tells whether memory was found.
#[tactic(auto, using(crate::proofs::Gates::behind))]
pub fn gather_readers<A: Key, T: Tally<Key = A>>(
    tally: &T,
    share: Fraction,
    room: usize,
    heap: Global,
) -> Result<Result<Vec<ReaderRow<A::Record>>, Refusal>, AllocError>
    ensures { IfOk result (λ a. told vec_items a ≡ readers_at A.Key T.Tally tally.now share room) }
{
    gather_within(Chosen::at(tally, share), room, heap)
}
