ghost use Rattle.std.specs.Prelude.{◌≡◌, length, IfOk, vec_items};
ghost use Rattle.keys.specs.Refusals.{told};
ghost use Rattle.listings.specs.Listings.{badges_at, written};
ghost use Rattle.pages.specs.Listed.{counted};

use crate::badges::ChosenBadges;
use crate::room::gather_within;
use crate::row::BadgeRow;
use badgetable::table::BadgeTable;
use keys::key::Key;
use keys::refusal::Refusal;
use keys::share::Fraction;
use pages::list::list;
use std::alloc::{AllocError, Global};

// Writes the badge listing at a reader share and a badge share over the first rows of a page, and
// tells how many there are. Refused, with the page as it was, for an impossible share, then where
// something held nowhere could be above a share, then where there are more rows than the page holds.
// Kept on a page that the caller lends, and told by its number of rows: no heap is needed. Kept as
// two fractions: they are of different wholes, n and what a row has seen.
#[tactic(auto, using(crate::proofs::Gates::behind, crate::proofs::Gates::page_behind))]
pub fn list_badges<A: Key, B: Key>(
    table: &BadgeTable<A, B>,
    readers: Fraction,
    badges: Fraction,
    page: &mut [BadgeRow<A::Record, B::Record>],
) -> Result<usize, Refusal>
    ensures answer { result ≡ counted (badges_at table.now readers badges (length page.old)) }
    ensures page { page.new ≡ written (badges_at table.now readers badges (length page.old)) page.old }
{
    list(&ChosenBadges::at(table, readers, badges)?, page)
}

// The badge listing in memory of its own, where so many rows have room, or its refusal: that is an
// answer, and so stands inside of what tells whether memory was found.
#[tactic(auto, using(crate::proofs::Gates::behind))]
pub fn gather_badges<A: Key, B: Key>(
    table: &BadgeTable<A, B>,
    readers: Fraction,
    badges: Fraction,
    room: usize,
    heap: Global,
) -> Result<Result<Vec<BadgeRow<A::Record, B::Record>>, Refusal>, AllocError>
    ensures { IfOk result (λ a. told vec_items a ≡ badges_at table.now readers badges room) }
{
    gather_within(ChosenBadges::at(table, readers, badges), room, heap)
}
