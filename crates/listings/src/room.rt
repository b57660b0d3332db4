ghost use Rattle.std.specs.Prelude.{◌≡◌, IfOk, vec_items};
ghost use Rattle.keys.specs.Refusals.{told};
ghost use Rattle.listings.specs.Listings.{roomed};
ghost use Rattle.pages.specs.Sources.{rows_of};

use keys::refusal::Refusal;
use pages::list::{count, gather};
use pages::source::Source;
use std::alloc::{AllocError, Global};

// The rows of what a gate let through, where so many have room, or the refusal.
// Kept as a Result in a Result, since the two go different ways: a refusal is an answer, and where
// memory runs out there is none.
pub(crate) fn gather_within<S: Source + Drop>(
    source: Result<S, Refusal>,
    room: usize,
    heap: Global,
) -> Result<Result<Vec<S::Row>, Refusal>, AllocError>
    ensures { IfOk result (λ a. told vec_items a ≡ roomed (told (rows_of S.Source) source) room) }
{
    let source = match source {
        Ok(source) => source,
        Err(refusal) => return Ok(Err(refusal)),
    };
    if count(&source) > room {
        return Ok(Err(Refusal::PageShort));
    }
    Ok(Ok(gather(&source, heap)?))
}
