ghost use Rattle.std.specs.Prelude.{◌≡◌, ◌≤◌, length, IfOk};
ghost use Rattle.pages.specs.Listed.{counted, fitted, over, page_after};
ghost use Rattle.pages.specs.Sources.{rows_of};

use crate::source::Source;
use keys::refusal::Refusal;
use std::alloc::{AllocError, Global};

// How many rows there are.
pub fn count<S: Source>(source: &S) -> usize
    ensures { result ≡ length (rows_of S.Source source.now) }
{
    (0..source.places())
        .filter_map(|place| source.row_at(place))
        .count()
}

fn write<S: Source>(source: &S, page: &mut [S::Row])
    requires { length (rows_of S.Source source.now) ≤ length page.old }
    ensures { page.new ≡ over (rows_of S.Source source.now) page.old }
{
    // Kept with a count of lines: tried as `enumerate` of a chain, of which the proof did not close.
    let mut line = 0;
    for place in 0..source.places() {
        if let Some(row) = source.row_at(place) {
            page[line] = row;
            line += 1;
        }
    }
}

// Writes all rows over the first places of a page, and tells how many. Refused as page short, with
// the page as it was, where there are more rows than the page holds. The page is the caller's, since the
// core has no heap.
pub fn list<S: Source>(source: &S, page: &mut [S::Row]) -> Result<usize, Refusal>
    ensures answer { result ≡ counted (fitted (rows_of S.Source source.now) (length page.old)) }
    ensures page { page.new ≡ page_after (rows_of S.Source source.now) page.old }
{
    let n = count(source);
    if n > page.len() {
        return Err(Refusal::PageShort);
    }
    write(source, page);
    Ok(n)
}

// Gathers all rows in memory of their own.
pub fn gather<S: Source>(source: &S, heap: Global) -> Result<Vec<S::Row>, AllocError>
    ensures { IfOk result (λ v. v.items ≡ rows_of S.Source source.now) }
{
    let rows = (0..source.places()).filter_map(|place| source.row_at(place));
    rows.collect(heap)
}
