ghost use Rattle.std.specs.Prelude.{length, None, slice_index_or};

use crate::list::{count, gather, list};
use crate::source::Source;
use keys::refusal::Refusal;
use std::alloc::AllocError;

// Four places, each with a number or none.
#[derive(Clone, Copy)]
struct Numbers {
    held: [Option<u8>; 4],
}

impl Source for Numbers {
    type Row = u8;

    ghost size = { λ s. length s.held };

    ghost row = { λ s i. slice_index_or s.held i None };

    fn places(&self) -> usize {
        self.held.len()
    }

    fn row_at(&self, place: usize) -> Option<u8> {
        self.held.get(place).copied().flatten()
    }
}

fn four_places() -> Numbers {
    Numbers {
        held: [None, Some(7), None, Some(4)],
    }
}

#[test]
fn places_without_a_row_are_passed_over(rt: HostRuntime) -> Result<(), AllocError> {
    assert_eq!(rt; count(&four_places()), 2);
    let rows = gather(&four_places(), rt.alloc())?;
    assert!(rt; rows.as_slice() == [7, 4].as_slice());
    Ok(())
}

#[test]
fn rows_stand_first_on_a_page_that_holds_them(rt: HostRuntime) {
    let mut page = [1, 2, 3];
    assert!(rt; list(&four_places(), &mut page) == Ok(2));
    assert!(rt; page == [7, 4, 3]);
    assert!(rt; list(&four_places(), &mut page[..2]) == Ok(2));
}

#[test]
fn a_short_page_stays(rt: HostRuntime) {
    let mut page = [1];
    assert!(rt; list(&four_places(), &mut page) == Err(Refusal::PageShort));
    assert!(rt; page == [1]);
}
