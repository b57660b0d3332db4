ghost use Rattle.std.specs.Prelude.{◌≡◌};
ghost use Rattle.badgetable.specs.Rows.{badge_level};
ghost use Rattle.cells.specs.Cells.{with_beside};

use cells::cell::{Cell, Slot};

// The level E of a row's badge table.
pub(crate) fn badge_level<R: Copy>(row: Cell<R, u32>) -> u32
    ensures { result ≡ badge_level row }
{
    row.map_or(0, |slot| slot.beside)
}

// The row with another level E.
pub(crate) fn with_badge_level<R: Copy>(row: Cell<R, u32>, level: u32) -> Cell<R, u32>
    ensures { result ≡ with_beside level row }
{
    row.map(|slot| Slot {
        beside: level,
        ..slot
    })
}
