ghost use Rattle.std.specs.Prelude.{◌≡◌, ◌*◌, ◌<◌, slice_index_or, None};
ghost use Rattle.badgetable.specs.Tables.{cell_count, cells_of, row_count};

use crate::table::BadgeTable;
use cells::cell::Cell;
use keys::key::Key;
use parts::part::part_of;

impl<'a, A: Key, B: Key> BadgeTable<'a, A, B> {
    // K.
    pub fn rows(&self) -> usize
        ensures { result ≡ row_count self.now }
    {
        self.rows.len()
    }

    // J. As many as K × J cells can be counted.
    pub fn cells_a_row(&self) -> usize
        ensures value { result ≡ cell_count self.now }
        ensures fits { row_count self.now * result < 18446744073709551616 }
    {
        self.cells.len().checked_div(self.rows.len()).unwrap_or(0)
    }

    // K × J: how many cells the rows have together.
    pub fn places(&self) -> usize
        ensures { result ≡ row_count self.now * cell_count self.now }
    {
        self.rows() * self.cells_a_row()
    }

    // D.
    pub fn level(&self) -> u32
        ensures { result ≡ self.now.level }
    {
        self.level
    }

    // Row i, counting from 0: its reader, seen count and mark, and its badge table's level E beside.
    // A row past the last is free.
    pub fn row_at(&self, i: usize) -> Cell<A::Record, u32>
        ensures { result ≡ slice_index_or self.now.rows.now i None }
    {
        self.rows.get(i).copied().flatten()
    }

    // The badge cells of row i.
    pub(crate) fn cells_of(&self, i: usize) -> &[Cell<B::Record, ()>]
        ensures { result.now ≡ cells_of self.now i }
    {
        part_of(self.cells, self.cells_a_row(), i)
    }

    // The cell at a place of row i's badge table; a free one past the last.
    pub fn cell_at(&self, i: usize, place: usize) -> Cell<B::Record, ()>
        ensures { result ≡ slice_index_or (cells_of self.now i) place None }
    {
        self.cells_of(i).get(place).copied().flatten()
    }
}
