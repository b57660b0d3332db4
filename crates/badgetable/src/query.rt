ghost use Rattle.std.specs.Prelude.{◌≡◌, ◌+◌, ◌/◌, ◌≤◌, List, length, unwrap_or};
ghost use Rattle.badgetable.specs.Shown.{Covers, badge_count, reader_count};
ghost use Rattle.badgetable.specs.Tables.{accounts_for, arrivals_in, badge_ends_of, cell_count, reader_ends_of, row_count};
ghost use Rattle.tally.specs.Owed.{most_arrivals};

use crate::table::BadgeTable;
use cells::each::range_in;
use cells::find::place_of;
use keys::key::Key;

impl<'a, A: Key, B: Key> BadgeTable<'a, A, B> {
    // n: every list that the table accounts for has this length.
    pub fn arrivals(&self) -> u32
        ensures value { result ≡ arrivals_in self.now }
        ensures few { result ≤ most_arrivals }
        ensures length { (ps : List (A × B)) → accounts_for A.Key B.Key self.now ps → length ps ≡ result }
    {
        self.run.arrivals()
    }

    // The range of a reader over the whole run: from its seen count to its seen count and mark, or
    // from 0 to D without a row. It is at most n/(K + 1) wide.
    pub fn reader_range(&self, reader: A) -> (u32, u32)
        ensures value { result ≡ reader_ends_of A.Key self.now reader }
        ensures truth { (ps : List (A × B)) → accounts_for A.Key B.Key self.now ps → Covers (reader_count A.eq reader ps) (arrivals_in self.now / (row_count self.now + 1)) result.0 result.1 }
    {
        range_in(self.rows, self.level, reader)
    }

    // The range of a badge at a reader that has a row: what the row's badge table says, and the row's
    // mark on top.
    fn badge_ends(&self, reader: A, badge: B) -> Option<(u32, u32)>
        ensures { unwrap_or result (0, self.now.level) ≡ badge_ends_of A.Key B.Key self.now reader badge }
    {
        let i = place_of(self.rows, reader)?;
        let row = self.rows[i]?;
        let (low, high) = range_in(self.cells_of(i), row.beside, badge);
        Some((low, high.saturating_add(row.mark)))
    }

    // The range of a badge at a reader over the whole run; from 0 to D without a row. It is at most
    // n/(K + 1) + f/(J + 1) wide, where f is the reader's true count.
    // Reader and badge stay two arguments: each is looked for on its own, in its own area.
    pub fn badge_range(&self, reader: A, badge: B) -> (u32, u32)
        ensures value { result ≡ badge_ends_of A.Key B.Key self.now reader badge }
        ensures truth { (ps : List (A × B)) → accounts_for A.Key B.Key self.now ps → Covers (badge_count A.eq B.eq reader badge ps) (arrivals_in self.now / (row_count self.now + 1) + reader_count A.eq reader ps / (cell_count self.now + 1)) result.0 result.1 }
    {
        self.badge_ends(reader, badge).unwrap_or((0, self.level))
    }
}
