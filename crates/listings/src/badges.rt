use crate::row::BadgeRow;
use badgetable::table::BadgeTable;
use cells::cell::Slot;
use keys::key::Key;
use keys::refusal::Refusal;
use keys::share::{Fraction, Share};
use pages::source::Source;

// What the badge listing goes through: the table's rows, cell by cell, at a reader share of its n
// and a badge share of what a row has seen.
// Kept beside `Chosen`: a badge is tested in its row, and its gate asks the rows, as no tally's does.
#[derive(Drop)]
pub(crate) struct ChosenBadges<'t, 'a, A: Key, B: Key> {
    table: &'t BadgeTable<'a, A, B>,
    readers: Share,
    badges: Share,
}

impl<'t, 'a, A: Key, B: Key> ChosenBadges<'t, 'a, A, B> {
    ghost use Rattle.std.specs.Prelude.{◌≡◌, Some, None, Ok, slice_index_or};
    ghost use Rattle.std.specs.List.{list_any};
    ghost use Rattle.badgetable.specs.Tables.{arrivals_in};
    ghost use Rattle.keys.specs.Refusals.{told};
    ghost use Rattle.listings.specs.Listings.{badge_gate, badge_rows, is_fine, is_listed, passed};

    // A table at shares at which nothing held nowhere could be above, or the refusal.
    pub(crate) fn at(
        table: &'t BadgeTable<'a, A, B>,
        readers: Fraction,
        badges: Fraction,
    ) -> Result<Self, Refusal>
        ensures { told (λ c. badge_rows c.table.now c.readers.p c.readers.q c.badges.p c.badges.q) result ≡ passed (badge_gate table.now readers.p readers.q badges.p badges.q) (Ok (badge_rows table.now readers.p readers.q badges.p badges.q)) }
    {
        let readers = Share::try_from(readers)?;
        let badges = Share::try_from(badges)?;
        let chosen = ChosenBadges {
            table,
            readers,
            badges,
        };
        if readers.passed_by(table.level(), table.arrivals()) || chosen.is_some_row_fine() {
            return Err(Refusal::TooFine);
        }
        Ok(chosen)
    }

    // Whether a row's reader is listed.
    fn lists(&self, row: &Slot<A::Record, u32>) -> bool
        ensures { result ≡ is_listed self.now.readers.p self.now.readers.q (arrivals_in self.now.table.now) (Some row.now) }
    {
        self.readers.passed_by(row.high(), self.table.arrivals())
    }

    // Whether a badge that row i, where it is listed, does not hold could be above the badge share.
    fn is_fine(&self, i: usize) -> bool
        ensures { result ≡ is_fine self.now.readers.p self.now.readers.q self.now.badges.p self.now.badges.q (arrivals_in self.now.table.now) (slice_index_or self.now.table.now.rows.now i None) }
    {
        let Some(row) = self.table.row_at(i) else {
            return false;
        };
        let high = row.beside.saturating_add(row.mark);
        self.lists(&row) && self.badges.passed_by(high, row.count)
    }

    // Whether some row is too fine.
    fn is_some_row_fine(&self) -> bool
        ensures { result ≡ list_any (is_fine self.now.readers.p self.now.readers.q self.now.badges.p self.now.badges.q (arrivals_in self.now.table.now)) self.now.table.now.rows.now }
    {
        (0..self.table.rows()).any(|i| self.is_fine(i))
    }
}

impl<'t, 'a, A: Key, B: Key> Source for ChosenBadges<'t, 'a, A, B> {
    ghost use Rattle.std.specs.Prelude.{◌*◌};
    ghost use Rattle.badgetable.specs.Tables.{arrivals_in, cell_count, row_count};
    ghost use Rattle.listings.specs.Listings.{badge_place};

    type Row = BadgeRow<A::Record, B::Record>;

    ghost size = { λ c. row_count c.table.now * cell_count c.table.now };

    ghost row = { λ c. badge_place c.table.now c.readers.p c.readers.q c.badges.p c.badges.q (arrivals_in c.table.now) };

    fn places(&self) -> usize {
        self.table.places()
    }

    fn row_at(&self, place: usize) -> Option<BadgeRow<A::Record, B::Record>> {
        let j = self.table.cells_a_row();
        if j == 0 {
            return None;
        }
        let i = place / j;
        let held = self.table.row_at(i)?;
        let badge = self.table.cell_at(i, place % j)?;
        let high = badge.high().saturating_add(held.mark);
        let is_named = self.lists(&held) && self.badges.passed_by(high, held.count);
        is_named.then_some(BadgeRow {
            reader: held.key,
            badge: badge.key,
            low: badge.count,
            high,
        })
    }
}
