ghost use Rattle.std.specs.Prelude.{◌≡◌, [], length, if◌then◌else◌, Ok, Err, MatchResult, OnOk};
ghost use Rattle.badgetable.specs.Plans.{plan_fits};
ghost use Rattle.badgetable.specs.Tables.{Emptied, accounts_for, arrivals_in, cell_count, row_count};
ghost use Rattle.keys.specs.declared.refusal.Refusal.TheVariants.{MisfitPlan};

use crate::table::BadgeTable;
use cells::cell::Cell;
use cells::each::empty_cells;
use keys::key::Key;
use keys::refusal::Refusal;
use tally::run::Run;

// Whether a plan fits two areas.
fn is_plan(k: usize, j: usize, rows: usize, cells: usize) -> bool
    ensures { result ≡ plan_fits k j rows cells }
{
    (1..=64).contains(&k) && (1..=64).contains(&j) && rows == k && cells == k * j
}

impl<'a, A: Key, B: Key> BadgeTable<'a, A, B> {
    // Holds two areas, as they are, for a table that is still to be opened. Each table says this of its
    // own areas, and the answers of `open` and of a count by equations: what each call answers, and no
    // fact of a value.
    pub fn over(rows: &'a mut [Cell<A::Record, u32>], cells: &'a mut [Cell<B::Record, ()>]) -> Self
        ensures areas { (result.rows.now ≡ rows.old) × ((result.rows.ghost_name ≡ rows.entry.ghost_name) × ((result.cells.now ≡ cells.old) × (result.cells.ghost_name ≡ cells.entry.ghost_name))) }
        ensures start { (result.level ≡ 0) × (arrivals_in result ≡ 0) }
    {
        BadgeTable {
            rows,
            cells,
            level: 0,
            run: Run::new(),
        }
    }

    // Makes the table empty: it accounts for no arrivals.
    pub fn clear(&mut self)
        ensures after { Emptied self.old self.new }
        ensures accounts { accounts_for A.Key B.Key self.new [] }
    {
        empty_cells::<A, u32>(self.rows);
        empty_cells::<B, ()>(self.cells);
        self.level = 0;
        self.run = Run::new();
    }

    // Opens an empty table of K rows and J cells a row. Refused as a misfit plan, with everything as
    // it was, where K or J is not 1 to 64, or the areas are not K rows and K × J cells.
    pub fn open(&mut self, k: usize, j: usize) -> Result<(), Refusal>
        ensures answer { result ≡ (if plan_fits k j (length self.old.rows.now) (length self.old.cells.now) then Ok tt else Err MisfitPlan) }
        ensures after { MatchResult result (λ _. Emptied self.old self.new) (λ _. self.new ≡ self.old) }
        ensures plan { OnOk result ((row_count self.new ≡ k) × (cell_count self.new ≡ j)) }
        ensures accounts { OnOk result (accounts_for A.Key B.Key self.new []) }
    {
        if !is_plan(k, j, self.rows.len(), self.cells.len()) {
            return Err(Refusal::MisfitPlan);
        }
        self.clear();
        Ok(())
    }
}
