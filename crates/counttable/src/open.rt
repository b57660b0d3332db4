ghost use Rattle.std.specs.Prelude.{◌≡◌, [], length, if◌then◌else◌, Ok, Err, MatchResult, OnOk};
ghost use Rattle.counttable.specs.Tables.{Emptied, has_run, most_cells, vouches};
ghost use Rattle.keys.specs.declared.refusal.Refusal.TheVariants.{MisfitPlan};
ghost use Rattle.tally.specs.Plans.{plan_fits};

use crate::table::CountTable;
use cells::cell::Cell;
use cells::each::empty_cells;
use keys::key::Key;
use keys::refusal::Refusal;
use tally::plan;
use tally::run::Run;

// The most cells that a table can be opened with.
const MOST_CELLS: usize = 64;

impl<'a, K: Key> CountTable<'a, K> {
    // Holds an area, as it is, for a table that is still to be opened. Each table says this of its own area,
    // and the answers of `open` and of a count by equations: what each call answers, and no fact of a value.
    pub fn over(cells: &'a mut [Cell<K::Record, ()>]) -> Self
        ensures area { (result.cells.now ≡ cells.old) × (result.cells.ghost_name ≡ cells.entry.ghost_name) }
        ensures start { (result.level ≡ 0) × (result.run ≡ 0) }
    {
        CountTable {
            cells,
            level: 0,
            run: Run::new(),
        }
    }

    // Makes the table empty: all cells free, level 0, no arrivals.
    pub fn empty(&mut self)
        ensures after { Emptied self.old self.new }
        ensures vouched { vouches K.Key self.new [] }
        ensures ran { has_run K.Key self.new [] }
    {
        empty_cells::<K, ()>(self.cells);
        self.level = 0;
        self.run = Run::new();
    }

    // Opens an empty table of k cells. Refused as a misfit plan, with everything as it was, where k is
    // not 1 to 64, or the area has another number of cells. Kept beside the log's `open`: what both share
    // is `plan::fits`, and each empties an area of its own.
    pub fn open(&mut self, k: usize) -> Result<(), Refusal>
        ensures answer { result ≡ (if plan_fits most_cells k (length self.old.cells.now) then Ok tt else Err MisfitPlan) }
        ensures after { MatchResult result (λ _. Emptied self.old self.new) (λ _. self.new ≡ self.old) }
        ensures ran { OnOk result (has_run K.Key self.new []) }
    {
        if !plan::fits(MOST_CELLS, k, self.cells.len()) {
            return Err(Refusal::MisfitPlan);
        }
        self.empty();
        Ok(())
    }
}
