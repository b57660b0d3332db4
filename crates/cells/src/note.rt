ghost use Rattle.std.specs.Prelude.{◌≡◌, ℕ, ◌+◌, ◌<◌, List, [], ◌∷◌, ◌++◌, length};
ghost use Rattle.cells.specs.Cells.{cells_after, counted, level_after, rule_for};
ghost use Rattle.keys.specs.OfKey.{of_key};
ghost use Rattle.cells.specs.Rules.{Within};
ghost use Rattle.cells.specs.Vouched.{Ran, Vouched};
ghost use Rattle.tally.specs.Owed.{most_arrivals};

use crate::cell::{Cell, Slot};
use crate::each::wear;
use crate::find::find_rule;
use crate::rule::Rule;
use keys::key::Key;

// The cell with a count more by one.
fn count_one<R: Copy, X: Copy>(cell: Cell<R, X>) -> Cell<R, X>
    ensures { result ≡ counted cell }
{
    cell.map(|slot| Slot {
        count: slot.count.saturating_add(1),
        ..slot
    })
}

// What the rule that an arrival meets does to the cells. A match, since a rule is data. Kept apart from
// `note_in`, whose laws would else have to be proved for each rule.
fn apply<K: Key, X: Copy>(cells: &mut [Cell<K::Record, X>], level: u32, key: K, beside: X) -> Rule
    ensures rule { result ≡ rule_for (of_key K.eq K.Key.reads key) cells.old }
    ensures within { Within (length cells.new) result }
    ensures cells { cells.new ≡ cells_after level (K.Key.lies key) beside cells.old (rule_for (of_key K.eq K.Key.reads key) cells.old) }
{
    let rule = find_rule(cells, key);
    match rule {
        Rule::Count(i) => cells[i] = count_one(cells[i]),
        Rule::Enter(i) => cells[i] = Some(Slot {
            key: key.record(),
            count: 1,
            mark: level,
            beside,
        }),
        Rule::Raise => wear(cells, level.saturating_add(1)),
    }
    rule
}

// Notes an arrival of a key in cells at a level, and tells the rule that it met, from which the new
// level follows. A key that enters has `beside` with it. Cells that vouched for a list of arrivals
// vouch for it with the key at its end, and so does a whole run.
pub fn note_in<K: Key, X: Copy>(
    cells: &mut [Cell<K::Record, X>],
    level: u32,
    key: K,
    beside: X,
) -> Rule
    ensures rule { result ≡ rule_for (of_key K.eq K.Key.reads key) cells.old }
    ensures within { Within (length cells.new) result }
    ensures cells { cells.new ≡ cells_after level (K.Key.lies key) beside cells.old (rule_for (of_key K.eq K.Key.reads key) cells.old) }
    ensures vouched { (n : ℕ) (xs : List K) → n < most_arrivals → Vouched K.eq K.Key.reads cells.old level n xs → Vouched K.eq K.Key.reads cells.new (level_after level result) (n + 1) (xs ++ (key ∷ [])) }
    ensures ran { (n : ℕ) (xs : List K) → n < most_arrivals → Ran K.eq K.Key.reads cells.old level n xs → Ran K.eq K.Key.reads cells.new (level_after level result) (n + 1) (xs ++ (key ∷ [])) }
{
    apply(cells, level, key, beside)
}
