ghost use Rattle.std.specs.Prelude.{◌≡◌, ◌<◌, length, is_none, IfSome};
ghost use Rattle.std.specs.List.{position_from};
ghost use Rattle.cells.specs.Cells.{rule_for, taken_by};
ghost use Rattle.keys.specs.OfKey.{of_key};
ghost use Rattle.cells.specs.Rules.{Within};

use crate::cell::Cell;
use crate::rule::Rule;
use keys::key::{Key, same_key};

// Whether a cell is taken by a key.
fn is_taken_by<K: Key, X: Copy>(cell: Cell<K::Record, X>, key: K) -> bool
    ensures { result ≡ taken_by (of_key K.eq K.Key.reads key) cell }
{
    cell.is_some_and(|slot| same_key(slot.key, key))
}

// The place of the first cell that holds a key, if one does.
pub fn place_of<K: Key, X: Copy>(cells: &[Cell<K::Record, X>], key: K) -> Option<usize>
    ensures value { result ≡ position_from (taken_by (of_key K.eq K.Key.reads key)) 0 cells.now }
    ensures within { IfSome result (λ i. i < length cells.now) }
{
    cells.iter().position(|cell| is_taken_by(*cell, key))
}

// The place of the first free cell.
fn free_place<R: Copy, X: Copy>(cells: &[Cell<R, X>]) -> Option<usize>
    ensures value { result ≡ position_from is_none 0 cells.now }
    ensures within { IfSome result (λ i. i < length cells.now) }
{
    cells.iter().position(|cell| cell.is_none())
}

// The rule that an arrival of a key meets.
pub(crate) fn find_rule<K: Key, X: Copy>(cells: &[Cell<K::Record, X>], key: K) -> Rule
    ensures value { result ≡ rule_for (of_key K.eq K.Key.reads key) cells.now }
    ensures within { Within (length cells.now) result }
{
    if let Some(i) = place_of(cells, key) {
        return Rule::Count(i);
    }
    if let Some(i) = free_place(cells) {
        return Rule::Enter(i);
    }
    Rule::Raise
}
