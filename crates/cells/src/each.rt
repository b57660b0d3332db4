ghost use Rattle.std.specs.Prelude.{◌≡◌, ℕ, ◌+◌, ◌/◌, ◌≤◌, List, [], map, length, None};
ghost use Rattle.cells.specs.Vouched.{Ran, Vouched};
ghost use Rattle.tally.specs.Owed.{Contains};
ghost use Rattle.cells.specs.Cells.{cell_ends, emptied, ends, key_at, worn};
ghost use Rattle.keys.specs.OfKey.{of_key};

use crate::cell::Cell;
use keys::key::{Key, same_key};

// What a level leaves of a cell: nothing of one that it reaches.
fn wear_one<R: Copy, X: Copy>(cell: Cell<R, X>, level: u32) -> Cell<R, X>
    ensures { result ≡ worn level cell }
{
    cell.filter(|slot| !slot.is_reached(level))
}

// Frees each cell that a level reaches.
pub(crate) fn wear<R: Copy, X: Copy>(cells: &mut [Cell<R, X>], level: u32)
    ensures { cells.new ≡ map (worn level) cells.old }
{
    for cell in cells.iter_mut() {
        *cell = wear_one(*cell, level);
    }
}

// Frees all cells. At level 0 they are then where a run of no arrivals leads.
pub fn empty_cells<K: Key, X: Copy>(cells: &mut [Cell<K::Record, X>])
    ensures cells { cells.new ≡ emptied cells.old }
    ensures ran { Ran K.eq K.Key.reads cells.new 0 0 [] }
{
    cells.fill(None);
}

// The ends of a key's range, if the cell is taken by it.
fn ends_in<K: Key, X: Copy>(cell: Cell<K::Record, X>, key: K) -> Option<(u32, u32)>
    ensures { result ≡ cell_ends (of_key K.eq K.Key.reads key) cell }
{
    let slot = cell.filter(|slot| same_key(slot.key, key))?;
    Some((slot.count, slot.high()))
}

// The range of a key in cells at a level: low end and high end. It is true of every list of arrivals
// that the cells vouch for, over the whole of it.
pub fn range_in<K: Key, X: Copy>(cells: &[Cell<K::Record, X>], level: u32, key: K) -> (u32, u32)
    ensures value { result ≡ ends (of_key K.eq K.Key.reads key) level cells.now }
    ensures truth { (t n : ℕ) (xs : List K) → n ≤ t → Vouched K.eq K.Key.reads cells.now level n xs → Contains K.eq t key xs result.0 result.1 }
{
    // Kept as a loop: tried as `find_map`, of which the proof did not close.
    for cell in cells {
        if let Some(both) = ends_in(*cell, key) {
            return both;
        }
    }
    (0, level)
}

// The key held at a place, counting from 0, if there is one.
pub fn key_at<K: Key, X: Copy>(cells: &[Cell<K::Record, X>], place: usize) -> Option<K>
    ensures value { result ≡ key_at K.Key.reads cells.now place }
    ensures past { length cells.now ≤ place → result ≡ None }
{
    let slot = cells.get(place).copied().flatten()?;
    K::of_record(slot.key)
}
