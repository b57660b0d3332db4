ghost use Rattle.std.specs.Prelude.{◌≡◌, ◌+◌, ◌*◌, ◌≤◌, length, take, drop, IfSome, if◌then◌else◌, Some, None, nat_le};
ghost use Rattle.cells.specs.Cells.{cells_after, emptied, level_after, rule_for};
ghost use Rattle.keys.specs.OfKey.{of_key};
ghost use Rattle.parts.specs.Parts.{amid, part, with_part};

use cells::cell::Cell;
use cells::each::empty_cells;
use cells::note::note_in;
use cells::rule::Rule;
use keys::key::Key;

// Where a part begins, if the area has all of it. Kept as a range of places: what `chunks_mut` or a
// split lends is not known again afterwards, and what a range lends is.
fn start(area: usize, k: usize, s: usize) -> Option<usize>
    ensures value { result ≡ (if nat_le (s * k + k) area then Some (s * k) else None) }
    ensures within { IfSome result (λ from. from + k ≤ area) }
{
    let from = s.checked_mul(k)?;
    let end = from.checked_add(k)?;
    if end <= area { Some(from) } else { None }
}

// A part; nothing where the area does not have all of it.
pub fn part_of<X>(cells: &[X], k: usize, s: usize) -> &[X]
    ensures { result.now ≡ part k s cells.now }
{
    match start(cells.len(), k, s) {
        Some(from) => &cells[from..from + k],
        None => &[],
    }
}

// Lends the k cells from a place on to the count table's note.
fn note_range<K: Key>(
    cells: &mut [Cell<K::Record, ()>],
    from: usize,
    k: usize,
    level: u32,
    key: K,
) -> Rule
    requires { from + k ≤ length cells.old }
    ensures cells { cells.new ≡ amid from k (λ p. cells_after level (K.Key.lies key) tt p (rule_for (of_key K.eq K.Key.reads key) p)) cells.old }
    ensures rule { result ≡ rule_for (of_key K.eq K.Key.reads key) (take k (drop from cells.old)) }
{
    note_in(&mut cells[from..from + k], level, key, ())
}

// Lends the k cells from a place on to be emptied.
fn empty_range<K: Key>(cells: &mut [Cell<K::Record, ()>], from: usize, k: usize)
    requires { from + k ≤ length cells.old }
    ensures { cells.new ≡ amid from k emptied cells.old }
{
    empty_cells::<K, ()>(&mut cells[from..from + k])
}

// Notes an arrival in a part at its level, and answers its level then. Nothing is noted where the
// area does not have all of the part: so many cells as there are, none, are all taken.
pub fn note_part<K: Key>(
    cells: &mut [Cell<K::Record, ()>],
    k: usize,
    s: usize,
    level: u32,
    key: K,
) -> u32
    ensures cells { cells.new ≡ with_part k s (λ p. cells_after level (K.Key.lies key) tt p (rule_for (of_key K.eq K.Key.reads key) p)) cells.old }
    ensures level { result ≡ level_after level (rule_for (of_key K.eq K.Key.reads key) (part k s cells.old)) }
{
    match start(cells.len(), k, s) {
        Some(from) => note_range(cells, from, k, level, key).level_after(level),
        None => Rule::Raise.level_after(level),
    }
}

// Empties a part.
pub fn empty_part<K: Key>(cells: &mut [Cell<K::Record, ()>], k: usize, s: usize)
    ensures { cells.new ≡ with_part k s emptied cells.old }
{
    if let Some(from) = start(cells.len(), k, s) {
        empty_range::<K>(cells, from, k);
    }
}
