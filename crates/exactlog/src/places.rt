ghost use Rattle.std.specs.Prelude.{◌≡◌, ◌+◌, ◌<◌, ◌≤◌, reverse, length, if◌then◌else◌, nat_lt, slice_get, slice_set};
ghost use Rattle.exactlog.specs.Logs.{back_of, in_order};

// Places in a ring of records. Kept as numbers beside the area: the ring is a lent slice.

// Writes a record at a place among the first `size`, if it is one of them. Kept beside the ring's
// `set_level`: no crate below both is about areas.
pub(crate) fn write_at<R: Copy>(area: &mut [R], size: usize, at: usize, record: R)
    requires { size ≤ length area.old }
    ensures { area.new ≡ (if nat_lt at size then slice_set area.old at «record» else area.old) }
{
    // Kept as a test: after `get_mut` of a slice a proof knows no element.
    if at < size {
        area[at] = record;
    }
}

// The place after one, in an area of a size: the place after the last is the first.
pub(crate) fn after(at: usize, size: usize) -> usize
    requires { size ≤ 65536 }
    ensures { result ≡ (if nat_lt (at + 1) size then at + 1 else 0) }
{
    if at < size && at + 1 < size {
        at + 1
    } else {
        0
    }
}

// Where the record of a place lies, from the newest back, among so many that are held: those
// before the next place, and then those from it on.
fn back(next: usize, held: usize, place: usize) -> usize
    requires { place < held }
    ensures value { result ≡ back_of next held place }
    ensures within { result < held }
{
    let newer = next.min(held);
    if place < newer {
        newer - 1 - place
    } else {
        held - 1 - (place - newer)
    }
}

// The record at a place, from the newest back.
pub(crate) fn record_back<R: Copy>(records: &[R], next: usize, place: usize) -> Option<R>
    ensures { result ≡ slice_get (reverse (in_order next records.now)) place }
{
    if place < records.len() {
        Some(records[back(next, records.len(), place)])
    } else {
        None
    }
}
