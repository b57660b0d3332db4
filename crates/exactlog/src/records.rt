ghost use Rattle.std.specs.Prelude.{◌≡◌, ◌≤◌, length, count_by};
ghost use Rattle.keys.specs.OfKey.{of_key};

use keys::key::{Key, same_key};

// How many of the records are those of a key. A sum of ones and zeros in 32 bits: a count of what a
// filter lets through takes a branch for each record, and up to six times as long.
pub(crate) fn count_of<K: Key>(records: &[K::Record], key: K) -> u32
    requires { length records.now ≤ 65536 }
    ensures { result ≡ count_by (of_key K.eq K.Key.reads key) records.now }
{
    records.iter().map(|r| u32::from(same_key(*r, key))).sum()
}
