ghost use Rattle.std.specs.Prelude.{◌≡◌, ℕ, List, Some, Option, IsTrue};
ghost use Rattle.keys.specs.OfKey.{of_key};

// A kind of key: what arrivals are counted by. Two keys are the same (`==`) exactly when all their
// parts agree. In memory a key lies as a plain record, and is made from that again after a check.
pub trait Key: Copy + Eq {
    type Record: Copy;

    // What the key means: its parts, as numbers.
    ghost parts: { Self → List ℕ };

    // The record of a key, and the key of a record, where it has one. Kept as functions of their own:
    // a badge is its own record, and std has a conversion of a type to itself already.
    ghost lies: { Self → Self.Record };

    ghost reads: { Self.Record → Option Self };

    fn record(self) -> Self::Record
        ensures { result ≡ lies self };

    fn of_record(at: Self::Record) -> Option<Self>
        ensures { result ≡ reads at };

    // Sameness agrees with the meaning.
    ghost agrees: { (a b : Self) → IsTrue (Self.eq a b) → parts a ≡ parts b };

    ghost tells: { (a b : Self) → parts a ≡ parts b → IsTrue (Self.eq a b) };

    // The record of a key gives that key back, and no other record gives it.
    ghost restored: { (a : Self) → reads (lies a) ≡ Some a };

    ghost faithful: { (a : Self) (r : Self.Record) → reads r ≡ Some a → lies a ≡ r };
}

// Whether a record is that of a key.
pub fn same_key<K: Key>(at: K::Record, key: K) -> bool
    ensures { result ≡ of_key K.eq K.Key.reads key at }
{
    K::of_record(at).is_some_and(|held| key == held)
}
