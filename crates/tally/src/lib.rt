// A tally counts arrivals of one kind of key, in little memory. What it means is the set of arrival
// lists that it vouches for: every answer is true of each of them.
#![tactic(auto)]

ghost use Rattle.std.specs.Prelude.{◌≡◌, ℕ, ◌+◌, ◌≤◌, min, false, List, [], ◌∷◌, ◌++◌, length, if◌then◌else◌, None, Ok, Err, Option, MatchResult, nat_eq};
ghost use Rattle.keys.specs.declared.refusal.Refusal.TheVariants.{RunFull};
ghost use Rattle.tally.specs.Arrivals.{true_count};
ghost use Rattle.tally.specs.Owed.{Contains, held_below, most_arrivals, most_end};

pub mod plan;
pub mod run;

use keys::key::Key;
use keys::refusal::Refusal;

// The most arrivals that a tally counts between clears.
pub const MOST_ARRIVALS: u32 = 100_000_000;

pub trait Tally {
    // The kind of key that arrives, and by which all is asked and answered.
    type Key: Key;

    // Which arrival lists, oldest first, the tally vouches for.
    ghost vouches: { Self → List Self.Key → Type 0 };

    // Whether the tally was opened within the limits of its plan. Every call keeps that.
    ghost planned: { Self → Type 0 };

    // What its queries answer, as functions of the tally alone: the arrivals noted since the
    // latest clear (n), how many of the latest are counted (the reach), the ends of a key's range,
    // how wide a range can be, a high end for keys held nowhere (the ceiling), how many places
    // there are, and the key held at each.
    ghost noted: { Self → ℕ };

    ghost reaches: { Self → ℕ };

    ghost low: { Self → Self.Key → ℕ };

    ghost high: { Self → Self.Key → ℕ };

    ghost wide: { Self → ℕ };

    ghost top: { Self → ℕ };

    ghost spots: { Self → ℕ };

    ghost held: { Self → ℕ → Option Self.Key };

    // n: every list vouched for has this length.
    fn arrivals(&self) -> u32
        ensures value { result ≡ noted self.now }
        ensures few { result ≤ most_arrivals }
        ensures length { (xs : List Self.Key) → vouches self.now xs → length xs ≡ result };

    fn reach(&self) -> u32
        ensures { result ≡ reaches self.now };

    // T: how many of the latest arrivals count. Spelled out in the clauses here, since the trait itself
    // can't name a definition over its members.
    final fn within(&self) -> u32
        ensures value { result ≡ min (noted self.now) (reaches self.now) }
        ensures few { result ≤ most_arrivals }
    {
        self.arrivals().min(self.reach())
    }

    // Low end and high end: a key's true count in the latest min(n, reach) arrivals lies between.
    fn range(&self, key: Self::Key) -> (u32, u32)
        ensures value { result ≡ (low self.now key, high self.now key) }
        ensures truth { (xs : List Self.Key) → vouches self.now xs → Contains Self.Key.eq (min (noted self.now) (reaches self.now)) key xs result.0 result.1 };

    // At most this lies between the ends of any key's range.
    fn width(&self) -> u32
        ensures value { result ≡ wide self.now }
        ensures narrow { (xs : List Self.Key) → vouches self.now xs → (k : Self.Key) → high self.now k ≤ low self.now k + result }
        ensures bounded { (xs : List Self.Key) → vouches self.now xs → result ≤ most_end };

    // A key held at no place has at most this high end, and so at most this true count. With it comes
    // the promise of every key's range, whether it is asked for or not.
    fn ceiling(&self) -> u32
        ensures value { result ≡ top self.now }
        ensures ranges { (xs : List Self.Key) → vouches self.now xs → (k : Self.Key) → Contains Self.Key.eq (min (noted self.now) (reaches self.now)) k xs (low self.now k) (high self.now k) }
        ensures missed { (xs : List Self.Key) → vouches self.now xs → (k : Self.Key) → held_below Self.Key.eq (held self.now) k (spots self.now) ≡ false → (high self.now k ≤ result) × (true_count Self.Key.eq (min (noted self.now) (reaches self.now)) k xs ≤ result) }
        ensures bounded { (xs : List Self.Key) → vouches self.now xs → result ≤ most_end };

    fn places(&self) -> usize
        ensures value { result ≡ spots self.now }
        ensures few { planned self.now → result ≤ 65536 };

    // The key held at a place, counting from 0, if there is one; none past the last place.
    fn key_at(&self, place: usize) -> Option<Self::Key>
        ensures value { result ≡ held self.now place }
        ensures past { spots self.now ≤ place → result ≡ None };

    // Whether one of the places before this one holds a key.
    final fn is_held_before(&self, key: Self::Key, place: usize) -> bool
        ensures { result ≡ held_below Self.Key.eq (held self.now) key place }
    {
        (0..place).any(|i| self.key_at(i).is_some_and(|held| key == held))
    }

    // Puts the key at the end of every list vouched for; refused with 7 exactly when n is
    // 100,000,000, and then the tally is as it was.
    fn note(&mut self, key: Self::Key) -> Result<(), Refusal>
        ensures answer { result ≡ (if nat_eq (noted self.old) most_arrivals then Err RunFull else Ok tt) }
        ensures plan { planned self.old → planned self.new }
        ensures few { noted self.old ≤ most_arrivals }
        ensures counted { (xs : List Self.Key) → vouches self.old xs → length xs ≡ noted self.old }
        ensures after { MatchResult result (λ _. (noted self.new ≡ noted self.old + 1) × ((xs : List Self.Key) → vouches self.old xs → vouches self.new (xs ++ (key ∷ [])))) (λ _. self.new ≡ self.old) };

    // Vouches for the empty list from now on.
    fn clear(&mut self)
        ensures plan { planned self.old → planned self.new }
        ensures counted { noted self.new ≡ 0 }
        ensures after { vouches self.new [] };
}
