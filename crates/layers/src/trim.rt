ghost use Rattle.std.specs.Prelude.{◌≡◌, min};
ghost use Rattle.tally.specs.Within.{within};

use keys::refusal::Refusal;
use tally::Tally;

// A layer that lowers high ends, width and ceiling to T where they pass it. No key can come more
// than T times in the T arrivals that count. All else passes through.
#[derive(Drop)]
pub struct Trim<T> {
    below: T,
}

impl<T> Trim<T> {
    pub fn over(below: T) -> Self
        ensures { result.below ≡ below }
    {
        Trim { below }
    }
}

impl<T: Tally> Tally for Trim<T> {
    type Key = T::Key;

    ghost vouches = { λ t. T.Tally.vouches t.below };

    ghost planned = { λ t. T.Tally.planned t.below };

    ghost noted = { λ t. T.Tally.noted t.below };

    ghost reaches = { λ t. T.Tally.reaches t.below };

    ghost low = { λ t. T.Tally.low t.below };

    ghost high = { λ t k. min (T.Tally.high t.below k) (within T.Tally t.below) };

    ghost wide = { λ t. min (T.Tally.wide t.below) (within T.Tally t.below) };

    ghost top = { λ t. min (T.Tally.top t.below) (within T.Tally t.below) };

    ghost spots = { λ t. T.Tally.spots t.below };

    ghost held = { λ t. T.Tally.held t.below };

    fn arrivals(&self) -> u32 {
        self.below.arrivals()
    }

    fn reach(&self) -> u32 {
        self.below.reach()
    }

    fn range(&self, key: T::Key) -> (u32, u32) {
        let (low, high) = self.below.range(key);
        (low, high.min(self.below.within()))
    }

    fn width(&self) -> u32 {
        self.below.width().min(self.below.within())
    }

    fn ceiling(&self) -> u32 {
        self.below.ceiling().min(self.below.within())
    }

    fn places(&self) -> usize {
        self.below.places()
    }

    fn key_at(&self, place: usize) -> Option<T::Key> {
        self.below.key_at(place)
    }

    fn note(&mut self, key: T::Key) -> Result<(), Refusal> {
        self.below.note(key)
    }

    fn clear(&mut self) {
        self.below.clear();
    }
}
