ghost use Rattle.std.specs.Prelude.{◌≡◌, ℕ, Option};

// What a listing goes through: places from 0 on, each with a row or none.
// Kept as a trait, since a listing goes through it twice, and an iterator is gone through once.
pub trait Source {
    type Row: Copy;

    ghost size: { Self → ℕ };

    ghost row: { Self → ℕ → Option Self.Row };

    fn places(&self) -> usize
        ensures { result ≡ size self.now };

    fn row_at(&self, place: usize) -> Option<Self::Row>
        ensures { result ≡ row self.now place };
}
