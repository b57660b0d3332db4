ghost use Rattle.std.specs.Prelude.{◌≡◌, ◌+◌, ◌&&◌, nat_le};

// Whether a range holds a count, and is no wider than a width.
pub fn is_right(range: (u32, u32), count: usize, width: usize) -> bool
    ensures { result ≡ (nat_le range.0 count && (nat_le count range.1 && nat_le range.1 (range.0 + width))) }
{
    let (low, high) = (range.0 as usize, range.1 as usize);
    (low..=high).contains(&count) && high <= low.saturating_add(width)
}
