ghost use Rattle.std.specs.Prelude.{◌≡◌, ◌≤◌, ok_or};
ghost use Rattle.keys.specs.declared.refusal.Refusal.TheVariants.{StrangeMark};
ghost use Rattle.records.specs.Marks.{length_of, mark_of};

use keys::refusal::Refusal;

// The two bytes that a record begins with: they tell what it is.
#[derive(Clone, Copy, Debug, PartialEq, Eq)]
pub enum Mark {
    Event,
    Report,
    Clear,
}

// The mark that two bytes make, read as one number. Any other number is refused as a strange mark.
impl TryFrom<u16> for Mark {
    type Error = Refusal;

    ghost try_from_gives = { λ n r. r ≡ ok_or (mark_of n) StrangeMark };

    fn try_from(number: u16) -> Result<Mark, Refusal> {
        match number {
            0x5ae1 => Ok(Mark::Event),
            0x5ae2 => Ok(Mark::Report),
            0x5ae3 => Ok(Mark::Clear),
            _ => Err(Refusal::StrangeMark),
        }
    }
}

impl Mark {
    // How many bytes a record with this mark has, the mark among them.
    pub fn length(self) -> usize
        ensures value { result ≡ length_of self }
        ensures bound { (2 ≤ result) × (result ≤ 10) }
    {
        match self {
            Mark::Event => 8,
            Mark::Report => 10,
            Mark::Clear => 2,
        }
    }
}
