ghost use Rattle.std.specs.Prelude.{◌≡◌, ◌<◌, [], ◌∷◌, ok_or};
ghost use Rattle.std.proofs.Common.{rules, arith};

use crate::key::Key;
use crate::refusal::Refusal;

// A reader at a door, by its number from 1 to 65,535. No reader 0 can be made.
#[derive(Clone, Copy, Debug, PartialEq, Eq)]
pub struct Reader {
    number: u16,
    ghost real: { 0 < number },
}

impl TryFrom<u16> for Reader {
    ghost use Rattle.keys.specs.Readers.{reader_of};
    ghost use Rattle.keys.specs.declared.refusal.Refusal.TheVariants.{NoReader};

    type Error = Refusal;

    ghost try_from_gives = { λ n r. r ≡ ok_or (reader_of n) NoReader };

    fn try_from(number: u16) -> Result<Reader, Refusal> {
        if number == 0 {
            return Err(Refusal::NoReader);
        }
        Ok(Reader { number })
    }
}

impl From<Reader> for u16 {
    ghost from_gives = { λ a n. n ≡ a.number };

    fn from(reader: Reader) -> u16 {
        reader.number
    }
}

impl Key for Reader {
    ghost use Rattle.keys.specs.Readers.{reader_of};
    ghost use Rattle.keys.specs.Restored.{reader_at, number_back};

    type Record = u16;

    ghost parts = { λ a. a.number ∷ [] };

    ghost lies = { λ a. a.number };

    ghost reads = { reader_of };

    ghost agrees = { Prim.search rules };

    ghost tells = { Prim.search rules };

    ghost restored = { λ a. reader_at a.number a.real };

    ghost faithful = { λ a r e. number_back a r e };

    fn record(self) -> u16 {
        u16::from(self)
    }

    fn of_record(at: u16) -> Option<Reader> {
        Reader::try_from(at).ok()
    }
}
