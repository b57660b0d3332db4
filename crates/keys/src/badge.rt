ghost use Rattle.std.specs.Prelude.{[], ◌∷◌, Some};
ghost use Rattle.std.proofs.Common.{rules};

use crate::key::Key;

// A badge: the code of the site that gave it out, and its card number there. Every such pair is a
// badge, so it is its own record.
#[derive(Clone, Copy, Debug, PartialEq, Eq)]
pub struct Badge {
    pub site: u8,
    pub card: u16,
}

impl Key for Badge {
    type Record = Badge;

    ghost parts = { λ a. a.site ∷ (a.card ∷ []) };

    ghost lies = { λ a. a };

    ghost reads = { λ r. Some r };

    ghost agrees = { Prim.search rules };

    ghost tells = { Prim.search rules };

    ghost restored = { Prim.search rules };

    ghost faithful = { Prim.search rules };

    fn record(self) -> Badge {
        self
    }

    fn of_record(at: Badge) -> Option<Badge> {
        Some(at)
    }
}
