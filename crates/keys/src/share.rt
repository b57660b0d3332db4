ghost use Rattle.std.specs.Prelude.{◌≡◌, ◌≤◌};

use crate::refusal::Refusal;

// Two numbers p/q as they were given, which may be no share.
#[derive(Clone, Copy, Debug, PartialEq, Eq)]
pub struct Fraction {
    pub p: u16,
    pub q: u16,
}

// A share of the traffic: p/q, with 1 ≤ p ≤ q ≤ 1,000.
#[derive(Clone, Copy, Debug, PartialEq, Eq)]
pub struct Share {
    p: u16,
    q: u16,
    ghost some: { 1 ≤ p },
    ghost part: { p ≤ q },
    ghost coarse: { q ≤ 1000 },
}

// Two numbers that make no share are refused as an impossible share.
impl TryFrom<Fraction> for Share {
    ghost use Rattle.keys.specs.Refusals.{told};
    ghost use Rattle.keys.specs.Shares.{share_of};

    type Error = Refusal;

    ghost try_from_gives = { λ f r. told (λ s. (s.p, s.q)) r ≡ share_of f.p f.q };

    fn try_from(Fraction { p, q }: Fraction) -> Result<Share, Refusal> {
        if p < 1 || p > q || q > 1000 {
            return Err(Refusal::ImpossibleShare);
        }
        Ok(Share { p, q })
    }
}

// The two numbers of a share.
impl From<Share> for Fraction {
    ghost from_gives = { λ s f. f ≡ record { p = s.p; q = s.q } };

    fn from(share: Share) -> Fraction {
        let Share { p, q } = share;
        Fraction { p, q }
    }
}

impl Fraction {
    ghost use Rattle.keys.specs.Shares.{passes};

    // Whether a part is more than p/q of the whole.
    pub fn passed_by(self, part: u32, whole: u32) -> bool
        ensures { result ≡ passes self.p self.q part whole }
    {
        let (part, whole) = (u64::from(part), u64::from(whole));
        part * u64::from(self.q) > whole * u64::from(self.p)
    }
}

impl Share {
    ghost use Rattle.keys.specs.Shares.{passes};

    // Whether a part is more than this share of the whole.
    pub fn passed_by(self, part: u32, whole: u32) -> bool
        ensures { result ≡ passes self.p self.q part whole }
    {
        Fraction::from(self).passed_by(part, whole)
    }
}
