ghost use Rattle.std.specs.Prelude.{◌≡◌, Some};
ghost use Rattle.meter.specs.Verdicts.{verdict_of, word_of};

use keys::share::Fraction;
use std::fmt;

// Whether a reader is above a share, as far as its range tells.
#[derive(Clone, Copy, Debug, PartialEq, Eq)]
pub enum Verdict {
    // It is above.
    Over,
    // It is not.
    Within,
    // The range does not tell.
    Unsure,
}

impl Verdict {
    // The verdict on a range at a share p/q of t.
    pub fn on(share: Fraction, t: u32, range: (u32, u32)) -> Verdict
        ensures { result ≡ verdict_of share.p share.q t range }
    {
        if share.passed_by(range.0, t) {
            Verdict::Over
        } else if !share.passed_by(range.1, t) {
            Verdict::Within
        } else {
            Verdict::Unsure
        }
    }
}

// A verdict in small letters.
impl fmt::Display for Verdict {
    ghost output = { λ v. Some (word_of v) };

    fn fmt<W: fmt::Write>(&self, f: &mut fmt::Formatter<W>) -> fmt::Result {
        f.write_str(match self {
            Verdict::Over => "over",
            Verdict::Within => "within",
            Verdict::Unsure => "unsure",
        })
    }
}
