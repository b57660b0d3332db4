ghost use Rattle.std.specs.Prelude.{◌≡◌, List};
ghost use Rattle.listings.specs.Right.{Promise};
ghost use Rattle.meter.specs.Runs.{verdict_rule};

use crate::verdict::Verdict;
use keys::key::Key;
use keys::refusal::Refusal;
use keys::share::{Fraction, Share};
use tally::Tally;

// Asks a tally for all that binds its answers. The numbers are not used, only what comes with them:
// every list that the tally vouches for has its length, ranges and ceiling as promised.
pub(crate) fn ask_all<A: Key, T: Tally<Key = A>>(tally: &T)
    ensures { (xs : List A) → T.Tally.vouches tally.now xs → Promise A.Key T.Tally tally.now xs }
{
    let _ = tally.arrivals();
    let _ = tally.width();
    let _ = tally.ceiling();
}

// The verdict on a reader at a share of T; refused for an impossible share.
pub(crate) fn judge<A: Key, T: Tally<Key = A>>(
    tally: &T,
    reader: A,
    share: Fraction,
) -> Result<Verdict, Refusal>
    ensures { result ≡ verdict_rule T.Tally share.p share.q tally.now reader }
{
    Share::try_from(share)?;
    Ok(Verdict::on(share, tally.within(), tally.range(reader)))
}
