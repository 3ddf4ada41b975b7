//! The first test that a line for an offer fails.

ghost use Rattle.std.specs.Prelude.{MatchResult};
ghost use Rattle.verdict_claims.specs.Conflict.{RefusesOffer};
ghost use Rattle.verdict_claims.specs.Fault.{LineFaults};
ghost use Rattle.verdict_claims.specs.Roll.{listed};

use super::names::are_named;
use super::offer_lines::refuses_offer;
use crate::roll::Roll;
use sysmem_formats::Offer;
use verdict_claims::{Line, No};

/// Of a line that says that an offer is refused.
pub(crate) fn offer_fault(
    roll: &Roll<'_>,
    whole: bool,
    offer: &Offer,
    line: &Line,
) -> Result<(), No>
    ensures { MatchResult result
        (λ _. RefusesOffer whole (listed roll.now) offer.now line.now)
        (LineFaults (listed roll.now) (RefusesOffer whole (listed roll.now) offer.now line.now)
        line.now) }
{
    if !are_named(roll, line.nodes()) {
        return Err(No::WrongNode);
    }
    if !refuses_offer(roll, whole, offer, line) {
        return Err(No::NoConflict);
    }
    Ok(())
}
