//! The lines for the offers before that of a choice.

ghost use Rattle.std.specs.Prelude.{◌≡◌, ◌↔◌, true, Contains, IsTrue, MatchResult, Some, slice_get};
ghost use Rattle.verdict_claims.specs.Certificate.{HoldBefore};
ghost use Rattle.verdict_claims.specs.Conflict.{RefusesOffer};
ghost use Rattle.verdict_claims.specs.Fault.{LinesFault};
ghost use Rattle.verdict_claims.specs.Roll.{listed};
ghost use Rattle.negotiation_inputs.specs.Platform.{offers_of};

use super::offer_faults::offer_fault;
use crate::roll::Roll;
use negotiation_inputs::Platform;
use sysmem_formats::{Offer, offer_at};
use sysmem_merge::Settings;
use verdict_claims::{Line, No};

/// Whether this is the platform's offer at the index.
fn is_offer_at(platform: &Platform, index: usize, offer: &Offer) -> bool
    ensures { IsTrue result ↔ (slice_get (offers_of platform.now) index ≡ Some offer.now) }
{
    match offer_at(platform.pairs(), platform.colours(), index) {
        Some(one) => one == *offer,
        None => false,
    }
}

/// Of a line for each offer before that of the settings, where the roll has
/// all participants of the decision.
pub(crate) fn offers_before_fault(
    roll: &Roll<'_>,
    platform: &Platform,
    settings: &Settings,
    lines: &[Line],
) -> Result<(), No>
    requires { Contains (offers_of platform.now) settings.now.offer }
    ensures { MatchResult result
        (λ _. HoldBefore (RefusesOffer true (listed roll.now)) (offers_of platform.now)
        settings.now.offer lines.now)
        (LinesFault (RefusesOffer true (listed roll.now)) (listed roll.now)
        (offers_of platform.now) settings.now.offer lines.now) }
{
    for index in 0..lines.len() {
        if is_offer_at(platform, index, &settings.offer) {
            return Err(No::WrongShape);
        }
        let Some(offer) = offer_at(platform.pairs(), platform.colours(), index) else {
            return Err(No::Missing);
        };
        offer_fault(roll, true, &offer, &lines[index])?;
    }
    if !is_offer_at(platform, lines.len(), &settings.offer) {
        return Err(No::Missing);
    }
    Ok(())
}
