//! Which offers of a platform participants refuse.

ghost use Rattle.std.specs.Prelude.{IsTrue};
ghost use Rattle.offer_fits.specs.Demands.{offer_demands};
ghost use Rattle.sysmem_merge.specs.OfferRead.{IsOfferRead};
ghost use Rattle.sysmem_merge.specs.Reasons.{IsOfferRefused};
ghost use Rattle.value_sources.specs.Sources.{all_asked};

use crate::offer_reason::{OfferGround, OfferReason};
use negotiation_inputs::Platform;
use std::alloc::{AllocError, Global};
use sysmem_formats::{Offer, offer_at};
use sysmem_merge::OfferRead;
use value_sources::NamedParticipant;

/// The offers of a platform, in its order.
pub(crate) fn offers_of(alloc: Global, platform: &Platform) -> Result<Vec<Offer>, AllocError> {
    let mut offers = Vec::new(alloc);
    let most = platform
        .pairs()
        .len()
        .saturating_mul(platform.colours().len())
        .saturating_add(1);
    for index in 0..most {
        if let Some(offer) = offer_at(platform.pairs(), platform.colours(), index) {
            offers.push(offer)?;
        }
    }
    Ok(offers)
}

/// What participants say of an offer together.
pub(crate) fn read_of(offer: &Offer, participants: &[NamedParticipant<'_>]) -> OfferRead
    ensures { IsOfferRead offer.now (offer_demands (all_asked participants.now)) result }
{
    let mut read = OfferRead::new(offer);
    for participant in participants {
        read.add(participant.asked);
    }
    read
}

/// Whether an offer is refused by participants, who are all that there are if `whole` says so.
fn is_refused(offer: &Offer, participants: &[NamedParticipant<'_>], whole: bool) -> bool
    ensures { IsTrue result
        → IsOfferRefused whole offer.now (offer_demands (all_asked participants.now)) }
{
    read_of(offer, participants).first_line(whole).is_some()
}

/// Whether each of some offers is refused by participants, who are all that there are if `whole`
/// says so.
pub(crate) fn are_refused(
    offers: &[Offer],
    participants: &[NamedParticipant<'_>],
    whole: bool,
) -> bool {
    for offer in offers {
        if !is_refused(offer, participants, whole) {
            return false;
        }
    }
    true
}

/// How far an offer is from being taken by so many: how many have no entry for it, and how many
/// lack its colour space, which is nearer. Where somebody takes images only, no image is the
/// farthest.
pub(crate) fn distance_of(
    offer: &Offer,
    reasons: &[OfferReason<'_>],
    participants: usize,
) -> usize {
    let mut far = 0usize;
    for reason in reasons {
        let count = reason.participants().len();
        match reason.ground() {
            OfferGround::NoEntry if *offer == Offer::NoImage => {
                return participants.saturating_mul(2).saturating_add(1);
            }
            OfferGround::NoEntry => far = far.saturating_add(count.saturating_mul(2)),
            OfferGround::NoColour => far = far.saturating_add(count),
            OfferGround::Line(_) => {}
        }
    }
    far
}
