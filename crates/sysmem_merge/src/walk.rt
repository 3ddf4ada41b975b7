//! The first offer of a platform that participants can share.

ghost use Rattle.std.specs.Prelude.{◌≡◌, true, List, Some, slice_get, IfSome, IfNone};
ghost use Rattle.sysmem_formats.specs.declared.offer.Offer.{Offer};
ghost use Rattle.sysmem_merge.specs.Aggregate.{AreSizes, IsKept, AreKept};
ghost use Rattle.sysmem_merge.specs.Demands.{OfferDemand};
ghost use Rattle.sysmem_merge.specs.FirstFit.{IsFirstFit};
ghost use Rattle.sysmem_merge.specs.Fit.{IsBestFit};
ghost use Rattle.sysmem_merge.specs.Offers.{is_named};
ghost use Rattle.sysmem_merge.specs.Reasons.{IsOfferRefused, AreOffersRefused};
ghost use Rattle.negotiation_inputs.specs.Platform.{offers_of};

use crate::fit::best_fit;
use crate::kept::KeptOffer;
use negotiation_inputs::Platform;
use offer_fits::Fit;
use sysmem_formats::{Offer, offer_at};

/// The first of the platform's offers that suits the participants, with its least size and bounds.
pub(crate) fn first_fit(
    platform: &Platform,
    kept: &[KeptOffer],
    least_size: u64,
    greatest_size: u64,
    whole: bool,
) -> Option<Fit>
    ensures first { (ds : List OfferDemand) → AreKept (offers_of platform.now) ds kept.now
        → AreSizes ds least_size greatest_size
        → IfSome result (IsFirstFit whole (offers_of platform.now) ds) }
    ensures none { (ds : List OfferDemand) → AreKept (offers_of platform.now) ds kept.now
        → AreSizes ds least_size greatest_size
        → IfNone result (AreOffersRefused whole (offers_of platform.now) ds) }
{
    for (index, one) in kept.iter().enumerate() {
        if let Some(fit) = fit_at(platform, index, one, least_size, greatest_size, whole) {
            return Some(fit);
        }
    }
    None
}

/// What suits the participants of the offer at this index, if it does.
fn fit_at(
    platform: &Platform,
    index: usize,
    kept: &KeptOffer,
    least_size: u64,
    greatest_size: u64,
    whole: bool,
) -> Option<Fit>
    ensures best { (o : Offer) (ds : List OfferDemand)
        → slice_get (offers_of platform.now) index ≡ Some o → IsKept o ds kept.now
        → AreSizes ds least_size greatest_size → IfSome result (IsBestFit o ds) }
    ensures named { (o : Offer) (ds : List OfferDemand)
        → slice_get (offers_of platform.now) index ≡ Some o → IsKept o ds kept.now
        → IfSome result (λ _. whole ≡ true → is_named o ds ≡ true) }
    ensures none { (o : Offer) (ds : List OfferDemand)
        → slice_get (offers_of platform.now) index ≡ Some o → IsKept o ds kept.now
        → AreSizes ds least_size greatest_size → IfNone result (IsOfferRefused whole o ds) }
{
    let offer = offer_at(platform.pairs(), platform.colours(), index)?;
    fit_of(kept, &offer, least_size, greatest_size, whole)
}

/// The least size and bounds of an offer that suit the participants, if it
/// is named where that is asked for.
pub(crate) fn fit_of(
    kept: &KeptOffer,
    offer: &Offer,
    least_size: u64,
    greatest_size: u64,
    whole: bool,
) -> Option<Fit>
    ensures best { (ds : List OfferDemand) → IsKept offer.now ds kept.now
        → AreSizes ds least_size greatest_size
        → IfSome result (IsBestFit offer.now ds) }
    ensures named { (ds : List OfferDemand) → IsKept offer.now ds kept.now
        → IfSome result (λ _. whole ≡ true → is_named offer.now ds ≡ true) }
    ensures none { (ds : List OfferDemand) → IsKept offer.now ds kept.now
        → AreSizes ds least_size greatest_size
        → IfNone result (IsOfferRefused whole offer.now ds) }
{
    if whole && !kept.is_named(offer) {
        return None;
    }
    best_fit(&kept.bounds, offer, least_size, greatest_size).ok()
}
