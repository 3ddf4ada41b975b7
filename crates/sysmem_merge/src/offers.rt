//! What is kept of each offer of a platform.

ghost use Rattle.std.specs.Prelude.{◌≡◌, List, [], ◌∷◌, ◌++◌, IfOk, Some, slice_get};
ghost use Rattle.sysmem_formats.specs.declared.offer.Offer.{Offer};
ghost use Rattle.sysmem_merge.specs.Aggregate.{IsKept, AreKept};
ghost use Rattle.sysmem_merge.specs.Demands.{OfferDemand};
ghost use Rattle.negotiation_inputs.specs.Platform.{offers_of};

use crate::kept::KeptOffer;
use negotiation_inputs::Platform;
use std::alloc::{AllocError, Global};
use sysmem_formats::offer_at;
use sysmem_image::{Entry, FirstMatches};

/// What is kept of each offer of the platform before any participant, in the platform's order.
pub(crate) fn kept_offers(alloc: Global, platform: &Platform) -> Result<Vec<KeptOffer>, AllocError>
    ensures { IfOk result (λ kept. AreKept (offers_of platform.now) [] kept.items) }
{
    let mut kept = Vec::new(alloc);
    let mut index = 0;
    while let Some(offer) = offer_at(platform.pairs(), platform.colours(), index) {
        kept.push(KeptOffer::new(&offer))?;
        index += 1;
    }
    Ok(kept)
}

/// Keeps what one more participant asks of each offer by its entries.
pub(crate) fn add_to_offers(kept: &mut [KeptOffer], platform: &Platform, entries: &[Entry])
    ensures { (ds : List OfferDemand) (d : OfferDemand) → d.entries ≡ entries.now
        → AreKept (offers_of platform.now) ds kept.old
        → AreKept (offers_of platform.now) (ds ++ d ∷ []) kept.new }
{
    let matches = FirstMatches::of(entries);
    for (index, one) in kept.iter_mut().enumerate() {
        add_to_offer(one, platform, index, &matches);
    }
}

/// Keeps what one more participant asks of the platform's offer at this index by its entries.
fn add_to_offer(kept: &mut KeptOffer, platform: &Platform, index: usize, matches: &FirstMatches)
    ensures { (o : Offer) (ds : List OfferDemand) (d : OfferDemand)
        → slice_get (offers_of platform.now) index ≡ Some o
        → d.entries ≡ matches.now → IsKept o ds kept.old → IsKept o (ds ++ d ∷ []) kept.new }
{
    if let Some(offer) = offer_at(platform.pairs(), platform.colours(), index) {
        kept.add(&offer, matches);
    }
}
