//! The least size and bounds of one offer that participants can share, by what is kept of it.

ghost use Rattle.std.specs.Prelude.{List, IfOk, IfErr};
ghost use Rattle.sysmem_merge.specs.Aggregate.{AreSizes, AreKeptBounds};
ghost use Rattle.sysmem_merge.specs.Demands.{OfferDemand};
ghost use Rattle.sysmem_merge.specs.Fit.{IsBestFit};
ghost use Rattle.sysmem_merge.specs.Reasons.{IsOfferLine};

use crate::kept::KeptBounds;
use offer_fits::{Fit, fit_of_bounds};
use sysmem_counts::Field;
use sysmem_formats::Offer;

/// What `fit_of_bounds` gives, where merged bounds are kept of the offer; where a field is kept in
/// their place, that field, whose line in the table of conflicts is true.
pub(crate) fn best_fit(
    kept: &KeptBounds,
    offer: &Offer,
    least_size: u64,
    greatest_size: u64,
) -> Result<Fit, Field>
    ensures best { (ds : List OfferDemand) → AreKeptBounds offer.now ds kept.now
        → AreSizes ds least_size greatest_size
        → IfOk result (IsBestFit offer.now ds) }
    ensures line { (ds : List OfferDemand) → AreKeptBounds offer.now ds kept.now
        → AreSizes ds least_size greatest_size
        → IfErr result (λ field. IsOfferLine field offer.now ds) }
{
    match kept {
        KeptBounds::Merged(bounds) => fit_of_bounds(bounds, offer, least_size, greatest_size),
        KeptBounds::Refused(field) => Err(*field),
    }
}
