//! The least size that bounds on an offer's images leave.

ghost use Rattle.std.specs.Prelude.{List, All, IfOk, IfErr};
ghost use Rattle.sysmem_image.specs.Merged.{MergedOf};
ghost use Rattle.offer_fits.specs.Demands.{OfferDemand};
ghost use Rattle.offer_fits.specs.Fit.{IsBestFit};
ghost use Rattle.offer_fits.specs.OfferLines.{IsOfferLine};
ghost use Rattle.offer_fits.specs.Offers.{IsListed, bounds_asked};
ghost use Rattle.offer_fits.specs.Sizes.{AreSizes};

use sysmem_counts::Field;
use sysmem_formats::Offer;
use sysmem_image::{ImageBounds, corner};

/// What settings say of images: an offer, the bounds on its images, and a buffer's size for it in
/// bytes.
#[derive(Clone, Copy, Debug, PartialEq, Eq)]
pub struct Fit {
    pub offer: Offer,
    pub bounds: ImageBounds,
    pub size_bytes: u64,
}

/// The offer with the merged bounds of participants who all take it, and the least size in bytes,
/// at least 1, that holds the bounds' corner and that they take, from `least_size` to
/// `greatest_size`. Where there is none, the field whose line in the table of conflicts is true.
#[inline]
pub fn fit_of_bounds(
    bounds: &ImageBounds,
    offer: &Offer,
    least_size: u64,
    greatest_size: u64,
) -> Result<Fit, Field>
    ensures best { (ds : List OfferDemand)
        → MergedOf offer.now (bounds_asked offer.now ds) bounds.now → All (IsListed offer.now) ds
        → AreSizes ds least_size greatest_size
        → IfOk result (IsBestFit offer.now ds) }
    ensures line { (ds : List OfferDemand)
        → MergedOf offer.now (bounds_asked offer.now ds) bounds.now → All (IsListed offer.now) ds
        → AreSizes ds least_size greatest_size
        → IfErr result (λ field. IsOfferLine field offer.now ds) }
{
    let bounds = *bounds;
    let corner = corner(&bounds, offer)?;
    let bytes = corner.bytes.max(u128::from(least_size)).max(1);
    if bytes > u128::from(greatest_size) {
        return Err(Field::MaxSizeBytes);
    }
    Ok(Fit {
        offer: *offer,
        bounds,
        size_bytes: bytes as u64,
    })
}
