//! The first offer of a pair that participants can share, by what is kept of the pair.

ghost use Rattle.std.specs.Prelude.{◌≡◌, Bool, true, false, List, map, Some, slice_get, IfSome, IfNone};
ghost use Rattle.sysmem_formats.specs.declared.colour_space.ColourSpace.{ColourSpace as Colour};
ghost use Rattle.sysmem_formats.specs.declared.offer.Offer.TheVariants.{Image};
ghost use Rattle.sysmem_formats.specs.declared.offer.Pair.{Pair as APair};
ghost use Rattle.sysmem_merge.specs.Aggregate.{AreSizes};
ghost use Rattle.sysmem_merge.specs.Demands.{OfferDemand};
ghost use Rattle.sysmem_merge.specs.FirstFit.{IsFirstFit};
ghost use Rattle.sysmem_merge.specs.Fit.{IsBestFit};
ghost use Rattle.sysmem_merge.specs.Offers.{is_named};
ghost use Rattle.sysmem_merge.specs.Pairs.{IsPairKept, has};
ghost use Rattle.sysmem_merge.specs.Reasons.{IsOfferRefused, AreOffersRefused};

use crate::fit::best_fit;
use crate::kept::KeptBounds;
use crate::pair::KeptPair;
use negotiation_inputs::Platform;
use offer_fits::Fit;
use sysmem_formats::{ColourSpace, Offer, Pair};

/// The first offer of the pair at this index that suits the participants.
pub(crate) fn fit_at(
    platform: &Platform,
    index: usize,
    kept: &KeptPair,
    least_size: u64,
    greatest_size: u64,
    whole: bool,
) -> Option<Fit>
    ensures first { (pair : APair) (ds : List OfferDemand)
        → slice_get platform.now.pairs index ≡ Some pair → IsPairKept pair ds kept.now
        → AreSizes ds least_size greatest_size
        → IfSome result (IsFirstFit whole (map (Image pair) platform.now.colours) ds) }
    ensures none { (pair : APair) (ds : List OfferDemand)
        → slice_get platform.now.pairs index ≡ Some pair → IsPairKept pair ds kept.now
        → AreSizes ds least_size greatest_size
        → IfNone result (AreOffersRefused whole (map (Image pair) platform.now.colours) ds) }
{
    let Some(pair) = platform.pairs().get(index) else {
        return None;
    };
    fit_of_pair(
        kept,
        *pair,
        platform.colours(),
        least_size,
        greatest_size,
        whole,
    )
}

/// The first of the pair's offers, in the order of the colour spaces, that suits the participants.
fn fit_of_pair(
    kept: &KeptPair,
    pair: Pair,
    colours: &[ColourSpace],
    least_size: u64,
    greatest_size: u64,
    whole: bool,
) -> Option<Fit>
    ensures first { (ds : List OfferDemand) → IsPairKept pair ds kept.now
        → AreSizes ds least_size greatest_size
        → IfSome result (IsFirstFit whole (map (Image pair) colours.now) ds) }
    ensures none { (ds : List OfferDemand) → IsPairKept pair ds kept.now
        → AreSizes ds least_size greatest_size
        → IfNone result (AreOffersRefused whole (map (Image pair) colours.now) ds) }
{
    if let KeptBounds::Refused(_) = kept.bounds {
        return None;
    }
    if whole && !kept.is_named_itself() {
        return None;
    }
    for colour in colours {
        if is_shared(kept, *colour, whole) {
            return fit_in_colour(kept, pair, *colour, least_size, greatest_size);
        }
    }
    None
}

/// Whether everybody takes the pair's offer in a colour space and, if that is asked for, each part
/// of its name is named.
fn is_shared(kept: &KeptPair, colour: ColourSpace, whole: bool) -> bool
    ensures taken { result ≡ true → has kept.now.taken colour ≡ true }
    ensures named { (pair : APair) (ds : List OfferDemand) → IsPairKept pair ds kept.now
        → result ≡ true → whole ≡ true → is_named (Image pair colour) ds ≡ true }
    ensures none { (pair : APair) (ds : List OfferDemand) → IsPairKept pair ds kept.now
        → result ≡ false → IsOfferRefused whole (Image pair colour) ds }
{
    if !kept.taken.has(colour) {
        return false;
    }
    if whole && !kept.is_named(colour) {
        return false;
    }
    true
}

/// The least size and bounds of the pair's offer in a colour space that everybody takes. Where
/// there are none, none of its offers suits the participants.
fn fit_in_colour(
    kept: &KeptPair,
    pair: Pair,
    colour: ColourSpace,
    least_size: u64,
    greatest_size: u64,
) -> Option<Fit>
    requires { has kept.now.taken colour ≡ true }
    ensures best { (ds : List OfferDemand) → IsPairKept pair ds kept.now
        → AreSizes ds least_size greatest_size
        → IfSome result (IsBestFit (Image pair colour) ds) }
    ensures none { (whole : Bool) (cs : List Colour) (ds : List OfferDemand)
        → IsPairKept pair ds kept.now → AreSizes ds least_size greatest_size
        → IfNone result (AreOffersRefused whole (map (Image pair) cs) ds) }
{
    let offer = Offer::Image(pair, colour);
    match best_fit(&kept.bounds, &offer, least_size, greatest_size) {
        Ok(fit) => Some(fit),
        Err(_) => None,
    }
}
