//! Whether a platform can provide settings.

ghost use Rattle.std.specs.Prelude.{◌↔◌, IsTrue, Contains};
ghost use Rattle.sysmem_image.specs.Bounds.{IsInRange};
ghost use Rattle.sysmem_memory.specs.Heap.{HeapFacts};
ghost use Rattle.sysmem_memory.specs.Place.{IsPlace};
ghost use Rattle.sysmem_merge.specs.Fit.{OwnWithoutImage};
ghost use Rattle.sysmem_merge.specs.Settings.{IsSound};
ghost use Rattle.sysmem_merge.specs.Sound.{HoldsImage};
ghost use Rattle.negotiation_inputs.specs.Platform.{offers_of};

use crate::settings::Settings;
use negotiation_inputs::Platform;
use sysmem_formats::Offer;
use sysmem_image::{ImageBounds, corner, suits};
use sysmem_memory::Place;

/// Whether the platform can provide the settings: their offer is one of its own and their place one
/// of its places, their size is at least 1 and holds an image which their bounds admit and which is
/// as large as these ask for, and without an image their bounds are those of no entry.
pub fn is_sound(platform: &Platform, settings: &Settings) -> bool
    ensures { IsTrue result
        ↔ ((heap : HeapFacts) × IsSound platform.now heap settings.now) }
{
    settings.size_bytes >= 1
        && is_offered(platform, &settings.offer)
        && is_place(platform, settings.place)
        && is_own(&settings.offer, &settings.bounds)
        && holds_image(&settings.offer, &settings.bounds, settings.size_bytes)
}

/// Whether the offer is one of the platform's.
fn is_offered(platform: &Platform, offer: &Offer) -> bool
    ensures { IsTrue result ↔ Contains (offers_of platform.now) offer.now }
{
    match offer {
        Offer::NoImage => true,
        Offer::Image(pair, colour) => {
            let has_pair = platform.pairs().contains(pair);
            let has_colour = platform.colours().contains(colour);
            has_pair && has_colour
        }
    }
}

/// Whether the place is one of the platform's.
fn is_place(platform: &Platform, place: Place) -> bool
    ensures { IsTrue result ↔ ((heap : HeapFacts) × IsPlace platform.now.heaps place heap) }
{
    match platform.heaps().get(place.heap) {
        Some(heap) => heap.domains.has(place.coherency),
        None => false,
    }
}

/// Whether the bounds are those of no entry where there is no image.
fn is_own(offer: &Offer, bounds: &ImageBounds) -> bool
    ensures { IsTrue result ↔ OwnWithoutImage offer.now bounds.now }
{
    match offer {
        Offer::NoImage => *bounds == ImageBounds::of(offer),
        Offer::Image(_, _) => true,
    }
}

/// Whether the bounds suit the offer and admit an image that is as large as they
/// ask for, and that lies in the size.
fn holds_image(offer: &Offer, bounds: &ImageBounds, size_bytes: u64) -> bool
    ensures { IsTrue result ↔ HoldsImage offer.now bounds.now size_bytes }
{
    let bounds = *bounds;
    numbers(bounds);
    if !suits(&bounds, offer) {
        return false;
    }
    match corner(&bounds, offer) {
        Ok(least) => least.bytes <= u128::from(size_bytes),
        Err(_) => false,
    }
}

/// Each number of bounds is up to its field's greatest value.
fn numbers(bounds: ImageBounds)
    ensures { IsInRange bounds }
{}
