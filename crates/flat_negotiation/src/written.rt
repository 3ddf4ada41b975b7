//! Settings as a C program is told them.

ghost use Rattle.std.specs.Prelude.{◌≡◌, ◌<◌, ◌^◌, IsSome};
ghost use Rattle.drm_images.specs.Codes.{fourcc};
ghost use Rattle.drm_images.specs.Planes.{bytes_of};
ghost use Rattle.flat_negotiation.specs.Written.{CanBeWritten, HasImage, HoldsOffer, IsImageWritten, IsLaid, IsOfferWritten, IsWritten, domain_code, no_image};

use crate::flat::{FlatImage, FlatSettings};
use crate::parts::{colour_bit, format_code, layout_in, no_layout};
use drm_images::bits_of;
use sysmem_formats::{ColourSpace, Offer, Pair};
use sysmem_image::laws::no_corner;
use sysmem_image::{Corner, corner};
use sysmem_memory::CoherencyDomain;
use sysmem_merge::Settings;

/// The number of a coherency domain.
pub fn domain_code(domain: CoherencyDomain) -> u32
    ensures { result ≡ domain_code domain }
{
    match domain {
        CoherencyDomain::Cpu => 1,
        CoherencyDomain::Ram => 2,
        CoherencyDomain::Inaccessible => 4,
    }
}

/// No image: all 0.
pub fn no_image() -> FlatImage
    ensures { result ≡ no_image }
{
    FlatImage {
        modifier: 0,
        format: 0,
        colour: 0,
        width: 0,
        height: 0,
        layout: no_layout(),
    }
}

/// The image of this corner.
fn laid(pair: Pair, colour: ColourSpace, corner: Corner) -> FlatImage
    requires code { IsSome (fourcc pair.format) }
    requires fits { bytes_of pair corner.bytes_per_row corner.height < 2 ^ 64 }
    ensures { IsLaid pair colour corner result }
{
    match layout_in(pair, corner.bytes_per_row, corner.height) {
        Some(layout) => FlatImage {
            modifier: bits_of(pair.modifier),
            format: format_code(pair.format),
            colour: colour_bit(colour),
            width: corner.width,
            height: corner.height,
            layout,
        },
        None => no_image(),
    }
}

/// The smallest image of a pair in these bounds.
#[tactic(auto, using(crate::proofs::Corners::lies_within))]
fn drawn(pair: Pair, colour: ColourSpace, settings: &Settings) -> FlatImage
    requires { HasImage pair colour settings.now }
    ensures { IsImageWritten pair colour settings.now result }
{
    no_corner();
    match corner(&settings.bounds, &Offer::Image(pair, colour)) {
        Ok(corner) => laid(pair, colour, corner),
        Err(_) => no_image(),
    }
}

fn image_of(settings: &Settings) -> FlatImage
    requires { HoldsOffer settings.now.offer settings.now }
    ensures { IsOfferWritten settings.now.offer settings.now result }
{
    match settings.offer {
        Offer::NoImage => no_image(),
        Offer::Image(pair, colour) => drawn(pair, colour, settings),
    }
}

/// The settings in a struct of this size.
pub fn settings_of(struct_size: usize, settings: &Settings) -> FlatSettings
    requires { CanBeWritten settings.now }
    ensures { IsWritten struct_size settings.now result }
{
    FlatSettings {
        struct_size,
        bytes: settings.size_bytes,
        heap: settings.place.heap,
        count: settings.count,
        coherency: domain_code(settings.place.coherency),
        image: image_of(settings),
    }
}
