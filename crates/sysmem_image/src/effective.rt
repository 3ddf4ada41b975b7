//! The bounds that an entry puts on an offer.

ghost use Rattle.std.specs.Prelude.{◌≡◌, ◌≤◌};
ghost use Rattle.sysmem_image.specs.Entries.{effective, pixel_multiple};
ghost use Rattle.sysmem_image.specs.Size.{most_multiple};

use crate::bounds::ImageBounds;
use crate::entry::Entry;
use sysmem_formats::{Offer, bytes_per_pixel};

/// The bounds that an entry puts on an offer: its own, whose row divisor is a multiple of the bytes
/// of a pixel too where a row must end at one.
pub(crate) fn effective(entry: &Entry, offer: &Offer) -> ImageBounds
    ensures { result ≡ effective offer.now entry.now }
{
    let mut bounds = entry.bounds.asked;
    if entry.bounds.at_pixel_boundary {
        bounds.bytes_per_row_divisor = pixel_multiple(
            bytes_per_pixel(offer),
            bounds.bytes_per_row_divisor,
        );
    }
    bounds
}

/// The least common multiple of a pixel's bytes and a row divisor.
fn pixel_multiple(pixel: u32, divisor: u32) -> u32
    requires some_pixel { 1 ≤ pixel }
    requires small_pixel { pixel ≤ 4 }
    requires some_divisor { 1 ≤ divisor }
    requires small_divisor { divisor ≤ most_multiple }
    ensures { result ≡ pixel_multiple pixel divisor }
{
    if divisor % pixel == 0 {
        divisor
    } else if 2 * divisor % pixel == 0 {
        2 * divisor
    } else {
        pixel * divisor
    }
}
