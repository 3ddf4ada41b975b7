//! The order of a platform's offers.

ghost use Rattle.std.specs.Prelude.{◌≡◌, slice_get};
ghost use Rattle.sysmem_formats.specs.Offers.{offers, images};

use crate::colour_space::ColourSpace;
use crate::offer::{Offer, Pair};

/// The offer at this place of a platform's order, or `None` after the last one: first no image,
/// then each pair with each colour space, pairs before colour spaces.
pub fn offer_at(pairs: &[Pair], colours: &[ColourSpace], index: usize) -> Option<Offer>
    ensures { result ≡ slice_get (offers pairs.now colours.now) index }
{
    if index == 0 {
        return Some(Offer::NoImage);
    }
    image_at(pairs, colours, index - 1)
}

/// The offer at this place among those with an image.
fn image_at(pairs: &[Pair], colours: &[ColourSpace], index: usize) -> Option<Offer>
    ensures { result ≡ slice_get (images pairs.now colours.now) index }
{
    let count = colours.len();
    if count == 0 {
        return None;
    }
    let place = index / count;
    if place >= pairs.len() {
        return None;
    }
    Some(Offer::Image(pairs[place], colours[index % count]))
}
