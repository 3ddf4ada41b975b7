//! A participant's entry for an offer.

ghost use Rattle.std.specs.Prelude.{◌≡◌};
ghost use Rattle.std.specs.Option.{option_copied};
ghost use Rattle.sysmem_image.specs.Entries.{matches, agrees_format, agrees_modifier, first_match, takes_colour};

use crate::entry::Entry;
use sysmem_formats::{Modifier, Offer, PixelFormat};

/// A participant's entry for an offer: the first whose format and modifier match, or
/// `None`. No entry is one for no image.
pub fn entry_for<'a>(entries: &'a [Entry], offer: &Offer) -> Option<&'a Entry>
    ensures { option_copied result ≡ first_match offer.now entries.now }
{
    entries.iter().find(|entry| matches(entry, offer))
}

/// Whether the entry's colour spaces contain the offer's, or `DO_NOT_CARE`. True for no image.
pub fn takes_colour(entry: &Entry, offer: &Offer) -> bool
    ensures { result ≡ takes_colour offer.now entry.now }
{
    match offer {
        Offer::NoImage => true,
        Offer::Image(_, colour) => entry.colours.accepts(*colour),
    }
}

/// Whether the entry's format and modifier are those of the offer, or `DO_NOT_CARE`.
fn matches(entry: &Entry, offer: &Offer) -> bool
    ensures { result ≡ matches offer.now entry.now }
{
    match offer {
        Offer::NoImage => false,
        Offer::Image(pair, _) => {
            agrees_format(pair.format, entry.format)
                && agrees_modifier(pair.modifier, entry.modifier)
        }
    }
}

fn agrees_format(own: PixelFormat, format: Option<PixelFormat>) -> bool
    ensures { result ≡ agrees_format own format }
{
    match format {
        Some(format) => format as u32 == own as u32,
        None => true,
    }
}

fn agrees_modifier(own: Modifier, modifier: Option<Modifier>) -> bool
    ensures { result ≡ agrees_modifier own modifier }
{
    match modifier {
        Some(modifier) => modifier as u32 == own as u32,
        None => true,
    }
}
