//! Which images participants take, but for their bounds.

ghost use Rattle.std.specs.Prelude.{◌≡◌, ◌↔◌, find, option_map, IsTrue};
ghost use Rattle.std.specs.Option.{option_copied};
ghost use Rattle.flat_negotiation.specs.Nearness.{Take};
ghost use Rattle.flat_negotiation.specs.Own.{IsFirstColour, IsFirstImage, IsOwnOffer, or_else};
ghost use Rattle.flat_negotiation.specs.Takes.{is_for_format, lacks_format, take_format};

use crate::blaming::read_of;
use negotiation_inputs::{Constraints, Platform};
use sysmem_counts::Field;
use sysmem_formats::{ColourSpace, Offer, Pair, PixelFormat};
use sysmem_image::Entry;

fn is_for_format(format: PixelFormat, entry: &Entry) -> bool
    ensures { result ≡ is_for_format format entry.now }
{
    match entry.format {
        None => true,
        Some(own) => own as u32 == format as u32,
    }
}

/// The first entry for a format, in some modifier.
fn entry_for_format<'a>(format: PixelFormat, entries: &'a [Entry]) -> Option<&'a Entry>
    ensures { option_copied result ≡ find (is_for_format format) entries.now }
{
    entries.iter().find(|entry| is_for_format(format, entry))
}

/// Whether a participant has entries, and none for a format.
fn lacks_format(format: PixelFormat, asked: &Constraints) -> bool
    ensures { result ≡ lacks_format format asked.now }
{
    let entries = asked.entries();
    !entries.is_empty() && entry_for_format(format, entries).is_none()
}

/// The first who lacks a format.
fn first_lacking(format: PixelFormat, asked: &[Constraints]) -> Option<&Constraints>
    ensures { option_map (λ one. one.now) result ≡ find (lacks_format format) asked.now }
{
    asked.iter().find(|one| lacks_format(format, one))
}

/// Whether all take the format of an image, in some modifier.
pub(crate) fn take_format(offer: &Offer, asked: &[Constraints]) -> bool
    ensures { result ≡ take_format offer.now asked.now }
{
    match offer {
        Offer::NoImage => false,
        Offer::Image(pair, _) => first_lacking(pair.format, asked).is_none(),
    }
}

/// How near participants come to taking an image, but for their bounds.
#[derive(Clone, Copy)]
pub(crate) enum Nearness {
    /// They take it.
    Whole,
    /// They take its format and modifier.
    InPair,
    /// They take its format, in some modifier.
    InFormat,
}

/// Whether they come so near to an image.
fn take(near: Nearness, asked: &[Constraints], pair: Pair, colour: ColourSpace) -> bool
    ensures { IsTrue result ↔ Take near asked.now pair colour }
{
    let offer = Offer::Image(pair, colour);
    let read = read_of(&offer, asked);
    match near {
        Nearness::Whole => !read.is_line(Field::PixelFormat) && !read.is_line(Field::ColorSpaces),
        Nearness::InPair => !read.is_line(Field::PixelFormat),
        Nearness::InFormat => take_format(&offer, asked),
    }
}

/// The first of the colour spaces in which they come so near to a pair.
fn first_colour(
    near: Nearness,
    colours: &[ColourSpace],
    asked: &[Constraints],
    pair: Pair,
) -> Option<ColourSpace>
    ensures { IsFirstColour (Take near asked.now pair) colours.now result }
{
    for index in 0..colours.len() {
        let colour = &colours[index];
        if take(near, asked, pair, *colour) {
            return Some(*colour);
        }
    }
    None
}

/// The first image of some pairs in some colour spaces to which they come so near.
fn first_image(
    near: Nearness,
    pairs: &[Pair],
    colours: &[ColourSpace],
    asked: &[Constraints],
) -> Option<Offer>
    ensures { IsFirstImage pairs.now colours.now (Take near asked.now) result }
{
    for index in 0..pairs.len() {
        let pair = &pairs[index];
        if let Some(colour) = first_colour(near, colours, asked, *pair) {
            return Some(Offer::Image(*pair, colour));
        }
    }
    None
}

pub(crate) fn or_else(first: Option<Offer>, other: Option<Offer>) -> Option<Offer>
    ensures { result ≡ or_else first other }
{
    match first {
        Some(offer) => Some(offer),
        None => other,
    }
}

/// The image of the platform that they come nearest to taking, but for their bounds.
pub(crate) fn own_offer(platform: &Platform, asked: &[Constraints]) -> Option<Offer>
    ensures { IsOwnOffer platform.now asked.now result }
{
    let (pairs, colours) = (platform.pairs(), platform.colours());
    let whole = first_image(Nearness::Whole, pairs, colours, asked);
    let pair = first_image(Nearness::InPair, pairs, colours, asked);
    let format = first_image(Nearness::InFormat, pairs, colours, asked);
    or_else(whole, or_else(pair, format))
}
