//! Why participants refuse an offer, in words.

use crate::later::{put_later, put_later_size};
use crate::listed::has_format;
use crate::offer_reason::{OfferGround, OfferReason};
use crate::rows::{mark_after, put_those};
use explanation_text::wording::{put_few, put_joined};
use explanation_text::{ListBuilder, Text, TextBuilder};
use std::alloc::{AllocError, Global};
use sysmem_counts::Field;
use sysmem_formats::{ColourSpace, Modifier, Offer, PixelFormat};
use sysmem_image::{ColourSet, entry_for};
use value_sources::{DerivedNumber, NamedParticipant, Side, Wish, Wishes, put_has};

/// The name of an offer: `NV12 LINEAR REC709`, or `without an image`.
pub(crate) fn offer_name(alloc: Global, offer: &Offer) -> TextBuilder {
    match offer {
        Offer::NoImage => TextBuilder::of(alloc, "without an image"),
        Offer::Image(pair, colour) => {
            let mut words = TextBuilder::new(alloc);
            words.format(pair.format).put(" ");
            words.modifier(pair.modifier).put(" ").put(colour.name());
            words
        }
    }
}

/// The name of what an entry takes: `NV12 LINEAR`.
pub(crate) fn pair_name(
    alloc: Global,
    format: Option<PixelFormat>,
    modifier: Option<Modifier>,
) -> TextBuilder {
    let mut words = TextBuilder::new(alloc);
    match format {
        Some(format) => words.format(format).put(" "),
        None => words.put("any format "),
    };
    match modifier {
        Some(modifier) => words.modifier(modifier),
        None => words.put("DO_NOT_CARE"),
    };
    words
}

/// Puts the sentence of a reason against an offer, with the numbers of those whom it names, into an
/// empty text.
pub(crate) fn put_offer_reason(text: &mut TextBuilder, reason: &OfferReason<'_>) {
    let offer = reason.offer();
    let participants = reason.participants();
    match reason.ground() {
        OfferGround::NoEntry => put_no_entry(text, &offer, participants),
        OfferGround::NoColour => put_colours(text, &offer, participants),
        OfferGround::Line(field) => put_line(
            text,
            Wishes {
                participants,
                offer,
            },
            field,
        ),
    }
}

/// Puts the sentence of a line against an offer into an empty text.
fn put_line(text: &mut TextBuilder, wishes: Wishes<'_, '_>, field: Field) {
    let participants = wishes.participants;
    match field {
        Field::UnnamedPixelFormat => put_unnamed(text, participants, "format"),
        Field::UnnamedPixelFormatModifier => put_unnamed(text, participants, "modifier"),
        Field::UnnamedColorSpace => put_unnamed(text, participants, "colour space"),
        Field::RequiredMinSize => put_required(text, wishes),
        Field::MaxSize => put_too_large(text, wishes),
        Field::MaxWidthTimesHeight | Field::MaxBytesPerRow | Field::MaxSizeBytes => {
            put_too_great(text, wishes, field)
        }
        _ => wishes.put_no_multiple(text, field),
    }
}

/// Puts who has no entry for an offer after a text, with the modifiers that they take its format
/// with.
fn put_no_entry(text: &mut TextBuilder, offer: &Offer, participants: &[NamedParticipant<'_>]) {
    let Offer::Image(pair, _) = offer else {
        return put_has(text, participants, "takes images only", "take images only");
    };
    let mut none = ListBuilder::new(text.alloc());
    for participant in participants {
        match modifiers_of(text.alloc(), participant, pair.format) {
            Ok(modifiers) if modifiers.is_empty() => none.add(*participant),
            Ok(modifiers) => put_only_as(text, participant, pair.format, &modifiers),
            Err(AllocError) => text.refuse(),
        }
    }
    match none.done() {
        Ok(none) => put_those(text, &none, "has no entry for it", "have no entry for it"),
        Err(AllocError) => text.refuse(),
    }
}

/// Puts with which modifiers alone a participant takes a format after a text.
fn put_only_as(
    text: &mut TextBuilder,
    participant: &NamedParticipant<'_>,
    format: PixelFormat,
    modifiers: &[Text],
) {
    let mark = mark_after(text.as_str());
    text.put(mark)
        .name(participant.called())
        .put(" takes ")
        .format(format)
        .put(" only as ");
    put_joined(text, modifiers, "and")
}

/// The modifiers that a participant takes a format with.
fn modifiers_of(
    alloc: Global,
    participant: &NamedParticipant<'_>,
    format: PixelFormat,
) -> Result<Vec<Text>, AllocError> {
    let mut names = ListBuilder::new(alloc);
    for entry in participant.asked.entries() {
        if has_format(entry, format) {
            names.add_text(modifier_words(alloc, entry.modifier));
        }
    }
    names.done()
}

/// The name of a modifier that an entry takes.
fn modifier_words(alloc: Global, modifier: Option<Modifier>) -> TextBuilder {
    let mut words = TextBuilder::new(alloc);
    match modifier {
        Some(modifier) => words.modifier(modifier),
        None => words.put("DO_NOT_CARE"),
    };
    words
}

/// Puts in which colour spaces participants take an offer after a text.
fn put_colours(text: &mut TextBuilder, offer: &Offer, participants: &[NamedParticipant<'_>]) {
    let mut done: Vec<ColourSet> = Vec::new(text.alloc());
    for participant in participants {
        match entry_for(participant.asked.entries(), offer) {
            Some(entry) if !done.contains(&entry.colours) => {
                put_only_in(text, offer, participants, entry.colours);
                if done.push(entry.colours).is_err() {
                    return text.refuse();
                }
            }
            _ => {}
        }
    }
}

/// Puts who takes an offer in these colour spaces only after a text.
fn put_only_in(
    text: &mut TextBuilder,
    offer: &Offer,
    participants: &[NamedParticipant<'_>],
    colours: ColourSet,
) {
    let those = match with_colours(text.alloc(), offer, participants, colours) {
        Ok(those) => those,
        Err(AllocError) => return text.refuse(),
    };
    put_those(text, &those, "takes it only in ", "take it only in ");
    put_colour_names(text, colours);
    put_later(text, offer, &those)
}

/// Those who take an offer in these colour spaces.
fn with_colours<'a>(
    alloc: Global,
    offer: &Offer,
    participants: &[NamedParticipant<'a>],
    colours: ColourSet,
) -> Result<Vec<NamedParticipant<'a>>, AllocError> {
    let mut those = Vec::new(alloc);
    for participant in participants {
        match entry_for(participant.asked.entries(), offer) {
            Some(entry) if entry.colours == colours => those.push(*participant)?,
            _ => {}
        }
    }
    Ok(those)
}

fn put_colour_names(text: &mut TextBuilder, colours: ColourSet) {
    let mut names: ListBuilder<&str> = ListBuilder::new(text.alloc());
    for colour in &ColourSpace::ALL {
        if colours.lists(*colour) {
            names.add(colour.name());
        }
    }
    match names.done() {
        Ok(names) => put_few(text, &names, 4),
        Err(AllocError) => text.refuse(),
    }
}

/// Puts that nobody names a part of an image's name after a text.
fn put_unnamed(text: &mut TextBuilder, participants: &[NamedParticipant<'_>], what: &str) {
    if !participants.is_empty() {
        put_has(text, participants, "takes", "take");
        text.put(" any ").put(what).put(", but ");
    }
    text.put("nobody names the ").put(what);
}

/// Puts that a least size is above what somebody will put after a text.
fn put_required(text: &mut TextBuilder, wishes: Wishes<'_, '_>) {
    put_required_side(text, wishes, Side::Width);
    put_required_side(text, wishes, Side::Height)
}

fn put_required_side(text: &mut TextBuilder, wishes: Wishes<'_, '_>, side: Side) {
    let low = wishes.greatest(Wish::Least(side));
    let top = wishes.least(Wish::RequiredLeast(side));
    let (Some((takes, least)), Some((puts, most))) = (low, top) else {
        return;
    };
    if least <= most {
        return;
    }
    let mark = mark_after(text.as_str());
    text.put(mark)
        .name(takes.called())
        .put(" takes a ")
        .put(side.name());
    text.put(" of ")
        .put_number(least)
        .put(" or more (")
        .field(Field::MinSize)
        .put("), ");
    text.name(puts.called())
        .put(" will put ")
        .put_number(most)
        .put(" (")
        .field(Field::RequiredMinSize)
        .put(")");
}

/// Puts that the smallest image is larger than somebody takes after a text.
fn put_too_large(text: &mut TextBuilder, wishes: Wishes<'_, '_>) {
    put_too_large_side(text, wishes, Side::Width);
    put_too_large_side(text, wishes, Side::Height)
}

fn put_too_large_side(text: &mut TextBuilder, wishes: Wishes<'_, '_>, side: Side) {
    let Some((who, most)) = wishes.least(Wish::Most(side)) else {
        return;
    };
    let least = match wishes.side(text.alloc(), side) {
        Ok(least) => least,
        Err(AllocError) => return text.refuse(),
    };
    if least.value <= u128::from(most) {
        return;
    }
    let mark = mark_after(text.as_str());
    text.put(mark)
        .put("the least ")
        .put(side.name())
        .put(" is ");
    text.put_number(least.value)
        .put(": ")
        .put_text(&least.why)
        .put("; ");
    text.name(who.called())
        .put(" takes at most ")
        .put_number(most)
        .put(" (")
        .field(Field::MaxSize)
        .put(")");
    put_later_size(text, wishes, &who, side, least.value)
}

/// The least width or height of an image.
pub(crate) fn least_side(
    alloc: Global,
    wishes: Wishes<'_, '_>,
    side: Side,
) -> Result<u128, AllocError> {
    Ok(wishes.side(alloc, side)?.value)
}

/// Puts how great the smallest image, row or buffer is, of which a field bounds the greatest, and
/// who takes less, after a text.
fn put_too_great(text: &mut TextBuilder, wishes: Wishes<'_, '_>, field: Field) {
    let alloc = text.alloc();
    let most = match field {
        Field::MaxWidthTimesHeight => {
            put_pixels(text, wishes);
            wishes.least(Wish::MostPixels)
        }
        Field::MaxBytesPerRow => {
            put_derived(text, "the least row is", wishes.row(alloc, true), "bytes");
            wishes.least(Wish::MostRow)
        }
        _ => {
            put_derived(
                text,
                "a buffer has",
                wishes.size(alloc, true),
                "bytes at least",
            );
            wishes.greatest_size()
        }
    };
    if let Some((who, most)) = most {
        text.put("; ")
            .name(who.called())
            .put(" takes at most ")
            .put_number(most);
        text.put(" (").field(field).put(")");
    }
}

fn put_pixels(text: &mut TextBuilder, wishes: Wishes<'_, '_>) {
    let alloc = text.alloc();
    let width = least_side(alloc, wishes, Side::Width);
    let height = least_side(alloc, wishes, Side::Height);
    match (width, height, wishes.why_size(alloc)) {
        (Ok(width), Ok(height), Ok(why)) => {
            text.put("the smallest image has ")
                .put_number(width)
                .put("x")
                .put_number(height);
            text.put(" = ").put_number(width.saturating_mul(height));
            text.put(" pixels: ").put_text(&why);
        }
        _ => text.refuse(),
    }
}

/// Puts a number of something, and where it comes from, after a text; refuses the text where memory
/// was refused to that.
fn put_derived(
    text: &mut TextBuilder,
    start: &str,
    derived: Result<DerivedNumber, AllocError>,
    unit: &str,
) {
    match derived {
        Ok(DerivedNumber { value, why }) => {
            text.put(start)
                .put(" ")
                .put_number(value)
                .put(" ")
                .put(unit)
                .put(": ")
                .put_text(&why);
        }
        Err(AllocError) => text.refuse(),
    }
}
