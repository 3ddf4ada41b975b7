//! Why the settings that were decided before don't suit those who come late.

ghost use Rattle.std.specs.Prelude.{false, [], ◌∷◌, All, Contains, IfOk, IsTrue};
ghost use Rattle.settings_reasons.specs.True.{IsGround};
ghost use Rattle.sysmem_memory.specs.PlaceTable.{place_fields};
ghost use Rattle.sysmem_merge.specs.Failing.{FailsOn};

use crate::amounts::{Amount, amount_at, put_amount};
use crate::misfit::Misfit;
use crate::offer_reason::{OfferGround, OfferReason};
use crate::offer_words::{offer_name, put_offer_reason};
use crate::offering::{are_refused, offers_of};
use crate::place_reason::PlaceReason;
use crate::placing::{put_place, put_place_reason};
use crate::refusing::{Parties, add_offers};
use crate::rows::put_those;
use explanation_text::{Items, Label, ListBuilder, TextBuilder};
use negotiation_inputs::{Constraints, Platform};
use std::alloc::{AllocError, Global};
use sysmem_counts::Field;
use sysmem_formats::Offer;
use sysmem_image::{bounds_table, entry_for, takes_colour};
use sysmem_memory::PLACE_FIELDS;
use sysmem_merge::{Settings, fails_in};
use value_sources::NamedParticipant;

macro_rules! failing_fields {
    (() $($name:ident: $shape:ident $rule:ident $field:ident $absent:ident $range:ident,)*) => {
        &[
            Field::PixelFormat,
            Field::ColorSpaces,
            $(Field::$field,)*
            Field::MinSizeBytes,
            Field::MaxSizeBytes,
        ]
    };
}

/// The fields in which settings may fail a participant, in the order in which they are looked at, but
/// for those by which a place is refused, which come last.
const FIELDS: &[Field] = bounds_table!(failing_fields!());

/// Tells in which fields settings fail participants who come late, and who of those before refuses
/// the images that they take.
pub fn list_misfits(
    items: &mut Items,
    platform: &Platform,
    participants: &[NamedParticipant<'_>],
    before: &[NamedParticipant<'_>],
    settings: &Settings,
) -> Result<(), AllocError> {
    let start = items.len();
    for participant in participants {
        add_misfit(items, platform, participant, before, settings)?;
    }
    if items.len() == start {
        let mut words = TextBuilder::new(items.alloc());
        words
            .value(u128::from(settings.count))
            .put(" buffers were decided: too few for these");
        words.put(" beside all who came before, or more than one of these takes");
        items.say(1, Label::Count, words);
    }
    Ok(())
}

fn add_misfit(
    items: &mut Items,
    platform: &Platform,
    participant: &NamedParticipant<'_>,
    before: &[NamedParticipant<'_>],
    settings: &Settings,
) -> Result<(), AllocError> {
    for field in FIELDS.iter().chain(PLACE_FIELDS.iter()) {
        let Some(misfit) = Misfit::of(platform, settings, participant, *field) else {
            continue;
        };
        let mut text = misfit_text(items.alloc(), &misfit);
        put_deciding(&mut text, &misfit, before);
        items.say(1, Label::Misfit, text);
        if matches!(field, Field::PixelFormat | Field::ColorSpaces) {
            add_refused_images(items, platform, participant, before)?;
        }
    }
    Ok(())
}

/// A sentence on a field in which settings fail a participant.
fn misfit_text(alloc: Global, misfit: &Misfit<'_, '_>) -> TextBuilder {
    let mut text = TextBuilder::new(alloc);
    put_misfit(&mut text, misfit);
    text
}

/// Tells who of those before refuses the images that a participant takes; or that nobody does, and
/// the platform has what was decided before them.
fn add_refused_images(
    items: &mut Items,
    platform: &Platform,
    participant: &NamedParticipant<'_>,
    before: &[NamedParticipant<'_>],
) -> Result<(), AllocError> {
    let offers = taken(items.alloc(), platform, participant.asked)?;
    for offer in &offers {
        if !are_refused(&[*offer], before, true) {
            add_unrefused(items, offer);
            return Ok(());
        }
    }
    let parties = Parties {
        platform,
        participants: before,
        whole: true,
    };
    add_offers(items, parties, &offers, " offers that it takes")
}

/// Tells that nobody refuses an offer.
fn add_unrefused(items: &mut Items, offer: &Offer) {
    let mut words = offer_name(items.alloc(), offer);
    words.put(" is refused by nobody before: the platform has what was decided before it");
    items.say(2, Label::Plain, words)
}

/// The images of a platform that a participant takes.
fn taken(
    alloc: Global,
    platform: &Platform,
    asked: &Constraints,
) -> Result<Vec<Offer>, AllocError> {
    let offers = offers_of(alloc, platform)?;
    let mut taken = ListBuilder::new(alloc);
    for offer in &offers {
        match offer {
            Offer::Image(_, _) if takes(asked, offer) => taken.add(*offer),
            _ => {}
        }
    }
    taken.done()
}

/// Whether a participant has an entry for an offer, in its colour space.
fn takes(asked: &Constraints, offer: &Offer) -> bool {
    match entry_for(asked.entries(), offer) {
        Some(entry) => takes_colour(entry, offer),
        None => false,
    }
}

/// The fields in which settings fail a participant.
pub fn failing(
    alloc: Global,
    platform: &Platform,
    settings: &Settings,
    asked: &Constraints,
) -> Result<Vec<Field>, AllocError>
    ensures { IfOk result (λ fields.
        All (λ field. FailsOn field platform.now settings.now asked.now) fields.items) }
{
    let mut fields = Vec::new(alloc);
    for field in FIELDS.iter().chain(PLACE_FIELDS.iter()) {
        if fails_in(*field, platform, settings, asked) {
            fields.push(*field)?;
        }
    }
    Ok(fields)
}

/// Puts a sentence on a field in which settings fail a participant into an empty text.
fn put_misfit(text: &mut TextBuilder, misfit: &Misfit<'_, '_>) {
    match misfit.field() {
        Field::PixelFormat => put_offer(text, misfit, OfferGround::NoEntry),
        Field::ColorSpaces => put_offer(text, misfit, OfferGround::NoColour),
        Field::MinSizeBytes | Field::MaxSizeBytes => put_size(text, misfit),
        _ => put_part(text, misfit),
    }
}

/// Puts a sentence on a field by which places are refused, or on a bound.
fn put_part(text: &mut TextBuilder, misfit: &Misfit<'_, '_>) {
    if is_of_place(misfit.field()) {
        return put_heap(text, misfit);
    }
    put_bound(text, misfit)
}

/// Whether a field is one by which places are refused.
fn is_of_place(field: Field) -> bool
    ensures { IsTrue result → Contains place_fields field }
{
    PLACE_FIELDS.contains(&field)
}

/// Puts a ground against the offer that was decided, which is true of whom a misfit names.
fn put_offer(text: &mut TextBuilder, misfit: &Misfit<'_, '_>, ground: OfferGround)
    requires { IsGround misfit.now.settings.offer false (misfit.now.participant ∷ []) ground }
{
    match OfferReason::of_misfit(text.alloc(), misfit, ground) {
        Ok(reason) => put_offer_reason(text, &reason),
        Err(AllocError) => text.refuse(),
    }
    let holds = offer_name(text.alloc(), &misfit.settings().offer);
    text.put("; the buffers are ").put_words(&holds);
}

fn put_heap(text: &mut TextBuilder, misfit: &Misfit<'_, '_>)
    requires { Contains place_fields misfit.now.field }
{
    match PlaceReason::of_misfit(text.alloc(), misfit) {
        Ok(reason) => put_place_reason(text, &reason),
        Err(AllocError) => text.refuse(),
    }
    text.put(": the buffers lie in ");
    put_place(text, misfit.platform(), misfit.settings().place)
}

fn put_size(text: &mut TextBuilder, misfit: &Misfit<'_, '_>) {
    let participant = misfit.participant();
    let memory = participant.asked.memory();
    let field = misfit.field();
    let mine = match field {
        Field::MinSizeBytes => memory.min_size_bytes,
        _ => memory.max_size_bytes,
    };
    text.name(participant.called())
        .put(" says ")
        .field(field)
        .put(" ")
        .put_number(mine);
    text.put(": the buffers have ")
        .put_number(misfit.settings().size_bytes)
        .put(" bytes");
}

fn put_bound(text: &mut TextBuilder, misfit: &Misfit<'_, '_>) {
    let (participant, settings) = (misfit.participant(), misfit.settings());
    let field = misfit.field();
    text.name(participant.called())
        .put(" says ")
        .field(field)
        .put(" ");
    if let Some(entry) = entry_for(participant.asked.entries(), &settings.offer) {
        put_amount(text, amount_at(&entry.bounds.asked, field));
    }
    let decided = amount_at(&settings.bounds, field);
    if is_unlimited(decided) {
        text.put(", but nobody limited that before the decision, and whoever comes late can't");
        return;
    }
    text.put(", but ").put(how(field));
    put_amount(text, decided);
    text.put(" was decided before");
}

/// Puts who of those before asks for what was decided of a bound after a text, or that nobody does.
fn put_deciding(text: &mut TextBuilder, misfit: &Misfit<'_, '_>, before: &[NamedParticipant<'_>]) {
    let settings = misfit.settings();
    let decided = amount_at(&settings.bounds, misfit.field());
    if is_unlimited(decided) || how(misfit.field()).is_empty() {
        return;
    }
    if !decided.is_beyond_one() {
        text.put("; nobody before asks for more");
        return;
    }
    let mut those = ListBuilder::new(text.alloc());
    for participant in before {
        if asks_for(participant, &settings.offer, misfit.field(), decided) {
            those.add(*participant);
        }
    }
    match those.done() {
        Ok(those) => put_those(text, &those, "asks for that", "ask for that"),
        Err(AllocError) => text.refuse(),
    }
}

/// Whether a participant's entry for an offer has an amount of a bound.
fn asks_for(
    participant: &NamedParticipant<'_>,
    offer: &Offer,
    field: Field,
    amount: Amount,
) -> bool {
    match entry_for(participant.asked.entries(), offer) {
        Some(entry) => amount_at(&entry.bounds.asked, field) == amount,
        None => false,
    }
}

/// Whether an amount is that of a greatest value that nobody states.
fn is_unlimited(amount: Amount) -> bool {
    match amount {
        Amount::Number(number) => number >= u64::from(u32::MAX),
        Amount::Sides(size) => size.width == u32::MAX && size.height == u32::MAX,
    }
}

macro_rules! merged_to {
    (($field:ident) $($name:ident: $shape:ident $rule:ident $bound:ident $absent:ident $range:ident,)*) => {
        match $field {
            $(Field::$bound => merged_by!($rule),)*
            _ => "",
        }
    };
}

macro_rules! merged_by {
    (greatest) => { "at least " };
    (least) => { "at most " };
    (multiple) => { "a multiple of " };
}

/// How a bound's values are merged.
fn how(field: Field) -> &'static str {
    bounds_table!(merged_to!(field))
}
