//! Rows of the places and offers that participants refuse.

use crate::offer_reason::{OfferGround, OfferReason, offer_reasons};
use crate::offer_words::{offer_name, pair_name, put_offer_reason};
use crate::offering::distance_of;
use crate::place_reason::place_reasons;
use crate::placing::{put_heap_place, put_place_reason};
use crate::rows::{FailureRow, Unchosen, add, put_reasons, shared};
use explanation_text::{Items, Label, ListBuilder, Text, TextBuilder};
use negotiation_inputs::Platform;
use std::alloc::{AllocError, Global};
use std::mem;
use sysmem_formats::Offer;
use sysmem_memory::{CoherencyDomain, HeapInfo, Place};
use value_sources::NamedParticipant;

/// Participants on a platform, who are all that there are if `whole` says so.
#[derive(Clone, Copy)]
pub(crate) struct Parties<'a, 'b> {
    pub(crate) platform: &'b Platform,
    pub(crate) participants: &'b [NamedParticipant<'a>],
    pub(crate) whole: bool,
}

/// Rows of places that participants refuse. The nearest has the fewest who refuse it.
pub(crate) fn place_rows(
    alloc: Global,
    parties: Parties<'_, '_>,
    places: &[Place],
) -> Result<Vec<FailureRow>, AllocError> {
    let mut rows = Vec::new(alloc);
    for place in places {
        if let Some(heap) = parties.platform.heaps().get(place.heap) {
            add_place(&mut rows, heap, place.coherency, parties.participants)?;
        }
    }
    Ok(rows)
}

/// Adds a place with the reasons against it. Who refuses it by two fields counts twice.
fn add_place(
    rows: &mut Vec<FailureRow>,
    heap: &HeapInfo,
    coherency: CoherencyDomain,
    participants: &[NamedParticipant<'_>],
) -> Result<(), AllocError> {
    let alloc = *rows.allocator();
    let mut far = 0usize;
    let mut texts: ListBuilder<Text> = ListBuilder::new(alloc);
    let reasons = place_reasons(alloc, heap, coherency, participants)?;
    for reason in &reasons {
        far = far.saturating_add(reason.participants().len());
        let mut text = TextBuilder::new(alloc);
        put_place_reason(&mut text, reason);
        texts.add_text(text);
    }
    let mut name = TextBuilder::new(alloc);
    put_heap_place(&mut name, heap, coherency);
    add(rows, name.into_text()?, texts.done()?, far, 1)
}

/// Rows of offers that participants refuse, in the same way; with who lacks the colour space beside
/// who has no entry, where each is asked for. A pair that is refused in each of so many colour
/// spaces for the same reasons is named once.
pub(crate) fn offer_rows(
    alloc: Global,
    parties: Parties<'_, '_>,
    offers: &[Offer],
    each: bool,
) -> Result<Vec<FailureRow>, AllocError> {
    let colours = parties.platform.colours().len();
    let mut rows = Vec::new(alloc);
    let mut pair: Vec<RefusedOffer> = Vec::new(alloc);
    for offer in offers {
        if is_next_pair(&pair, offer) {
            add_pair(&mut rows, &mut pair, colours)?;
        }
        pair.push(refused_by(alloc, parties, offer, each)?)?;
    }
    add_pair(&mut rows, &mut pair, colours)?;
    Ok(rows)
}

/// Tells who refuses each of some offers, in their order.
pub(crate) fn add_offers(
    items: &mut Items,
    parties: Parties<'_, '_>,
    offers: &[Offer],
    what: &'static str,
) -> Result<(), AllocError> {
    let rows = offer_rows(items.alloc(), parties, offers, true)?;
    Unchosen::of(what).add(items, &rows);
    Ok(())
}

/// Tells why there has to be an image: who refuses to have none.
pub(crate) fn add_no_image(items: &mut Items, parties: Parties<'_, '_>) -> Result<(), AllocError> {
    let refused = refused_by(items.alloc(), parties, &Offer::NoImage, true)?;
    let mut words = TextBuilder::of(items.alloc(), "there has to be an image: ");
    put_reasons(&mut words, &refused.texts);
    items.say(2, Label::Plain, words);
    Ok(())
}

/// An offer that is refused, and why.
#[derive(Drop)]
struct RefusedOffer {
    offer: Offer,
    texts: Vec<Text>,
    distance: usize,
}

/// An offer with the reasons against it; with who lacks its colour space beside who has no entry for
/// it, where each is asked for.
fn refused_by(
    alloc: Global,
    parties: Parties<'_, '_>,
    offer: &Offer,
    each: bool,
) -> Result<RefusedOffer, AllocError> {
    let participants = parties.participants;
    let reasons = offer_reasons(alloc, offer, participants, parties.whole)?;
    let distance = distance_of(offer, &reasons, participants.len());
    let mut texts = ListBuilder::new(alloc);
    for reason in &reasons {
        add_reason(&mut texts, reason);
    }
    if each && lacks_entry(&reasons) {
        add_colour_reason(&mut texts, offer, participants)?;
    }
    Ok(RefusedOffer {
        offer: *offer,
        texts: texts.done()?,
        distance,
    })
}

/// Whether reasons name who has no entry.
fn lacks_entry(reasons: &[OfferReason<'_>]) -> bool {
    match reasons.first() {
        Some(reason) => matches!(reason.ground(), OfferGround::NoEntry),
        None => false,
    }
}

/// Adds who has an entry for an offer that doesn't take its colour space, if somebody has.
fn add_colour_reason(
    texts: &mut ListBuilder<Text>,
    offer: &Offer,
    participants: &[NamedParticipant<'_>],
) -> Result<(), AllocError> {
    if let Some(reason) = OfferReason::without_colour(texts.alloc(), offer, participants, true)? {
        add_reason(texts, &reason);
    }
    Ok(())
}

/// Adds a reason against an offer in words.
fn add_reason(texts: &mut ListBuilder<Text>, reason: &OfferReason<'_>) {
    let mut text = TextBuilder::new(texts.alloc());
    put_offer_reason(&mut text, reason);
    texts.add_text(text);
}

/// Whether an offer is of another pair than those before it.
fn is_next_pair(before: &[RefusedOffer], offer: &Offer) -> bool {
    match before.first() {
        Some(first) => !are_one_pair(&first.offer, offer),
        None => false,
    }
}

fn are_one_pair(a: &Offer, b: &Offer) -> bool {
    match (a, b) {
        (Offer::Image(pair, _), Offer::Image(other, _)) => pair == other,
        _ => false,
    }
}

/// Moves the offers of one pair to the rows: as one, where they fail in all of so many colour
/// spaces for the same reasons, or in one of them for no other than in all.
fn add_pair(
    rows: &mut Vec<FailureRow>,
    offers: &mut Vec<RefusedOffer>,
    colours: usize,
) -> Result<(), AllocError> {
    let alloc = *rows.allocator();
    let most = fewest(offers);
    let is_one = 1 < colours && offers.len() == colours && start_alike(offers, most);
    let count = if is_one { colours } else { 1 };
    if is_one {
        offers.truncate(1);
    }
    for refused in mem::replace(offers, Vec::new(alloc)) {
        let name = name_of(alloc, &refused.offer, is_one).into_text()?;
        let mut reasons = refused.texts;
        if is_one {
            reasons.truncate(most);
        }
        add(rows, name, reasons, refused.distance, count)?;
    }
    Ok(())
}

/// The name of an offer, or of its pair where that stands for all its colour spaces.
fn name_of(alloc: Global, offer: &Offer, is_pair: bool) -> TextBuilder {
    match offer {
        Offer::Image(pair, _) if is_pair => {
            pair_name(alloc, Some(pair.format), Some(pair.modifier))
        }
        _ => offer_name(alloc, offer),
    }
}

/// The least number of reasons against one of some offers.
fn fewest(offers: &[RefusedOffer]) -> usize {
    let mut least = usize::MAX;
    for refused in offers {
        least = least.min(refused.texts.len());
    }
    least
}

/// Whether the first reasons against offers, so many, are the same.
fn start_alike(offers: &[RefusedOffer], most: usize) -> bool {
    let Some(first) = offers.first() else {
        return false;
    };
    for other in offers {
        if shared(&other.texts, &first.texts) < most {
            return false;
        }
    }
    true
}
