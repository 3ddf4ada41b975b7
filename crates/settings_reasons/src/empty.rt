//! Why no settings meet participants.

ghost use Rattle.std.specs.Prelude.{◌≡◌, ◌==◌, ◌<◌, false, not, filter, length};
ghost use Rattle.std.specs.Prelude.{IfNone, IfOk, IfSome, IsTrue};
ghost use Rattle.settings_reasons.specs.True.{AreInTheWay, AreMet};
ghost use Rattle.sysmem_merge.specs.Best.{IsUnmet};
ghost use Rattle.value_sources.specs.Sources.{all_asked};

use crate::contradicting::add_contradictions;
use crate::count_reason::CountReason;
use crate::lacking::{add_no_heaps, add_no_images};
use crate::offering::{are_refused, offers_of};
use crate::placing::{has_no_place, places_of};
use crate::refusing::{Parties, offer_rows, place_rows};
use crate::rows::{add_rows, nearest};
use crate::unmet::InTheWay;
use explanation_text::wording::MOST_NAMES;
use explanation_text::{Items, Label, TextBuilder};
use negotiation_inputs::Platform;
use std::alloc::{AllocError, Global};
use sysmem_counts::Field;
use sysmem_merge::Aggregate;
use value_sources::{NamedParticipant, put_participants};

/// The two lines on a count.
const COUNTS: [Field; 2] = [Field::MaxBufferCount, Field::BufferCountLimit];

/// Tells why no settings meet participants, who are all that a decision has if `whole` says so.
pub fn add_conflict(
    items: &mut Items,
    depth: usize,
    platform: &Platform,
    participants: &[NamedParticipant<'_>],
    whole: bool,
) -> Result<(), AllocError> {
    let parties = Parties {
        platform,
        participants,
        whole,
    };
    add_contradictions(items, depth, participants);
    add_in_the_way(items, depth, platform, participants)?;
    add_counts(items, depth, participants);
    add_refused_places(items, depth, parties)?;
    add_refused_offers(items, depth, parties)
}

/// Tells why no count suits participants, where none does.
fn add_counts(items: &mut Items, depth: usize, participants: &[NamedParticipant<'_>]) {
    for field in COUNTS {
        if let Some(reason) = CountReason::of(field, participants) {
            items.say(depth, Label::Count, reason.text(items.alloc()));
        }
    }
}

/// Tells who refuses each place, where somebody does.
fn add_refused_places(
    items: &mut Items,
    depth: usize,
    parties: Parties<'_, '_>,
) -> Result<(), AllocError> {
    if !has_no_place(parties.platform, parties.participants) {
        return Ok(());
    }
    let alloc = items.alloc();
    let places = places_of(alloc, parties.platform)?;
    items.say(depth, Label::Place, none_of(alloc, "place", places.len()));
    let rows = place_rows(alloc, parties, &places)?;
    let below = depth.saturating_add(1);
    add_rows(items, below, &rows, usize::MAX, " places are refused too");
    add_no_heaps(items, depth, parties)
}

/// Tells who refuses each offer, where somebody does.
fn add_refused_offers(
    items: &mut Items,
    depth: usize,
    parties: Parties<'_, '_>,
) -> Result<(), AllocError> {
    let alloc = items.alloc();
    let offers = offers_of(alloc, parties.platform)?;
    if !are_refused(&offers, parties.participants, parties.whole) {
        return Ok(());
    }
    items.say(depth, Label::Image, none_of(alloc, "offer", offers.len()));
    let rows = offer_rows(alloc, parties, &offers, false)?;
    let far = nearest(&rows).saturating_add(1);
    let below = depth.saturating_add(1);
    add_rows(items, below, &rows, far, " offers are refused too");
    add_no_images(items, depth, parties)
}

fn none_of(alloc: Global, what: &str, count: usize) -> TextBuilder {
    let mut words = TextBuilder::new(alloc);
    if count == 1 {
        words.put("the only ").put(what).put(" fails:");
        return words;
    }
    words
        .put("each of the ")
        .put_number(count)
        .put(" ")
        .put(what);
    words.put("s fails; the nearest first:");
    words
}

/// How many sets of those who are in the way are told beside the first.
const MOST_SETS: usize = 3;

/// How many participants may be asked together; a tree has at most 128.
pub(crate) const MOST_ASKED: usize = 1024;

/// Whether these participants leave no settings, whatever others ask. False of more than 1,024.
pub fn is_unmet(
    alloc: Global,
    platform: &Platform,
    participants: &[NamedParticipant<'_>],
) -> Result<bool, AllocError>
    ensures unmet { IfOk result
        (λ unmet. IsTrue unmet → IsUnmet false platform.now (all_asked participants.now)) }
    ensures met { IfOk result (λ unmet.
        IsTrue (not unmet) → AreMet MOST_ASKED platform.now (all_asked participants.now)) }
{
    if participants.len() > MOST_ASKED {
        return Ok(false);
    }
    let mut asked = Aggregate::new(alloc, platform)?;
    for participant in participants {
        asked.add(participant.asked)?;
    }
    Ok(asked.best_settings(false).is_err())
}

/// Whether these participants are some, and leave no settings.
fn are_some_unmet(
    alloc: Global,
    platform: &Platform,
    participants: &[NamedParticipant<'_>],
) -> Result<bool, AllocError>
    ensures some { IfOk result (λ unmet. IsTrue unmet → 0 < length participants.now) }
    ensures unmet { IfOk result
        (λ unmet. IsTrue unmet → IsUnmet false platform.now (all_asked participants.now)) }
    ensures met { IfOk result (λ unmet. IsTrue (not unmet) → 0 < length participants.now
        → AreMet MOST_ASKED platform.now (all_asked participants.now)) }
{
    if participants.is_empty() {
        return Ok(false);
    }
    is_unmet(alloc, platform, participants)
}

/// Those who leave no settings by themselves, each of whom is needed for that; `None` where all
/// together leave some.
pub fn in_the_way<'a>(
    alloc: Global,
    platform: &Platform,
    participants: &[NamedParticipant<'a>],
) -> Result<Option<Vec<NamedParticipant<'a>>>, AllocError>
    ensures some { IfOk result (λ found. IfSome found
        (λ those. AreInTheWay platform.now participants.now those.items)) }
    ensures none { IfOk result (λ found. IfNone found (0 < length participants.now
        → AreMet MOST_ASKED platform.now (all_asked participants.now))) }
{
    if !are_some_unmet(alloc, platform, participants)? {
        return Ok(None);
    }
    let mut kept = Vec::from_slice(alloc, participants)?;
    for participant in participants {
        let rest = all_but(alloc, &kept, participant.node)?;
        if are_some_unmet(alloc, platform, &rest)? {
            kept = rest;
        }
    }
    Ok(Some(kept))
}

/// Tells those who leave no settings by themselves; or who can't be met even alone.
fn add_in_the_way(
    items: &mut Items,
    depth: usize,
    platform: &Platform,
    participants: &[NamedParticipant<'_>],
) -> Result<(), AllocError> {
    let alloc = items.alloc();
    let Some(unmet) = InTheWay::among(alloc, platform, participants)? else {
        return Ok(());
    };
    let kept = unmet.participants();
    let others = participants.len().saturating_sub(kept.len());
    let text = unmet_text(alloc, "in the way", &unmet, others);
    items.say(depth, Label::Plain, text);
    add_others_in_the_way(items, depth, platform, participants, kept)
}

/// Who leave no settings by themselves, whatever so many others ask; of one who is given no place
/// that the platform lacks one.
fn unmet_text(alloc: Global, start: &str, unmet: &InTheWay<'_, '_>, others: usize) -> TextBuilder {
    let participants = unmet.participants();
    let mut text = TextBuilder::of(alloc, start);
    text.put(": ");
    put_unmet(&mut text, unmet, others);
    if participants.len() == 1 && has_no_place(unmet.platform(), participants) {
        text.put(": the platform has no place for it");
    }
    text
}

/// Puts who leave no settings by themselves, whatever so many others ask, after a text.
fn put_unmet(text: &mut TextBuilder, unmet: &InTheWay<'_, '_>, others: usize) {
    let participants = unmet.participants();
    put_participants(text, participants);
    match (participants.len(), others) {
        (1, _) => {
            text.put(" can't be met even by itself");
        }
        (_, 0) => {}
        (_, 1) => {
            text.put(", whatever the other asks");
        }
        _ => {
            text.put(", whatever the other ")
                .put_number(others)
                .put(" ask");
        }
    }
}

/// Tells others who leave no settings by themselves: without one of those who are told, and so on.
fn add_others_in_the_way<'a, 'b>(
    items: &mut Items,
    depth: usize,
    platform: &'b Platform,
    participants: &[NamedParticipant<'a>],
    told: &[NamedParticipant<'a>],
) -> Result<(), AllocError> {
    let mut last = add_next(items, depth, platform, participants, told)?;
    for _set in 1..MOST_SETS {
        let Some(others) = &last else {
            break;
        };
        let (rest, kept) = (&others.rest, others.unmet.participants());
        last = add_next(items, depth, platform, rest, kept)?;
    }
    Ok(())
}

/// Tells who leave no settings by themselves without one of some; `None` where nobody does, or too
/// many to be told.
fn add_next<'a, 'b>(
    items: &mut Items,
    depth: usize,
    platform: &'b Platform,
    participants: &[NamedParticipant<'a>],
    some: &[NamedParticipant<'a>],
) -> Result<Option<Others<'a, 'b>>, AllocError> {
    let alloc = items.alloc();
    match without_one(alloc, platform, participants, some)? {
        Some(others) if others.unmet.participants().len() <= MOST_NAMES => {
            let text = unmet_text(alloc, "also in the way", &others.unmet, 0);
            items.say(depth, Label::Plain, text);
            Ok(Some(others))
        }
        _ => Ok(None),
    }
}

/// Participants, and some of them who leave no settings by themselves.
#[derive(Drop)]
struct Others<'a, 'b> {
    rest: Vec<NamedParticipant<'a>>,
    unmet: InTheWay<'a, 'b>,
}

/// Participants without one of some, and who of them leave no settings; `None` where without each
/// there are some.
fn without_one<'a, 'b>(
    alloc: Global,
    platform: &'b Platform,
    participants: &[NamedParticipant<'a>],
    some: &[NamedParticipant<'a>],
) -> Result<Option<Others<'a, 'b>>, AllocError> {
    for one in some {
        let rest = all_but(alloc, participants, one.node)?;
        if let Some(unmet) = InTheWay::among(alloc, platform, &rest)? {
            return Ok(Some(Others { rest, unmet }));
        }
    }
    Ok(None)
}

/// The participants without the one of this number.
fn all_but<'a>(
    alloc: Global,
    participants: &[NamedParticipant<'a>],
    node: usize,
) -> Result<Vec<NamedParticipant<'a>>, AllocError>
    ensures { IfOk result
        (λ rest. rest.items ≡ filter (λ one. not (one.node == node)) participants.now) }
{
    participants
        .iter()
        .copied()
        .filter(|participant| participant.node != node)
        .collect(alloc)
}
