//! What later entries of participants would take, of which an earlier one holds.

use explanation_text::{ListBuilder, TextBuilder};
use std::alloc::AllocError;
use sysmem_formats::Offer;
use sysmem_image::{Entry, entry_for, takes_colour};
use value_sources::{NamedParticipant, Side, Wishes, put_participants};

/// Puts whose later entries take an offer after a text, if some do.
pub(crate) fn put_later(
    text: &mut TextBuilder,
    offer: &Offer,
    participants: &[NamedParticipant<'_>],
) {
    let mut those = ListBuilder::new(text.alloc());
    for participant in participants {
        if takes_later(participant, offer, None) {
            those.add(*participant);
        }
    }
    match those.done() {
        Ok(those) => put_would_take(text, &those),
        Err(AllocError) => text.refuse(),
    }
}

/// Puts that later entries of participants would take it after a text, if they are some.
fn put_would_take(text: &mut TextBuilder, participants: &[NamedParticipant<'_>]) {
    let entries = match participants.len() {
        0 => return,
        1 => "a later entry",
        _ => "later entries",
    };
    text.put(", though ").put(entries).put(" of ");
    put_participants(text, participants);
    text.put(" would take it");
}

/// Puts that a later entry of the participant of a name takes more than the one that holds for an
/// offer, and at least so much in a side, after a text, if there is one.
pub(crate) fn put_later_size(
    text: &mut TextBuilder,
    wishes: Wishes<'_, '_>,
    who: &NamedParticipant<'_>,
    side: Side,
    least: u128,
) {
    for participant in wishes.participants {
        if participant.node == who.node
            && takes_later(participant, &wishes.offer, Some((side, least)))
        {
            text.put(", though a later entry of ")
                .name(who.called())
                .put(" takes more");
            return;
        }
    }
}

/// Whether an entry of a participant takes an offer, though others before it take its format and
/// modifier; and at least so much in a side, if that is asked for.
fn takes_later(
    participant: &NamedParticipant<'_>,
    offer: &Offer,
    least: Option<(Side, u128)>,
) -> bool {
    let entries = participant.asked.entries();
    for index in 0..entries.len() {
        match entry_for(&entries[index..], offer) {
            Some(entry) if takes_colour(entry, offer) && takes_size(entry, least) => return true,
            _ => {}
        }
    }
    false
}

/// Whether an entry takes at least so much in a side, if that is asked for.
fn takes_size(entry: &Entry, least: Option<(Side, u128)>) -> bool {
    match least {
        Some((side, least)) => u128::from(side.of(entry.bounds.asked.max_size)) >= least,
        None => true,
    }
}
