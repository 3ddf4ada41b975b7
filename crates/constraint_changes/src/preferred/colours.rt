//! Colour spaces that stand before the chosen one on the platform, or behind it and would do too.

use crate::preferred::alike::{try_alike, try_first};
use crate::preferred::telling::{Found, Wanted};
use crate::preferred::wish::{Goal, Settled, Wish, settled_by};
use crate::trials::{entry_place, is_image_named, lacks_image};
use constraint_edits::{Edit, entries_without};
use settings_reasons::is_taken;
use std::alloc::{AllocError, Global};
use sysmem_formats::{ColourSpace, Offer, Pair};
use value_sources::NamedParticipant;

/// Tries the colour spaces before the chosen one on the platform, and those behind it.
pub(crate) fn try_colours(
    found: &mut Found,
    wish: Wish<'_, '_>,
    selected: &[NamedParticipant<'_>],
) -> Result<(), AllocError> {
    let Some(
        Settled {
            offer: Offer::Image(pair, chosen),
            ..
        },
    ) = settled_by(wish.now)
    else {
        return Ok(());
    };
    let mut is_later = false;
    for colour in wish.group.scenario.platform.colours() {
        if *colour == chosen {
            is_later = true;
        } else if is_later {
            try_later_colour(found, wish, selected, pair, *colour)?;
        } else {
            try_colour(found, wish, selected, pair, *colour)?;
        }
    }
    Ok(())
}

/// Tries that one of participants takes no other colour space than one in which nobody refuses a
/// pair.
fn try_later_colour(
    found: &mut Found,
    wish: Wish<'_, '_>,
    selected: &[NamedParticipant<'_>],
    pair: Pair,
    colour: ColourSpace,
) -> Result<(), AllocError> {
    for participant in selected {
        if lacks_image(participant, pair, colour) {
            return Ok(());
        }
    }
    if found.leaves(Wanted::Image, wish.group.scenario.effort) {
        return Ok(());
    }
    let goal = Goal::Colour(colour);
    let edit = Edit::TakesColourAlone(colour);
    try_first(found, Wish { goal, ..wish }, selected, edit)
}

/// Tries that the only one of participants who doesn't take a pair in a colour space does so, if
/// another one names it.
fn try_colour(
    found: &mut Found,
    wish: Wish<'_, '_>,
    selected: &[NamedParticipant<'_>],
    pair: Pair,
    colour: ColourSpace,
) -> Result<(), AllocError> {
    if !is_image_named(selected, pair, colour) {
        return Ok(());
    }
    let Some(participant) = only_lacking(selected, pair, colour) else {
        return Ok(());
    };
    if found.leaves(Wanted::Image, wish.group.scenario.effort) {
        return Ok(());
    }
    let goal = Goal::Colour(colour);
    let alloc = found.items.alloc();
    let edit = taking_in(alloc, participant, pair, colour)?;
    let mut told: Vec<usize> = Vec::new(alloc);
    try_alike(
        found,
        Wish { goal, ..wish },
        &mut told,
        participant,
        &[],
        edit,
    )
}

/// That a participant takes a colour space too: of several entries the one that holds for a pair.
fn taking_in(
    alloc: Global,
    participant: &NamedParticipant<'_>,
    pair: Pair,
    colour: ColourSpace,
) -> Result<Edit, AllocError> {
    let entries = participant.asked.entries();
    let place = entries.iter().position(|entry| is_taken(entry, pair));
    if let (Some(index), Some(value)) = (place, participant.stated) {
        if !entries_without(alloc, value, colour)?.is_empty() {
            let item = entry_place(participant.stated, index).item;
            return Ok(Edit::TakesColourIn(colour, item));
        }
    }
    Ok(Edit::TakesColour(colour))
}

/// The only one of participants who doesn't take a pair in a colour space; `None` where all do, or
/// several don't.
fn only_lacking<'p, 'a>(
    selected: &'p [NamedParticipant<'a>],
    pair: Pair,
    colour: ColourSpace,
) -> Option<&'p NamedParticipant<'a>> {
    let mut only = None;
    for participant in selected {
        if lacks_image(participant, pair, colour) {
            if only.is_some() {
                return None;
            }
            only = Some(participant);
        }
    }
    only
}
