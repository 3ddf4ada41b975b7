//! Which changes of a participant's formats and colour spaces are worth a try.

use constraint_edits::Edit;
use script_story::Scenario;
use settings_reasons::is_taken;
use sysmem_counts::Field;
use sysmem_formats::{ColourSpace, Pair};
use sysmem_image::Entry;
use value_sources::NamedParticipant;

/// Whether a change of a participant is worth a try, where at most so many are changed: a format or
/// a colour space that it doesn't take, and that few others lack; or one that nobody names; greater
/// images, unless one other alone asks for such as can't be meant.
pub fn is_worth(
    edit: Edit,
    participant: &NamedParticipant<'_>,
    participants: &[NamedParticipant<'_>],
    scenario: &Scenario<'_>,
    few: usize,
) -> bool {
    match edit {
        Edit::TakesPair(pair) => match lacking_pair(participants, pair) {
            0 => !is_named(participants, pair),
            lacking => lacking <= few && lacks_pair(participant, pair),
        },
        Edit::TakesColour(colour) => {
            is_colour_worth(colour, participant, participants, few)
                || is_image_worth(colour, participant, participants, scenario, few)
        }
        Edit::NoCpu => is_secure_required(participants),
        Edit::NoBound(Field::MaxSize) => {
            scenario.effort.ask(participants.len());
            !is_beyond_meant(participant, participants)
        }
        _ => true,
    }
}

/// The same of a colour space, with whatever pair.
fn is_colour_worth(
    colour: ColourSpace,
    participant: &NamedParticipant<'_>,
    participants: &[NamedParticipant<'_>],
    few: usize,
) -> bool {
    match lacking_colour(participants, colour) {
        0 => !is_colour_named(participants, colour),
        lacking => lacking <= few && lacks_colour(participant, colour),
    }
}

/// The same of a colour space with a pair of the platform, which the participant takes otherwise.
fn is_image_worth(
    colour: ColourSpace,
    participant: &NamedParticipant<'_>,
    participants: &[NamedParticipant<'_>],
    scenario: &Scenario<'_>,
    few: usize,
) -> bool {
    for pair in scenario.platform.pairs() {
        if !lacks_pair(participant, *pair) && lacks_image(participant, *pair, colour) {
            scenario.effort.ask(participants.len());
            if lacking_image(participants, *pair, colour) <= few {
                return true;
            }
        }
    }
    false
}

/// How many participants have entries, and none for a pair.
pub fn lacking_pair(participants: &[NamedParticipant<'_>], pair: Pair) -> usize {
    let mut lacking = 0usize;
    for participant in participants {
        lacking = lacking.saturating_add(usize::from(lacks_pair(participant, pair)));
    }
    lacking
}

/// How many participants have entries, none of which takes a colour space.
fn lacking_colour(participants: &[NamedParticipant<'_>], colour: ColourSpace) -> usize {
    let mut lacking = 0usize;
    for participant in participants {
        lacking = lacking.saturating_add(usize::from(lacks_colour(participant, colour)));
    }
    lacking
}

/// How many participants have entries, none of which takes a pair in a colour space.
fn lacking_image(participants: &[NamedParticipant<'_>], pair: Pair, colour: ColourSpace) -> usize {
    let mut lacking = 0usize;
    for participant in participants {
        lacking = lacking.saturating_add(usize::from(lacks_image(participant, pair, colour)));
    }
    lacking
}

/// Whether somebody names a colour space for a pair, and takes it not only as any.
pub fn is_image_named(
    participants: &[NamedParticipant<'_>],
    pair: Pair,
    colour: ColourSpace,
) -> bool {
    for participant in participants {
        for entry in participant.asked.entries() {
            if is_taken(entry, pair) && entry.colours.lists(colour) {
                return true;
            }
        }
    }
    false
}

/// Whether somebody needs secure memory.
fn is_secure_required(participants: &[NamedParticipant<'_>]) -> bool {
    for participant in participants {
        if participant.asked.memory().secure_required {
            return true;
        }
    }
    false
}

/// A side that asks for so many pixels is of an image that is meant.
const SIZED: u32 = 16;

/// Whether somebody asks for images of some size.
pub fn are_sized(participants: &[NamedParticipant<'_>]) -> bool {
    for participant in participants {
        for entry in participant.asked.entries() {
            if is_sized(entry) {
                return true;
            }
        }
    }
    false
}

fn is_sized(entry: &Entry) -> bool {
    let asked = &entry.bounds.asked;
    let least = asked.min_size;
    let most = asked.required_max_size;
    least.width.max(most.width) >= SIZED && least.height.max(most.height) >= SIZED
}

/// A side of so many pixels isn't meant, unless there are a few rows.
const IMMENSE: u32 = 65_536;

/// Whether one other alone asks for images that can't be meant, where a participant takes images of
/// some size: those of that size would do for the other one too, if it asked for no more.
fn is_beyond_meant(
    participant: &NamedParticipant<'_>,
    participants: &[NamedParticipant<'_>],
) -> bool {
    let mut others = 0usize;
    for other in participants {
        if asks_beyond_meant(other) {
            if other.node == participant.node {
                return false;
            }
            others = others.saturating_add(1);
        }
    }
    others == 1 && takes_sized(participant)
}

/// Whether a participant has entries, each of which asks for an image that can't be meant.
fn asks_beyond_meant(participant: &NamedParticipant<'_>) -> bool {
    let entries = participant.asked.entries();
    for entry in entries {
        let asked = &entry.bounds.asked;
        let width = asked.min_size.width.max(asked.required_max_size.width);
        let height = asked.min_size.height.max(asked.required_max_size.height);
        if width.max(height) < IMMENSE || width.min(height) < SIZED {
            return false;
        }
    }
    !entries.is_empty()
}

/// Whether each entry of a participant takes images of some size.
fn takes_sized(participant: &NamedParticipant<'_>) -> bool {
    for entry in participant.asked.entries() {
        let most = entry.bounds.asked.max_size;
        if most.width.min(most.height) < SIZED {
            return false;
        }
    }
    true
}

/// Whether a participant has entries, and none for a pair.
fn lacks_pair(participant: &NamedParticipant<'_>, pair: Pair) -> bool {
    let entries = participant.asked.entries();
    for entry in entries {
        if is_taken(entry, pair) {
            return false;
        }
    }
    !entries.is_empty()
}

/// Whether a participant has entries, and none of them takes a pair in a colour space.
pub fn lacks_image(participant: &NamedParticipant<'_>, pair: Pair, colour: ColourSpace) -> bool {
    let entries = participant.asked.entries();
    for entry in entries {
        if is_taken(entry, pair) && entry.colours.accepts(colour) {
            return false;
        }
    }
    !entries.is_empty()
}

/// Whether a participant has entries, and none of them takes a colour space.
fn lacks_colour(participant: &NamedParticipant<'_>, colour: ColourSpace) -> bool {
    let entries = participant.asked.entries();
    for entry in entries {
        if entry.colours.accepts(colour) {
            return false;
        }
    }
    !entries.is_empty()
}

/// Whether somebody names a pair, and takes it not only as any.
fn is_named(participants: &[NamedParticipant<'_>], pair: Pair) -> bool {
    for participant in participants {
        for entry in participant.asked.entries() {
            if entry.format == Some(pair.format) && entry.modifier == Some(pair.modifier) {
                return true;
            }
        }
    }
    false
}

fn is_colour_named(participants: &[NamedParticipant<'_>], colour: ColourSpace) -> bool {
    for participant in participants {
        for entry in participant.asked.entries() {
            if entry.colours.lists(colour) {
                return true;
            }
        }
    }
    false
}
