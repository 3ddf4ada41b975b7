//! Pairs that participants list before the one that was chosen.

use negotiation_inputs::Platform;
use std::alloc::{AllocError, Global};
use sysmem_formats::{Modifier, Pair, PixelFormat};
use sysmem_image::Entry;
use value_sources::NamedParticipant;

/// The pairs that stand after one on a platform, and that a participant names in an entry before
/// its first that takes this one.
pub fn listed_before(
    alloc: Global,
    platform: &Platform,
    participants: &[NamedParticipant<'_>],
    chosen: Pair,
) -> Result<Vec<Pair>, AllocError> {
    let mut listed = Vec::new(alloc);
    let mut is_after = false;
    for pair in platform.pairs() {
        if is_after && is_listed(participants, *pair, chosen) {
            listed.push(*pair)?;
        }
        is_after = is_after || *pair == chosen;
    }
    Ok(listed)
}

/// Whether a participant names a pair in an entry before its first that takes another.
fn is_listed(participants: &[NamedParticipant<'_>], pair: Pair, other: Pair) -> bool {
    for participant in participants {
        if lists_before(participant.asked.entries(), pair, other) {
            return true;
        }
    }
    false
}

/// Whether one of the entries names a pair, and none up to there takes another.
fn lists_before(entries: &[Entry], pair: Pair, other: Pair) -> bool {
    for entry in entries {
        if is_taken(entry, other) {
            return false;
        }
        if entry.format.is_some() && is_taken(entry, pair) {
            return true;
        }
    }
    false
}

/// Whether an entry takes a pair.
pub fn is_taken(entry: &Entry, pair: Pair) -> bool {
    has_format(entry, pair.format) && has_modifier(entry, pair.modifier)
}

/// Whether an entry takes a format.
pub(crate) fn has_format(entry: &Entry, format: PixelFormat) -> bool {
    match entry.format {
        Some(named) => named == format,
        None => true,
    }
}

fn has_modifier(entry: &Entry, modifier: Modifier) -> bool {
    match entry.modifier {
        Some(named) => named == modifier,
        None => true,
    }
}
