//! What a participant asks after plain changes, told from what it asks before them.

use constraint_edits::{Change, Edit, apply_all};
use negotiation_inputs::Constraints;
use std::alloc::{AllocError, Global};
use value_sources::NamedParticipant;

/// What a participant asks after some changes, without the record that would state it: of those
/// that leave a field out, give it an amount or have a domain supported. `None` where a change does
/// something else, or a record might have a fault then.
pub fn asked_after(
    alloc: Global,
    participant: &NamedParticipant<'_>,
    changes: &[Change],
) -> Result<Option<Constraints>, AllocError> {
    for change in changes {
        if !is_plain(change) {
            return Ok(None);
        }
    }
    apply_all(alloc, &[], participant.asked, changes)
}

/// Whether a change goes by no platform and no entry.
fn is_plain(change: &Change) -> bool {
    matches!(
        change.edit,
        Edit::Supports(_)
            | Edit::NoCount(_)
            | Edit::NoMemory(_)
            | Edit::NoBound(_)
            | Edit::Replaces(_, _)
    )
}
