//! Contiguous and secure memory that would do too.

use crate::preferred::alike::try_alike;
use crate::preferred::places::is_refused;
use crate::preferred::telling::{Found, Wanted};
use crate::preferred::wish::{Goal, Wish, is_of_kind, settled_by};
use constraint_edits::Edit;
use std::alloc::AllocError;
use sysmem_counts::Field;
use sysmem_memory::{CoherencyDomain, HeapInfo};
use value_sources::NamedParticipant;

/// By which fields memory of a kind is asked for.
const KINDS: [Field; 2] = [Field::SecureRequired, Field::PhysicallyContiguousRequired];

/// Tries to ask for memory of each kind of which a heap would do too, and the chosen one isn't.
pub(crate) fn try_kinds(
    found: &mut Found,
    wish: Wish<'_, '_>,
    selected: &[NamedParticipant<'_>],
) -> Result<(), AllocError> {
    for field in &KINDS {
        if would_do(wish, selected, *field)
            && !found.leaves(Wanted::Place, wish.group.scenario.effort)
        {
            let goal = Goal::Kind(*field);
            try_flag(found, Wish { goal, ..wish }, selected, *field)?;
        }
    }
    Ok(())
}

/// Whether a heap of the kind that a field asks for would do for participants, and the chosen one
/// is neither of that kind nor secure.
fn would_do(wish: Wish<'_, '_>, selected: &[NamedParticipant<'_>], field: Field) -> bool {
    let heaps = wish.group.scenario.platform.heaps();
    let Some(settled) = settled_by(wish.now) else {
        return false;
    };
    match heaps.get(settled.place.heap) {
        Some(info) if !info.secure && !is_of_kind(info, field) => {}
        _ => return false,
    }
    for info in heaps {
        if is_of_kind(info, field) && has_place(info, selected) {
            return true;
        }
    }
    false
}

/// Whether a heap has a place that none of some participants refuses.
fn has_place(info: &HeapInfo, selected: &[NamedParticipant<'_>]) -> bool {
    for coherency in &CoherencyDomain::ALL {
        if info.domains.has(*coherency) && !is_refused(info, *coherency, selected) {
            return true;
        }
    }
    false
}

/// Tries that one of some participants sets a flag of its memory, and tells those together by whom
/// the same comes.
fn try_flag(
    found: &mut Found,
    wish: Wish<'_, '_>,
    selected: &[NamedParticipant<'_>],
    field: Field,
) -> Result<(), AllocError> {
    let mut told: Vec<usize> = Vec::new(found.items.alloc());
    for (k, participant) in selected.iter().enumerate() {
        if !told.contains(&participant.node) {
            let others = selected.get(k.saturating_add(1)..).unwrap_or(&[]);
            let edit = Edit::Supports(field);
            try_alike(found, wish, &mut told, participant, others, edit)?;
        }
    }
    Ok(())
}
