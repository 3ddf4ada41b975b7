//! Heaps behind the chosen one that would do too.

use crate::preferred::alike::try_first;
use crate::preferred::places::is_refused;
use crate::preferred::telling::{Found, Wanted};
use crate::preferred::wish::{Goal, Wish, settled_by};
use constraint_edits::Edit;
use std::alloc::AllocError;
use sysmem_memory::{CoherencyDomain, HeapInfo, Place};
use value_sources::NamedParticipant;

/// Tries to permit each heap alone that stands behind the chosen one, has a place that nobody
/// refuses, and isn't contiguous or secure where the chosen one isn't.
pub(crate) fn try_later_heaps(
    found: &mut Found,
    wish: Wish<'_, '_>,
    selected: &[NamedParticipant<'_>],
) -> Result<(), AllocError> {
    let heaps = wish.group.scenario.platform.heaps();
    let Some(settled) = settled_by(wish.now) else {
        return Ok(());
    };
    let chosen = settled.place.heap;
    let Some(now) = heaps.get(chosen) else {
        return Ok(());
    };
    for (heap, info) in heaps.iter().enumerate() {
        let is_plain = (now.secure || !info.secure) && (now.contiguous || !info.contiguous);
        if heap <= chosen || !is_plain {
            continue;
        }
        if let Some(coherency) = first_open(info, selected) {
            try_heap(found, wish, selected, Place { heap, coherency })?;
        }
    }
    Ok(())
}

/// Tries to permit a place's heap alone, until one of those does it who permit others too.
fn try_heap(
    found: &mut Found,
    wish: Wish<'_, '_>,
    selected: &[NamedParticipant<'_>],
    place: Place,
) -> Result<(), AllocError> {
    if found.leaves(Wanted::Place, wish.group.scenario.effort) {
        return Ok(());
    }
    let goal = Goal::Place(place);
    try_first(
        found,
        Wish { goal, ..wish },
        selected,
        Edit::PermitsAlone(place.heap),
    )
}

/// The first coherency domain of a heap that none of some participants refuses.
fn first_open(info: &HeapInfo, selected: &[NamedParticipant<'_>]) -> Option<CoherencyDomain> {
    for coherency in &CoherencyDomain::ALL {
        if info.domains.has(*coherency) && !is_refused(info, *coherency, selected) {
            return Some(*coherency);
        }
    }
    None
}
