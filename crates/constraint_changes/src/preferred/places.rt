//! Places that stand before the chosen one on the platform.

use crate::preferred::alike::try_alike;
use crate::preferred::telling::{Found, Wanted};
use crate::preferred::wish::{Goal, Wish, settled_by};
use crate::trials::Group;
use constraint_edits::{Edit, changes};
use serde_json::Value;
use std::alloc::{AllocError, Global};
use sysmem_counts::Field;
use sysmem_memory::{CoherencyDomain, HeapInfo, Place, refuses};
use value_sources::NamedParticipant;

/// The first field by which a participant refuses a coherency domain of a heap.
pub(crate) fn refusal(
    participant: &NamedParticipant<'_>,
    info: &HeapInfo,
    coherency: CoherencyDomain,
) -> Option<Field> {
    let asked = participant.asked;
    refuses(asked.memory(), asked.usage(), info, coherency)
}

/// Tries the places before the chosen one on the platform.
pub(crate) fn try_places(
    found: &mut Found,
    wish: Wish<'_, '_>,
    selected: &[NamedParticipant<'_>],
) -> Result<(), AllocError> {
    let Some(settled) = settled_by(wish.now) else {
        return Ok(());
    };
    for heap in 0..settled.place.heap.saturating_add(1) {
        try_heap(found, wish, selected, heap, settled.place)?;
    }
    Ok(())
}

/// Tries the places of a heap, up to the chosen one.
fn try_heap(
    found: &mut Found,
    wish: Wish<'_, '_>,
    selected: &[NamedParticipant<'_>],
    heap: usize,
    chosen: Place,
) -> Result<(), AllocError> {
    let Some(info) = wish.group.scenario.platform.heaps().get(heap) else {
        return Ok(());
    };
    for coherency in &CoherencyDomain::ALL {
        let place = Place {
            heap,
            coherency: *coherency,
        };
        if place == chosen {
            break;
        }
        if info.domains.has(*coherency) {
            try_place(found, wish, selected, info, place)?;
        }
    }
    Ok(())
}

/// Tries that the only one of participants who refuses a place supports its coherency domain, or
/// permits its heap.
fn try_place(
    found: &mut Found,
    wish: Wish<'_, '_>,
    selected: &[NamedParticipant<'_>],
    info: &HeapInfo,
    place: Place,
) -> Result<(), AllocError> {
    let alloc = found.items.alloc();
    let Some((participant, field)) = only_refusal(selected, info, place.coherency) else {
        return Ok(());
    };
    let Some(edit) = edit_for(alloc, wish.group, participant, field, place.heap)? else {
        return Ok(());
    };
    if found.leaves(Wanted::Place, wish.group.scenario.effort) {
        return Ok(());
    }
    let goal = Goal::Place(place);
    let mut told: Vec<usize> = Vec::new(alloc);
    try_alike(
        found,
        Wish { goal, ..wish },
        &mut told,
        participant,
        &[],
        edit,
    )
}

/// Tries that somebody who uses no CPU doesn't support the chosen place's coherency domain, where
/// nobody refuses a place of another one, which comes after it.
pub(crate) fn try_other_domain(
    found: &mut Found,
    wish: Wish<'_, '_>,
    selected: &[NamedParticipant<'_>],
) -> Result<(), AllocError> {
    let heaps = wish.group.scenario.platform.heaps();
    let Some(settled) = settled_by(wish.now) else {
        return Ok(());
    };
    let chosen = settled.place.coherency;
    let Some(place) = first_in_another(heaps, selected, chosen) else {
        return Ok(());
    };
    if found.leaves(Wanted::Place, wish.group.scenario.effort) {
        return Ok(());
    }
    let edit = Edit::NoSupport(supported_by(chosen));
    let goal = Goal::Place(place);
    let wish = Wish { goal, ..wish };
    let mut told: Vec<usize> = Vec::new(found.items.alloc());
    for (k, participant) in selected.iter().enumerate() {
        if !participant.asked.usage().uses_cpu() && !told.contains(&participant.node) {
            let others = selected.get(k.saturating_add(1)..).unwrap_or(&[]);
            try_alike(found, wish, &mut told, participant, others, edit)?;
        }
    }
    Ok(())
}

/// The first place of another coherency domain that nobody refuses.
fn first_in_another(
    heaps: &[HeapInfo],
    selected: &[NamedParticipant<'_>],
    chosen: CoherencyDomain,
) -> Option<Place> {
    for (heap, info) in heaps.iter().enumerate() {
        for coherency in &CoherencyDomain::ALL {
            let coherency = *coherency;
            if coherency != chosen
                && info.domains.has(coherency)
                && !is_refused(info, coherency, selected)
            {
                return Some(Place { heap, coherency });
            }
        }
    }
    None
}

/// The field by which a coherency domain is supported.
fn supported_by(coherency: CoherencyDomain) -> Field {
    match coherency {
        CoherencyDomain::Cpu => Field::CpuDomainSupported,
        CoherencyDomain::Ram => Field::RamDomainSupported,
        CoherencyDomain::Inaccessible => Field::InaccessibleDomainSupported,
    }
}

/// Whether one of some participants refuses a coherency domain of a heap.
pub(crate) fn is_refused(
    info: &HeapInfo,
    coherency: CoherencyDomain,
    selected: &[NamedParticipant<'_>],
) -> bool {
    for participant in selected {
        if refusal(participant, info, coherency).is_some() {
            return true;
        }
    }
    false
}

/// The only one of participants who refuses a coherency domain of a heap, with the field; `None`
/// where nobody does, or several do.
fn only_refusal<'p, 'a>(
    selected: &'p [NamedParticipant<'a>],
    info: &HeapInfo,
    coherency: CoherencyDomain,
) -> Option<(&'p NamedParticipant<'a>, Field)> {
    let mut only = None;
    for participant in selected {
        if let Some(field) = refusal(participant, info, coherency) {
            if only.is_some() {
                return None;
            }
            only = Some((participant, field));
        }
    }
    only
}

/// The edit by which a participant doesn't refuse a heap by a field any more, if that drops nothing
/// that it demands.
fn edit_for(
    alloc: Global,
    group: Group<'_, '_>,
    participant: &NamedParticipant<'_>,
    field: Field,
    heap: usize,
) -> Result<Option<Edit>, AllocError> {
    match field {
        Field::CpuDomainSupported
        | Field::RamDomainSupported
        | Field::InaccessibleDomainSupported => Ok(Some(Edit::Supports(field))),
        Field::PermittedHeaps => Ok(Some(permit(alloc, group, participant.stated, heap)?)),
        _ => Ok(None),
    }
}

/// The edit by which a record permits a heap: in the place of one that nearly has its name, or too.
fn permit(
    alloc: Global,
    group: Group<'_, '_>,
    stated: Option<&Value>,
    heap: usize,
) -> Result<Edit, AllocError> {
    let heaps = group.scenario.platform.heaps();
    let meant = Edit::MeansHeap(heap);
    match stated {
        Some(value) if changes(alloc, value, meant, heaps)? => Ok(meant),
        _ => Ok(Edit::PermitsHeap(heap)),
    }
}
