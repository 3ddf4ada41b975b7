//! Pairs that stand before the chosen one on the platform.

use crate::preferred::party::try_party;
use crate::preferred::telling::{Found, Wanted};
use crate::preferred::wish::{Goal, Wish, is_chosen};
use crate::trials::{Group, lacking_pair};
use constraint_edits::Edit;
use negotiation_inputs::Platform;
use script_story::Scenario;
use std::alloc::{AllocError, Global};
use sysmem_formats::Pair;
use sysmem_memory::{Heap, HeapInfo};
use value_sources::NamedParticipant;

/// How many pairs are tried.
const PAIRS: usize = 8;

/// Tries the pairs before the chosen one on the platform that all take who have entries, or all but
/// one.
pub(crate) fn try_pairs(
    found: &mut Found,
    wish: Wish<'_, '_>,
    selected: &[NamedParticipant<'_>],
    edits: &[Edit],
) -> Result<(), AllocError> {
    let mut left = PAIRS;
    for pair in wish.group.scenario.platform.pairs() {
        if is_chosen(wish.now, *pair) {
            break;
        }
        if lacking_pair(selected, *pair) > 1
            || found.leaves(Wanted::Image, wish.group.scenario.effort)
        {
            continue;
        }
        if left == 0 {
            found.untried.add(Wanted::Image);
            continue;
        }
        left = left.saturating_sub(1);
        let before = found.count;
        try_pair(found, wish, selected, edits, *pair)?;
        if found.count == before && found.is_done(wish.group.scenario.effort) {
            found.untried.add(Wanted::Image);
        }
    }
    Ok(())
}

/// Tries what would let a pair be chosen.
fn try_pair(
    found: &mut Found,
    wish: Wish<'_, '_>,
    selected: &[NamedParticipant<'_>],
    edits: &[Edit],
    pair: Pair,
) -> Result<(), AllocError> {
    let alloc = found.items.alloc();
    let group = wish.group;
    let Some(platform) = with_pair(alloc, group.scenario.platform, pair)? else {
        return Ok(());
    };
    let scenario = Scenario {
        platform: &platform,
        calls: group.scenario.calls,
        effort: group.scenario.effort,
    };
    let scope = Group {
        document: group.document,
        scenario: &scenario,
        story: group.story,
        path: group.path,
        root: group.root,
        participants: group.participants,
    };
    let goal = Goal::Pair(pair);
    let participants = Vec::from_slice(alloc, selected)?;
    try_party(found, Wish { goal, ..wish }, scope, participants, edits)
}

/// A platform with this pair alone.
pub(crate) fn with_pair(
    alloc: Global,
    platform: &Platform,
    pair: Pair,
) -> Result<Option<Platform>, AllocError> {
    let heaps = heaps_of(alloc, platform)?;
    let pairs = vec![in alloc; pair]?;
    let colours = Vec::from_slice(alloc, platform.colours())?;
    match Platform::of(heaps, pairs, colours) {
        Ok(other) => Ok(Some(other)),
        Err(_) => Ok(None),
    }
}

/// The heaps of a platform.
fn heaps_of(alloc: Global, platform: &Platform) -> Result<Vec<HeapInfo>, AllocError> {
    let mut heaps = Vec::new(alloc);
    for info in platform.heaps() {
        heaps.push(HeapInfo {
            heap: Heap {
                heap_type: info.heap.heap_type.clone()?,
                id: info.heap.id,
            },
            contiguous: info.contiguous,
            secure: info.secure,
            domains: info.domains,
        })?;
    }
    Ok(heaps)
}
