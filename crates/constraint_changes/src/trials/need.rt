//! Whether participants need too many buffers in each place, whichever children of groups are
//! selected.

use crate::trials::group::Group;
use std::alloc::{AllocError, Global};
use sysmem_counts::BUFFER_COUNT_LIMIT;
use sysmem_memory::{CoherencyDomain, HeapInfo, refuses};
use value_sources::NamedParticipant;

/// How many buffers participants need at least, and how many they take at most.
#[derive(Clone, Copy)]
pub(crate) struct Need {
    /// Their camping and dedicated slack, in sum.
    own: u64,
    /// Their shared slack, the greatest.
    shared: u32,
    least: u32,
    most: u32,
}

impl Need {
    /// That of nobody.
    fn none() -> Need {
        Need {
            own: 0,
            shared: 0,
            least: 0,
            most: u32::MAX,
        }
    }

    /// That of a participant, in a place if one is given: without end where it refuses that.
    fn of(participant: &NamedParticipant<'_>, place: Option<(&HeapInfo, CoherencyDomain)>) -> Need {
        let (memory, usage) = (participant.asked.memory(), participant.asked.usage());
        let is_refused = match place {
            Some((heap, coherency)) => refuses(memory, usage, heap, coherency).is_some(),
            None => false,
        };
        let counts = participant.asked.counts();
        let camping = u64::from(counts.min_buffer_count_for_camping);
        let dedicated = u64::from(counts.min_buffer_count_for_dedicated_slack);
        Need {
            own: camping.saturating_add(dedicated),
            shared: counts.min_buffer_count_for_shared_slack,
            least: if is_refused {
                u32::MAX
            } else {
                counts.min_buffer_count
            },
            most: counts.max_buffer_count,
        }
    }

    /// That of both together.
    fn with(self, other: Need) -> Need {
        Need {
            own: self.own.saturating_add(other.own),
            shared: self.shared.max(other.shared),
            least: self.least.max(other.least),
            most: self.most.min(other.most),
        }
    }

    /// What one of both needs at least, whichever it is.
    fn or(self, other: Need) -> Need {
        Need {
            own: self.own.min(other.own),
            shared: self.shared.min(other.shared),
            least: self.least.min(other.least),
            most: self.most.max(other.most),
        }
    }

    /// Whether there is no count for it.
    pub(crate) fn is_too_great(self) -> bool {
        let together = self.own.saturating_add(u64::from(self.shared));
        let needed = together.max(u64::from(self.least));
        needed > u64::from(self.most.min(BUFFER_COUNT_LIMIT))
    }
}

/// Whether those of a group, asked so, need more buffers than they take or than there can be,
/// whichever children of groups are selected, or else do so in each place of the platform.
pub(crate) fn need_too_many(
    alloc: Global,
    group: Group<'_, '_>,
    participants: &[NamedParticipant<'_>],
) -> Result<bool, AllocError> {
    if need_in(alloc, group, participants, None)?.is_too_great() {
        return Ok(true);
    }
    for heap in group.scenario.platform.heaps() {
        for coherency in &CoherencyDomain::ALL {
            if heap.domains.has(*coherency)
                && !need_in(alloc, group, participants, Some((heap, *coherency)))?.is_too_great()
            {
                return Ok(false);
            }
        }
    }
    Ok(true)
}

/// Whether participants who are all asked need more buffers than they take or than there can be.
pub(crate) fn together_need_too_many(participants: &[NamedParticipant<'_>]) -> bool {
    let mut total = Need::none();
    for participant in participants {
        total = total.with(Need::of(participant, None));
    }
    total.is_too_great()
}

/// What those of a group need, in a place if one is given, whichever children of groups are
/// selected: of a group at least as much as the child that needs the least.
pub(crate) fn need_in(
    alloc: Global,
    group: Group<'_, '_>,
    participants: &[NamedParticipant<'_>],
    place: Option<(&HeapInfo, CoherencyDomain)>,
) -> Result<Need, AllocError> {
    let mut needs: Vec<Option<Need>> = Vec::new(alloc);
    for _node in 0..group.story.nodes.len() {
        needs.push(None)?;
    }
    for participant in participants {
        if let Some(need) = needs.get_mut(participant.node) {
            *need = Some(Need::of(participant, place));
        }
    }
    let mut total = Need::none();
    for node in (group.root..needs.len()).rev() {
        total = match needs.get(node) {
            Some(Some(need)) => *need,
            _ => Need::none(),
        };
        if group.is_inside(node) {
            add_above(group, &mut needs, node, total);
        }
    }
    Ok(total)
}

/// Adds what a node and those below it need to what its parent and others below that do: to a
/// group's where it needs less.
fn add_above(group: Group<'_, '_>, needs: &mut [Option<Need>], node: usize, total: Need) {
    let Some(known) = group.story.nodes.get(node) else {
        return;
    };
    let Some(above) = known.parent else {
        return;
    };
    if let Some(need) = needs.get_mut(above) {
        *need = Some(match *need {
            None => total,
            Some(least) if group.story.is_group(above) => least.or(total),
            Some(own) => own.with(total),
        });
    }
}
