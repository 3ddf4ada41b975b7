//! Those of an attached domain who come together: of each group one child has buffers.

use script_story::{Story, asked_in};
use std::alloc::{AllocError, Global};
use value_sources::NamedParticipant;

/// Which child is taken of each group.
#[derive(Clone, Copy, PartialEq, Eq)]
pub(crate) enum Taken {
    First,
    /// The one that needs the fewest buffers for those below it alone; the first of these.
    Fewest,
}

/// Those who come together, and the children that are taken.
#[derive(Drop)]
pub(crate) struct Combination<'a> {
    pub(crate) participants: Vec<NamedParticipant<'a>>,
    pub(crate) children: Vec<usize>,
}

/// A child of a group, and how many buffers those below it need for themselves alone.
#[derive(Clone, Copy)]
struct Child {
    node: usize,
    own: u64,
}

/// Those of the domain of an index who come together where such a child is taken of each group.
pub(crate) fn combined<'a>(
    alloc: Global,
    story: &Story<'a>,
    index: usize,
    which: Taken,
) -> Result<Combination<'a>, AllocError> {
    let asked = asked_in(alloc, story, index, false)?;
    let taken = taken_in(alloc, story, index, &asked, which)?;
    let mut participants = Vec::new(alloc);
    for participant in &asked {
        if is_taken(story, &taken, participant.node) {
            participants.push(*participant)?;
        }
    }
    let children = children_in(alloc, story, &taken)?;
    Ok(Combination {
        participants,
        children,
    })
}

/// The child that is taken of each group of the domain of an index, by the group's number.
fn taken_in(
    alloc: Global,
    story: &Story<'_>,
    index: usize,
    asked: &[NamedParticipant<'_>],
    which: Taken,
) -> Result<Vec<Option<Child>>, AllocError> {
    let mut own = needs_of(alloc, story, asked)?;
    let mut taken: Vec<Option<Child>> = Vec::new(alloc);
    for _node in 0..story.nodes.len() {
        taken.push(None)?;
    }
    for node in (0..story.nodes.len()).rev() {
        add_above(story, index, &mut own, &mut taken, node, which);
    }
    Ok(taken)
}

/// How many buffers each node needs for itself alone.
fn needs_of(
    alloc: Global,
    story: &Story<'_>,
    asked: &[NamedParticipant<'_>],
) -> Result<Vec<u64>, AllocError> {
    let mut own: Vec<u64> = Vec::new(alloc);
    for _node in 0..story.nodes.len() {
        own.push(0)?;
    }
    for participant in asked {
        if let Some(need) = own.get_mut(participant.node) {
            *need = own_of(participant);
        }
    }
    Ok(own)
}

/// Adds what a node of the domain of an index needs with those below it to what its parent needs;
/// below a group it is that of the child that is taken.
fn add_above(
    story: &Story<'_>,
    index: usize,
    own: &mut [u64],
    taken: &mut [Option<Child>],
    node: usize,
    which: Taken,
) {
    let need = need_of(own, taken, node);
    let Some(known) = story.nodes.get(node) else {
        return;
    };
    let Some(above) = known.parent else {
        return;
    };
    if known.domain != index {
        return;
    }
    if story.is_group(above) {
        take(taken, above, Child { node, own: need }, which);
    } else if let Some(all) = own.get_mut(above) {
        *all = all.saturating_add(need);
    }
}

/// How many buffers a node needs with those below it.
fn need_of(own: &[u64], taken: &[Option<Child>], node: usize) -> u64 {
    if let Some(Some(child)) = taken.get(node) {
        return child.own;
    }
    match own.get(node) {
        Some(need) => *need,
        None => 0,
    }
}

/// Takes an earlier child of a group, if it is such a one.
fn take(taken: &mut [Option<Child>], group: usize, child: Child, which: Taken) {
    if let Some(known) = taken.get_mut(group) {
        let is_such = match *known {
            Some(later) => which == Taken::First || child.own <= later.own,
            None => true,
        };
        if is_such {
            *known = Some(child);
        }
    }
}

/// Whether a node lies below none but taken children.
fn is_taken(story: &Story<'_>, taken: &[Option<Child>], node: usize) -> bool {
    let mut at = node;
    for _level in 0..story.nodes.len() {
        let Some(parent) = story.parent(at) else {
            return true;
        };
        if let Some(Some(child)) = taken.get(parent)
            && child.node != at
        {
            return false;
        }
        at = parent;
    }
    true
}

/// The children that are taken, of groups that lie below none but taken ones.
fn children_in(
    alloc: Global,
    story: &Story<'_>,
    taken: &[Option<Child>],
) -> Result<Vec<usize>, AllocError> {
    let mut children = Vec::new(alloc);
    for (group, child) in taken.iter().enumerate() {
        if let Some(child) = child
            && is_taken(story, taken, group)
        {
            children.push(child.node)?;
        }
    }
    Ok(children)
}

/// How many buffers are for a participant alone: for camping, and as dedicated slack.
pub(crate) fn own_of(one: &NamedParticipant<'_>) -> u64 {
    let counts = one.asked.counts();
    let camping = u64::from(counts.min_buffer_count_for_camping);
    camping.saturating_add(u64::from(counts.min_buffer_count_for_dedicated_slack))
}
