//! Participants who are asked together whichever children of groups are selected.

use crate::trials::group::Group;
use crate::trials::need::need_in;
use crate::trials::unmet::{ReadRecord, has_groups};
use settings_reasons::{in_the_way, is_unmet};
use std::alloc::{AllocError, Global};
use value_sources::NamedParticipant;

/// How many parties are looked for at most.
const MOST: usize = 24;

/// How often one more group is looked at, at most.
const STEPS: usize = 64;

/// Participants who are asked together where some children of groups are selected.
#[derive(Drop)]
pub struct Party<'a> {
    pub(crate) participants: Vec<NamedParticipant<'a>>,
    /// Those of them who leave no settings by themselves.
    pub(crate) needed: Vec<NamedParticipant<'a>>,
}

impl Party<'_> {
    /// Whether somebody of those who leave no settings by themselves asks something else.
    pub(crate) fn is_changed(&self, read: &[ReadRecord<'_>]) -> bool {
        for other in read {
            if self.needs(other.node) {
                return true;
            }
        }
        false
    }

    /// Whether a participant, by its number among all, is one of those who leave no settings by
    /// themselves.
    pub(crate) fn needs(&self, node: usize) -> bool {
        for one in &self.needed {
            if one.node == node {
                return true;
            }
        }
        false
    }
}

/// Whether other constraints of a participant, by its number among all, can leave settings: it is
/// one of those who leave none by themselves in some party, or there are no parties.
pub fn can_help(parties: &[Party<'_>], node: usize) -> bool {
    for party in parties {
        if party.needs(node) {
            return true;
        }
    }
    parties.is_empty()
}

/// Parties of those of a group, of which one is asked whatever is selected, and each of which
/// leaves no settings; none where that isn't so, or they would be too many, or where the count of
/// buffers tells it, or nothing more is to be tried. Without groups of tokens it is one of all.
pub fn parties_of<'a>(alloc: Global, group: Group<'a, '_>) -> Result<Vec<Party<'a>>, AllocError> {
    let mut parties = Vec::new(alloc);
    if has_groups(group.story) && need_in(alloc, group, group.participants, None)?.is_too_great() {
        return Ok(parties);
    }
    for chosen in selections(alloc, group)? {
        let participants = asked_with(alloc, group, &chosen)?;
        let Some(needed) = hindering(alloc, group, &participants)? else {
            return Ok(Vec::new(alloc));
        };
        parties.push(Party {
            participants,
            needed,
        })?;
    }
    Ok(parties)
}

/// Those of some participants who leave no settings by themselves; `None` where all together leave
/// some, or nothing more is to be tried.
pub fn hindering<'a>(
    alloc: Global,
    group: Group<'_, '_>,
    participants: &[NamedParticipant<'a>],
) -> Result<Option<Vec<NamedParticipant<'a>>>, AllocError> {
    let scenario = group.scenario;
    if scenario.effort.is_spent() {
        return Ok(None);
    }
    scenario
        .effort
        .ask(participants.len().saturating_mul(participants.len()));
    in_the_way(alloc, scenario.platform, participants)
}

/// Children of groups that are selected, so that whatever is selected has one of these lists; none
/// where they would be too many.
fn selections(alloc: Global, group: Group<'_, '_>) -> Result<Vec<Vec<usize>>, AllocError> {
    let mut settled: Vec<Vec<usize>> = Vec::new(alloc);
    let mut left: Vec<Vec<usize>> = Vec::new(alloc);
    left.push(Vec::new(alloc))?;
    for _step in 0..STEPS {
        let Some(chosen) = left.pop() else {
            return Ok(settled);
        };
        match next_group(alloc, group, &chosen)? {
            Some(open) => {
                for child in group.story.children(alloc, open)? {
                    let mut longer = Vec::from_slice(alloc, &chosen)?;
                    longer.push(child)?;
                    left.push(longer)?;
                }
            }
            None => settled.push(chosen)?,
        }
        if settled.len().saturating_add(left.len()) > MOST {
            break;
        }
    }
    Ok(Vec::new(alloc))
}

/// The group of which a child is to be selected next: where those who are asked leave some
/// settings, one of those on which it hangs who is in the way once the first children of all others
/// are selected; `None` where those leave none, or nobody is in the way then.
fn next_group(
    alloc: Global,
    group: Group<'_, '_>,
    chosen: &[usize],
) -> Result<Option<usize>, AllocError> {
    let scenario = group.scenario;
    let participants = asked_with(alloc, group, chosen)?;
    scenario.effort.ask(participants.len());
    if is_unmet(alloc, scenario.platform, &participants)? {
        return Ok(None);
    }
    let longer = with_firsts(alloc, group, chosen)?;
    let participants = asked_with(alloc, group, &longer)?;
    if let Some(few) = hindering(alloc, group, &participants)? {
        for one in &few {
            if let Some(open) = open_above(group, chosen, one.node) {
                return Ok(Some(open));
            }
        }
    }
    Ok(None)
}

/// These children, and the first one of each other group that has its place then.
fn with_firsts(
    alloc: Global,
    group: Group<'_, '_>,
    chosen: &[usize],
) -> Result<Vec<usize>, AllocError> {
    let story = group.story;
    let mut longer = Vec::from_slice(alloc, chosen)?;
    for node in 0..story.nodes.len() {
        if !is_open(alloc, group, &longer, node)? {
            continue;
        }
        if let Some(first) = story.children(alloc, node)?.first() {
            longer.push(*first)?;
        }
    }
    Ok(longer)
}

/// The first group that has its place where these children are selected, and none of its own
/// selected, if there is one.
pub fn first_open(
    alloc: Global,
    group: Group<'_, '_>,
    chosen: &[usize],
) -> Result<Option<usize>, AllocError> {
    for node in 0..group.story.nodes.len() {
        if is_open(alloc, group, chosen, node)? {
            return Ok(Some(node));
        }
    }
    Ok(None)
}

/// Whether a node is a group that has its place where these children are selected, and none of its
/// own among them.
fn is_open(
    alloc: Global,
    group: Group<'_, '_>,
    chosen: &[usize],
    node: usize,
) -> Result<bool, AllocError> {
    let story = group.story;
    if !story.is_group(node) || !group.is_inside(node) || !is_asked(group, chosen, node) {
        return Ok(false);
    }
    Ok(!has_one_of(chosen, &story.children(alloc, node)?))
}

/// Whether one of some children is among those that are chosen.
fn has_one_of(chosen: &[usize], children: &[usize]) -> bool {
    for child in children {
        if chosen.contains(child) {
            return true;
        }
    }
    false
}

/// The first group above a node of which these children have none, if there is one.
fn open_above(group: Group<'_, '_>, chosen: &[usize], node: usize) -> Option<usize> {
    let mut open = None;
    let mut at = node;
    for _level in 0..group.story.nodes.len() {
        if at == group.root {
            break;
        }
        let above = group.story.nodes.get(at)?.parent?;
        if group.story.is_group(above) && !chosen.contains(&at) {
            open = Some(above);
        }
        at = above;
    }
    open
}

/// Those of a group who are asked wherever these children are selected.
pub fn asked_with<'a>(
    alloc: Global,
    group: Group<'a, '_>,
    chosen: &[usize],
) -> Result<Vec<NamedParticipant<'a>>, AllocError> {
    let mut participants = Vec::new(alloc);
    for participant in group.participants {
        if is_asked(group, chosen, participant.node) {
            participants.push(*participant)?;
        }
    }
    Ok(participants)
}

/// Whether a node has its place wherever these children are selected: each group above it has the
/// child that is above it among them.
fn is_asked(group: Group<'_, '_>, chosen: &[usize], node: usize) -> bool {
    let mut at = node;
    for _level in 0..group.story.nodes.len() {
        if at == group.root {
            return true;
        }
        let Some(known) = group.story.nodes.get(at) else {
            return false;
        };
        let Some(above) = known.parent else {
            return false;
        };
        if group.story.is_group(above) && !chosen.contains(&at) {
            return false;
        }
        at = above;
    }
    false
}
