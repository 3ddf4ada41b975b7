//! Calls on nodes that aren't selected, and what they may mean.

use crate::meant::{MeantCall, is_open};
use script_reading::Act;
use script_story::{LeftOut, MadeCall, Milestone, Story};
use std::alloc::{AllocError, Global};
use sysmem_tree::NodeKind;

/// The call that may mean another node where the call of a number was refused since its node isn't
/// selected: that which made the node, on the parent of the group that chose otherwise; else this
/// call, if it attaches a token, on a node that is selected.
pub(crate) fn meant_for_left_out(
    alloc: Global,
    story: &Story<'_>,
    call: &MadeCall<'_>,
    number: usize,
) -> Result<Option<MeantCall>, AllocError> {
    let Some(node) = call.node else {
        return Ok(None);
    };
    let Some(left) = LeftOut::of(story, node) else {
        return Ok(None);
    };
    if let Some(made) = made_above(story, node, left) {
        return Ok(Some(made));
    }
    if !matches!(call.act, Act::AttachToken(_)) {
        return Ok(None);
    }
    match host_for(alloc, story, node, left, number)? {
        Some(node) => Ok(Some(MeantCall::on(number, node))),
        None => Ok(None),
    }
}

/// The call that made a node below a child that its group didn't choose, on the group's parent: if
/// it duplicates a token, the parent was one too then, and another actor binds the node than the
/// child. Where one actor binds both the node goes with the child.
fn made_above(story: &Story<'_>, node: usize, left: LeftOut) -> Option<MeantCall> {
    let number = story.maker(node)?;
    let parent = story.parent(left.group)?;
    let owner = binder(story, node)?;
    let is_of_another = binder(story, left.below)? != owner;
    let is_duplicate = matches!(story.call(number)?.act, Act::Duplicate(_));
    if is_duplicate && is_of_another && is_open(story, parent, NodeKind::Token, number) {
        return Some(MeantCall::on(number, parent));
    }
    None
}

/// The actor that binds a node.
fn binder<'a>(story: &Story<'a>, node: usize) -> Option<&'a str> {
    let bound = story.milestone(node, Milestone::Bind)?;
    Some(story.actor(bound))
}

/// The selected collection to which the call of a number may mean to attach a token, in the place
/// of one that isn't selected: the chosen child of its group, if one actor binds both; else the only
/// one of that actor in the domain; else the chosen child.
fn host_for(
    alloc: Global,
    story: &Story<'_>,
    node: usize,
    left: LeftOut,
    number: usize,
) -> Result<Option<usize>, AllocError> {
    let chosen = match left.chosen(alloc, story)? {
        Some(child) if takes_token(story, child, number) => Some(child),
        _ => None,
    };
    match chosen {
        Some(child) if binder(story, child) == binder(story, node) => return Ok(chosen),
        _ => {}
    }
    let own = own_hosts(alloc, story, node, number)?;
    match own.as_slice() {
        [one] => Ok(Some(*one)),
        _ => Ok(chosen),
    }
}

/// The selected collections of a node's domain that its actor binds, to which the call of a number
/// can attach a token.
fn own_hosts(
    alloc: Global,
    story: &Story<'_>,
    node: usize,
    number: usize,
) -> Result<Vec<usize>, AllocError> {
    let domain = match story.nodes.get(node) {
        Some(known) => known.domain,
        None => 0,
    };
    let mut hosts = Vec::new(alloc);
    for (other, known) in story.nodes.iter().enumerate() {
        let is_own = known.domain == domain && binder(story, other) == binder(story, node);
        if is_own && takes_token(story, other, number) {
            hosts.push(other)?;
        }
    }
    Ok(hosts)
}

/// Whether the call of a number can attach a token to a node.
fn takes_token(story: &Story<'_>, node: usize, number: usize) -> bool {
    story.is_selected(node) && is_open(story, node, NodeKind::Collection, number)
}
