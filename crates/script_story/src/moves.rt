//! Calls that stand too early: before the bind of what they are made on, as the bind of what later
//! ones need as a token, as the all_children_present of a group that gets later children, or as the
//! release of what later ones are made on.

use crate::story::{MadeCall, Milestone, Story};
use explanation_text::ListBuilder;
use script_reading::Act;
use std::alloc::{AllocError, Global};
use sysmem_tree::{NodeKind, Refusal};

/// A call that is to stand after another, both by number.
#[derive(Clone, Copy)]
pub struct Move {
    pub call: usize,
    pub after: usize,
}

/// The calls that were refused since a later one binds what they are made on; and those after which
/// a later one was refused, since they bind the token or complete the group that it needs, with those
/// made on it since, or release what it is made on.
pub fn moves_in(alloc: Global, story: &Story<'_>) -> Result<Vec<Move>, AllocError> {
    let mut moves = ListBuilder::new(alloc);
    for (index, call) in story.calls.iter().enumerate() {
        add_moves(&mut moves, story, call, index.saturating_add(1));
    }
    moves.done()
}

/// Adds what the answer to the call of a number says is to be moved.
fn add_moves(moves: &mut ListBuilder<Move>, story: &Story<'_>, call: &MadeCall<'_>, number: usize) {
    if let Some(after) = binding(story, call, number) {
        moves.add(Move {
            call: number,
            after,
        });
    }
    if makes_late(call) && is_last(story, call, number) {
        add_held(moves, story, call, number);
    }
    if let Some(call) = released_before(story, call, number) {
        moves.add(Move {
            call,
            after: number,
        });
    }
}

/// The earlier call that released what the call of a number is made on, where this one was refused
/// for that, and no later one was.
fn released_before(story: &Story<'_>, call: &MadeCall<'_>, number: usize) -> Option<usize> {
    let node = call.node?;
    if !needs_open(call) {
        return None;
    }
    for later in story.calls.iter().skip(number) {
        if later.node == call.node && needs_open(later) {
            return None;
        }
    }
    let ended = story.milestone_before(node, Milestone::End, number)?;
    match story.call(ended)?.act {
        Act::Release => Some(ended),
        _ => None,
    }
}

/// Whether a call was refused in its state that needs a node which isn't released.
fn needs_open(call: &MadeCall<'_>) -> bool {
    let needs = match call.act {
        Act::Release | Act::Close | Act::Check | Act::Wait => false,
        _ => true,
    };
    needs && call.is_refused_as(Refusal::WrongState)
}

/// Whether a call was refused that makes a node, since the one that it is made on is no token or no
/// group, or not any more.
fn makes_late(call: &MadeCall<'_>) -> bool {
    ended_by(call).is_some() && call.is_refused_as(Refusal::WrongState)
}

/// What ends that a call can make a node on another.
fn ended_by(call: &MadeCall<'_>) -> Option<Milestone> {
    match call.act {
        Act::Duplicate(_) | Act::CreateGroup(_) => Some(Milestone::Bind),
        Act::CreateChild(_) => Some(Milestone::Complete),
        _ => None,
    }
}

/// Whether no call after that of a number was refused since it makes a node on the same one.
fn is_last(story: &Story<'_>, call: &MadeCall<'_>, number: usize) -> bool {
    for later in story.calls.iter().skip(number) {
        if later.node == call.node && makes_late(later) {
            return false;
        }
    }
    true
}

/// Adds the call that ended what the call of a number needs of the node that it is made on, and those
/// made on it since: they are to stand after that call.
fn add_held(moves: &mut ListBuilder<Move>, story: &Story<'_>, call: &MadeCall<'_>, number: usize) {
    let (Some(node), Some(milestone)) = (call.node, ended_by(call)) else {
        return;
    };
    let Some(ended) = story.milestone_before(node, milestone, number) else {
        return;
    };
    if story
        .milestone_before(node, Milestone::End, number)
        .is_some()
    {
        return;
    }
    for (index, other) in story.calls.iter().enumerate() {
        let own = index.saturating_add(1);
        let is_between = ended <= own && own < number;
        if is_between && other.node == call.node && other.is_accepted() {
            moves.add(Move {
                call: own,
                after: number,
            });
        }
    }
}

/// The later call that binds the token on which the call of a number was refused.
fn binding(story: &Story<'_>, call: &MadeCall<'_>, number: usize) -> Option<usize> {
    let node = call.node?;
    let suits = match call.act {
        Act::SetConstraints(_) | Act::AttachToken(_) | Act::Check | Act::Wait => {
            call.is_refused_as(Refusal::WrongState)
        }
        _ => false,
    };
    let is_gone = story
        .milestone_before(node, Milestone::End, number)
        .is_some();
    if !suits || is_gone || story.kind_before(node, number) != NodeKind::Token {
        return None;
    }
    story.milestone(node, Milestone::Bind)
}
