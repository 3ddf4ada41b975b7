//! Participants with what they ask.

use crate::story::{Milestone, Story};
use script_reading::Act;
use serde_json::Value;
use std::alloc::{AllocError, Global};
use value_sources::NamedParticipant;

/// Those of some nodes that have constraints.
pub fn asked_by<'a>(
    alloc: Global,
    story: &Story<'a>,
    nodes: &[usize],
) -> Result<Vec<NamedParticipant<'a>>, AllocError> {
    let mut participants = Vec::new(alloc);
    for node in nodes {
        if let Some(one) = asked_of(story, *node) {
            participants.push(one)?;
        }
    }
    Ok(participants)
}

/// Those of a domain that have constraints, of one that is chosen those who are selected.
pub fn asked_in<'a>(
    alloc: Global,
    story: &Story<'a>,
    domain: usize,
    are_selected: bool,
) -> Result<Vec<NamedParticipant<'a>>, AllocError> {
    let mut participants = Vec::new(alloc);
    for (node, known) in story.nodes.iter().enumerate() {
        if known.domain != domain || (are_selected && !known.is_selected) {
            continue;
        }
        if let Some(one) = asked_of(story, node) {
            participants.push(one)?;
        }
    }
    Ok(participants)
}

/// A node as a participant, if it has constraints.
fn asked_of<'a>(story: &Story<'a>, node: usize) -> Option<NamedParticipant<'a>> {
    let known = story.nodes.get(node)?;
    let asked = known.constraints?;
    Some(NamedParticipant {
        node,
        name: known.name,
        asked,
        stated: stated(story, node),
    })
}

/// The value that a participant set.
fn stated<'a>(story: &Story<'a>, node: usize) -> Option<&'a Value> {
    let number = story.milestone(node, Milestone::SetConstraints)?;
    match story.call(number)?.act {
        Act::SetConstraints(Some(stated)) => Some(stated.value()),
        _ => None,
    }
}
