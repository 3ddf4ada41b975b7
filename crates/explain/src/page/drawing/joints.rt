//! The nodes of a collection as the joints of a tree.

use crate::page::drawing::hindering::in_the_way_of;
use crate::page::drawing::states::{standing_of, state_of};
use explanation_text::{Drawing, Joint, Shape};
use negotiation_inputs::Platform;
use script_story::Story;
use std::alloc::{AllocError, Global};
use sysmem_tree::NodeKind;

/// A node of which the joint isn't there yet, with the index of the joint above it.
#[derive(Clone, Copy)]
struct UndrawnNode {
    node: usize,
    above: Option<usize>,
    depth: usize,
}

/// Adds a joint for each node, each after the one above it and before what isn't below it.
pub(crate) fn add_joints<'b>(
    alloc: Global,
    drawing: &mut Drawing<'b>,
    platform: &Platform,
    story: &'b Story<'_>,
) -> Result<(), AllocError> {
    let in_the_way = in_the_way_of(alloc, platform, story)?;
    let mut left: Vec<UndrawnNode> = Vec::new(alloc);
    left.push(UndrawnNode {
        node: 0,
        above: None,
        depth: 0,
    })?;
    for _node in 0..story.nodes.len() {
        let Some(next) = left.pop() else {
            break;
        };
        let row = drawing.joints.len();
        drawing
            .joints
            .push(joint_of(alloc, story, next, &in_the_way)?)?;
        add_children(&mut left, story, next, row)?;
    }
    Ok(())
}

/// Puts a node's children before what is left, the last first.
fn add_children(
    left: &mut Vec<UndrawnNode>,
    story: &Story<'_>,
    above: UndrawnNode,
    row: usize,
) -> Result<(), AllocError> {
    for (number, known) in story.nodes.iter().enumerate().rev() {
        if known.parent == Some(above.node) {
            left.push(UndrawnNode {
                node: number,
                above: Some(row),
                depth: above.depth.saturating_add(1),
            })?;
        }
    }
    Ok(())
}

fn joint_of<'b>(
    alloc: Global,
    story: &'b Story<'_>,
    left: UndrawnNode,
    in_the_way: &[usize],
) -> Result<Joint<'b>, AllocError> {
    let node = left.node;
    let kind = story.kind_before(node, usize::MAX);
    let (standing, word) = standing_of(story, node, in_the_way.contains(&node));
    let is_late = match story.domain_of(node) {
        Some(domain) => domain.host.is_some() && domain.root == node,
        None => false,
    };
    Ok(Joint {
        name: story.name(node),
        path: story.path(node),
        above: left.above,
        depth: left.depth,
        shape: match kind {
            NodeKind::Token => Shape::Token,
            NodeKind::Collection => Shape::Collection,
            NodeKind::Group => Shape::Group,
        },
        is_late,
        state: state_of(alloc, story, node).done()?,
        standing,
        word,
    })
}
