//! Which group chose another child than the one above a node.

use crate::story::Story;
use explanation_text::TextBuilder;
use std::alloc::{AllocError, Global};

/// How many levels of nodes there are at most.
const LEVELS: usize = 128;

/// A group that chose another child than the one above a node.
#[derive(Clone, Copy)]
pub struct LeftOut {
    pub group: usize,
    /// The child above the node, or the node itself.
    pub below: usize,
}

impl LeftOut {
    /// Of a node that isn't selected: the next selected one above it, and its child.
    pub fn of(story: &Story<'_>, node: usize) -> Option<LeftOut> {
        let mut below = node;
        let mut above = story.parent(node);
        for _level in 0..LEVELS {
            let group = above?;
            if story.is_selected(group) {
                break;
            }
            below = group;
            above = story.parent(group);
        }
        let group = above?;
        Some(LeftOut { group, below })
    }

    /// The child that the group chose.
    pub fn chosen(&self, alloc: Global, story: &Story<'_>) -> Result<Option<usize>, AllocError> {
        for child in &story.children(alloc, self.group)? {
            if story.is_selected(*child) {
                return Ok(Some(*child));
            }
        }
        Ok(None)
    }
}

/// Which group chose another child than the one above a node.
pub fn left_out(alloc: Global, story: &Story<'_>, node: usize) -> TextBuilder {
    let mut words = TextBuilder::new(alloc);
    put_left_out(&mut words, story, node);
    words
}

/// Puts the same after a text.
pub(crate) fn put_left_out(text: &mut TextBuilder, story: &Story<'_>, node: usize) {
    let Some(left) = LeftOut::of(story, node) else {
        text.put("another selection was chosen");
        return;
    };
    match left.chosen(text.alloc(), story) {
        Ok(chosen) => put_choice(text, story, node, left, chosen.unwrap_or(left.below)),
        Err(AllocError) => text.refuse(),
    }
}

/// Puts which child a group chose, and where a node stands, after a text: `g chose b and not a,
/// after call 9`, `x is below a, on which call 4 made it, and g chose b, after call 9`.
fn put_choice(text: &mut TextBuilder, story: &Story<'_>, node: usize, left: LeftOut, other: usize) {
    let is_below = left.below != node;
    if is_below {
        put_below(text, story, node, left.below);
    }
    text.name(story.called(left.group)).put(" chose ");
    text.name(story.called(other));
    if !is_below {
        text.put(" and not ").name(story.called(node));
    }
    text.put(", after call ")
        .call(end_of(story, node).unwrap_or(0));
}

/// Puts that a node is below a child, and which call made it on that one if one did, after a text.
fn put_below(text: &mut TextBuilder, story: &Story<'_>, node: usize, child: usize) {
    text.name(story.called(node)).put(" is below ");
    text.name(story.called(child));
    if story.parent(node) == Some(child)
        && let Some(made) = story.maker(node)
    {
        text.put(", on which call ").call(made).put(" made it");
    }
    text.put(", and ");
}

/// The call after which the domain of a node was decided or failed.
pub(crate) fn end_of(story: &Story<'_>, node: usize) -> Option<usize> {
    story.domain_of(node)?.ended
}
