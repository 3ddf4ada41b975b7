//! Nodes by their paths.

ghost use Rattle.std.specs.Prelude.{IfOk, IfSome};
ghost use Rattle.sysmem_tree.specs.Nodes.{HasNode};

use crate::failure::Failure;
use certificate_text::push_path;
use std::alloc::{AllocError, Global};
use sysmem_tree::{NodeId, Tree};

/// The node at a path such as `/` or `/0/2`; `None` where the tree has none there.
pub(super) fn node_at(alloc: Global, tree: &Tree, text: &str) -> Result<Option<NodeId>, Failure>
    ensures { IfOk result (λ found. IfSome found (HasNode tree.now.nodes)) }
{
    let Some(steps) = text.strip_prefix("/") else {
        return Err(Failure::NoPath);
    };
    if steps.is_empty() {
        return Ok(Some(tree.root()));
    }
    let mut ordinals = Vec::new(alloc);
    for step in steps.split('/') {
        let Ok(ordinal) = step.parse::<u32>() else {
            return Err(Failure::NoNumber);
        };
        ordinals.push(ordinal)?;
    }
    Ok(tree.node_at(&ordinals))
}

/// Writes a space and a node's path after a text.
pub(super) fn push_node(text: &mut String, tree: &Tree, node: NodeId) -> Result<(), AllocError>
    requires { HasNode tree.now.nodes node }
{
    text.push(' ')?;
    push_path(text, tree.path_of(node)?.ordinals())
}
