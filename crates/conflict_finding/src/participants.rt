//! For whom lines are sought.

ghost use Rattle.std.specs.Prelude.{All};
ghost use Rattle.sysmem_tree.specs.Nodes.{HasNode};

use negotiation_inputs::Platform;
use std::alloc::Global;
use sysmem_tree::{NodeId, Tree};

/// The participants at some nodes of a tree, on a platform, and where memory for their lines comes
/// from.
#[derive(Clone, Copy)]
pub(crate) struct Participants<'a> {
    pub(crate) alloc: Global,
    pub(crate) platform: &'a Platform,
    pub(crate) tree: &'a Tree,
    pub(crate) nodes: &'a [NodeId],
    /// Whether they are all that the decision of an initial domain has.
    pub(crate) whole: bool,
    ghost there: { All (HasNode tree.now.nodes) nodes.now },
}
