//! Nodes by their numbers.

ghost use Rattle.std.specs.Prelude.{◌≡◌, ◌<◌, IfSome, IsSome, length};
ghost use Rattle.sysmem_tree.specs.Nodes.{HasNode};
ghost use Rattle.sysmem_tree.specs.declared.tree.TheConstants.{MOST_NODES};

use crate::id::NodeId;
use crate::tree::Tree;

impl Tree {
    /// The node of this number, in the order in which nodes were made; `None` from `nodes()` on.
    pub fn node(&self, number: u32) -> Option<NodeId>
        ensures number { IfSome result (λ node. node ≡ number) }
        ensures some { number < length self.now.nodes → IsSome result }
        ensures there { IfSome result (HasNode self.now.nodes) }
    {
        if number as usize >= self.nodes.len() {
            return None;
        }
        Some(NodeId(number as usize))
    }

    /// The number of a node of the tree.
    pub fn number_of(&self, node: NodeId) -> u32
        requires { HasNode self.now.nodes node }
        ensures number { result ≡ node }
        ensures few { result < MOST_NODES }
    {
        let _ = &self.nodes;
        node.0 as u32
    }
}
