//! The members that choices settle in a domain, without memory.

ghost use Rattle.std.specs.Prelude.{◌≡◌, ◌≤◌, ◌<◌, ◌+◌, ◌++◌, ℕ, List, [], ◌∷◌, All, IsPermutation, length};
ghost use Rattle.sysmem_tree.specs.Domain.{HasDomain};
ghost use Rattle.sysmem_tree.specs.Nodes.{HasNode};
ghost use Rattle.sysmem_tree.specs.OpenGroups.{HasLeft};
ghost use Rattle.sysmem_tree.specs.Selection.{IsPrefix};
ghost use Rattle.sysmem_tree.specs.Shape.{by_number, forest_of, members_of};

use std::marker::Model;
use sysmem_tree::laws::{members_stand_once, prefix_of_prefix};
use sysmem_tree::layout_laws::{choice_settles_share, none_open_is_selection};
use sysmem_tree::{DomainId, Layout, MOST_NODES, NodeId, Prefix, SettledNodes, Tree};

/// Some nodes of a tree, at most 128.
#[derive(Drop)]
pub(crate) struct Members {
    nodes: [NodeId; MOST_NODES],
    many: usize,
}

impl Model for Members {
    ghost use Rattle.std.specs.Prelude.{◌≤◌, ℕ, List, take};
    ghost use Rattle.sysmem_tree.specs.declared.tree.TheConstants.{MOST_NODES};

    ghost Value = { List ℕ };

    ghost view = { λ m. take m.many m.nodes };

    ghost invariant = { λ m. m.many ≤ MOST_NODES };
}

impl Members {
    /// No nodes; the one given stands where none is yet.
    fn none(node: NodeId) -> Members
        ensures { result ≡ [] }
    {
        Members {
            nodes: [node; MOST_NODES],
            many: 0,
        }
    }

    /// The nodes.
    pub(crate) fn as_slice(&self) -> &[NodeId]
        ensures { result.now ≡ self.now }
    {
        &self.nodes[..self.many]
    }

    /// Adds a node.
    fn push(&mut self, node: NodeId)
        requires { length self.old < MOST_NODES }
        ensures { self.new ≡ self.old ++ node ∷ [] }
    {
        self.nodes[self.many] = node;
        self.many += 1;
    }
}

/// Adds the nodes that a walk over the layout gives.
fn gather(layout: &Layout, walk: SettledNodes, members: &mut Members)
    requires { (ns : List ℕ) × HasLeft layout.now walk ns
        × (length members.old + length ns ≤ MOST_NODES) }
    ensures { (ns : List ℕ) → HasLeft layout.now walk ns → members.new ≡ members.old ++ ns }
{
    let mut left = walk;
    for _step in 0..MOST_NODES {
        let Some(node) = layout.next_settled(&mut left) else {
            return;
        };
        members.push(node);
    }
}

/// The members that choices settle in a domain, in any order.
pub(crate) fn settled_members(tree: &Tree, domain: DomainId, prefix: &Prefix) -> Members
    requires domain { HasDomain tree.now.nodes domain }
    requires prefix { IsPrefix (forest_of by_number tree.now.nodes domain []) prefix.now }
    ensures order { IsPermutation result (members_of tree.now.nodes domain prefix.now) }
    ensures there { All (HasNode tree.now.nodes) result }
{
    tree.recall_sound();
    members_stand_once();
    prefix_of_prefix();
    choice_settles_share();
    none_open_is_selection();
    let layout = tree.layout(domain);
    let mut members = Members::none(tree.root());
    gather(&layout, layout.settled_first(), &mut members);
    let mut group = layout.first_open();
    for choice in prefix.choices() {
        let Some(at) = group else {
            return members;
        };
        let child = layout.child_at(at, *choice);
        gather(&layout, layout.settled_with(child), &mut members);
        group = layout.open_after(child);
    }
    members
}
