//! Whether a domain of one tree has the shape that it has in another.

ghost use Rattle.std.specs.Prelude.{◌≡◌, ◌↔◌, ◌≤◌, ◌<◌, ℕ, IsTrue, length, map, option_map};
ghost use Rattle.std.specs.Arc.{arc_value};
ghost use Rattle.sysmem_tree.specs.Domain.{HasDomain};
ghost use Rattle.sysmem_tree.specs.Forest.{Forest};
ghost use Rattle.sysmem_tree.specs.Laws.{labels};
ghost use Rattle.sysmem_tree.specs.Layout.{HoldNumbers, IsLayout};
ghost use Rattle.sysmem_tree.specs.Members.{shown_at};
ghost use Rattle.sysmem_tree.specs.Nodes.{HasNode, IsTree};
ghost use Rattle.sysmem_tree.specs.Path.{path_of};
ghost use Rattle.sysmem_tree.specs.Shape.{shape_of};

use crate::id::{DomainId, NodeId};
use crate::layout::Layout;
use crate::node::Node;
use crate::tree::{MOST_NODES, Tree};
use negotiation_inputs::Constraints;
use std::sync::Arc;

/// Whether nodes of two trees have one path: at each step up both are the same child.
fn have_same_path(nodes: &[Node], node: usize, others: &[Node], other: usize) -> bool
    requires own_tree { IsTree nodes.now }
    requires other_tree { IsTree others.now }
    requires own_there { node < length nodes.now }
    requires other_there { other < length others.now }
    ensures { IsTrue result ↔ (path_of nodes.now node ≡ path_of others.now other) }
{
    let mut own = node;
    let mut its = other;
    while let Some(birth) = nodes[own].birth() {
        let Some(other_birth) = others[its].birth() else {
            return false;
        };
        if birth.ordinal != other_birth.ordinal {
            return false;
        }
        own = birth.parent;
        its = other_birth.parent;
    }
    others[its].birth().is_none()
}

/// Whether two nodes ask the same, or both nothing.
fn ask_same(asked: &Option<Arc<Constraints>>, other: &Option<Arc<Constraints>>) -> bool
    ensures { IsTrue result ↔ (option_map (λ shared. arc_value shared) asked.now
        ≡ option_map (λ shared. arc_value shared) other.now) }
{
    match (asked, other) {
        (Some(asked), Some(other)) => asked.is_same(other),
        (None, None) => true,
        _ => false,
    }
}

/// Whether two nodes are of one kind and ask the same.
fn are_alike(node: &Node, other: &Node) -> bool
    ensures { IsTrue result ↔ ((node.now.state.kind ≡ other.now.state.kind)
        × (node.now.constraints ≡ other.now.constraints)) }
{
    node.state.kind == other.state.kind && ask_same(&node.constraints, &other.constraints)
}

/// Whether two nodes, each of its tree, show the same in a shape.
fn show_same(nodes: &[Node], node: usize, others: &[Node], other: usize) -> bool
    requires own_tree { IsTree nodes.now }
    requires other_tree { IsTree others.now }
    requires own_there { node < length nodes.now }
    requires other_there { other < length others.now }
    ensures { IsTrue result ↔ (shown_at nodes.now node ≡ shown_at others.now other) }
{
    are_alike(&nodes[node], &others[other]) && have_same_path(nodes, node, others, other)
}

/// Whether the nodes of two layouts, each by its tree, show the same in their order.
fn lay_out_same(nodes: &[Node], layout: &Layout, others: &[Node], other: &Layout) -> bool
    requires own_tree { IsTree nodes.now }
    requires other_tree { IsTree others.now }
    requires own_start { layout.now.start ≤ MOST_NODES }
    requires other_start { other.now.start ≤ MOST_NODES }
    requires own_numbers { HoldNumbers (length nodes.now) layout.now.places }
    requires other_numbers { HoldNumbers (length others.now) other.now.places }
    ensures { (d e : Forest ℕ) → IsLayout layout.now d → IsLayout other.now e → IsTrue result
        ↔ (map (shown_at nodes.now) (labels d) ≡ map (shown_at others.now) (labels e)) }
{
    if layout.start != other.start {
        return false;
    }
    for at in layout.start..MOST_NODES {
        let node = layout.places[at].node as usize;
        let its = other.places[at].node as usize;
        if !show_same(nodes, node, others, its) {
            return false;
        }
    }
    true
}

/// Whether the domain of this root has one shape in two trees.
fn have_same_shape(nodes: &[Node], others: &[Node], root: usize) -> bool
    requires own_tree { IsTree nodes.now }
    requires other_tree { IsTree others.now }
    requires own { HasDomain nodes.now root }
    requires other { HasDomain others.now root }
    ensures { IsTrue result ↔ (shape_of nodes.now root ≡ shape_of others.now root) }
{
    lay_out_same(
        nodes,
        &Layout::new(nodes, root),
        others,
        &Layout::new(others, root),
    )
}

impl Tree {
    /// Whether a node of this tree and one of another show the same in a shape: the same path, kind
    /// and constraints. It takes no memory.
    pub fn shows_same(&self, node: NodeId, others: &Tree, other: NodeId) -> bool
        requires own_there { HasNode self.now.nodes node }
        requires other_there { HasNode others.now.nodes other }
        ensures { IsTrue result
            ↔ (shown_at self.now.nodes node ≡ shown_at others.now.nodes other) }
    {
        show_same(&self.nodes, node.0, &others.nodes, other.0)
    }

    /// Whether a domain of this tree has the shape that the domain of this number has in another:
    /// the same paths, kinds and constraints, whatever the numbers of its nodes are. It takes no
    /// memory.
    pub fn has_same_shape(&self, domain: DomainId, others: &Tree) -> bool
        requires own { HasDomain self.now.nodes domain }
        requires other { HasDomain others.now.nodes domain }
        ensures { IsTrue result
            ↔ (shape_of self.now.nodes domain ≡ shape_of others.now.nodes domain) }
    {
        have_same_shape(&self.nodes, &others.nodes, domain.0)
    }
}
