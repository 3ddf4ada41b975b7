//! Paths in a list of nodes.

ghost use Rattle.std.specs.Prelude.{◌≡◌, ◌<◌, ℕ, List, Some, length, IfOk, IfSome, IsTrue};
ghost use Rattle.sysmem_tree.specs.Path.{child_of, node_at, path_of};
ghost use Rattle.sysmem_tree.specs.Nodes.{IsTree};

use crate::node::Node;
use std::alloc::{AllocError, Global};

/// This child of a parent, among these nodes.
fn child_among(nodes: &[Node], parent: usize, ordinal: u32) -> Option<usize>
    ensures child { result ≡ child_of nodes.now parent ordinal }
    ensures there { IfSome result (λ number. number < length nodes.now) }
{
    nodes.iter().position(|node| node.is_child(parent, ordinal))
}

/// Whether the node of this number is this child of this parent.
fn is_child_at(nodes: &[Node], number: usize, parent: usize, ordinal: u32) -> bool
    requires { IsTree nodes.now }
    ensures child { IsTrue result → child_of nodes.now parent ordinal ≡ Some number }
    ensures there { IsTrue result → number < length nodes.now }
{
    match nodes.get(number) {
        Some(node) => node.is_child(parent, ordinal),
        None => false,
    }
}

/// This child of this parent: one of the nodes after it. Where a parent made its children one
/// after the other, each is as far from it as its ordinal says.
fn child_of(nodes: &[Node], parent: usize, ordinal: u32) -> Option<usize>
    requires tree { IsTree nodes.now }
    requires parent { parent < length nodes.now }
    ensures child { result ≡ child_of nodes.now parent ordinal }
    ensures there { IfSome result (λ number. number < length nodes.now) }
{
    let nearest = (parent + 1).saturating_add(ordinal as usize);
    if is_child_at(nodes, nearest, parent, ordinal) {
        return Some(nearest);
    }
    let behind = child_among(&nodes[parent + 1..], parent, ordinal)?;
    Some(parent + 1 + behind)
}

/// The node at a path from the first node.
pub(crate) fn node_at(nodes: &[Node], path: &[u32]) -> Option<usize>
    requires tree { IsTree nodes.now }
    ensures node { result ≡ node_at nodes.now path.now }
    ensures there { IfSome result (λ number. number < length nodes.now) }
{
    let mut number = 0;
    for ordinal in path {
        number = child_of(nodes, number, *ordinal)?;
    }
    Some(number)
}

/// How many steps the path to a node from the first one has.
fn depth(nodes: &[Node], node: usize) -> usize
    requires tree { IsTree nodes.now }
    requires there { node < length nodes.now }
    ensures { result ≡ length (path_of nodes.now node) }
{
    let mut steps = 0;
    let mut number = node;
    while let Some(birth) = nodes[number].birth() {
        steps += 1;
        number = birth.parent;
    }
    steps
}

/// The path to a node from the first one, with room for its own steps alone.
pub(crate) fn path_to(alloc: Global, nodes: &[Node], node: usize) -> Result<Vec<u32>, AllocError>
    requires tree { IsTree nodes.now }
    requires there { node < length nodes.now }
    ensures path { IfOk result (λ path. path.items ≡ path_of nodes.now node) }
    ensures leads { IfOk result (λ path. node_at nodes.now path.items ≡ Some node) }
    ensures only { IfOk result
        (λ path. (other : List ℕ) → node_at nodes.now other ≡ Some node → other ≡ path.items) }
{
    let mut path = Vec::with_capacity(alloc, depth(nodes, node))?;
    let mut number = node;
    while let Some(birth) = nodes[number].birth() {
        path.push(birth.ordinal)?;
        number = birth.parent;
    }
    path.reverse();
    Ok(path)
}
