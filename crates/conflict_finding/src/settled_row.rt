//! Participants in the order in which a search settled them.

ghost use Rattle.std.specs.Prelude.{◌≡◌, ◌<◌, ◌≤◌, All, Contains, IfOk, IsTrue, get_or, length, take};
ghost use Rattle.sysmem_tree.specs.Nodes.{HasNode};
ghost use Rattle.conflict_finding.specs.OffersAsked.{AreThose};

use std::alloc::{AllocError, Global};
use sysmem_tree::{MOST_NODES, NodeId, Tree};

/// Where in a list each of its nodes stands, by the node's number; of another node any place.
fn places_in(tree: &Tree, nodes: &[NodeId]) -> [usize; MOST_NODES]
    requires { All (HasNode tree.now.nodes) nodes.now }
{
    let mut places = [0; MOST_NODES];
    for (place, node) in nodes.iter().enumerate() {
        places[tree.number_of(*node) as usize] = place;
    }
    places
}

/// Whether the node stands at this place.
fn stands_at(nodes: &[NodeId], place: usize, node: NodeId) -> bool
    ensures within { IsTrue result → place < length nodes.now }
    ensures is { IsTrue result → node ≡ get_or nodes.now place node }
{
    place < nodes.len() && nodes[place] == node
}

/// Those of a row who are among these nodes, in its order.
fn staying(
    alloc: Global,
    tree: &Tree,
    row: &[NodeId],
    nodes: &[NodeId],
) -> Result<Vec<NodeId>, AllocError>
    requires row { All (HasNode tree.now.nodes) row.now }
    requires there { All (HasNode tree.now.nodes) nodes.now }
    ensures { IfOk result (λ stay. All (Contains nodes.now) stay.items) }
{
    let places = places_in(tree, nodes);
    let mut stay = Vec::with_capacity(alloc, nodes.len())?;
    for node in row {
        if stands_at(nodes, places[tree.number_of(*node) as usize], *node) {
            stay.push(*node)?;
        }
    }
    Ok(stay)
}

/// These nodes in a row: those first who are in the row before, in its order.
pub(crate) fn next_row(
    alloc: Global,
    tree: &Tree,
    row: &[NodeId],
    nodes: &[NodeId],
) -> Result<Vec<NodeId>, AllocError>
    requires row { All (HasNode tree.now.nodes) row.now }
    requires there { All (HasNode tree.now.nodes) nodes.now }
    ensures { IfOk result (λ next. AreThose next.items nodes.now) }
{
    let mut next = staying(alloc, tree, row, nodes)?;
    let places = places_in(tree, &next);
    for node in nodes {
        if !stands_at(&next, places[tree.number_of(*node) as usize], *node) {
            next.push(*node)?;
        }
    }
    Ok(next)
}

/// How many nodes two rows have in common at their front.
pub(crate) fn common_front(row: &[NodeId], next: &[NodeId]) -> usize
    ensures same { take result row.now ≡ take result next.now }
    ensures few { result ≤ length next.now }
{
    for (index, node) in row.iter().enumerate() {
        if !stands_at(next, index, *node) {
            return index;
        }
    }
    row.len()
}
