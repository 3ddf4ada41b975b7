//! The participants of selections, in their order.

ghost use Rattle.std.specs.Prelude.{◌≡◌, ◌≤◌, ◌+◌, ◌++◌, ℕ, [], All, IfOk, filter, length};
ghost use Rattle.std.specs.Vec.{vec_capacity};
ghost use Rattle.sysmem_tree.specs.Domain.{HasDomain};
ghost use Rattle.sysmem_tree.specs.Forest.{Forest};
ghost use Rattle.sysmem_tree.specs.Laws.{labels};
ghost use Rattle.sysmem_tree.specs.Layout.{HoldNumbers, IsLayout};
ghost use Rattle.sysmem_tree.specs.Members.{IsChosenIn, is_marked};
ghost use Rattle.sysmem_tree.specs.Nodes.{HasNode};
ghost use Rattle.sysmem_tree.specs.OpenGroups.{HoldsNodes};
ghost use Rattle.sysmem_tree.specs.Selection.{IsPrefix};
ghost use Rattle.sysmem_tree.specs.Shape.{by_number, forest_of, participants_of};

use crate::id::{DomainId, NodeId};
use crate::layout::Layout;
use crate::members::marks_after;
use crate::tree::{MOST_NODES, Tree};
use std::alloc::AllocError;

impl Tree {
    /// The participants of the selection that these choices make in a domain of the tree: its
    /// members that set constraints, in pre-order; in memory of the tree's allocator.
    /// `AllocError` where that is refused.
    pub fn participants(&self, domain: DomainId, choices: &[u8]) -> Result<Vec<NodeId>, AllocError>
        requires domain { HasDomain self.now.nodes domain }
        requires prefix { IsPrefix (forest_of by_number self.now.nodes domain []) choices.now }
        ensures nodes { IfOk result
            (λ nodes. nodes.items ≡ participants_of self.now.nodes domain choices.now) }
        ensures there { IfOk result (λ nodes. All (HasNode self.now.nodes) nodes.items) }
    {
        let mut nodes = Vec::with_capacity(*self.nodes.allocator(), MOST_NODES)?;
        self.add_participants(domain, choices, &mut nodes);
        Ok(nodes)
    }

    /// The same, of the domain that a layout of the tree lays out, without laying it out again.
    pub fn participants_in(
        &self,
        layout: &Layout,
        choices: &[u8],
    ) -> Result<Vec<NodeId>, AllocError>
        requires nodes { HoldsNodes layout.now self.now.nodes }
        requires domain { (r : ℕ) × IsChosenIn self.now.nodes layout.now choices.now r }
        ensures nodes { (r : ℕ) → IsChosenIn self.now.nodes layout.now choices.now r
            → IfOk result (λ nodes. nodes.items ≡ participants_of self.now.nodes r choices.now) }
        ensures there { IfOk result (λ nodes. All (HasNode self.now.nodes) nodes.items) }
    {
        let mut nodes = Vec::with_capacity(*self.nodes.allocator(), MOST_NODES)?;
        self.add_settled(layout, choices, &mut nodes);
        Ok(nodes)
    }

    /// Adds the participants of the selection that these choices make in a domain
    /// of the tree, in pre-order, to nodes that have room for them. It takes no
    /// memory, and one pass over the nodes.
    pub fn add_participants(&self, domain: DomainId, choices: &[u8], nodes: &mut Vec<NodeId>)
        requires domain { HasDomain self.now.nodes domain }
        requires prefix { IsPrefix (forest_of by_number self.now.nodes domain []) choices.now }
        requires room { length nodes.old.items
            + length (participants_of self.now.nodes domain choices.now) ≤ vec_capacity nodes.old }
        ensures nodes { nodes.new.items
            ≡ nodes.old.items ++ participants_of self.now.nodes domain choices.now }
        ensures reserved { vec_capacity nodes.new ≡ vec_capacity nodes.old }
    {
        let _ = &self.nodes;
        let layout = self.layout(domain);
        self.add_settled(&layout, choices, nodes);
    }

    /// Adds the participants of the selection that these choices make in the domain of a layout.
    fn add_settled(&self, layout: &Layout, choices: &[u8], nodes: &mut Vec<NodeId>)
        requires nodes { HoldsNodes layout.now self.now.nodes }
        requires room { (r : ℕ) × IsChosenIn self.now.nodes layout.now choices.now r
            × (length nodes.old.items + length (participants_of self.now.nodes r choices.now)
            ≤ vec_capacity nodes.old) }
        ensures nodes { (r : ℕ) → IsChosenIn self.now.nodes layout.now choices.now r
            → nodes.new.items ≡ nodes.old.items ++ participants_of self.now.nodes r choices.now }
        ensures reserved { vec_capacity nodes.new ≡ vec_capacity nodes.old }
    {
        let _ = &self.nodes;
        let marks = marks_after(layout, choices);
        self.add_marked(layout, &marks, nodes);
    }

    /// Adds the nodes of a layout that are marked and set constraints, in its order.
    fn add_marked(&self, layout: &Layout, marks: &[bool; MOST_NODES], nodes: &mut Vec<NodeId>)
        requires few { length self.now.nodes ≤ MOST_NODES }
        requires start { layout.now.start ≤ MOST_NODES }
        requires numbers { HoldNumbers (length self.now.nodes) layout.now.places }
        requires room { (d : Forest ℕ) × (laid : IsLayout layout.now d)
            × (length nodes.old.items
            + length (filter (is_marked self.now.nodes marks.now) (labels d))
            ≤ vec_capacity nodes.old) }
        ensures nodes { (d : Forest ℕ) → IsLayout layout.now d → nodes.new.items
            ≡ nodes.old.items ++ filter (is_marked self.now.nodes marks.now) (labels d) }
        ensures reserved { vec_capacity nodes.new ≡ vec_capacity nodes.old }
    {
        for at in layout.start..MOST_NODES {
            let node = NodeId(layout.places[at].node as usize);
            if self.is_marked(marks, node) {
                nodes.push_reserved(node);
            }
        }
    }

    /// Whether a node of the tree is marked and set constraints.
    fn is_marked(&self, marks: &[bool; MOST_NODES], node: NodeId) -> bool
        requires few { length self.now.nodes ≤ MOST_NODES }
        requires node { HasNode self.now.nodes node }
        ensures { result ≡ is_marked self.now.nodes marks.now node }
    {
        marks[node.0] && self.constraints_of(node).is_some()
    }
}
