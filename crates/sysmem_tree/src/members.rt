//! The members of selections.

ghost use Rattle.std.specs.Prelude.{◌≡◌, ◌≤◌, ◌<◌, ◌==◌, ◌||◌, ℕ, Bool, List, Option, false, [], length, get_or, IfSome};
ghost use Rattle.std.specs.List.{list_any};
ghost use Rattle.sysmem_tree.specs.Forest.{Forest, settled};
ghost use Rattle.sysmem_tree.specs.Layout.{Spot, AreLaid, HoldNumbers, IsLayout, start};
ghost use Rattle.sysmem_tree.specs.Nodes.{IsTree};
ghost use Rattle.sysmem_tree.specs.Selection.{IsPrefix, after};
ghost use Rattle.sysmem_tree.specs.Shape.{by_number, forest_of, members_of};

use crate::layout::Layout;
use crate::node::Node;
use crate::prefix::Prefix;
use crate::settled::past;
use crate::tree::MOST_NODES;

/// Marks the nodes between two places that no group there has yet to choose.
fn mark(layout: &Layout, from: usize, to: usize, marks: &mut [bool; MOST_NODES])
    requires laid { (w : Forest Spot) × (g : Bool) × (next : Option ℕ)
        × AreLaid g layout.now.places w to next × (start w to ≡ from) }
    requires numbers { HoldNumbers MOST_NODES layout.now.places }
    requires to { to ≤ MOST_NODES }
    ensures { (w : Forest Spot) (g : Bool) (next : Option ℕ)
        → AreLaid g layout.now.places w to next → start w to ≡ from → (k : ℕ)
        → get_or marks.new k false
        ≡ (get_or marks.old k false || list_any (λ s. s.node == k) (settled w)) }
{
    let mut at = from;
    while at < to {
        let place = layout.places[at];
        marks[place.node as usize] = true;
        at = past(&place, at);
    }
}

/// The nodes that choices settle, marked by their numbers.
pub(crate) fn marks_after(layout: &Layout, choices: &[u8]) -> [bool; MOST_NODES]
    requires numbers { HoldNumbers MOST_NODES layout.now.places }
    requires prefix { (d : Forest ℕ) × (laid : IsLayout layout.now d)
        × IsPrefix laid.spots choices.now }
    ensures { (d : Forest ℕ) → (laid : IsLayout layout.now d) → (k : ℕ)
        → IfSome (after laid.spots choices.now)
        (λ e. get_or result k false ≡ list_any (λ s. s.node == k) (settled e)) }
{
    let mut marks = [false; MOST_NODES];
    mark(layout, layout.start, MOST_NODES, &mut marks);
    let mut group = layout.places[layout.start].next;
    for choice in choices {
        let Some(at) = group else {
            return marks;
        };
        let kid = layout.child(at as usize, *choice);
        mark(layout, kid, layout.places[kid].end as usize, &mut marks);
        group = layout.places[kid].next;
    }
    marks
}

impl Layout {
    ghost use Rattle.sysmem_tree.specs.Node.{NodeFacts};
    ghost use Rattle.sysmem_tree.specs.OpenGroups.{HoldsNodes};

    /// Which nodes of the domain these choices settle, with constraints or without, marked by their
    /// numbers.
    pub fn settled_marks(&self, prefix: &Prefix) -> [bool; MOST_NODES]
        requires nodes { (nodes : List NodeFacts) × IsTree nodes × HoldsNodes self.now nodes }
        requires prefix { (d : Forest ℕ) × IsLayout self.now d × IsPrefix d prefix.now }
        ensures { (nodes : List NodeFacts) (r : ℕ)
            → IsLayout self.now (forest_of by_number nodes r [])
            → IsPrefix (forest_of by_number nodes r []) prefix.now
            → (k : ℕ) → get_or result k false
            ≡ list_any (λ i. i == k) (members_of nodes r prefix.now) }
    {
        marks_after(self, prefix.choices())
    }
}

/// The members of the selection that the choices make in the domain of this root, marked by their
/// numbers.
pub(crate) fn members(nodes: &[Node], root: usize, choices: &[u8]) -> [bool; MOST_NODES]
    requires tree { IsTree nodes.now }
    requires there { root < length nodes.now }
    requires prefix { IsPrefix (forest_of by_number nodes.now root []) choices.now }
    ensures { (k : ℕ) → get_or result k false
        ≡ list_any (λ m. m == k) (members_of nodes.now root choices.now) }
{
    marks_after(&Layout::new(nodes, root), choices)
}
