//! Which nodes of a domain are settled by choices for its first groups.

ghost use Rattle.std.specs.Prelude.{◌≡◌, ◌≤◌, ◌<◌, ◌+◌, ◌==◌, ℕ, Bool, Option, [], length, is_some, IfSome, if◌then◌else◌};
ghost use Rattle.std.specs.List.{list_any};
ghost use Rattle.sysmem_tree.specs.Forest.{Forest, settled as settled_of};
ghost use Rattle.sysmem_tree.specs.Layout.{Spot, AreLaid, IsLayout, start};
ghost use Rattle.sysmem_tree.specs.Nodes.{IsTree};
ghost use Rattle.sysmem_tree.specs.Selection.{IsPrefix, after};
ghost use Rattle.sysmem_tree.specs.Shape.{by_number, forest_of, members_of};

use crate::layout::{Layout, LayoutPlace};
use crate::node::Node;
use crate::prefix::Prefix;
use crate::tree::MOST_NODES;

/// The place that follows one, past what is below it where that is alternatives.
pub(crate) fn past(place: &LayoutPlace, at: usize) -> usize
    requires { at < MOST_NODES }
    ensures { result ≡ (if place.now.is_group then place.now.end else at + 1) }
{
    if place.is_group {
        place.end as usize
    } else {
        at + 1
    }
}

/// Whether the node is among those between two places that no group there has yet to choose.
fn settles(layout: &Layout, from: usize, to: usize, node: usize) -> bool
    requires laid { (w : Forest Spot) × (g : Bool) × (next : Option ℕ)
        × AreLaid g layout.now.places w to next × (start w to ≡ from) }
    requires to { to ≤ MOST_NODES }
    ensures { (w : Forest Spot) (g : Bool) (next : Option ℕ)
        → AreLaid g layout.now.places w to next → start w to ≡ from
        → result ≡ list_any (λ s. s.node == node) (settled_of w) }
{
    let mut at = from;
    while at < to {
        let place = layout.places[at];
        if usize::from(place.node) == node {
            return true;
        }
        at = past(&place, at);
    }
    false
}

/// Whether the node is settled by the choices: whether the groups above it are all chosen, on the
/// way to it.
fn settles_after(layout: &Layout, choices: &[u8], node: usize) -> bool
    requires { (d : Forest ℕ) × (laid : IsLayout layout.now d) × IsPrefix laid.spots choices.now }
    ensures { (d : Forest ℕ) → (laid : IsLayout layout.now d)
        → IfSome (after laid.spots choices.now)
        (λ e. result ≡ list_any (λ s. s.node == node) (settled_of e)) }
{
    let mut is_settled = settles(layout, layout.start, MOST_NODES, node);
    let mut group = layout.places[layout.start].next;
    for choice in choices {
        let Some(at) = group else {
            return is_settled;
        };
        let kid = layout.child(at as usize, *choice);
        let place = layout.places[kid];
        is_settled = is_settled || settles(layout, kid, place.end as usize, node);
        group = place.next;
    }
    is_settled
}

/// Whether the choices settle the node in the domain of this root.
pub(crate) fn is_settled(nodes: &[Node], root: usize, prefix: &Prefix, node: usize) -> bool
    requires tree { IsTree nodes.now }
    requires there { root < length nodes.now }
    requires prefix { IsPrefix (forest_of by_number nodes.now root []) prefix.now }
    ensures { result ≡ list_any (λ i. i == node) (members_of nodes.now root prefix.now) }
{
    let layout = Layout::new(nodes, root);
    settles_after(&layout, prefix.choices(), node)
}

/// Whether the choices are choices for the first groups in effect.
fn is_prefix(layout: &Layout, choices: &[u8]) -> bool
    requires { (d : Forest ℕ) × IsLayout layout.now d }
    ensures { (d : Forest ℕ) → IsLayout layout.now d → result ≡ is_some (after d choices.now) }
{
    let mut group = layout.first_open();
    for choice in choices {
        let Some(at) = group else {
            return false;
        };
        let (_, children) = layout.group_at(at);
        if u32::from(*choice) >= children {
            return false;
        }
        group = layout.open_after(layout.child_at(at, *choice));
    }
    true
}

/// Whether the node is a member of the selection that the choices make in the domain of this root.
pub(crate) fn is_member(nodes: &[Node], root: usize, choices: &Prefix, node: usize) -> bool
    requires tree { IsTree nodes.now }
    requires there { root < length nodes.now }
    ensures { result ≡ list_any (λ i. i == node) (members_of nodes.now root choices.now) }
{
    let layout = Layout::new(nodes, root);
    is_prefix(&layout, choices.choices()) && settles_after(&layout, choices.choices(), node)
}
