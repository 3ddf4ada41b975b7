//! The forest of a domain in a flat layout, in pre-order.

ghost use Rattle.std.specs.Prelude.{◌≡◌, ◌≤◌, ◌<◌, ◌+◌, ℕ, Some, None, IfSome, [], length, slice_get, if◌then◌else◌};
ghost use Rattle.sysmem_tree.specs.Nodes.{IsTree};
ghost use Rattle.sysmem_tree.specs.Shape.{by_number};
ghost use Rattle.sysmem_tree.specs.Layout.{is_group, size, HoldNumbers, Lays};
ghost use Rattle.sysmem_tree.specs.Links.{AreLinks, IsBelow, siblings_from};

use crate::links::Links;
use crate::node::Node;
use crate::state::NodeKind;
use crate::tree::MOST_NODES;

/// The place of a node in a domain's layout. Places are in pre-order, so that what is below a node
/// comes just behind it. Its numbers are bytes, so that a layout is small: there are at most 128
/// nodes.
#[derive(Clone, Copy, Debug, PartialEq, Eq)]
pub struct LayoutPlace {
    /// The number of the node.
    pub(crate) node: u8,
    /// Whether its children are alternatives.
    pub(crate) is_group: bool,
    /// How many children it has in the domain.
    pub(crate) children: u8,
    /// The place behind all that is below it.
    pub(crate) end: u8,
    /// The first group from here on, as long as the groups around it choose the way to it: itself,
    /// one below it or one behind it.
    pub(crate) next: Option<u8>,
}

const NO_PLACE: LayoutPlace = LayoutPlace {
    node: 0,
    is_group: false,
    children: 0,
    end: 0,
    next: None,
};

/// What is laid out: children of a node, with all that is below them.
#[derive(Clone, Copy)]
pub(crate) struct Children {
    /// The number of the first of them; `None` where there are none.
    pub(crate) first: Option<u8>,
    /// Whether they are alternatives.
    pub(crate) is_group: bool,
    /// The place before which they end.
    pub(crate) end: u8,
    /// The first group behind them.
    pub(crate) next: Option<u8>,
}

/// What was laid out.
#[derive(Clone, Copy)]
pub(crate) struct LaidNodes {
    /// The place of the first of them.
    pub(crate) start: u8,
    /// How many they are.
    pub(crate) children: u8,
    /// The first group behind what comes before them: among them, unless they are alternatives, or
    /// else behind them.
    pub(crate) next: Option<u8>,
}

/// Whether a node's children are alternatives.
pub(crate) fn has_alternatives(node: &Node) -> bool
    ensures { result ≡ is_group node.now.state.kind }
{
    node.state.kind == NodeKind::Group
}

/// The one or the other.
fn either(test: bool, yes: Option<u8>, no: Option<u8>) -> Option<u8>
    ensures { result ≡ (if test then yes else no) }
{
    if test { yes } else { no }
}

/// Lays out children of a node, the last one first.
fn lay(
    nodes: &[Node],
    links: &Links,
    what: Children,
    places: &mut [LayoutPlace; MOST_NODES],
) -> LaidNodes
    requires tree { IsTree nodes.now }
    requires links { (root : ℕ) × AreLinks nodes.now root (root + 1) links.now
        × IfSome what.first (IsBelow nodes.now root) }
    requires end { what.end ≤ MOST_NODES }
    requires room { size (siblings_from nodes.now what.first) ≤ what.end }
    ensures laid { Lays what.is_group places.new (siblings_from nodes.now what.first) result
        what.end what.next }
    ensures kept { (k : ℕ) → what.end ≤ k → slice_get places.new k ≡ slice_get places.old k }
    ensures numbers { HoldNumbers (length nodes.now) places.old
        → HoldNumbers (length nodes.now) places.new }
{
    let Some(own) = what.first else {
        return LaidNodes {
            start: what.end,
            children: 0,
            next: what.next,
        };
    };
    let number = own as usize;
    let others = Children {
        first: links.next[number],
        ..what
    };
    let rest = lay(nodes, links, others, places);
    let is_group = has_alternatives(&nodes[number]);
    let below = Children {
        first: links.first[number],
        is_group,
        end: rest.start,
        next: rest.next,
    };
    let kids = lay(nodes, links, below, places);
    let start = kids.start - 1;
    let next = either(is_group, Some(start), kids.next);
    places[start as usize] = LayoutPlace {
        node: own,
        is_group,
        children: kids.children,
        end: rest.start,
        next,
    };
    LaidNodes {
        start,
        children: rest.children + 1,
        next: either(what.is_group, what.next, next),
    }
}

/// The forest of a domain: its nodes in pre-order, in the last of 128 places. `Tree::layout` makes
/// it once, without memory; a search asks it for the first open group, for the place of each of its
/// children, for the nodes that the choice of that child settles, and for the group that is open
/// then. Each of these costs what it answers, and nothing else of the domain is looked at. It
/// stands for the tree as it was: later actions and decisions don't reach it.
#[derive(Clone, Copy, Debug)]
pub struct Layout {
    pub(crate) places: [LayoutPlace; MOST_NODES],
    /// The place of the domain's root.
    pub(crate) start: usize,
}

impl Layout {
    ghost use Rattle.sysmem_tree.specs.Shape.{forest_of};
    ghost use Rattle.sysmem_tree.specs.Forest.{Forest, each};
    ghost use Rattle.sysmem_tree.specs.Layout.{IsLayout, Spot, start, first_place};
    ghost use Rattle.sysmem_tree.specs.Prefix.{AreAlternatives, AreOpen};
    ghost use Rattle.sysmem_tree.specs.Selection.{IsPrefix, after};

    /// Of the nodes in the domain of this root.
    pub(crate) fn new(nodes: &[Node], root: usize) -> Layout
        requires tree { IsTree nodes.now }
        requires there { root < length nodes.now }
        ensures layout { IsLayout result (forest_of by_number nodes.now root []) }
        ensures numbers { HoldNumbers (length nodes.now) result.places }
    {
        let is_group = has_alternatives(&nodes[root]);
        let links = Links::new(nodes, root);
        let below = Children {
            first: links.first[root],
            is_group,
            end: MOST_NODES as u8,
            next: None,
        };
        let mut places = [NO_PLACE; MOST_NODES];
        let kids = lay(nodes, &links, below, &mut places);
        let start = kids.start - 1;
        let next = either(is_group, Some(start), kids.next);
        places[start as usize] = LayoutPlace {
            node: root as u8,
            is_group,
            children: kids.children,
            end: MOST_NODES as u8,
            next,
        };
        Layout {
            places,
            start: start as usize,
        }
    }

    /// The place of this child of a group.
    pub(crate) fn child(&self, group: usize, choice: u8) -> usize
        requires { (kids : Forest Spot) × AreAlternatives self.now.places (group + 1) kids
            × (choice < length (each kids)) }
        ensures place { (kids kid : Forest Spot) → AreAlternatives self.now.places (group + 1) kids
            → slice_get (each kids) choice ≡ Some kid → start kid 0 ≡ result }
        ensures within { result < MOST_NODES }
    {
        let mut at = group + 1;
        let mut left = choice;
        while left > 0 {
            at = self.places[at].end as usize;
            left -= 1;
        }
        at
    }

    /// The place of the group that is next after these choices.
    pub(crate) fn group_after(&self, choices: &[u8]) -> Option<u8>
        requires { (d : Forest ℕ) × (laid : IsLayout self.now d)
            × IsPrefix laid.spots choices.now }
        ensures { (d : Forest ℕ) → (laid : IsLayout self.now d)
            → IfSome (after laid.spots choices.now)
            (λ e. (result ≡ first_place e) × AreOpen self.now.places e None) }
    {
        let mut group = self.places[self.start].next;
        for choice in choices {
            group = self.places[self.child(group? as usize, *choice)].next;
        }
        group
    }
}
