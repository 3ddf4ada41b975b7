//! How a search goes over a domain's layout, by one choice after the other.

ghost use Rattle.std.specs.Prelude.{◌≡◌, ◌<◌, ◌++◌, ℕ, List, [], ◌∷◌, Some, IfSome, MatchOption};
ghost use Rattle.sysmem_tree.specs.Forest.{Forest, first_group, settled};
ghost use Rattle.sysmem_tree.specs.Layout.{IsLayout};
ghost use Rattle.sysmem_tree.specs.Node.{NodeFacts};
ghost use Rattle.sysmem_tree.specs.Nodes.{HasNode};
ghost use Rattle.sysmem_tree.specs.OpenGroups.{HasChild, HasLeft, HoldsNodes, IsChildPlace, IsFirstOpen, share_of};
ghost use Rattle.sysmem_tree.specs.Selection.{IsPrefix, after};

use crate::id::NodeId;
use crate::layout::Layout;
use crate::settled::past;
use crate::tree::MOST_NODES;
use std::marker::Model;

/// A group, by its place in a layout.
#[derive(Clone, Copy, Debug, PartialEq, Eq)]
pub struct GroupPlace(pub(crate) usize);

impl Model for GroupPlace {
    ghost use Rattle.std.specs.Prelude.{ℕ};

    ghost Value = { ℕ };

    ghost view = { λ place. place.0 };

    ghost inverse = { λ number. record { 0 = number } };
}

/// A child of a group, by its place in a layout. What the choice of it settles is the same whatever
/// was chosen elsewhere.
#[derive(Clone, Copy, Debug, PartialEq, Eq)]
pub struct ChildPlace(pub(crate) usize);

impl Model for ChildPlace {
    ghost use Rattle.std.specs.Prelude.{ℕ};

    ghost Value = { ℕ };

    ghost view = { λ place. place.0 };

    ghost inverse = { λ number. record { 0 = number } };
}

impl ChildPlace {
    /// Its number, by which a caller can keep what it made of a child's nodes.
    pub fn number(self) -> usize
        ensures { result ≡ self }
    {
        self.0
    }
}

/// A walk over nodes that are settled: where it stands, and before which place it ends.
#[derive(Clone, Copy, Debug, PartialEq, Eq)]
pub struct SettledNodes {
    pub(crate) at: usize,
    pub(crate) end: usize,
}

impl Layout {
    /// The first group of the domain, which is open as long as nothing is chosen; `None` where it
    /// has no group.
    pub fn first_open(&self) -> Option<GroupPlace>
        requires { (d : Forest ℕ) × IsLayout self.now d }
        ensures { (d : Forest ℕ) → IsLayout self.now d → IsFirstOpen self.now d [] result }
    {
        Some(GroupPlace(self.places[self.start].next? as usize))
    }

    /// Which node a group is that is the first open one after some choices, and how many children
    /// it has.
    pub fn group_at(&self, group: GroupPlace) -> (NodeId, u32)
        requires { (d : Forest ℕ) × (cs : List ℕ) × IsFirstOpen self.now d cs (Some group) }
        ensures group { (d : Forest ℕ) (cs : List ℕ) → IsFirstOpen self.now d cs (Some group)
            → IfSome (after d cs) (λ e. Some result ≡ first_group e) }
        ensures there { (nodes : List NodeFacts) → HoldsNodes self.now nodes
            → HasNode nodes result.0 }
    {
        let place = self.places[group.0];
        (NodeId(place.node as usize), place.children as u32)
    }

    /// The child of this number, from 0 on, of a group that is the first open one after some
    /// choices. The time goes by the number; the children before it are passed over, not what is
    /// below them.
    pub fn child_at(&self, group: GroupPlace, choice: u8) -> ChildPlace
        requires { (d : Forest ℕ) × (cs : List ℕ) × IsFirstOpen self.now d cs (Some group)
            × IsPrefix d (cs ++ choice ∷ []) }
        ensures child { (d : Forest ℕ) (cs : List ℕ) → IsFirstOpen self.now d cs (Some group)
            → IsPrefix d (cs ++ choice ∷ []) → IsChildPlace self.now d cs choice result }
        ensures there { HasChild self.now result }
        ensures within { result < MOST_NODES }
    {
        ChildPlace(self.child(group.0, choice))
    }

    /// The group that is the first open one once this child was chosen, too; `None` where no group
    /// is left, so that the choices are a selection.
    pub fn open_after(&self, child: ChildPlace) -> Option<GroupPlace>
        requires { (d : Forest ℕ) × (cs : List ℕ) × (k : ℕ) × IsChildPlace self.now d cs k child }
        ensures { (d : Forest ℕ) (cs : List ℕ) (k : ℕ) → IsChildPlace self.now d cs k child
            → IsFirstOpen self.now d (cs ++ k ∷ []) result }
    {
        Some(GroupPlace(self.places[child.0].next? as usize))
    }

    /// A walk over the nodes that are settled by no choice, in pre-order.
    pub fn settled_first(&self) -> SettledNodes
        requires { (d : Forest ℕ) × IsLayout self.now d }
        ensures { (d : Forest ℕ) → IsLayout self.now d → HasLeft self.now result (settled d) }
    {
        SettledNodes {
            at: self.start,
            end: MOST_NODES,
        }
    }

    /// A walk over the nodes that the choice of this child settles, in pre-order: its share.
    pub fn settled_with(&self, child: ChildPlace) -> SettledNodes
        requires { HasChild self.now child }
        ensures { HasLeft self.now result (share_of self.now child) }
    {
        SettledNodes {
            at: child.0,
            end: self.places[child.0].end as usize,
        }
    }

    /// The next node of a walk over this layout; `None` at its end. A walk takes one step for each
    /// node that it gives.
    pub fn next_settled(&self, walk: &mut SettledNodes) -> Option<NodeId>
        requires { (ns : List ℕ) × HasLeft self.now walk.old ns }
        ensures next { (ns : List ℕ) → HasLeft self.now walk.old ns
            → MatchOption result ((ns ≡ []) × HasLeft self.now walk.new [])
            (λ node. (rest : List ℕ) × (ns ≡ node ∷ rest) × HasLeft self.now walk.new rest) }
        ensures there { (nodes : List NodeFacts) → HoldsNodes self.now nodes
            → IfSome result (HasNode nodes) }
    {
        if walk.at >= walk.end {
            return None;
        }
        let place = self.places[walk.at];
        walk.at = past(&place, walk.at);
        Some(NodeId(usize::from(place.node)))
    }
}
