//! What is left to choose in the domains of a tree.

ghost use Rattle.std.specs.Prelude.{◌≡◌, ◌==◌, ◌^◌, ◌-◌, [], min, IfSome};
ghost use Rattle.std.specs.List.{list_any};
ghost use Rattle.sysmem_tree.specs.Domain.{HasDomain};
ghost use Rattle.sysmem_tree.specs.Forest.{count as count_of, first_group};
ghost use Rattle.sysmem_tree.specs.Layout.{IsLayout};
ghost use Rattle.sysmem_tree.specs.Nodes.{HasNode};
ghost use Rattle.sysmem_tree.specs.OpenGroups.{HoldsNodes};
ghost use Rattle.sysmem_tree.specs.Selection.{IsPrefix, after};
ghost use Rattle.sysmem_tree.specs.Shape.{by_number, forest_of, members_of, participants_of};

use crate::count::count_selections;
use crate::id::{DomainId, NodeId};
use crate::layout::Layout;
use crate::prefix::Prefix;
use crate::settled::{is_member, is_settled};
use crate::tree::Tree;

impl Tree {
    /// How many selections a domain of the tree has; `u64::MAX` where it has more.
    pub fn count_selections(&self, domain: DomainId) -> u64
        requires { HasDomain self.now.nodes domain }
        ensures { result
            ≡ min (count_of (forest_of by_number self.now.nodes domain [])) (2 ^ 64 - 1) }
    {
        count_selections(&self.nodes, domain.0)
    }

    /// The layout of a domain of the tree, over which a search walks by one choice after the other.
    /// It takes no memory, and one pass over the nodes.
    pub fn layout(&self, domain: DomainId) -> Layout
        requires { HasDomain self.now.nodes domain }
        ensures lays { IsLayout result (forest_of by_number self.now.nodes domain []) }
        ensures nodes { HoldsNodes result self.now.nodes }
    {
        Layout::new(&self.nodes, domain.0)
    }

    /// The group that is next in a domain of the tree after these choices, with its number of
    /// children; `None` where they are a selection.
    pub fn next_group(&self, domain: DomainId, prefix: &Prefix) -> Option<(NodeId, u32)>
        requires domain { HasDomain self.now.nodes domain }
        requires prefix { IsPrefix (forest_of by_number self.now.nodes domain []) prefix.now }
        ensures group { IfSome (after (forest_of by_number self.now.nodes domain []) prefix.now)
            (λ d. result ≡ first_group d) }
        ensures there { IfSome result (λ g. HasNode self.now.nodes g.0) }
    {
        self.layout(domain).next_group(prefix)
    }

    /// Whether a node of the tree has constraints and is settled in the domain by these choices:
    /// the groups above it are all chosen, on the way to it.
    pub fn settled(&self, domain: DomainId, prefix: &Prefix, node: NodeId) -> bool
        requires domain { HasDomain self.now.nodes domain }
        requires node { HasNode self.now.nodes node }
        requires prefix { IsPrefix (forest_of by_number self.now.nodes domain []) prefix.now }
        ensures { result
            ≡ list_any (λ i. i == node) (participants_of self.now.nodes domain prefix.now) }
    {
        self.constraints_of(node).is_some() && is_settled(&self.nodes, domain.0, prefix, node.0)
    }
    /// Whether a node is a member of the selection that these choices make in a domain of the tree.
    /// Where they are no choices for its first groups, none is.
    pub fn is_member(&self, domain: DomainId, choices: &Prefix, node: NodeId) -> bool
        requires { HasDomain self.now.nodes domain }
        ensures { result
            ≡ list_any (λ k. k == node) (members_of self.now.nodes domain choices.now) }
    {
        is_member(&self.nodes, domain.0, choices, node.0)
    }
}
