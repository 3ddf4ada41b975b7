//! The next group of a domain, and its number of children.

ghost use Rattle.std.specs.Prelude.{◌≡◌, ℕ, List, IfSome};
ghost use Rattle.sysmem_tree.specs.Forest.{Forest, first_group};
ghost use Rattle.sysmem_tree.specs.Layout.{IsLayout};
ghost use Rattle.sysmem_tree.specs.Node.{NodeFacts};
ghost use Rattle.sysmem_tree.specs.Nodes.{HasNode};
ghost use Rattle.sysmem_tree.specs.OpenGroups.{HoldsNodes};
ghost use Rattle.sysmem_tree.specs.Selection.{IsPrefix, after};

use crate::id::NodeId;
use crate::layout::Layout;
use crate::prefix::Prefix;

impl Layout {
    /// The group that is next in the domain after these choices, with its number of children;
    /// `None` where they are a selection. The time goes by the choices alone.
    pub fn next_group(&self, prefix: &Prefix) -> Option<(NodeId, u32)>
        requires { (d : Forest ℕ) × IsLayout self.now d × IsPrefix d prefix.now }
        ensures group { (d : Forest ℕ) → IsLayout self.now d
            → IfSome (after d prefix.now) (λ e. result ≡ first_group e) }
        ensures there { (nodes : List NodeFacts) → HoldsNodes self.now nodes
            → IfSome result (λ g. HasNode nodes g.0) }
    {
        match self.group_after(prefix.choices()) {
            None => None,
            Some(at) => {
                let place = self.places[at as usize];
                Some((NodeId(place.node as usize), place.children as u32))
            }
        }
    }
}
