//! What a checker reads of its domain.

ghost use Rattle.std.specs.Prelude.{◌≡◌, ◌≤◌, ◌↔◌, Some, All, IsPermutation, IsTrue, length};
ghost use Rattle.sysmem_tree.specs.declared.tree.TheConstants.{MOST_NODES};
ghost use Rattle.verdict_claims.specs.Asked.{asked_in};
ghost use Rattle.verdict_claims.specs.Base.{BaseFacts};
ghost use Rattle.verdict_claims.specs.Matter.{forest};
ghost use Rattle.verdict_claims.specs.Fault.{AreFew, IsSelected};
ghost use Rattle.verdict_claims.specs.Members.{participants};
ghost use Rattle.sysmem_tree.specs.Forest.{Forest, settled};
ghost use Rattle.sysmem_tree.specs.Nodes.{HasNode};
ghost use Rattle.sysmem_tree.specs.Selection.{IsPrefix, after};
ghost use Rattle.sysmem_tree.specs.Shape.{Member};

use super::checker::Checker;
use super::members::{Members, settled_members};
use crate::selecting::{are_few, is_selected};
use sysmem_tree::laws::{one_forest, one_path};
use sysmem_tree::layout_laws::choices_leave_one_forest;
use sysmem_tree::{Prefix, Tree};

impl<'a> Checker<'a> {
    /// The tree.
    pub(crate) fn tree(&self) -> &'a Tree
        ensures { result.now.nodes ≡ self.now.nodes }
    {
        self.tree
    }

    /// Whether the domain has no more selections than a decision goes through.
    pub(crate) fn are_few(&self) -> bool
        ensures { IsTrue result ↔ AreFew (forest self.now) }
    {
        are_few(self.tree, self.domain)
    }

    /// Whether the choices are a selection of the domain.
    pub(crate) fn is_selected(&self, selection: &Prefix) -> bool
        ensures { IsTrue result ↔ IsSelected (forest self.now) selection.now }
    {
        is_selected(self.tree, self.domain, selection)
    }

    /// The nodes that the choices settle, in any order.
    pub(crate) fn members(&self, prefix: &Prefix) -> Members
        requires { IsPrefix (forest self.now) prefix.now }
        ensures asks { (d : Forest Member) → after (forest self.now) prefix.now ≡ Some d
            → IsPermutation (asked_in self.now.nodes result) (participants (settled d)) }
        ensures there { All (HasNode self.now.nodes) result }
        ensures few { length result ≤ MOST_NODES }
    {
        choices_leave_one_forest();
        one_forest();
        one_path();
        self.tree.recall_sound();
        settled_members(self.tree, self.domain, prefix)
    }

    /// Those accepted before, where the domain has a base, are nodes of the tree, and at most 128.
    pub(crate) fn few_accepted(&self)
        ensures there { (b : BaseFacts) → self.now.base ≡ Some b
            → All (HasNode self.now.nodes) b.accepted }
        ensures few { (b : BaseFacts) → self.now.base ≡ Some b → length b.accepted ≤ MOST_NODES }
    {
        self.tree.recall_sound();
    }
}
