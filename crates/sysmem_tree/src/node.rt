//! A node of a tree.

ghost use Rattle.std.specs.Prelude.{◌≡◌, ◌<◌, ◌==◌, ◌&&◌, ◌||◌, not, option_map};
ghost use Rattle.sysmem_tree.specs.ActionKind.{deed_of};
ghost use Rattle.sysmem_tree.specs.Path.{is_born};
ghost use Rattle.sysmem_tree.specs.Table.{makes};
ghost use Rattle.sysmem_tree.specs.Tree.{first_node, new_node, node_after};
ghost use Rattle.sysmem_tree.specs.declared.tree.TheConstants.{MOST_NODES};

use crate::action::{Action, ActionKind};
use crate::state::{NodeKind, NodeState};
use negotiation_inputs::Constraints;
use std::marker::Model;
use std::sync::Arc;

/// Which child of which node a node is: both by number, children from 0 in the order in which they
/// were made.
#[derive(Clone, Copy, Debug, PartialEq, Eq)]
pub(crate) struct Birth {
    pub(crate) parent: usize,
    pub(crate) ordinal: u32,
}

/// A node. One that is gone stays in the tree, with its children and the constraints that it set.
#[derive(Debug, Drop)]
pub(crate) struct Node {
    pub(crate) birth: Option<Birth>,
    /// The number of the node that is the root of its domain.
    pub(crate) domain: usize,
    pub(crate) state: NodeState,
    pub(crate) constraints: Option<Arc<Constraints>>,
    /// Whether its domain's decision left it out.
    pub(crate) is_left_out: bool,
}

impl Model for Node {
    ghost use Rattle.std.specs.Prelude.{option_map};
    ghost use Rattle.std.specs.Arc.{arc_value};
    ghost use Rattle.sysmem_tree.specs.Node.{NodeFacts};

    ghost Value = { NodeFacts };

    ghost view = { λ n. record {
      birth = n.birth;
      domain = n.domain;
      state = n.state;
      constraints = option_map (λ shared. arc_value shared) n.constraints;
      is_left_out = n.is_left_out;
    } };
}

impl Node {
    /// The root token.
    pub(crate) fn root() -> Node
        ensures { result ≡ first_node }
    {
        Node {
            birth: None,
            domain: 0,
            state: NodeState::fresh(NodeKind::Token),
            constraints: None,
            is_left_out: false,
        }
    }

    /// The node that the action makes, if any, where this one has the number `own` and the one that
    /// is made `made`.
    pub(crate) fn next_child(&self, own: usize, made: usize, kind: ActionKind) -> Option<Node>
        ensures { result ≡ option_map (new_node made own self.now kind) (makes kind) }
    {
        let state = kind.makes()?;
        let birth = Birth {
            parent: own,
            ordinal: self.state.children,
        };
        Some(Node {
            birth: Some(birth),
            domain: if kind.makes_root() { made } else { self.domain },
            state,
            constraints: None,
            is_left_out: false,
        })
    }

    /// Which child of which node it is; `None` for the root.
    pub(crate) fn birth(&self) -> Option<Birth>
        ensures { result ≡ self.now.birth }
    {
        self.birth
    }

    /// The number of the node that is the root of its domain.
    pub(crate) fn domain(&self) -> usize
        ensures { result ≡ self.now.domain }
    {
        self.domain
    }

    /// What its own actions made of it, but for its constraints.
    pub(crate) fn state(&self) -> NodeState
        ensures { result ≡ self.now.state }
    {
        self.state
    }

    /// Whether its domain's decision left it out.
    pub(crate) fn is_left_out(&self) -> bool
        ensures { result ≡ self.now.is_left_out }
    {
        self.is_left_out
    }

    /// Whether it is this child of this node.
    pub(crate) fn is_child(&self, parent: usize, ordinal: u32) -> bool
        ensures { result ≡ is_born parent ordinal self.now.birth }
    {
        match self.birth {
            Some(birth) => birth.parent == parent && birth.ordinal == ordinal,
            None => false,
        }
    }

    /// What the action makes of it.
    pub(crate) fn act(&mut self, action: Action)
        requires { self.old.state.children < MOST_NODES }
        ensures { self.new ≡ node_after (deed_of action) self.old }
    {
        self.state.act(action.kind());
        if let Action::SetConstraints(constraints) = action {
            self.constraints = constraints;
        }
    }
    /// What a decision of the domain of this root makes of it: left out, if it is of the domain and
    /// no member.
    pub(crate) fn leave_out(&mut self, root: usize, is_member: bool)
        ensures { self.new ≡ record self.old {
          is_left_out = self.old.is_left_out || ((self.old.domain == root) && not is_member);
        } }
    {
        if self.domain == root && !is_member {
            self.is_left_out = true;
        }
    }
}
