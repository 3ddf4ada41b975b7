//! The table of actions: which states of a node allow each, what it makes of its node, and which
//! node it makes below it.

ghost use Rattle.std.specs.Prelude.{◌≡◌, ◌<◌};
ghost use Rattle.sysmem_tree.specs.Node as node;
ghost use Rattle.sysmem_tree.specs.Table as table;
ghost use Rattle.sysmem_tree.specs.declared.tree.TheConstants.{MOST_NODES};

use crate::action::ActionKind;
use crate::state::{NodeKind, NodeState};

impl NodeState {
    /// An open node of this kind without children.
    pub fn fresh(kind: NodeKind) -> NodeState
        ensures { result ≡ node.fresh kind }
    {
        NodeState {
            kind,
            is_open: true,
            is_set: false,
            is_complete: false,
            children: 0,
        }
    }

    /// Whether the state allows the action. A domain that has failed, or a decision that left the
    /// node out, refuses actions beyond that.
    pub fn allows(&self, action: ActionKind) -> bool
        ensures { result ≡ table.allows action self.now }
    {
        self.is_open
            && match (action, self.kind) {
                (
                    ActionKind::Duplicate | ActionKind::CreateGroup | ActionKind::Bind,
                    NodeKind::Token,
                ) => true,
                (ActionKind::CreateChild | ActionKind::AllChildrenPresent, NodeKind::Group) =>
                    !self.is_complete,
                (ActionKind::SetConstraints, NodeKind::Collection) => !self.is_set,
                (ActionKind::AttachToken, NodeKind::Collection) => true,
                (ActionKind::Release, NodeKind::Group) => self.is_complete,
                (ActionKind::Release | ActionKind::Close, _) => true,
                _ => false,
            }
    }

    /// Whether the action wants a child, and there is none.
    pub fn wants_child(&self, action: ActionKind) -> bool
        ensures { result ≡ table.wants_child action self.now }
    {
        action == ActionKind::AllChildrenPresent && self.children == 0
    }

    /// Makes of it what the action does, whether it is allowed or not. The constraints that an
    /// action sets are no part of it.
    pub fn act(&mut self, action: ActionKind)
        requires room { self.old.children < MOST_NODES }
        ensures { self.new ≡ table.state_after action self.old }
    {
        match action {
            ActionKind::Duplicate
            | ActionKind::CreateGroup
            | ActionKind::CreateChild
            | ActionKind::AttachToken => self.children += 1,
            ActionKind::Bind => self.kind = NodeKind::Collection,
            ActionKind::AllChildrenPresent => self.is_complete = true,
            ActionKind::SetConstraints => self.is_set = true,
            ActionKind::Release | ActionKind::Close => self.is_open = false,
        }
    }

    /// Whether a decision waits for the node.
    pub(crate) fn is_awaited(&self) -> bool
        ensures { result ≡ node.is_awaited self.now }
    {
        match self.kind {
            NodeKind::Token => self.is_open,
            NodeKind::Group => !self.is_complete,
            NodeKind::Collection => self.is_open && !self.is_set,
        }
    }
}

impl ActionKind {
    /// The node that the action makes, if any, as it is then.
    pub fn makes(self) -> Option<NodeState>
        ensures { result ≡ table.makes self }
    {
        match self {
            ActionKind::Duplicate | ActionKind::CreateChild | ActionKind::AttachToken => {
                Some(NodeState::fresh(NodeKind::Token))
            }
            ActionKind::CreateGroup => Some(NodeState::fresh(NodeKind::Group)),
            _ => None,
        }
    }

    /// Whether the node that it makes is the root of a domain of its own.
    pub(crate) fn makes_root(self) -> bool
        ensures { result ≡ table.makes_root self }
    {
        self == ActionKind::AttachToken
    }
}
