//! What is asked of a tree.

ghost use Rattle.std.specs.Prelude.{◌≡◌};
ghost use Rattle.sysmem_tree.specs.ActionKind.{action_name, deed_of, kind_of, ends_node, plain_deed};

use crate::id::NodeId;
use negotiation_inputs::Constraints;
use std::sync::Arc;

/// What is done to a node.
#[derive(Debug, Drop)]
pub enum Action {
    /// An open token makes a further open token, its last child.
    Duplicate,
    /// An open token makes an open group, its last child.
    CreateGroup,
    /// An open token becomes an open collection.
    Bind,
    /// An open group that isn't complete makes an open token, its last child.
    CreateChild,
    /// An open group that isn't complete, with a child, is complete.
    AllChildrenPresent,
    /// An open collection that isn't set yet is set, with these constraints or, by `None`, without
    /// any.
    SetConstraints(Option<Arc<Constraints>>),
    /// An open collection makes an open token, its last child, that is the root of a domain of its
    /// own.
    AttachToken,
    /// An open token, collection or complete group is gone.
    Release,
    /// An open node is gone; where its domain isn't ready yet, the domain fails.
    Close,
}

/// An action without the constraints that it sets.
#[derive(Clone, Copy, Debug, PartialEq, Eq)]
pub enum ActionKind {
    /// `Action::Duplicate`.
    Duplicate,
    /// `Action::CreateGroup`.
    CreateGroup,
    /// `Action::Bind`.
    Bind,
    /// `Action::CreateChild`.
    CreateChild,
    /// `Action::AllChildrenPresent`.
    AllChildrenPresent,
    /// `Action::SetConstraints`, with constraints or with none.
    SetConstraints,
    /// `Action::AttachToken`.
    AttachToken,
    /// `Action::Release`.
    Release,
    /// `Action::Close`.
    Close,
}

impl Action {
    /// The action of a kind, without constraints.
    pub fn plain(kind: ActionKind) -> Action
        ensures { deed_of result ≡ plain_deed kind }
    {
        match kind {
            ActionKind::Duplicate => Action::Duplicate,
            ActionKind::CreateGroup => Action::CreateGroup,
            ActionKind::Bind => Action::Bind,
            ActionKind::CreateChild => Action::CreateChild,
            ActionKind::AllChildrenPresent => Action::AllChildrenPresent,
            ActionKind::SetConstraints => Action::SetConstraints(None),
            ActionKind::AttachToken => Action::AttachToken,
            ActionKind::Release => Action::Release,
            ActionKind::Close => Action::Close,
        }
    }

    /// The action without the constraints that it sets.
    pub fn kind(&self) -> ActionKind
        ensures { result ≡ kind_of (deed_of self.now) }
    {
        match self {
            Action::Duplicate => ActionKind::Duplicate,
            Action::CreateGroup => ActionKind::CreateGroup,
            Action::Bind => ActionKind::Bind,
            Action::CreateChild => ActionKind::CreateChild,
            Action::AllChildrenPresent => ActionKind::AllChildrenPresent,
            Action::SetConstraints(_) => ActionKind::SetConstraints,
            Action::AttachToken => ActionKind::AttachToken,
            Action::Release => ActionKind::Release,
            Action::Close => ActionKind::Close,
        }
    }
}

impl ActionKind {
    ghost use Rattle.std.specs.Prelude.{◌↔◌};
    ghost use Rattle.sysmem_tree.specs.declared.action.ActionKind.{ActionKind as Kind};

    /// Each kind of action.
    pub const ALL: [ActionKind; 9] = [
        ActionKind::Duplicate,
        ActionKind::CreateGroup,
        ActionKind::Bind,
        ActionKind::CreateChild,
        ActionKind::AllChildrenPresent,
        ActionKind::SetConstraints,
        ActionKind::AttachToken,
        ActionKind::Release,
        ActionKind::Close,
    ];

    /// The action's name, as `create_group`.
    pub fn name(self) -> &'static str
        ensures { result.now ≡ action_name self }
    {
        match self {
            ActionKind::Duplicate => "duplicate",
            ActionKind::CreateGroup => "create_group",
            ActionKind::Bind => "bind",
            ActionKind::CreateChild => "create_child",
            ActionKind::AllChildrenPresent => "all_children_present",
            ActionKind::SetConstraints => "set_constraints",
            ActionKind::AttachToken => "attach_token",
            ActionKind::Release => "release",
            ActionKind::Close => "close",
        }
    }

    /// The action of this name; `None` if none has it.
    pub fn from_name(name: &str) -> Option<ActionKind>
        ensures { (kind : Kind) → (result ≡ Some kind) ↔ (name.now ≡ action_name kind) }
    {
        ActionKind::ALL
            .iter()
            .find(|one| one.name() == name)
            .copied()
    }

    /// Whether it leaves its node gone. Such an action is never refused because of its domain.
    pub fn ends_node(self) -> bool
        ensures { result ≡ ends_node self }
    {
        matches!(self, ActionKind::Release | ActionKind::Close)
    }
}

/// An action on a node. A node that the tree doesn't have is answered with `WrongState`.
#[derive(Debug, Drop)]
pub struct Event {
    /// The node that is acted on.
    pub node: NodeId,
    /// What is done to it.
    pub action: Action,
}
