//! Why a call is refused.

ghost use Rattle.std.specs.Prelude.{◌≡◌};
ghost use Rattle.sysmem_tree.specs.Refusal.{refusal_text};

/// Why a call on a node is refused. A refused call changes nothing. An action on a tree is refused
/// for the first reason that is true, in the order `DomainFailed`, `NotSelected`, `WrongState`,
/// `NoChildren`, `TooManyNodes`.
#[derive(Clone, Copy, Debug, PartialEq, Eq)]
pub enum Refusal {
    /// Memory was refused.
    NoMemory,
    /// The node isn't there, or its state doesn't allow the call.
    WrongState,
    /// The collection has 128 nodes, those that are gone included, and the action would make one
    /// more.
    TooManyNodes,
    /// A group without a child can't be complete.
    NoChildren,
    /// The node's domain was decided, and the node isn't a member of the selection that was chosen.
    /// A release or a close is never refused so.
    NotSelected,
    /// The node's domain failed, or was decided and no settings were chosen. A release or a close
    /// is never refused so.
    DomainFailed,
    /// No settings meet the participants.
    ConstraintsIntersectionEmpty,
    /// The groups leave too many selections to choose from.
    TooManyGroupChildCombinations,
    /// Nothing is decided yet.
    Pending,
    /// What the caller knows of the node isn't what the collection knows.
    Strange,
}

impl Refusal {
    /// The refusal as a report prints it, its code and its name: `E2 WrongState`.
    pub fn name(self) -> &'static str
        ensures { result.now ≡ refusal_text self }
    {
        match self {
            Refusal::NoMemory => "E1 NoMemory",
            Refusal::WrongState => "E2 WrongState",
            Refusal::TooManyNodes => "E3 TooManyNodes",
            Refusal::NoChildren => "E4 NoChildren",
            Refusal::NotSelected => "E5 NotSelected",
            Refusal::DomainFailed => "E6 DomainFailed",
            Refusal::ConstraintsIntersectionEmpty => "E7 ConstraintsIntersectionEmpty",
            Refusal::TooManyGroupChildCombinations => "E8 TooManyGroupChildCombinations",
            Refusal::Pending => "E9 Pending",
            Refusal::Strange => "E10 Strange",
        }
    }
}
