//! The domains of a tree.

ghost use Rattle.std.specs.Prelude.{◌≡◌};
ghost use Rattle.sysmem_tree.specs.Domain.{is_chosen, is_none_chosen};
ghost use Rattle.sysmem_tree.specs.Tree.{closed_early, decided_domain, new_domain};

/// What was decided for a domain.
#[derive(Clone, Copy, Debug, PartialEq, Eq)]
pub enum Decision {
    /// Nothing yet.
    Undecided,
    /// Settings were chosen.
    Chosen,
    /// No settings were chosen, whatever the reason.
    NoneChosen,
}

impl Decision {
    /// Whether settings were chosen.
    pub(crate) fn is_chosen(self) -> bool
        ensures { result ≡ is_chosen self }
    {
        self == Decision::Chosen
    }

    /// Whether it was decided, and no settings were chosen.
    pub(crate) fn is_none_chosen(self) -> bool
        ensures { result ≡ is_none_chosen self }
    {
        self == Decision::NoneChosen
    }
}

/// A domain: the node that is its root, with what was made below it, but for attached tokens and
/// what is below them.
#[derive(Clone, Copy, Debug, PartialEq, Eq)]
pub(crate) struct Domain {
    pub(crate) root: usize,
    /// Whether a node of it was closed before it was ready.
    pub(crate) is_closed_early: bool,
    pub(crate) decision: Decision,
}

impl Domain {
    /// The domain of this root, undecided.
    pub(crate) fn new(root: usize) -> Domain
        ensures { result ≡ new_domain root }
    {
        Domain {
            root,
            is_closed_early: false,
            decision: Decision::Undecided,
        }
    }

    /// Marks it as closed early, if it is the one of this root.
    pub(crate) fn close_early(&mut self, root: usize)
        ensures { self.new ≡ closed_early root self.old }
    {
        if self.root == root {
            self.is_closed_early = true;
        }
    }

    /// Enters the decision, if it is the one of this root.
    pub(crate) fn decide(&mut self, root: usize, decision: Decision)
        ensures { self.new ≡ decided_domain root decision self.old }
    {
        if self.root == root {
            self.decision = decision;
        }
    }
}
