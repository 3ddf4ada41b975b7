//! What became of a domain.

/// What became of a domain.
#[derive(Clone, Copy, Debug, PartialEq, Eq)]
pub enum Fate {
    /// No decision was taken.
    Undecided,
    /// It has no decision: a node was closed before the domain was ready, or the collection to
    /// which its root was attached isn't given the settings of its own domain.
    Failed,
    /// It was decided, and settings were chosen.
    Chosen,
    /// It was decided, and no settings were chosen, whatever the reason.
    NoneChosen,
}
