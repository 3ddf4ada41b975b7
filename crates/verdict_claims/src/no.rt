//! Why a checker says no.

/// The first test that a verdict and its certificate fail, in the order of the tests.
#[derive(Clone, Copy, Debug, PartialEq, Eq)]
pub enum No {
    /// N1: the wrong shape, or a verdict that can't be checked or
    /// doesn't fit the number of selections.
    WrongShape,
    /// N2: a participant that isn't there, has no constraints, isn't settled (nor, in the count of
    /// an attached domain, accepted before) or is named twice.
    WrongNode,
    /// N3: a conflict that isn't one.
    NoConflict,
    /// N4: the settings aren't met, or aren't the base's.
    NotMet,
    /// N5: an earlier selection, offer or place without a conflict.
    Missing,
    /// N6: count, size or bounds aren't the least.
    NotLeast,
}
