//! What a call answers.

use record_reading::Fault;
use sysmem_tree::Refusal;

/// What a call of a script answers.
#[derive(Clone, Copy, Debug, PartialEq, Eq)]
pub enum Reply {
    /// The call was made.
    Accepted,
    /// The call was refused and changed nothing.
    Refused(Refusal),
    /// The constraints could not be read, and the call was not made.
    Misread(Fault),
    /// The call that makes the name was not made.
    Skipped,
}
