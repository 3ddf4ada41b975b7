//! The keys of a script and of its calls.

pub(crate) const SCRIPT: &[&str] = &["platform", "calls"];

/// The keys that a call may have.
pub(crate) const KNOWN: &[&str] = &["call", "on", "as", "actor", "constraints"];
