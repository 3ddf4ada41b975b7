//! What is known of participants before pairs are looked at.

use crate::reason::Reason;
use crate::settings::Settings;

/// What a sum tells of its participants without what is kept of pairs.
#[derive(Clone, Copy, Debug, PartialEq, Eq)]
pub enum Asked {
    /// These settings are the best for them.
    Met(Settings),
    /// No settings meet them, for this reason, which is the first that is true of them.
    Unmet(Reason),
    /// Pairs have to be looked at, from this one on.
    Open(usize),
}
