//! Places: where a buffer can lie.

use crate::domain::CoherencyDomain;

/// A heap of the platform, by its index from 0, and one of its coherency domains.
#[derive(Clone, Copy, Debug, PartialEq, Eq)]
pub struct Place {
    pub heap: usize,
    pub coherency: CoherencyDomain,
}
