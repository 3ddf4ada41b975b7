//! What C owns between calls.

use crate::collection::Collection;
use crate::decision::Decision;
use crate::snapshot::Snapshot;
use negotiation_inputs::{Constraints, Platform};
use std::sync::Arc;

/// What lies behind a handle of C.
#[derive(Drop)]
pub enum Object {
    /// What an allocator decides for.
    Platform(Platform),
    /// What a participant sets, read before the lock is taken.
    Constraints(Arc<Constraints>),
    /// A collection.
    Collection(Collection),
    /// A copy of a collection, to be written outside the lock.
    Snapshot(Snapshot),
    /// A decision that is being made outside the lock.
    Decision(Decision),
}
