//! What the handles of a collection share.

ghost use Rattle.std.specs.Prelude.{◌≤◌};
ghost use Rattle.std.specs.Option.{ForSome};
ghost use Rattle.sysmem_search.specs.declared.wide.TheConstants.{MOST_WORKERS};

use negotiation_inputs::Platform;
use node_limits::Limits;
use std::alloc::Global;
use std::sync::ledger::Ledger;
use std::sync::{Condvar, Mutex};
use sysmem_room::Room;
use sysmem_search::Gate;

/// A collection's book under its lock, where one waits for a verdict, and the platform for which
/// it is decided.
pub(crate) struct SharedBook<L: Ledger> {
    pub(crate) room: Mutex<Room<L>>,
    pub(crate) changed: Condvar,
    /// The one that its handles, and what is left of them, are for.
    pub(crate) platform: Platform,
}

impl<L: Ledger> Drop for SharedBook<L> {
    fn drop(self) {
        let SharedBook {
            room: _,
            changed: _,
            platform: _,
        } = self;
    }
}

/// What an allocator decides for, what it allows, and who is told of its searches.
pub(crate) struct Rules<G: Gate + Drop> {
    pub(crate) alloc: Global,
    pub(crate) platform: Platform,
    pub(crate) gate: G,
    /// How many workers a search gets; `None` where that goes by how long it may take.
    pub(crate) workers: Option<u32>,
    pub(crate) limits: Limits,
    ghost few: { ForSome workers (λ many. (1 ≤ many) × (many ≤ MOST_WORKERS)) },
}

impl<G: Gate + Drop> Drop for Rules<G> {
    fn drop(self) {
        let Rules {
            alloc: _,
            platform: _,
            gate: _,
            workers: _,
            limits: _,
        } = self;
    }
}
