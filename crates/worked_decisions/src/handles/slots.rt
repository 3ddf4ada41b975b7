//! Tokens that cross to the thread that takes them.

use super::handling::{bound, closed, waits_for};
use negotiation_inputs::Constraints;
use std::process::Abort;
use std::sync::ledger::Ledger;
use std::sync::{Arc, Mutex, Wait};
use std::thread::Threads;
use sysmem_participants::{Stub, Token};
use sysmem_search::Gate;

pub(super) type Slot<L, G> = Mutex<Option<Token<L, G>>>;

/// One takes part, and waits for the decision.
pub(super) fn take_part<L: Ledger, G: Gate + Drop + Sync, R: Threads + Wait + Abort + Sync>(
    rt: &R,
    slot: &Slot<L, G>,
    asked: &Arc<Constraints>,
) -> Stub<L> {
    let taken = slot.lock(rt).take();
    let token = taken.expect(rt, "the slot has a token");
    let mut collection = bound(rt, token, Arc::try_clone(asked).ok());
    waits_for(rt, &mut collection, 9);
    closed(rt, collection)
}

/// The slot is empty.
pub(super) fn emptied<L: Ledger, G: Gate + Drop + Sync>(rt: &impl Abort, slot: Slot<L, G>) {
    match slot.into_inner() {
        None => {}
        Some(_left) => panic!(rt; "a token is left"),
    }
}
