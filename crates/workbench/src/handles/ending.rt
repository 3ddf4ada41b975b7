//! The end of a collection: its handles are closed, and what is left of them is audited.

use super::hand::Hand;
use std::alloc::AllocError;
use std::fmt::Write;
use std::sync::Wait;
use std::sync::ledger::Ledger;
use std::thread::Threads;
use sysmem_participants::{Stub, audit};

/// Closes what is still open: what is left of all handles, put after these.
pub(crate) fn end<L: Ledger, R: Threads + Wait + Sync>(
    rt: &R,
    hands: Vec<Hand<L>>,
    stubs: Vec<Stub<L>>,
) -> Vec<Stub<L>> {
    let mut hands = hands;
    let mut stubs = stubs;
    while let Some(hand) = hands.pop() {
        if let Some(stub) = hand.left(rt) {
            let _kept = stubs.push(stub);
        }
    }
    hands.destroy_empty();
    stubs
}

/// Puts the audit's line after the text.
pub(crate) fn put_audit<L: Ledger, R: Threads + Wait + Sync>(
    rt: &R,
    text: &mut String,
    stubs: Vec<Stub<L>>,
) -> Result<(), AllocError> {
    match audit(rt, stubs) {
        Ok((found, _seen)) => {
            let (nodes, actions, decisions) = (found.nodes, found.actions, found.decisions);
            writeln!(
                text,
                "audit nodes {nodes} actions {actions} decisions {decisions}"
            )
        }
        Err((fault, _seen, _stubs)) => {
            let name = fault.name();
            writeln!(text, "audit {name}")
        }
    }
}
