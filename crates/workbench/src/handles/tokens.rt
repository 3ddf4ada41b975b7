//! Tokens of a collection, in a list of their own, and what a participant does with one.

use negotiation_inputs::Constraints;
use std::alloc::Global;
use std::sync::ledger::Ledger;
use std::sync::{Arc, Wait};
use std::thread::Threads;
use sysmem_participants::Token;
use sysmem_search::NoGate;

/// So many duplicates of a token; fewer where one is refused.
pub(crate) fn share_out<L: Ledger, R: Threads + Wait + Sync>(
    rt: &R,
    alloc: Global,
    root: &mut Token<L, NoGate>,
    many: usize,
) -> Vec<Token<L, NoGate>> {
    let mut tokens = Vec::new(alloc);
    let _room = tokens.reserve(many);
    for _ in 0..many {
        if let Ok(token) = root.duplicate(rt) {
            keep(rt, &mut tokens, token);
        }
    }
    tokens
}

fn keep<L: Ledger, R: Threads + Wait + Sync>(
    rt: &R,
    tokens: &mut Vec<Token<L, NoGate>>,
    token: Token<L, NoGate>,
) {
    if let Err(refused) = tokens.push(token) {
        let _lost = refused.value.close(rt);
    }
}

/// Binds a token, states what it asks for, asks so often what was decided, says so often again that
/// it asks for nothing, which is refused, and is released.
pub(crate) fn take_part<L: Ledger, R: Threads + Wait + Sync>(
    rt: &R,
    token: Token<L, NoGate>,
    asked: &Arc<Constraints>,
    checks: u32,
    refused: u32,
) {
    match token.bind(rt) {
        Ok(mut collection) => {
            let _set = collection.set_constraints(rt, Arc::try_clone(asked).ok());
            for _ in 0..checks {
                let _told = collection.check().err();
            }
            for _ in 0..refused {
                let _refused = collection.set_constraints(rt, None);
            }
            if let Err((collection, _refusal)) = collection.release(rt) {
                let _stub = collection.close(rt);
            }
        }
        Err((token, _refusal)) => release(rt, token),
    }
}

/// Releases a token, or closes it where that is refused.
fn release<L: Ledger, R: Threads + Wait + Sync>(rt: &R, token: Token<L, NoGate>) {
    if let Err((token, _refusal)) = token.release(rt) {
        let _stub = token.close(rt);
    }
}

pub(crate) fn close_all<L: Ledger, R: Threads + Wait + Sync>(
    rt: &R,
    tokens: Vec<Token<L, NoGate>>,
) {
    let mut tokens = tokens;
    while let Some(token) = tokens.pop() {
        let _stub = token.close(rt);
    }
    tokens.destroy_empty();
}
