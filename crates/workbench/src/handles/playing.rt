//! The calls of a script, one after the other, on the hands that their names stand for.

use super::hand::{Hand, put, taken};
use super::naming::{Reply, put_call};
use super::script::AskedConstraints;
use script_reading::{Act, Call};
use std::alloc::AllocError;
use std::sync::ledger::Ledger;
use std::sync::{Arc, Wait};
use std::thread::Threads;
use sysmem_tree::Refusal;

/// Plays each call, with what it asks for, and puts its line after the text.
pub(crate) fn play_calls<L: Ledger, R: Threads + Wait + Sync>(
    rt: &R,
    hands: &mut Vec<Hand<L>>,
    calls: &[Call<'_>],
    asked: &[AskedConstraints],
    text: &mut String,
) -> Result<(), AllocError> {
    for (index, call) in calls.iter().enumerate() {
        let Some(asked) = asked.get(index) else {
            break;
        };
        let mut reply = make(rt, hands, call, asked);
        put_call(text, index + 1, call, reply)?;
        if matches!(reply, Reply::Refused(Refusal::NoMemory)) && is_action(&call.act) {
            reply = make(rt, hands, call, asked);
            put_call(text, index + 1, call, reply)?;
        }
        if !matches!(reply, Reply::Accepted) && call.act.name_made().is_some() {
            keep(rt, hands, Hand::Nobody);
        }
    }
    Ok(())
}

/// Whether a call enters an action, and so may be refused for want of memory.
fn is_action(act: &Act<'_>) -> bool {
    !matches!(act, Act::Check | Act::Wait)
}

/// Keeps a hand after all others.
pub(crate) fn keep<L: Ledger, R: Threads + Wait + Sync>(
    rt: &R,
    hands: &mut Vec<Hand<L>>,
    hand: Hand<L>,
) {
    if let Err(refused) = hands.push(hand) {
        let _lost = refused.value.left(rt);
    }
}

/// Makes a call: what it makes stands after all others then.
pub(crate) fn make<L: Ledger, R: Threads + Wait + Sync>(
    rt: &R,
    hands: &mut Vec<Hand<L>>,
    call: &Call<'_>,
    asked: &AskedConstraints,
) -> Reply {
    let place = call.place;
    if place >= hands.len() || matches!(&hands[place], Hand::Nobody) {
        return Reply::Skipped;
    }
    let hand = &mut hands[place];
    let made = match call.act {
        Act::Duplicate(_) => hand.duplicate(rt),
        Act::CreateGroup(_) => hand.create_group(rt),
        Act::CreateChild(_) => hand.create_child(rt),
        Act::AttachToken(_) => hand.attach_token(rt),
        _ => return act(rt, hand, &call.act, asked),
    };
    match made {
        Ok(child) => {
            keep(rt, hands, child);
            Reply::Accepted
        }
        Err(refusal) => Reply::Refused(refusal),
    }
}

/// Makes a call that makes no node.
fn act<L: Ledger, R: Threads + Wait + Sync>(
    rt: &R,
    hand: &mut Hand<L>,
    act: &Act<'_>,
    asked: &AskedConstraints,
) -> Reply {
    let refused = match act {
        Act::Bind | Act::Release | Act::Close => spend(rt, hand, act),
        Act::SetConstraints(_) => return set(rt, hand, asked),
        Act::AllChildrenPresent => hand.all_children_present(rt).err(),
        Act::Wait => hand.wait(rt).err(),
        _ => hand.check().err(),
    };
    Reply::new(refused)
}

/// Sets constraints, of which one more owner is made, or none.
fn set<L: Ledger, R: Threads + Wait + Sync>(
    rt: &R,
    hand: &mut Hand<L>,
    asked: &AskedConstraints,
) -> Reply {
    match asked {
        Ok(Some(shared)) => match Arc::try_clone(shared) {
            Ok(own) => Reply::new(hand.set_constraints(rt, Some(own)).err()),
            Err(_) => Reply::Refused(Refusal::NoMemory),
        },
        Ok(None) => Reply::new(hand.set_constraints(rt, None).err()),
        Err(fault) => Reply::Misread(*fault),
    }
}

/// Binds, releases or closes, and puts what becomes of the handle in its place.
fn spend<L: Ledger, R: Threads + Wait + Sync>(
    rt: &R,
    hand: &mut Hand<L>,
    act: &Act<'_>,
) -> Option<Refusal> {
    let own = taken(hand);
    let (then, refused) = match act {
        Act::Bind => own.bound(rt),
        Act::Release => own.released(rt),
        _ => own.closed(rt),
    };
    put(rt, hand, then);
    refused
}
