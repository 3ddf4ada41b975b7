//! The handles of a collection, and the calls of a script on them.

use crate::activity::{Activity, Woken};
use crate::called::CallEffect;
use negotiation_inputs::Constraints;
use record_reading::Code;
use script_reading::{Act, Stated};
use std::alloc::Global;
use std::sync::ledger::Ledger;
use std::sync::{Arc, Wait};
use std::thread::Threads;
use sysmem_participants::{Collection, Group, Stub, Token};
use sysmem_sanitise::read_constraints;
use sysmem_search::NoGate;
use sysmem_tree::Refusal;

/// What a name stands for until it is released or closed.
pub(crate) enum Handle<L: Ledger> {
    Token(Token<L, NoGate>),
    Group(Group<L, NoGate>),
    Collection(Collection<L, NoGate>),
}

impl<L: Ledger> Handle<L> {
    /// Makes a call. One that doesn't fit the kind of the handle is refused, which changes nothing.
    pub(crate) fn call<R: Threads + Wait + Sync>(
        self,
        rt: &R,
        alloc: Global,
        activity: &Activity,
        act: &Act<'_>,
    ) -> CallEffect<L> {
        match self {
            Handle::Token(token) => call_token(rt, token, act),
            Handle::Group(group) => call_group(rt, group, act),
            Handle::Collection(collection) => {
                call_collection(rt, alloc, activity, collection, act)
            }
        }
    }

    /// Closes it: what is left. An audit tells where the close was refused.
    pub(crate) fn close<R: Threads + Wait + Sync>(self, rt: &R) -> Stub<L> {
        let (stub, _refused) = match self {
            Handle::Token(token) => token.close(rt),
            Handle::Group(group) => group.close(rt),
            Handle::Collection(collection) => collection.close(rt),
        };
        stub
    }
}

fn call_token<L: Ledger, R: Threads + Wait + Sync>(
    rt: &R,
    token: Token<L, NoGate>,
    act: &Act<'_>,
) -> CallEffect<L> {
    let mut token = token;
    match act {
        Act::Duplicate(_) => match token.duplicate(rt) {
            Ok(child) => CallEffect::made(Handle::Token(token), Handle::Token(child)),
            Err(refusal) => CallEffect::refused(rt, Handle::Token(token), refusal),
        },
        Act::CreateGroup(_) => match token.create_group(rt) {
            Ok(group) => CallEffect::made(Handle::Token(token), Handle::Group(group)),
            Err(refusal) => CallEffect::refused(rt, Handle::Token(token), refusal),
        },
        Act::Bind => match token.bind(rt) {
            Ok(collection) => CallEffect::kept(Handle::Collection(collection)),
            Err(refused) => CallEffect::refused(rt, Handle::Token(refused.0), refused.1),
        },
        Act::Release => match token.release(rt) {
            Ok(stub) => CallEffect::spent(stub),
            Err(refused) => CallEffect::refused(rt, Handle::Token(refused.0), refused.1),
        },
        Act::Close => CallEffect::spent(Handle::Token(token).close(rt)),
        _ => CallEffect::kept(Handle::Token(token)),
    }
}

fn call_group<L: Ledger, R: Threads + Wait + Sync>(
    rt: &R,
    group: Group<L, NoGate>,
    act: &Act<'_>,
) -> CallEffect<L> {
    let mut group = group;
    match act {
        Act::CreateChild(_) => match group.create_child(rt) {
            Ok(child) => CallEffect::made(Handle::Group(group), Handle::Token(child)),
            Err(refusal) => CallEffect::refused(rt, Handle::Group(group), refusal),
        },
        Act::AllChildrenPresent => match group.all_children_present(rt) {
            Ok(()) => CallEffect::kept(Handle::Group(group)),
            Err(refusal) => CallEffect::refused(rt, Handle::Group(group), refusal),
        },
        Act::Release => match group.release(rt) {
            Ok(stub) => CallEffect::spent(stub),
            Err(refused) => CallEffect::refused(rt, Handle::Group(refused.0), refused.1),
        },
        Act::Close => CallEffect::spent(Handle::Group(group).close(rt)),
        _ => CallEffect::kept(Handle::Group(group)),
    }
}

fn call_collection<L: Ledger, R: Threads + Wait + Sync>(
    rt: &R,
    alloc: Global,
    activity: &Activity,
    collection: Collection<L, NoGate>,
    act: &Act<'_>,
) -> CallEffect<L> {
    let mut collection = collection;
    match act {
        Act::SetConstraints(stated) => set_constraints(rt, alloc, collection, *stated),
        Act::AttachToken(_) => match collection.attach_token(rt) {
            Ok(token) => CallEffect::made(Handle::Collection(collection), Handle::Token(token)),
            Err(refusal) => CallEffect::refused(rt, Handle::Collection(collection), refusal),
        },
        Act::Check => {
            let _told = collection.check().err();
            CallEffect::kept(Handle::Collection(collection))
        }
        Act::Wait => {
            wait_for_verdict(rt, activity, &mut collection);
            CallEffect::kept(Handle::Collection(collection))
        }
        Act::Release => match collection.release(rt) {
            Ok(stub) => CallEffect::spent(stub),
            Err(refused) => CallEffect::refused(rt, Handle::Collection(refused.0), refused.1),
        },
        Act::Close => CallEffect::spent(Handle::Collection(collection).close(rt)),
        _ => CallEffect::kept(Handle::Collection(collection)),
    }
}

/// Asks until there is a verdict, or no actor can bring one any more.
fn wait_for_verdict<L: Ledger, R: Threads + Wait + Sync>(
    rt: &R,
    activity: &Activity,
    collection: &mut Collection<L, NoGate>,
) {
    for _ in rt.forever() {
        let turn = activity.turn(rt);
        let is_pending = matches!(collection.check().err(), Some(Refusal::Pending));
        if !is_pending || activity.wait(rt, turn) == Woken::ByStandstill {
            return;
        }
    }
}

/// Reads the constraints that a call states, and sets them; where they can't be read the call isn't
/// made.
fn set_constraints<L: Ledger, R: Threads + Wait + Sync>(
    rt: &R,
    alloc: Global,
    collection: Collection<L, NoGate>,
    stated: Option<Stated<'_>>,
) -> CallEffect<L> {
    let mut collection = collection;
    match asked(alloc, stated) {
        Ok(asked) => match collection.set_constraints(rt, asked) {
            Ok(()) => CallEffect::kept(Handle::Collection(collection)),
            Err(refusal) => CallEffect::refused(rt, Handle::Collection(collection), refusal),
        },
        Err(Code::WantOfMemory) => CallEffect::starved(rt, Handle::Collection(collection)),
        Err(_) => CallEffect::kept(Handle::Collection(collection)),
    }
}

/// The constraints that a value states; or the code of its first fault, which is that of want of
/// memory where they can't be shared.
fn asked(alloc: Global, stated: Option<Stated<'_>>) -> Result<Option<Arc<Constraints>>, Code> {
    let Some(stated) = stated else {
        return Ok(None);
    };
    match read_constraints(alloc, stated.value()) {
        Ok(constraints) => match Arc::new(alloc, constraints) {
            Ok(shared) => Ok(Some(shared)),
            Err(_) => Err(Code::WantOfMemory),
        },
        Err(fault) => Err(fault.code),
    }
}
