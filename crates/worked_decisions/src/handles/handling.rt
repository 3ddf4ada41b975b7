//! Calls on handles that have to be accepted.

ghost use Rattle.std.specs.Prelude.{◌≡◌};
ghost use Rattle.sysmem_room.specs.Counting.{all_parts};

use crate::equal::is_equal;
use negotiation_inputs::Constraints;
use std::alloc::Global;
use std::process::Abort;
use std::sync::ledger::{Blank, Ledger};
use std::sync::{Arc, Wait};
use std::thread::Threads;
use sysmem_participants::{
    Allocator, Audit, AuditFault, Collection, Group, Stub, Token, View, audit,
};
use sysmem_proof::check;
use sysmem_search::Gate;

/// The root of a new collection.
pub(crate) fn root<L: Ledger, G: Gate + Drop + Sync>(
    rt: &impl Abort,
    allocator: &Allocator<G>,
    blank: Blank,
) -> Token<L, G>
    requires name { blank.name ≡ L.name }
    requires ledger { blank.parts ≡ L.parts }
    requires parts { blank.parts ≡ all_parts }
{
    allocator
        .allocate_shared(blank)
        .expect(rt, "allocate_shared")
}

/// A child of a token.
pub(crate) fn child<L: Ledger, G: Gate + Drop + Sync, R: Threads + Wait + Abort + Sync>(
    rt: &R,
    token: &mut Token<L, G>,
) -> Token<L, G>
    ensures cell { result.cell ≡ token.old.cell }
    ensures same { token.new.cell ≡ token.old.cell }
{
    match token.duplicate(rt) {
        Ok(child) => child,
        Err(_refusal) => panic!(rt; "duplicate is refused"),
    }
}

/// The collection that a token becomes, with these constraints.
pub(crate) fn bound<L: Ledger, G: Gate + Drop + Sync, R: Threads + Wait + Abort + Sync>(
    rt: &R,
    token: Token<L, G>,
    asked: Option<Arc<Constraints>>,
) -> Collection<L, G>
    ensures { result.cell ≡ token.cell }
{
    let mut collection = match token.bind(rt) {
        Ok(collection) => collection,
        Err(_refused) => panic!(rt; "bind is refused"),
    };
    if let Err(_refusal) = collection.set_constraints(rt, asked) {
        panic!(rt; "set_constraints is refused");
    }
    collection
}

/// What is left of a token that is released.
pub(crate) fn released<L: Ledger, G: Gate + Drop + Sync, R: Threads + Wait + Abort + Sync>(
    rt: &R,
    token: Token<L, G>,
) -> Stub<L> {
    match token.release(rt) {
        Ok(stub) => stub,
        Err(_refused) => panic!(rt; "release is refused"),
    }
}

/// What is left of a group that is released.
pub(crate) fn released_group<L: Ledger, G: Gate + Drop + Sync, R: Threads + Wait + Abort + Sync>(
    rt: &R,
    group: Group<L, G>,
) -> Stub<L> {
    match group.release(rt) {
        Ok(stub) => stub,
        Err(_refused) => panic!(rt; "release is refused"),
    }
}

/// What is left of a collection that is closed.
pub(crate) fn closed<L: Ledger, G: Gate + Drop + Sync, R: Threads + Wait + Abort + Sync>(
    rt: &R,
    collection: Collection<L, G>,
) -> Stub<L> {
    let (stub, refused) = collection.close(rt);
    is_equal(rt, "close", &refused, &None);
    stub
}

/// What an audit of the stubs counts.
pub(crate) fn counted<L: Ledger, R: Wait + Abort, const MANY: usize>(
    rt: &R,
    alloc: Global,
    stubs: [Stub<L>; MANY],
) -> Result<Audit, AuditFault> {
    let Ok(stubs) = Vec::from_array(alloc, stubs) else {
        panic!(rt; "memory is refused to an audit");
    };
    match audit(rt, stubs) {
        Ok((found, _seen)) => Ok(found),
        Err((fault, _seen, _stubs)) => Err(fault),
    }
}

/// What is shown has this count, and the checker's yes.
pub(crate) fn shows(rt: &impl Abort, view: &View<'_>, count: u32) {
    is_equal(rt, "count", &view.settings().count, &count);
    let checked = check(
        view.platform(),
        view.tree(),
        view.domain(),
        view.base(),
        view.claim(),
    );
    is_equal(rt, "checked", &checked, &Ok(()));
}

/// The collection waits, and is shown this count.
pub(crate) fn waits_for<L: Ledger, G: Gate + Drop + Sync, R: Threads + Wait + Abort + Sync>(
    rt: &R,
    collection: &mut Collection<L, G>,
    count: u32,
)
    ensures { collection.new.cell ≡ collection.old.cell }
{
    match collection.wait_for_all(rt) {
        Ok(view) => shows(rt, &view, count),
        Err(_refusal) => panic!(rt; "wait_for_all is refused"),
    }
}
