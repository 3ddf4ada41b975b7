//! Measures of the bench: what is done again and again.

ghost use Rattle.std.specs.Prelude.{◌≡◌};
ghost use Rattle.sysmem_room.specs.Counting.{all_parts};

use super::ending::end;
use super::hand::Hand;
use super::playing::{keep, make};
use super::script::AskedConstraints;
use crate::failure::Failure;
use negotiation_inputs::Platform;
use script_reading::{Act, Call};
use std::alloc::{AllocError, Global};
use std::marker::Brand;
use std::sync::ledger::{Blank, Ledger};
use std::sync::{Arc, Wait};
use std::thread::Threads;
use sysmem_alloc::Book;
use sysmem_participants::{Allocator, Stub, Token, audit};
use sysmem_search::NoGate;
use sysmem_tree::{Action, Event, NodeId};

/// Plays the calls through the handles of so many collections, one after the other, closes them,
/// and audits each if that is asked for.
pub(crate) fn repeat_handles<R: Threads + Wait + Sync>(
    rt: &R,
    alloc: Global,
    platform: Platform,
    calls: &[Call<'_>],
    asked: &[AskedConstraints],
    is_audited: bool,
    times: u32,
) -> Result<(), Failure> {
    let allocator = Allocator::new(alloc, platform, NoGate)?;
    for _ in 0..times {
        play_once::<Brand, R>(
            rt,
            alloc,
            &allocator,
            Blank::new(129),
            calls,
            asked,
            is_audited,
        )?;
    }
    Ok(())
}

/// Plays the calls through the handles of one collection, closes them, and audits it if that is
/// asked for.
fn play_once<L: Ledger, R: Threads + Wait + Sync>(
    rt: &R,
    alloc: Global,
    allocator: &Allocator<NoGate>,
    blank: Blank,
    calls: &[Call<'_>],
    asked: &[AskedConstraints],
    is_audited: bool,
) -> Result<(), Failure>
    requires name { blank.name ≡ L.name }
    requires ledger { blank.parts ≡ L.parts }
    requires parts { blank.parts ≡ all_parts }
{
    let stubs = Vec::with_capacity(alloc, 129)?;
    let Ok(root) = allocator.allocate_shared::<L>(blank) else {
        return Err(Failure::NoMemory);
    };
    let left = play_on(rt, alloc, root, stubs, calls, asked);
    if is_audited {
        audited(rt, left)
    } else {
        Ok(())
    }
}

/// Plays the calls through the handles of this root's collection, and closes them: what is left of
/// all.
fn play_on<L: Ledger, R: Threads + Wait + Sync>(
    rt: &R,
    alloc: Global,
    root: Token<L, NoGate>,
    stubs: Vec<Stub<L>>,
    calls: &[Call<'_>],
    asked: &[AskedConstraints],
) -> Vec<Stub<L>> {
    let mut hands = Vec::new(alloc);
    let _room = hands.reserve(129);
    keep(rt, &mut hands, Hand::Token(root));
    for (call, asked) in calls.iter().zip(asked) {
        let _reply = make(rt, &mut hands, call, asked);
    }
    end(rt, hands, stubs)
}

/// Audits what is left of all handles.
fn audited<L: Ledger, R: Wait>(rt: &R, left: Vec<Stub<L>>) -> Result<(), Failure> {
    match audit(rt, left) {
        Ok(_found) => Ok(()),
        Err((fault, _seen, _stubs)) => Err(Failure::Audit(fault)),
    }
}

/// Plays the calls on so many books, one after the other, and closes the root of each.
pub(crate) fn repeat_book(
    alloc: Global,
    platform: &Platform,
    calls: &[Call<'_>],
    asked: &[AskedConstraints],
    times: u32,
) -> Result<(), AllocError> {
    for _ in 0..times {
        apply_once(alloc, platform.copy()?, calls, asked)?;
    }
    Ok(())
}

fn apply_once(
    alloc: Global,
    platform: Platform,
    calls: &[Call<'_>],
    asked: &[AskedConstraints],
) -> Result<(), AllocError> {
    let mut book = book_after(alloc, platform, calls, asked)?;
    let node = book.tree().root();
    let action = Action::Close;
    let _closed = book.apply(Event { node, action });
    Ok(())
}

/// The book after these calls, of which nothing is decided. A call that is refused, or whose node
/// isn't there, leaves it as it is.
pub(crate) fn book_after(
    alloc: Global,
    platform: Platform,
    calls: &[Call<'_>],
    asked: &[AskedConstraints],
) -> Result<Book, AllocError> {
    let mut book = Book::new(alloc, platform)?;
    match apply_all(alloc, &mut book, calls, asked) {
        Ok(()) => Ok(book),
        Err(error) => Err(error),
    }
}

fn apply_all(
    alloc: Global,
    book: &mut Book,
    calls: &[Call<'_>],
    asked: &[AskedConstraints],
) -> Result<(), AllocError> {
    let mut names = vec![in alloc; Some(book.tree().root())]?;
    for (call, asked) in calls.iter().zip(asked) {
        let made = apply(book, &names, call, asked)?;
        if call.act.name_made().is_some() {
            names.push(made)?;
        }
    }
    Ok(())
}

/// The node that a call makes or is made on; `None` where it is refused.
pub(crate) fn apply(
    book: &mut Book,
    names: &[Option<NodeId>],
    call: &Call<'_>,
    asked: &AskedConstraints,
) -> Result<Option<NodeId>, AllocError> {
    let Some(Some(node)) = names.get(call.place).copied() else {
        return Ok(None);
    };
    let action = match call.act {
        Act::Duplicate(_) => Action::Duplicate,
        Act::Bind => Action::Bind,
        Act::SetConstraints(_) => setting(asked)?,
        Act::CreateGroup(_) => Action::CreateGroup,
        Act::CreateChild(_) => Action::CreateChild,
        Act::AllChildrenPresent => Action::AllChildrenPresent,
        Act::AttachToken(_) => Action::AttachToken,
        Act::Release => Action::Release,
        Act::Close => Action::Close,
        Act::Check | Act::Wait => return Ok(None),
    };
    match book.apply(Event { node, action }) {
        Ok(done) => Ok(Some(done.node)),
        Err(_refusal) => Ok(None),
    }
}

fn setting(asked: &AskedConstraints) -> Result<Action, AllocError> {
    match asked {
        Ok(Some(shared)) => Ok(Action::SetConstraints(Some(Arc::try_clone(shared)?))),
        _ => Ok(Action::SetConstraints(None)),
    }
}
