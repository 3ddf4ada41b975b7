//! Measures of the bench: participants of a collection who bind, state what they ask for and are
//! released, each in its turn, through handles and on a book. Handles and nodes are kept in a list
//! of just these, so that next to nothing but the calls takes time.

ghost use Rattle.std.specs.Prelude.{◌≡◌};
ghost use Rattle.sysmem_room.specs.Counting.{all_parts};

use super::script::AskedConstraints;
use super::tokens::{close_all, share_out, take_part};
use crate::failure::Failure;
use negotiation_inputs::{Constraints, Platform};
use std::alloc::{AllocError, Global};
use std::marker::Brand;
use std::sync::ledger::{Blank, Ledger};
use std::sync::{Arc, Wait};
use std::thread::Threads;
use sysmem_alloc::Book;
use sysmem_participants::Allocator;
use sysmem_search::NoGate;
use sysmem_tree::{Action, Event, NodeId};

/// What each asks for who asks for anything.
pub(crate) fn all_asked(
    alloc: Global,
    asked: Vec<AskedConstraints>,
) -> Result<Vec<Arc<Constraints>>, AllocError> {
    let mut all = Vec::new(alloc);
    for one in asked {
        if let Ok(Some(shared)) = one {
            all.push(shared)?;
        }
    }
    Ok(all)
}

/// So many collections, one after the other, of as many participants as ask for anything; the root
/// of each is closed.
pub(crate) fn take_again<R: Threads + Wait + Sync>(
    rt: &R,
    alloc: Global,
    platform: Platform,
    asked: &[Arc<Constraints>],
    times: u32,
) -> Result<(), Failure> {
    let allocator = Allocator::new(alloc, platform, NoGate)?;
    for _ in 0..times {
        take_once::<Brand, R>(rt, alloc, &allocator, Blank::new(129), asked)?;
    }
    Ok(())
}

fn take_once<L: Ledger, R: Threads + Wait + Sync>(
    rt: &R,
    alloc: Global,
    allocator: &Allocator<NoGate>,
    blank: Blank,
    asked: &[Arc<Constraints>],
) -> Result<(), Failure>
    requires name { blank.name ≡ L.name }
    requires ledger { blank.parts ≡ L.parts }
    requires parts { blank.parts ≡ all_parts }
{
    let Ok(mut root) = allocator.allocate_shared::<L>(blank) else {
        return Err(Failure::NoMemory);
    };
    let mut tokens = share_out(rt, alloc, &mut root, asked.len());
    tokens.reverse();
    for own in asked {
        let Some(token) = tokens.pop() else {
            break;
        };
        take_part(rt, token, own, 0, 0);
    }
    close_all(rt, tokens);
    let _stub = root.close(rt);
    Ok(())
}

/// The same on so many books.
pub(crate) fn apply_again(
    alloc: Global,
    platform: &Platform,
    asked: &[Arc<Constraints>],
    times: u32,
) -> Result<(), AllocError> {
    for _ in 0..times {
        apply_once(alloc, platform.copy()?, asked)?;
    }
    Ok(())
}

fn apply_once(
    alloc: Global,
    platform: Platform,
    asked: &[Arc<Constraints>],
) -> Result<(), AllocError> {
    let mut book = Book::new(alloc, platform)?;
    let root = book.tree().root();
    let mut nodes = Vec::with_capacity(alloc, asked.len())?;
    for _ in asked {
        if let Ok(done) = book.apply(Event {
            node: root,
            action: Action::Duplicate,
        }) {
            nodes.push(done.node)?;
        }
    }
    nodes.reverse();
    for own in asked {
        let Some(node) = nodes.pop() else {
            break;
        };
        apply_part(&mut book, node, own)?;
    }
    let _closed = book.apply(Event {
        node: root,
        action: Action::Close,
    });
    Ok(())
}

/// Binds a node, states what it asks for, and releases it.
fn apply_part(book: &mut Book, node: NodeId, asked: &Arc<Constraints>) -> Result<(), AllocError> {
    let _bound = book.apply(Event {
        node,
        action: Action::Bind,
    });
    let own = Arc::try_clone(asked)?;
    let _set = book.apply(Event {
        node,
        action: Action::SetConstraints(Some(own)),
    });
    let _released = book.apply(Event {
        node,
        action: Action::Release,
    });
    Ok(())
}
