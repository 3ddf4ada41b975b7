//! What happened on handles, as a script.

ghost use Rattle.std.specs.Prelude.{◌≡◌};
ghost use Rattle.sysmem_room.specs.Counting.{all_parts};

use super::ending::end;
use super::hand::Hand;
use super::playing::{keep, play_calls};
use super::script::{AskedConstraints, all_stated};
use crate::failure::Failure;
use book_replay::replayed;
use live_book::{Collection, Snapshot};
use live_script::{Unwritten, script_of};
use script_reading::{Call, Script};
use std::alloc::{AllocError, Global};
use std::marker::Brand;
use std::sync::Wait;
use std::sync::ledger::{Blank, Ledger};
use std::thread::Threads;
use sysmem_participants::{Allocator, Reader};
use sysmem_search::NoGate;

/// Plays the calls of a script through the handles of a new collection, and writes what happened as
/// a script, in which each node has the name of an unnamed one.
pub(crate) fn script_after<R: Threads + Wait + Sync>(
    rt: &R,
    alloc: Global,
    script: Script<'_>,
) -> Result<Vec<u8>, Failure> {
    let Script { platform, calls } = script;
    let asked = all_stated(alloc, &calls)?;
    let allocator = Allocator::new(alloc, platform, NoGate)?;
    let made = collection_after::<Brand, R>(
        rt,
        alloc,
        &allocator,
        Blank::new(129),
        &calls,
        &asked,
    )?;
    let Some(collection) = made else {
        return Err(Failure::ActedDuringDecision);
    };
    let snapshot = Snapshot::of(alloc, &collection)?;
    match script_of(alloc, &snapshot) {
        Ok(text) => Ok(text),
        Err(Unwritten::NoMemory) => Err(Failure::NoMemory),
        Err(Unwritten::TooLong) => Err(Failure::NoScript),
    }
}

/// The collection in which the calls were played, before its handles are closed; `None` where
/// somebody acted during a decision.
fn collection_after<L: Ledger, R: Threads + Wait + Sync>(
    rt: &R,
    alloc: Global,
    allocator: &Allocator<NoGate>,
    blank: Blank,
    calls: &[Call<'_>],
    asked: &[AskedConstraints],
) -> Result<Option<Collection>, Failure>
    requires name { blank.name ≡ L.name }
    requires ledger { blank.parts ≡ L.parts }
    requires parts { blank.parts ≡ all_parts }
{
    let Ok(root) = allocator.allocate_shared::<L>(blank) else {
        return Err(Failure::NoMemory);
    };
    let reader = root.reader();
    let mut hands = Vec::new(alloc);
    let _room = hands.reserve(129);
    keep(rt, &mut hands, Hand::Token(root));
    let mut told = String::new(alloc);
    let played = play_calls(rt, &mut hands, calls, asked, &mut told);
    let made = read_again(rt, alloc, reader);
    let _left = end(rt, hands, Vec::new(alloc));
    played?;
    Ok(made?)
}

/// The collection that is read.
fn read_again<L: Ledger, R: Wait>(
    rt: &R,
    alloc: Global,
    reader: Result<Reader<L>, AllocError>,
) -> Result<Option<Collection>, AllocError> {
    let reader = reader?;
    let reading = reader.read(rt);
    replayed(alloc, reading.book())
}
