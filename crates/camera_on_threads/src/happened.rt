//! What happened, as a script.

use crate::failure::Failure;
use book_replay::{replayed, set_name_at};
use live_book::{Collection, Misnamed, Snapshot};
use live_script::script_of;
use std::alloc::{AllocError, Global};
use std::sync::Wait;
use std::sync::ledger::Ledger;
use sysmem_participants::Reader;

/// What happened, as a script; `None` where somebody acted while a decision was made.
pub(crate) fn script_by<L: Ledger, R: Wait>(
    rt: &R,
    alloc: Global,
    reader: &Reader<L>,
) -> Result<Option<Vec<u8>>, Failure> {
    let Some(mut collection) = read_again(rt, alloc, reader)? else {
        return Ok(None);
    };
    name_child(alloc, &mut collection, 0, "camera")?;
    name_child(alloc, &mut collection, 1, "encoder")?;
    name_child(alloc, &mut collection, 2, "recorder")?;
    let snapshot = Snapshot::of(alloc, &collection)?;
    Ok(Some(script_of(alloc, &snapshot)?))
}

/// The collection that is read, in memory of its own. Only as long as it is copied nobody can act.
fn read_again<L: Ledger, R: Wait>(
    rt: &R,
    alloc: Global,
    reader: &Reader<L>,
) -> Result<Option<Collection>, AllocError> {
    let reading = reader.read(rt);
    replayed(alloc, reading.book())
}

/// Gives a child of the root a name, where there is that child.
fn name_child(
    alloc: Global,
    collection: &mut Collection,
    child: u32,
    name: &str,
) -> Result<(), Failure> {
    match set_name_at(alloc, collection, &[child], name) {
        Ok(()) | Err(Misnamed::NoNode) => Ok(()),
        Err(why) => Err(Failure::Name(why)),
    }
}
