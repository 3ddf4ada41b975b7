//! Waiting for a verdict.

ghost use Rattle.std.specs.Prelude.{◌≡◌, ◌≢◌, None, Some, IfSome};
ghost use Rattle.once_cell.specs.Once.{cell_name};

use crate::shared::SharedBook;
use once_cell::race::{Note, OnceBox};
use std::sync::Wait;
use std::sync::ledger::Ledger;
use sysmem_room::Outcome;

/// Waits until a cell is set, and notes what is in it.
pub(crate) fn wait_until_set<L: Ledger, R: Wait>(
    rt: &R,
    shared: &SharedBook<L>,
    cell: &OnceBox<Outcome>,
    note: &mut Note<Outcome>,
)
    requires { note.old.cell ≡ cell_name cell.now }
    ensures cell { note.new.cell ≡ note.old.cell }
    ensures kept { IfSome note.old.known (λ known. note.new.known ≡ Some known) }
    ensures told { note.new.known ≢ None }
{
    let mut room = shared.room.lock(rt);
    for _ in rt.forever() {
        if cell.get_as(note).is_some() {
            return;
        }
        room = shared.changed.wait(rt, room);
    }
    unreachable!()
}
