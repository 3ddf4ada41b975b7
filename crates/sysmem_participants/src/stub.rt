//! What is left of handles that were spent.

ghost use Rattle.std.specs.Prelude.{◌≡◌, length};

use crate::shared::SharedBook;
use once_cell::race::{Note, OnceBox};
use std::marker::Model;
use std::sync::Arc;
use std::sync::ledger::{Ledger, Share};
use sysmem_room::{Outcome, SpentLog};

/// What is left of a handle that was spent: its node's path, its accepted actions, its share of the
/// ledger, its cell and what it knows of that, and the platform. An audit wants one for each node.
pub struct Stub<L: Ledger> {
    pub(crate) shared: Arc<SharedBook<L>>,
    pub(crate) log: SpentLog<L>,
    pub(crate) cell: Arc<OnceBox<Outcome>>,
    pub(crate) note: Note<Outcome>,
}

impl<L: Ledger> Drop for Stub<L> {
    fn drop(self) {
        let Stub {
            shared: _,
            log: _,
            cell: _,
            note: _,
        } = self;
    }
}

impl<L: Ledger> Model for Stub<L> {
    ghost use Rattle.std.specs.Prelude.{◌≡◌};
    ghost use Rattle.std.specs.Arc.{arc_value};
    ghost use Rattle.once_cell.specs.Once.{cell_name};
    ghost use Rattle.sysmem_participants.specs.Held.{Left};

    ghost Value = { Left };

    ghost view = { λ s. record {
      path = s.log.path;
      deeds = s.log.deeds;
      cell = cell_name (arc_value s.cell);
      known = s.note.known;
      platform = (arc_value s.shared).platform;
    } };

    ghost invariant = { λ s. s.note.cell ≡ cell_name (arc_value s.cell) };
}

impl<L: Ledger> Stub<L> {
    /// Its share alone.
    pub(crate) fn into_share(self) -> Share<L>
        ensures parts { result.parts ≡ 1 }
        ensures amount { result.amount ≡ length self.deeds }
    {
        let Stub {
            log,
            shared: _,
            cell: _,
            note: _,
        } = self;
        log.into_share()
    }
}
