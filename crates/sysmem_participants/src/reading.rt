//! A look at the book of a collection.

ghost use Rattle.std.specs.Prelude.{◌≡◌};
ghost use Rattle.std.specs.Arc.{arc_value};
ghost use Rattle.sysmem_alloc.specs.Book.{IsBook};

use crate::shared::SharedBook;
use std::marker::Model;
use std::sync::ledger::Ledger;
use std::sync::{Arc, MutexGuard, Wait};
use sysmem_alloc::Book;
use sysmem_room::Room;

/// Reads the book of a collection, also once its handles are spent. Clauses see the platform that
/// its handles are for.
#[derive(Drop)]
pub struct Reader<L: Ledger> {
    shared: Arc<SharedBook<L>>,
}

impl<L: Ledger> Model for Reader<L> {
    ghost use Rattle.std.specs.Arc.{arc_value};
    ghost use Rattle.negotiation_inputs.specs.Platform.{PlatformFacts};

    ghost Value = { PlatformFacts };

    ghost view = { λ r. (arc_value r.shared).platform };
}

/// The book of a collection as it stands. No call on the collection is entered before it is let go.
#[derive(Drop)]
pub struct Reading<'a, L: Ledger> {
    room: MutexGuard<'a, Room<L>>,
}

impl<'a, L: Ledger> Model for Reading<'a, L> {
    ghost use Rattle.std.specs.Sync.Mutex.{mutex_guard_value};
    ghost use Rattle.sysmem_alloc.specs.Book.{BookFacts};

    ghost Value = { BookFacts };

    ghost view = { λ r. mutex_guard_value r.room };
}

impl<L: Ledger> Reader<L> {
    /// Of what the handles of a collection share.
    pub(crate) fn new(shared: Arc<SharedBook<L>>) -> Reader<L>
        ensures { result ≡ (arc_value shared).platform }
    {
        Reader { shared }
    }

    /// The book, once no call is being entered: a legal one, that its history leads to.
    pub fn read<R: Wait>(&self, rt: &R) -> Reading<'_, L>
        ensures { IsBook result }
    {
        let room = self.shared.room.lock(rt);
        room.book().recall_legal();
        Reading { room }
    }
}

impl<L: Ledger> Reading<'_, L> {
    /// The book: a legal one, that its history leads to.
    pub fn book(&self) -> &Book
        ensures same { result.now ≡ self.now }
        ensures legal { IsBook result.now }
    {
        let book = self.room.book();
        book.recall_legal();
        book
    }
}
