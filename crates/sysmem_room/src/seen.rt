//! What was seen under a lock.

ghost use Rattle.std.specs.Prelude.{◌≡◌};

use std::marker::{Model, PhantomData};
use std::snapshot::Snapshot;
use std::sync::ledger::Ledger;
use sysmem_alloc::Book;

/// The book of a collection as it stood in a hold of its lock, for clauses alone: it takes no
/// bytes. Nothing but `Room::seen` makes one, and there is one room for a ledger.
#[derive(Drop)]
pub struct SeenBook<L: Ledger> {
    book: Snapshot<Book>,
    ledger: PhantomData<L>,
}

impl<L: Ledger> Model for SeenBook<L> {
    ghost use Rattle.sysmem_alloc.specs.Book.{BookFacts};

    ghost Value = { BookFacts };

    ghost view = { λ s. s.book.value };
}

impl<L: Ledger> SeenBook<L> {
    /// This book.
    pub(crate) fn of(book: &Book) -> SeenBook<L>
        ensures { result ≡ book.now }
    {
        SeenBook {
            book: Snapshot::of(book),
            ledger: PhantomData,
        }
    }
}
