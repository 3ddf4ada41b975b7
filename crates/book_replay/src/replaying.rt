//! A book's history, entered once more.

ghost use Rattle.std.specs.Prelude.{◌≡◌, ◌↔◌, IfOk, IfSome, IsSome};
ghost use Rattle.live_book.specs.Collection.{collection_of};
ghost use Rattle.live_book.specs.Eager.{IsEager};

use crate::entering::enter;
use live_book::Collection;
use std::alloc::{AllocError, Global};
use sysmem_alloc::Book;

/// A book that is equal to this one, in memory of its own; `None` exactly where an action was
/// entered while a domain waited for a decision.
fn again(alloc: Global, book: &Book) -> Result<Option<Book>, AllocError>
    ensures same { IfOk result (λ again. IfSome again (λ copy. copy ≡ book.now)) }
    ensures eager { IfOk result (λ again. IsSome again ↔ IsEager book.now.history) }
{
    let mut copy = Book::new(alloc, book.platform().copy()?)?;
    let tree = book.tree();
    let history = book.history();
    for entry in history {
        copy.recall_legal();
        if !enter(alloc, tree, entry, &mut copy)? {
            return Ok(None);
        }
    }
    copy.recall_legal();
    Ok(Some(copy))
}

/// The collection of a book, without names, in memory of its own; `None` exactly where an action
/// was entered while a domain waited for a decision, as no script does. `AllocError` where memory
/// is refused.
pub fn replayed(alloc: Global, book: &Book) -> Result<Option<Collection>, AllocError>
    ensures made { IfOk result (λ made.
        IfSome made (λ collection. collection ≡ collection_of book.now)) }
    ensures eager { IfOk result (λ made. IsSome made ↔ IsEager book.now.history) }
{
    match again(alloc, book)? {
        Some(copy) => Ok(Some(Collection::of(alloc, copy))),
        None => Ok(None),
    }
}
