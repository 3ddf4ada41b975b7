//! Copies of collections.

ghost use Rattle.std.specs.Prelude.{◌≡◌, Some, IfOk};
ghost use Rattle.live_book.specs.Snapshot.{IsCopyOf, SnapshotFacts};
ghost use Rattle.live_book.specs.declared.object.Object.TheVariants.{Snapshot as Copied};
ghost use Rattle.live_calls.specs.Opening.{Copies};

use crate::statuses::{DONE, MISUSED, NO_MEMORY};
use live_book::{Collection, Object, Snapshot};
use live_held::Held;
use std::alloc::{AllocError, Global};

/// A copy of a collection, in a box.
fn boxed_copy(alloc: Global, collection: &Collection) -> Result<Box<Object>, AllocError>
    ensures { IfOk result (λ boxed. (s : SnapshotFacts)
        × ((boxed.value ≡ Copied s) × IsCopyOf collection.now s)) }
{
    let copy = Snapshot::of(alloc, collection)?;
    Ok(Box::new(alloc, Object::Snapshot(copy))?)
}

/// Puts a copy of an object that is a collection into a handle.
fn copy_in(alloc: Global, object: &Object, copy: &mut Held) -> u32
    ensures { Copies (Some object.now) copy.old.value copy.new.value result }
{
    let Object::Collection(collection) = object else {
        return MISUSED;
    };
    match boxed_copy(alloc, collection) {
        Ok(boxed) => {
            copy.put(boxed);
            DONE
        }
        Err(_) => NO_MEMORY,
    }
}

/// Puts a copy of a collection into another handle, from which its script and its certificate are
/// written outside the lock.
pub fn copy_on(alloc: Global, held: &mut Held, copy: &mut Held) -> u32
    ensures copies { Copies held.old.value copy.old.value copy.new.value result }
    ensures unchanged { held.new.value ≡ held.old.value }
{
    let Some(object) = held.take(alloc) else {
        return MISUSED;
    };
    let status = copy_in(alloc, &object, copy);
    held.put(object);
    status
}
