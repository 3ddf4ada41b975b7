//! New collections.

ghost use Rattle.std.specs.Prelude.{◌≡◌, ◌⊎◌, Some, IfOk};
ghost use Rattle.live_book.specs.Collection.{new_within};
ghost use Rattle.live_book.specs.declared.object.Object.TheVariants.{Platform as Allocating};
ghost use Rattle.live_calls.specs.Opening.{Opens};

use crate::statuses::{DONE, MISUSED, NO_MEMORY};
use live_book::{Collection, Object};
use live_held::Held;
use negotiation_inputs::Platform;
use node_limits::Limits;
use std::alloc::{AllocError, Global};

/// Puts an object into a handle.
pub(crate) fn put_new(alloc: Global, object: Object, held: &mut Held) -> u32
    ensures { ((result ≡ 0) × (held.new.value ≡ Some object))
        ⊎ ((result ≡ 4) × (held.new.value ≡ held.old.value)) }
{
    match Box::new(alloc, object) {
        Ok(boxed) => {
            held.put(boxed);
            DONE
        }
        Err(_) => NO_MEMORY,
    }
}

/// Puts a new collection for a platform into a handle.
fn open_for(alloc: Global, platform: &Platform, limits: Limits, held: &mut Held) -> u32
    ensures { Opens limits (Some (Allocating platform.now)) held.old.value held.new.value result }
{
    match new_for(alloc, platform, limits) {
        Ok(collection) => put_new(alloc, Object::Collection(collection), held),
        Err(_) => NO_MEMORY,
    }
}

fn new_for(alloc: Global, platform: &Platform, limits: Limits) -> Result<Collection, AllocError>
    ensures { IfOk result (λ collection. collection ≡ new_within limits platform.now) }
{
    let platform = platform.copy()?;
    Collection::new(alloc, platform, limits)
}

/// Puts a new collection for an object's platform into a handle.
fn open_in(alloc: Global, object: &Object, limits: Limits, held: &mut Held) -> u32
    ensures { Opens limits (Some object.now) held.old.value held.new.value result }
{
    match object {
        Object::Platform(platform) => open_for(alloc, platform, limits, held),
        _ => MISUSED,
    }
}

/// Puts a new collection for an allocator's platform, with limits, into a handle.
pub fn open(alloc: Global, allocator: &mut Held, limits: Limits, held: &mut Held) -> u32
    ensures opens { Opens limits allocator.old.value held.old.value held.new.value result }
    ensures unchanged { allocator.new.value ≡ allocator.old.value }
{
    let Some(object) = allocator.take(alloc) else {
        return MISUSED;
    };
    let status = open_in(alloc, &object, limits, held);
    allocator.put(object);
    status
}
