//! Decisions.

ghost use Rattle.std.specs.Prelude.{◌≡◌, ◌⊎◌, None, Some, IfOk, IfSome, OnErr, is_some, option_map, true};
ghost use Rattle.live_calls.specs.Behind.{IsNoDecision};
ghost use Rattle.live_calls.specs.Deciding.{Decides, Enters, Freezes, GivesUp};
ghost use Rattle.live_book.specs.declared.object.Object.TheVariants.{Decision as Deciding};
ghost use Rattle.sysmem_alloc.specs.Frozen.{frozen_of};
ghost use Rattle.sysmem_alloc.specs.State.{next_ready};

use crate::statuses::{DONE, MISUSED, NO, NO_MEMORY};
use live_book::{Collection, Decision, Object, decide, enter, freeze, give_up};
use live_held::Held;
use std::alloc::{AllocError, Global};

/// What the domain of a collection that is next is decided on, in a box.
fn boxed(alloc: Global, collection: &Collection) -> Result<Option<Box<Object>>, AllocError>
    ensures boxed { IfOk result (λ boxed. option_map (λ b. b.value) boxed
        ≡ option_map (λ f. Deciding (record { frozen = f; claim = None }))
        (frozen_of collection.now.book)) }
    ensures waits { OnErr result (is_some (next_ready collection.now.book.state) ≡ true) }
{
    match freeze(collection)? {
        Some(decision) => Ok(Some(Box::new(alloc, Object::Decision(decision))?)),
        None => Ok(None),
    }
}

/// Puts what the domain of an object that is next is decided on into a handle.
fn freeze_in(alloc: Global, object: &Object, decision: &mut Held) -> u32
    ensures { Freezes (Some object.now) decision.old.value decision.new.value result }
{
    let Object::Collection(collection) = object else {
        return MISUSED;
    };
    match boxed(alloc, collection) {
        Ok(Some(frozen)) => {
            decision.put(frozen);
            DONE
        }
        Ok(None) => NO,
        Err(_) => NO_MEMORY,
    }
}

/// Puts what the domain of a collection that is next is decided on into another handle.
pub fn freeze_on(alloc: Global, held: &mut Held, decision: &mut Held) -> u32
    ensures freezes { Freezes held.old.value decision.old.value decision.new.value result }
    ensures unchanged { held.new.value ≡ held.old.value }
{
    let Some(object) = held.take(alloc) else {
        return MISUSED;
    };
    let status = freeze_in(alloc, &object, decision);
    held.put(object);
    status
}

/// The decision behind a handle, which is taken; `None` where it has none, and then what it has is
/// freed.
fn taken_decision(alloc: Global, held: &mut Held) -> Option<Decision>
    ensures decision { IfSome result (λ decision. held.old.value ≡ Some (Deciding decision)) }
    ensures none { result ≡ None → IsNoDecision held.old.value }
    ensures taken { held.new.value ≡ None }
{
    let object = held.take(alloc)?;
    match Box::into_inner(object) {
        Object::Decision(decision) => Some(decision),
        _ => None,
    }
}

/// Puts a decision into a handle, which is empty where memory is refused.
fn put_decided(alloc: Global, decided: Decision, held: &mut Held) -> u32
    ensures { ((result ≡ 0) × (held.new.value ≡ Some (Deciding decided)))
        ⊎ ((result ≡ 4) × (held.new.value ≡ held.old.value)) }
{
    match Box::new(alloc, Object::Decision(decided)) {
        Ok(boxed) => {
            held.put(boxed);
            DONE
        }
        Err(_) => NO_MEMORY,
    }
}

/// Decides, in the place of what was frozen; the handle is empty where memory is refused.
pub fn decide_on(alloc: Global, decision: &mut Held) -> u32
    ensures { Decides decision.old.value decision.new.value result }
{
    let Some(frozen) = taken_decision(alloc, decision) else {
        return MISUSED;
    };
    match decide(alloc, frozen) {
        Ok(decided) => put_decided(alloc, decided, decision),
        Err(_) => NO_MEMORY,
    }
}

/// Enters a decision in an object.
fn enter_in(object: &mut Object, decision: Decision) -> u32
    ensures { Enters (Some object.old) (Some object.new) (Some (Deciding decision)) result }
{
    let Object::Collection(collection) = object else {
        return MISUSED;
    };
    if enter(collection, decision) {
        DONE
    } else {
        NO
    }
}

/// Enters a decision in what lies behind a handle.
fn enter_by(alloc: Global, held: &mut Held, decision: Decision) -> u32
    ensures { Enters held.old.value held.new.value (Some (Deciding decision)) result }
{
    let Some(mut object) = held.take(alloc) else {
        return MISUSED;
    };
    let status = enter_in(&mut object, decision);
    held.put(object);
    status
}

/// Enters a decision, which is taken, in a collection.
pub fn enter_on(alloc: Global, held: &mut Held, decision: &mut Held) -> u32
    ensures enters { Enters held.old.value held.new.value decision.old.value result }
    ensures taken { decision.new.value ≡ None }
{
    match taken_decision(alloc, decision) {
        Some(decided) => enter_by(alloc, held, decided),
        None => MISUSED,
    }
}

/// Enters that memory was refused to the decision of the domain of an object that is next, if one
/// waits.
fn give_up_in(object: &mut Object) -> u32
    ensures { GivesUp (Some object.old) (Some object.new) result }
{
    let Object::Collection(collection) = object else {
        return MISUSED;
    };
    if give_up(collection) { DONE } else { NO }
}

/// Enters that memory was refused to the decision of the domain of a collection that is next, if
/// one waits.
pub fn give_up_on(alloc: Global, held: &mut Held) -> u32
    ensures { GivesUp held.old.value held.new.value result }
{
    let Some(mut object) = held.take(alloc) else {
        return MISUSED;
    };
    let status = give_up_in(&mut object);
    held.put(object);
    status
}
