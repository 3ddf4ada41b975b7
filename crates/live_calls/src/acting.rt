//! Calls that act on a collection.

ghost use Rattle.std.specs.Prelude.{◌≡◌, ◌≢◌, ℕ, Some, None, IfSome, option_map};
ghost use Rattle.std.specs.Arc.{arc_value};
ghost use Rattle.sysmem_tree.specs.ActionKind.{deed_of, sets};
ghost use Rattle.live_calls.specs.Acting.{Acts};
ghost use Rattle.live_calls.specs.Behind.{constraints_in};
ghost use Rattle.live_calls.specs.Numbers.{action_at};

use crate::statuses::{DONE, MISUSED, action_of, denial_status};
use live_book::{Object, act};
use live_held::Held;
use negotiation_inputs::Constraints;
use std::alloc::Global;
use std::sync::Arc;
use sysmem_tree::Action;

/// Makes an action on an object.
fn act_in(
    object: &mut Object,
    node: u32,
    action: Action,
    made: &mut u32,
    is_ready: &mut bool,
) -> u32
    ensures acts { Acts node (deed_of action) (Some object.old) (Some object.new)
        made.new is_ready.new result }
    ensures stays { result ≢ 0 → (made.new ≡ made.old) × (is_ready.new ≡ is_ready.old) }
{
    let Object::Collection(collection) = object else {
        return MISUSED;
    };
    match act(collection, node, action) {
        Ok(accepted) => {
            *made = accepted.node;
            *is_ready = accepted.is_ready;
            DONE
        }
        Err(denial) => denial_status(denial),
    }
}

/// Makes an action on the node of a number of a collection.
fn act_by(
    alloc: Global,
    held: &mut Held,
    node: u32,
    action: Action,
    made: &mut u32,
    is_ready: &mut bool,
) -> u32
    ensures acts { Acts node (deed_of action) held.old.value held.new.value
        made.new is_ready.new result }
    ensures stays { result ≢ 0 → (made.new ≡ made.old) × (is_ready.new ≡ is_ready.old) }
{
    let Some(mut object) = held.take(alloc) else {
        return MISUSED;
    };
    let status = act_in(&mut object, node, action, made, is_ready);
    held.put(object);
    status
}

/// Makes the action of a number on the node of a number of a collection.
pub fn act_on(
    alloc: Global,
    held: &mut Held,
    node: u32,
    action: u32,
    made: &mut u32,
    is_ready: &mut bool,
) -> u32
    ensures acts { IfSome (action_at action)
        (λ deed. Acts node deed held.old.value held.new.value made.new is_ready.new result) }
    ensures none { action_at action ≡ None → result ≡ 2 }
    ensures unchanged { action_at action ≡ None → held.new.value ≡ held.old.value }
    ensures stays { result ≢ 0 → (made.new ≡ made.old) × (is_ready.new ≡ is_ready.old) }
{
    match action_of(action) {
        Some(action) => act_by(alloc, held, node, action, made, is_ready),
        None => MISUSED,
    }
}

/// Sets constraints on the node of a number of a collection, in which they are kept.
fn set_shared(
    alloc: Global,
    held: &mut Held,
    node: u32,
    shared: Arc<Constraints>,
    is_ready: &mut bool,
) -> u32
    ensures acts { (made : ℕ) × Acts node (sets (Some (arc_value shared))) held.old.value
        held.new.value made is_ready.new result }
    ensures stays { result ≢ 0 → is_ready.new ≡ is_ready.old }
{
    let mut made = 0;
    let action = Action::SetConstraints(Some(shared));
    act_by(alloc, held, node, action, &mut made, is_ready)
}

/// The constraints behind a handle, which are taken; `None` where it has none, and then what it has
/// is freed.
fn taken_constraints(alloc: Global, held: &mut Held) -> Option<Arc<Constraints>>
    ensures constraints { option_map (λ shared. arc_value shared) result
        ≡ constraints_in held.old.value }
    ensures taken { held.new.value ≡ None }
{
    let object = held.take(alloc)?;
    match Box::into_inner(object) {
        Object::Constraints(shared) => Some(shared),
        _ => None,
    }
}

/// Sets constraints, which are taken, on the node of a number of a collection.
pub fn set_on(
    alloc: Global,
    held: &mut Held,
    node: u32,
    constraints: &mut Held,
    is_ready: &mut bool,
) -> u32
    ensures acts { IfSome (constraints_in constraints.old.value) (λ asked. (made : ℕ)
        × Acts node (sets (Some asked)) held.old.value held.new.value made is_ready.new result) }
    ensures none { constraints_in constraints.old.value ≡ None → result ≡ 2 }
    ensures unchanged { constraints_in constraints.old.value ≡ None
        → held.new.value ≡ held.old.value }
    ensures taken { constraints.new.value ≡ None }
    ensures stays { result ≢ 0 → is_ready.new ≡ is_ready.old }
{
    match taken_constraints(alloc, constraints) {
        Some(shared) => set_shared(alloc, held, node, shared, is_ready),
        None => MISUSED,
    }
}
