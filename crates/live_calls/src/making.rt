//! Platforms and constraints, which are made before there is a lock.

ghost use Rattle.std.specs.Prelude.{◌≡◌, ◌⊎◌, Some};
ghost use Rattle.flat_negotiation.specs.declared.unsettled.Unsettled.TheVariants as unsettled;
ghost use Rattle.live_calls.specs.Behind.{constraints_in};
ghost use Rattle.live_calls.specs.Making.{PutsConstraints, PutsPlatform, TellsUnsaid};

use crate::opening::put_new;
use crate::statuses::{NO_MEMORY, REFUSED};
use flat_negotiation::{
    FlatParticipant, FlatPlatform, FlatRefusal, Unsaid, Unsettled, participant_of, platform_of,
    refusal_of,
};
use live_book::Object;
use live_held::Held;
use negotiation_inputs::Constraints;
use std::alloc::Global;
use std::sync::Arc;

/// Puts the platform that structs state into a handle.
pub fn put_platform(
    alloc: Global,
    flat: &FlatPlatform<'_>,
    held: &mut Held,
    why: &mut FlatRefusal,
) -> u32
    ensures { PutsPlatform flat.now held.old.value held.new.value why.old why.new result }
{
    match platform_of(alloc, flat) {
        Ok(platform) => put_new(alloc, Object::Platform(platform), held),
        Err(unsaid) => tell_platform(unsaid, why),
    }
}

/// Puts the constraints that a struct states into a handle.
pub fn put_constraints(
    alloc: Global,
    flat: &FlatParticipant<'_>,
    held: &mut Held,
    why: &mut FlatRefusal,
) -> u32
    ensures { PutsConstraints flat.now held.old.value held.new.value why.old why.new result }
{
    match participant_of(alloc, flat) {
        Ok(constraints) => put_shared(alloc, constraints, held),
        Err(unsaid) => tell_participant(unsaid, why),
    }
}

/// Tells why structs state no platform.
fn tell_platform(unsaid: Unsaid, why: &mut FlatRefusal) -> u32
    ensures { TellsUnsaid unsettled.Platform unsaid why.old why.new result }
{
    match unsaid {
        Unsaid::NoMemory => NO_MEMORY,
        Unsaid::Misstated(amiss) => {
            let unsettled = Unsettled::Platform(amiss);
            *why = refusal_of(why.struct_size, &unsettled);
            REFUSED
        }
    }
}

/// Tells why a struct states no constraints.
fn tell_participant(unsaid: Unsaid, why: &mut FlatRefusal) -> u32
    ensures { TellsUnsaid (unsettled.Participant 0) unsaid why.old why.new result }
{
    match unsaid {
        Unsaid::NoMemory => NO_MEMORY,
        Unsaid::Misstated(amiss) => {
            let unsettled = Unsettled::Participant(0, amiss);
            *why = refusal_of(why.struct_size, &unsettled);
            REFUSED
        }
    }
}

/// Puts constraints into a handle.
pub(crate) fn put_shared(alloc: Global, constraints: Constraints, held: &mut Held) -> u32
    ensures { ((result ≡ 0) × (constraints_in held.new.value ≡ Some constraints))
        ⊎ ((result ≡ 4) × (held.new.value ≡ held.old.value)) }
{
    match Arc::new(alloc, constraints) {
        Ok(shared) => put_new(alloc, Object::Constraints(shared), held),
        Err(_) => NO_MEMORY,
    }
}
