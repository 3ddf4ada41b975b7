//! Platforms and constraints as records, which are read before there is a lock.

ghost use Rattle.std.specs.Prelude.{◌≡◌, IfOk, IfErr};
ghost use Rattle.live_calls.specs.Reading.{ReadsConstraints, ReadsPlatform, Spells};
ghost use Rattle.live_calls.specs.Unread.{IsRead, IsUnread, TellsUnread};
ghost use Rattle.record_reading.specs.Reading.{participant_of, platform_of};
ghost use Rattle.serde_json.specs.View.{view};

use crate::making::put_shared;
use crate::opening::put_new;
use crate::statuses::{NO_MEMORY, REFUSED, code_number};
use live_book::Object;
use live_held::Held;
use negotiation_inputs::{Constraints, Platform};
use record_reading::{Code, Fault, read_platform};
use serde_json::Value;
use std::alloc::Global;
use sysmem_sanitise::read_constraints;

/// Why a record states nothing.
#[derive(Clone, Copy, Debug, Drop)]
pub(crate) enum Unread {
    NoMemory,
    NoJson,
    Faulty(Fault),
}

/// The value that bytes spell.
fn value_of(alloc: Global, bytes: &[u8]) -> Result<Value, Unread>
    ensures spelled { IfOk result (λ value. Spells bytes.now (view value)) }
    ensures platform { IfErr result (IsUnread platform_of bytes.now) }
    ensures constraints { IfErr result (IsUnread participant_of bytes.now) }
{
    match Value::from_slice(alloc, bytes) {
        Ok(value) => Ok(value),
        Err(error) => {
            if error.is_memory() {
                Err(Unread::NoMemory)
            } else {
                Err(Unread::NoJson)
            }
        }
    }
}

/// The platform that a record states.
fn platform_in(alloc: Global, bytes: &[u8]) -> Result<Platform, Unread>
    ensures read { IfOk result (IsRead platform_of bytes.now) }
    ensures unread { IfErr result (IsUnread platform_of bytes.now) }
{
    let value = match value_of(alloc, bytes) {
        Ok(value) => value,
        Err(unread) => return Err(unread),
    };
    match read_platform(alloc, &value) {
        Ok(platform) => Ok(platform),
        Err(fault) => match fault.code {
            Code::WantOfMemory => Err(Unread::NoMemory),
            _ => Err(Unread::Faulty(fault)),
        },
    }
}

/// The constraints that a record states.
fn constraints_in(alloc: Global, bytes: &[u8]) -> Result<Constraints, Unread>
    ensures read { IfOk result (IsRead participant_of bytes.now) }
    ensures unread { IfErr result (IsUnread participant_of bytes.now) }
{
    let value = match value_of(alloc, bytes) {
        Ok(value) => value,
        Err(unread) => return Err(unread),
    };
    match read_constraints(alloc, &value) {
        Ok(constraints) => Ok(constraints),
        Err(fault) => match fault.code {
            Code::WantOfMemory => Err(Unread::NoMemory),
            _ => Err(Unread::Faulty(fault)),
        },
    }
}

/// Tells why a record states nothing.
fn tell_unread(unread: Unread, code: &mut u32) -> u32
    ensures { TellsUnread unread code.old code.new result }
{
    match unread {
        Unread::NoMemory => NO_MEMORY,
        Unread::NoJson => {
            *code = 0;
            REFUSED
        }
        Unread::Faulty(fault) => {
            *code = code_number(fault.code);
            REFUSED
        }
    }
}

/// Puts the platform that a record states as JSON into a handle.
pub fn read_platform_into(alloc: Global, bytes: &[u8], held: &mut Held, code: &mut u32) -> u32
    ensures { ReadsPlatform bytes.now held.old.value held.new.value code.old code.new result }
{
    match platform_in(alloc, bytes) {
        Ok(platform) => put_new(alloc, Object::Platform(platform), held),
        Err(unread) => tell_unread(unread, code),
    }
}

/// Puts the constraints that a record states as JSON into a handle.
pub fn read_constraints_into(alloc: Global, bytes: &[u8], held: &mut Held, code: &mut u32) -> u32
    ensures { ReadsConstraints bytes.now held.old.value held.new.value code.old code.new result }
{
    match constraints_in(alloc, bytes) {
        Ok(constraints) => put_shared(alloc, constraints, held),
        Err(unread) => tell_unread(unread, code),
    }
}
