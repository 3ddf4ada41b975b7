//! Calls whose records are read once, however often the calls are made.
ghost use Rattle.std.specs.Prelude.{◌≡◌, map, Some, Ok, IfOk, IfSome};
ghost use Rattle.std.specs.Arc.{arc_value};
ghost use Rattle.std.specs.Option.{ForSome};
ghost use Rattle.script_reading.specs.Records.{record_of};
ghost use Rattle.script_reading.specs.Seen.{act_seen, call_seen};

use crate::call::{Act, Call};
use crate::stated::Stated;
use negotiation_inputs::Constraints;
use record_reading::Code;
use std::alloc::{AllocError, Global};
use std::sync::Arc;
use sysmem_sanitise::read_constraints;

/// A call, with what the record that it states is read as.
#[derive(Debug)]
pub struct ReadCall<'a> {
    call: Call<'a>,
    /// `None` where it states none, or one that has a fault.
    read: Option<Arc<Constraints>>,
    ghost is_read: { ForSome read
        (λ one. record_of (act_seen call.act) ≡ Some (Ok (arc_value one))) },
}

impl Drop for ReadCall<'_> {
    fn drop(self) {
        let ReadCall { call: _, read: _ } = self;
    }
}

impl ReadCall<'_> {
    /// The call, which shares what its record is read as.
    fn shared(&self) -> Call<'_>
        ensures { call_seen result ≡ call_seen self.now.call }
    {
        Call {
            act: self.act(),
            on: self.call.on,
            place: self.call.place,
            actor: self.call.actor,
        }
    }

    /// What the call does.
    fn act(&self) -> Act<'_>
        ensures { act_seen result ≡ act_seen self.now.call.act }
    {
        match (self.call.act, &self.read) {
            (Act::SetConstraints(Some(stated)), Some(read)) => {
                Act::SetConstraints(Some(Stated::read_as(stated.value(), read)))
            }
            (act, _) => act,
        }
    }
}

/// What the record that a call states is read as; `None` where it states none, or one that has a
/// fault.
fn record_of(alloc: Global, act: &Act<'_>) -> Result<Option<Arc<Constraints>>, AllocError>
    ensures { IfOk result (λ read. IfSome read
        (λ one. record_of (act_seen act.now) ≡ Some (Ok (arc_value one)))) }
{
    let Act::SetConstraints(Some(stated)) = *act else {
        return Ok(None);
    };
    match read_constraints(alloc, stated.value()) {
        Ok(asked) => Ok(Some(Arc::new(alloc, asked)?)),
        Err(fault) if matches!(fault.code, Code::WantOfMemory) => Err(AllocError),
        Err(_) => Ok(None),
    }
}

/// Reads the record of each call that states one. `AllocError` where memory is refused; a record's
/// fault is left to those who make its call.
pub fn read_records<'a>(alloc: Global, calls: &[Call<'a>]) -> Result<Vec<ReadCall<'a>>, AllocError>
    ensures { IfOk result (λ read.
        map (λ one. call_seen one.call) read.items ≡ map call_seen calls.now) }
{
    let mut all = Vec::new(alloc);
    for call in calls {
        let read = record_of(alloc, &call.act)?;
        all.push(ReadCall { call: *call, read })?;
    }
    Ok(all)
}

/// The same calls, each with what its record is read as: who makes them doesn't read it again.
pub fn shared_calls<'b>(
    alloc: Global,
    read: &'b [ReadCall<'_>],
) -> Result<Vec<Call<'b>>, AllocError>
    ensures { IfOk result (λ calls.
        map call_seen calls.items ≡ map (λ one. call_seen one.call) read.now) }
{
    let mut calls = Vec::new(alloc);
    for one in read {
        calls.push(one.shared())?;
    }
    Ok(calls)
}
