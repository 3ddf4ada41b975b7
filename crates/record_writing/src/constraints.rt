//! The record of a participant's constraints, and copies of them.

ghost use Rattle.std.specs.Prelude.{◌≡◌, Ok, IfOk, OnOk};
ghost use Rattle.serde_json.specs.View.{view};
ghost use Rattle.record_reading.specs.Reading.Constraints.{participant_of};
ghost use Rattle.negotiation_inputs.specs.Participant.{IsParticipant};
ghost use Rattle.record_laws.specs.Ranges.{IsParticipantInRange};
ghost use Rattle.record_laws.specs.Sparse.{participant_written};

use crate::counts::put_counts;
use crate::fields::Fields;
use crate::listed::values_of;
use crate::memory::memory_fields;
use crate::names::families_value;
use negotiation_inputs::Constraints;
use record_laws::laws::written_is_read;
use serde_json::Value;
use std::alloc::{AllocError, Global};
use sysmem_counts::Field;
use sysmem_sanitise::read_constraints;

fn record_of(alloc: Global, constraints: &Constraints) -> Result<Value, AllocError>
    ensures written { IfOk result (λ value. view value ≡ participant_written constraints.now) }
    ensures is { OnOk result (IsParticipant constraints.now.usage constraints.now.memory
        constraints.now.entries) }
    ensures in_range { OnOk result (IsParticipantInRange constraints.now) }
{
    let mut fields = Fields::new(alloc);
    let usage = families_value(alloc, constraints.usage())?;
    fields.put(Field::Usage, usage)?;
    put_counts(&mut fields, constraints.counts())?;
    let memory = memory_fields(alloc, constraints.memory())?;
    fields.put_fields(Field::BufferMemoryConstraints, memory)?;
    let entries = values_of(alloc, constraints.entries())?;
    fields.put_list(Field::ImageFormatConstraints, entries)?;
    Ok(fields.into_value())
}

/// The record of a participant's constraints, without the fields whose values are what an absent
/// field stands for. It fails where memory is refused.
pub fn write_constraints(alloc: Global, constraints: &Constraints) -> Result<Value, AllocError>
    ensures written { IfOk result (λ value. view value ≡ participant_written constraints.now) }
    ensures read_back { IfOk result (λ value. participant_of (view value) ≡ Ok constraints.now) }
{
    written_is_read();
    let value = record_of(alloc, constraints)?;
    Ok(value)
}

/// A copy of constraints, in memory of its own. It fails where memory is refused.
pub fn copy_constraints(alloc: Global, constraints: &Constraints) -> Result<Constraints, AllocError>
    ensures { IfOk result (λ copy. copy ≡ constraints.now) }
{
    let record = write_constraints(alloc, constraints)?;
    match read_constraints(alloc, &record) {
        Ok(copy) => Ok(copy),
        Err(_) => Err(AllocError),
    }
}
