//! Reads a participant's record.

ghost use Rattle.std.specs.Prelude.{◌≡◌, ◌≢◌, Ok, Err, IfOk, IfErr};
ghost use Rattle.serde_json.specs.View.{view};
ghost use Rattle.record_reading.specs.declared.fault.Code.TheVariants.{WantOfMemory};
ghost use Rattle.record_reading.specs.declared.fault.FaultPlace.TheVariants.{Whole};
ghost use Rattle.record_reading.specs.Faults.{lack_of};
ghost use Rattle.record_reading.specs.Reading.Constraints.{constraints_fields, counts_of, participant_of, participant_with};
ghost use Rattle.record_reading.specs.Reading.Fields.{Reads, object_of, seen_by};

use negotiation_inputs::Constraints;
use record_reading::{
    Code, Fault, FaultPlace, count_or, entries_in, expect_object, memory_in, stated, usage_of,
};
use serde_json::Value;
use std::alloc::Global;
use sysmem_counts::{CountConstraints, Field};

/// The fields of a participant's constraints.
pub const CONSTRAINTS_FIELDS: [Field; 8] = [
    Field::Usage,
    Field::MinBufferCountForCamping,
    Field::MinBufferCountForDedicatedSlack,
    Field::MinBufferCountForSharedSlack,
    Field::MinBufferCount,
    Field::MaxBufferCount,
    Field::BufferMemoryConstraints,
    Field::ImageFormatConstraints,
];

fn counts_of(object: &Value) -> Result<CountConstraints, Fault>
    ensures { result ≡ counts_of (view object.now) }
{
    Ok(CountConstraints {
        min_buffer_count_for_camping: count_or(object, Field::MinBufferCountForCamping, 0)?,
        min_buffer_count_for_dedicated_slack: count_or(
            object,
            Field::MinBufferCountForDedicatedSlack,
            0,
        )?,
        min_buffer_count_for_shared_slack: count_or(
            object,
            Field::MinBufferCountForSharedSlack,
            0,
        )?,
        min_buffer_count: count_or(object, Field::MinBufferCount, 0)?,
        max_buffer_count: count_or(object, Field::MaxBufferCount, u32::MAX)?,
    })
}

fn expect_participant(object: &Value) -> Result<(), Fault>
    ensures { seen_by (λ _. view object.now) result
        ≡ object_of Whole constraints_fields (view object.now) }
{
    expect_object(object, FaultPlace::Whole, &CONSTRAINTS_FIELDS)
}

fn participant_of(alloc: Global, object: &Value) -> Result<Constraints, Fault>
    ensures { Reads (λ lack. participant_with lack (view object.now)) result }
{
    expect_participant(object)?;
    let usage = usage_of(stated(object, Code::BadUsage, Field::Usage)?)?;
    let counts = counts_of(object)?;
    let memory = memory_in(alloc, object)?;
    let entries = entries_in(alloc, object)?;
    Ok(Constraints::new(usage, counts, memory, entries))
}

/// Reads a participant's record: its usage, the five counts, its memory constraints and its image
/// entries. One with further pairs stands for several entries. At most 64 permitted heaps and 64
/// entries are read.
///
/// Refuses with the record's first fault in the order of its fields. Memory that a field takes and
/// is refused is a fault of this field, where it takes it.
pub fn read_constraints(alloc: Global, value: &Value) -> Result<Constraints, Fault>
    ensures taken { IfOk result (λ constraints. participant_of (view value.now) ≡ Ok constraints) }
    ensures refused { IfErr result
        (λ fault. fault.code ≢ WantOfMemory → participant_of (view value.now) ≡ Err fault) }
    ensures wanting { IfErr result (λ fault. fault.code ≡ WantOfMemory
        → participant_with (lack_of fault) (view value.now) ≡ Err fault) }
{
    participant_of(alloc, value)
}
