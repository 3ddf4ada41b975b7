//! Reads a participant's memory constraints.

ghost use Rattle.std.specs.Prelude.{[]};
ghost use Rattle.serde_json.specs.View.{view};
ghost use Rattle.sysmem_memory.specs.Wishes.{no_wishes};
ghost use Rattle.sysmem_counts.specs.declared.field.Field.TheVariants.{BufferMemoryConstraints, PermittedHeaps};
ghost use Rattle.record_reading.specs.Reading.Constraints.{memory_of};
ghost use Rattle.record_reading.specs.Reading.Heaps.{permitted_of};
ghost use Rattle.record_reading.specs.Reading.Fields.{optional, seen_by, Reads};

use super::field::{expect_object, flag_or, number_or};
use super::heap::permitted_of;
use crate::fault::{Fault, FaultPlace};
use serde_json::Value;
use std::alloc::Global;
use sysmem_counts::Field;
use sysmem_memory::{Heap, MemoryConstraints};

fn permitted_in(alloc: Global, object: &Value) -> Result<Vec<Heap>, Fault>
    ensures { Reads (λ lack. optional PermittedHeaps [] (permitted_of lack) (view object.now))
        (seen_by (λ heaps. heaps.items) result) }
{
    match object.get(Field::PermittedHeaps.name()) {
        None => Ok(Vec::new(alloc)),
        Some(value) => permitted_of(alloc, value),
    }
}

/// The fields of memory constraints.
pub const MEMORY_FIELDS: [Field; 8] = [
    Field::MinSizeBytes,
    Field::MaxSizeBytes,
    Field::PhysicallyContiguousRequired,
    Field::SecureRequired,
    Field::CpuDomainSupported,
    Field::RamDomainSupported,
    Field::InaccessibleDomainSupported,
    Field::PermittedHeaps,
];

fn memory_of(alloc: Global, object: &Value) -> Result<MemoryConstraints, Fault>
    ensures { Reads (λ lack. memory_of lack (view object.now)) result }
{
    expect_object(
        object,
        FaultPlace::At(Field::BufferMemoryConstraints),
        &MEMORY_FIELDS,
    )?;
    Ok(MemoryConstraints {
        min_size_bytes: number_or(object, Field::MinSizeBytes, 0, u64::MAX)?,
        max_size_bytes: number_or(object, Field::MaxSizeBytes, u64::MAX, u64::MAX)?,
        physically_contiguous_required: flag_or(
            object,
            Field::PhysicallyContiguousRequired,
            false,
        )?,
        secure_required: flag_or(object, Field::SecureRequired, false)?,
        cpu_domain_supported: flag_or(object, Field::CpuDomainSupported, true)?,
        ram_domain_supported: flag_or(object, Field::RamDomainSupported, false)?,
        inaccessible_domain_supported: flag_or(object, Field::InaccessibleDomainSupported, false)?,
        permitted_heaps: permitted_in(alloc, object)?,
    })
}

/// The memory constraints of a participant's record; where it lacks the field, those of one that
/// asks for nothing: any size, the domain cpu alone, and every heap. At most 64 permitted heaps are
/// read.
///
/// Refuses with the first fault in the order of the constraints' fields. Memory that a field takes
/// and is refused is a fault of this field, where it takes it.
pub fn memory_in(alloc: Global, object: &Value) -> Result<MemoryConstraints, Fault>
    ensures { Reads (λ lack. optional BufferMemoryConstraints no_wishes (memory_of lack)
        (view object.now)) result }
{
    match object.get(Field::BufferMemoryConstraints.name()) {
        None => Ok(MemoryConstraints::permitting(Vec::new(alloc))),
        Some(value) => memory_of(alloc, value),
    }
}
