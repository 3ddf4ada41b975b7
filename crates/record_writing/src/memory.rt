//! What a participant asks of memory.

ghost use Rattle.std.specs.Prelude.{◌≡◌, IfOk, OnOk};
ghost use Rattle.serde_json.specs.Data.{no_members};
ghost use Rattle.record_laws.specs.Ranges.{AreWishes};
ghost use Rattle.record_laws.specs.Sparse.{with_fields, memory_said};
ghost use Rattle.record_writing.specs.Growing.{fields_in};

use crate::fields::Fields;
use crate::listed::values_of;
use std::alloc::{AllocError, Global};
use sysmem_counts::Field;
use sysmem_memory::MemoryConstraints;

/// The fields of the record of memory constraints: none where they ask for nothing.
pub(crate) fn memory_fields(alloc: Global, memory: &MemoryConstraints) -> Result<Fields, AllocError>
    ensures written { IfOk result
        (λ fields. fields_in fields ≡ with_fields no_members (memory_said memory.now)) }
    ensures in_range { OnOk result (AreWishes memory.now) }
{
    let mut fields = Fields::new(alloc);
    fields.put_number(Field::MinSizeBytes, memory.min_size_bytes, 0)?;
    fields.put_number(Field::MaxSizeBytes, memory.max_size_bytes, u64::MAX)?;
    let contiguous = memory.physically_contiguous_required;
    fields.put_true(Field::PhysicallyContiguousRequired, contiguous)?;
    fields.put_true(Field::SecureRequired, memory.secure_required)?;
    fields.put_false(Field::CpuDomainSupported, memory.cpu_domain_supported)?;
    fields.put_true(Field::RamDomainSupported, memory.ram_domain_supported)?;
    let inaccessible = memory.inaccessible_domain_supported;
    fields.put_true(Field::InaccessibleDomainSupported, inaccessible)?;
    let heaps = values_of(alloc, memory.permitted_heaps.as_slice())?;
    fields.put_list(Field::PermittedHeaps, heaps)?;
    Ok(fields)
}
