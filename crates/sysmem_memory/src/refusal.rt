//! Which field of a participant refuses a place.

ghost use Rattle.std.specs.Prelude.{◌≡◌, ◌&&◌, ◌||◌, true, false, IfSome, IfNone};
ghost use Rattle.std.specs.List.{find};
ghost use Rattle.sysmem_counts.specs.declared.field.Field.{Field as Named};
ghost use Rattle.sysmem_counts.specs.Usage.{uses_cpu};
ghost use Rattle.sysmem_memory.specs.declared.domain.CoherencyDomain.{CoherencyDomain as Domain};
ghost use Rattle.sysmem_counts.specs.declared.usage.Usage.{Usage as Used};
ghost use Rattle.sysmem_memory.specs.PlaceTable.{refuses_by, first_refusing, heap_fields, domain_fields, permits, is_inaccessible};

use crate::constraints::MemoryConstraints;
use crate::domain::CoherencyDomain;
use crate::heap::{Heap, HeapInfo};
use sysmem_counts::{Field, Usage};

/// The fields that can refuse a place, in the order in which `refuses` asks them.
pub const PLACE_FIELDS: [Field; 7] = [
    Field::PermittedHeaps,
    Field::PhysicallyContiguousRequired,
    Field::SecureRequired,
    Field::CpuDomainSupported,
    Field::RamDomainSupported,
    Field::InaccessibleDomainSupported,
    Field::Usage,
];

/// The first field that refuses a participant of these constraints and this usage the coherency
/// domain of the heap: permitted_heaps, physically_contiguous_required, secure_required, the
/// domain's own field or usage, in this order. `None` where the participant accepts it.
pub fn refuses(
    memory: &MemoryConstraints,
    usage: Usage,
    heap: &HeapInfo,
    domain: CoherencyDomain,
) -> Option<Field>
    ensures first { result ≡ first_refusing memory.now usage heap.now domain }
    ensures refused { IfSome result (λ f. refuses_by f memory.now usage heap.now domain ≡ true) }
    ensures allowed { IfNone result ((f : Named)
        → refuses_by f memory.now usage heap.now domain ≡ false) }
{
    let by_heap = heap_refuses(memory, heap);
    if by_heap.is_some() {
        return by_heap;
    }
    domain_refuses(memory, usage, heap, domain)
}

/// Whether this field refuses a participant of these constraints and this usage the coherency
/// domain of the heap, be it the first that does or a later one.
pub fn refuses_in(
    field: Field,
    memory: &MemoryConstraints,
    usage: Usage,
    heap: &HeapInfo,
    domain: CoherencyDomain,
) -> bool
    ensures { result ≡ refuses_by field memory.now usage heap.now domain }
{
    match field {
        Field::PermittedHeaps => !permits(memory.permitted_heaps.as_slice(), &heap.heap),
        Field::PhysicallyContiguousRequired => {
            memory.physically_contiguous_required && !heap.contiguous
        }
        Field::SecureRequired => memory.secure_required && !heap.secure,
        Field::CpuDomainSupported => {
            domain == CoherencyDomain::Cpu && !memory.cpu_domain_supported
        }
        Field::RamDomainSupported => {
            domain == CoherencyDomain::Ram && !memory.ram_domain_supported
        }
        Field::InaccessibleDomainSupported => {
            domain == CoherencyDomain::Inaccessible && !memory.inaccessible_domain_supported
        }
        Field::Usage => is_hidden(usage, heap, domain),
        _ => false,
    }
}

/// The first field that refuses the heap, whatever its coherency domain.
pub(crate) fn heap_refuses(memory: &MemoryConstraints, heap: &HeapInfo) -> Option<Field>
    ensures { (u : Used) (d : Domain)
        → result ≡ find (λ f. refuses_by f memory.now u heap.now d) heap_fields }
{
    let permitted = permits(memory.permitted_heaps.as_slice(), &heap.heap);
    if !permitted {
        return Some(Field::PermittedHeaps);
    }
    if memory.physically_contiguous_required && !heap.contiguous {
        return Some(Field::PhysicallyContiguousRequired);
    }
    if memory.secure_required && !heap.secure {
        return Some(Field::SecureRequired);
    }
    None
}

/// The first field that refuses the coherency domain of a heap that is itself accepted.
pub(crate) fn domain_refuses(
    memory: &MemoryConstraints,
    usage: Usage,
    heap: &HeapInfo,
    domain: CoherencyDomain,
) -> Option<Field>
    ensures { result ≡ find (λ f. refuses_by f memory.now usage heap.now domain) domain_fields }
{
    let (supported, field) = match domain {
        CoherencyDomain::Cpu => (memory.cpu_domain_supported, Field::CpuDomainSupported),
        CoherencyDomain::Ram => (memory.ram_domain_supported, Field::RamDomainSupported),
        CoherencyDomain::Inaccessible => (
            memory.inaccessible_domain_supported,
            Field::InaccessibleDomainSupported,
        ),
    };
    if !supported {
        return Some(field);
    }
    if is_hidden(usage, heap, domain) {
        return Some(Field::Usage);
    }
    None
}

/// Whether a usage of the CPU is refused the coherency domain of the heap,
/// to whose memory it has no access.
fn is_hidden(usage: Usage, heap: &HeapInfo, domain: CoherencyDomain) -> bool
    ensures { result ≡ (uses_cpu usage && (is_inaccessible domain || heap.now.secure)) }
{
    usage.uses_cpu() && (domain == CoherencyDomain::Inaccessible || heap.secure)
}

/// Whether the heap is among those permitted; an empty list permits every heap.
fn permits(permitted: &[Heap], heap: &Heap) -> bool
    ensures { result ≡ permits permitted.now heap.now }
{
    permitted.is_empty() || permitted.contains(heap)
}
