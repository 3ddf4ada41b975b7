//! Comparisons of what participants and platforms have that isn't compared by `==`.

ghost use Rattle.std.specs.Prelude.{◌≡◌};
ghost use Rattle.std.specs.Cmp.Lexicographic.{pointwise};
ghost use Rattle.negotiation_inputs.specs.Equal.{same_access, same_kind, same_wishes, same_heap_facts};

use sysmem_memory::{HeapInfo, MemoryConstraints};

fn is_same_access(a: &MemoryConstraints, b: &MemoryConstraints) -> bool
    ensures { result ≡ same_access a.now b.now }
{
    a.cpu_domain_supported == b.cpu_domain_supported
        && a.ram_domain_supported == b.ram_domain_supported
        && a.inaccessible_domain_supported == b.inaccessible_domain_supported
}

fn is_same_kind(a: &MemoryConstraints, b: &MemoryConstraints) -> bool
    ensures { result ≡ same_kind a.now b.now }
{
    a.physically_contiguous_required == b.physically_contiguous_required
        && a.secure_required == b.secure_required
}

/// Whether two participants ask the same of memory.
pub(crate) fn is_same_memory(a: &MemoryConstraints, b: &MemoryConstraints) -> bool
    ensures { result ≡ same_wishes a.now b.now }
{
    a.min_size_bytes == b.min_size_bytes
        && a.max_size_bytes == b.max_size_bytes
        && is_same_kind(a, b)
        && is_same_access(a, b)
        && a.permitted_heaps.as_slice() == b.permitted_heaps.as_slice()
}

fn is_same_heap(a: &HeapInfo, b: &HeapInfo) -> bool
    ensures { result ≡ same_heap_facts a.now b.now }
{
    a.heap == b.heap
        && a.contiguous == b.contiguous
        && a.secure == b.secure
        && a.domains == b.domains
}

/// Whether two platforms have the same heaps, in the same order.
pub(crate) fn are_same_heaps(a: &[HeapInfo], b: &[HeapInfo]) -> bool
    ensures { result ≡ pointwise same_heap_facts a.now b.now }
{
    a.len() == b.len() && a.iter().zip(b).all(|(x, y)| is_same_heap(x, y))
}
