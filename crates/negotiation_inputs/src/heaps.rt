//! What a heap's name says, and heaps among others.

ghost use Rattle.std.specs.Prelude.{◌≡◌};
ghost use Rattle.std.specs.List.{list_all};
ghost use Rattle.negotiation_inputs.specs.Heaps.{is_heap_byte, is_heap_type, has_domains, has_heap, has_permitted};

use sysmem_memory::{CoherencyDomains, Heap, HeapInfo};

/// How many bytes the type of a heap has at most.
pub const LONGEST_HEAP_TYPE: usize = 128;

fn is_heap_byte(byte: u8) -> bool
    ensures { result ≡ is_heap_byte byte }
{
    byte.is_ascii_alphanumeric() || byte == b'.' || byte == b'_' || byte == b'-'
}

fn has_only_heap_bytes(text: &str) -> bool
    ensures { result ≡ list_all is_heap_byte text.now }
{
    text.as_bytes().iter().all(|byte| is_heap_byte(*byte))
}

/// Whether the type of a heap may be so.
pub fn is_heap_type(text: &str) -> bool
    ensures { result ≡ is_heap_type text.now }
{
    1 <= text.len() && text.len() <= LONGEST_HEAP_TYPE && has_only_heap_bytes(text)
}

/// Whether there is some domain.
pub fn has_domains(domains: CoherencyDomains) -> bool
    ensures { result ≡ has_domains domains }
{
    domains.cpu || domains.ram || domains.inaccessible
}

/// Whether one of a platform's heaps has the same type and id.
pub fn has_heap(heaps: &[HeapInfo], new: &HeapInfo) -> bool
    ensures { result ≡ has_heap heaps.now new.now }
{
    heaps.iter().any(|heap| heap.heap == new.heap)
}

/// Whether one of the permitted heaps has the same type and id.
pub fn has_permitted(heaps: &[Heap], new: &Heap) -> bool
    ensures { result ≡ has_permitted heaps.now new.now }
{
    heaps.iter().any(|heap| *heap == *new)
}
