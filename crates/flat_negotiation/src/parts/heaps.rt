//! The heaps of a platform.

ghost use Rattle.std.specs.Prelude.{◌≡◌, IfOk};
ghost use Rattle.flat_negotiation.specs.Heaps.{heap_name, heap_said, heaps_said};

use crate::parts::flat::FlatHeap;
use std::alloc::{AllocError, Global};
use sysmem_memory::{CoherencyDomains, Heap, HeapInfo};

/// The name of the heap of this index.
pub(crate) fn heap_name(alloc: Global, index: u64) -> Result<Heap, AllocError>
    ensures { IfOk result (λ heap. heap ≡ heap_name index) }
{
    Ok(Heap {
        heap_type: String::from_str(alloc, "heap")?,
        id: index,
    })
}

fn heap_of(alloc: Global, index: u64, heap: FlatHeap) -> Result<HeapInfo, AllocError>
    ensures { IfOk result (λ info. info ≡ heap_said index heap) }
{
    Ok(HeapInfo {
        heap: heap_name(alloc, index)?,
        contiguous: heap.contiguous,
        secure: heap.secure,
        domains: CoherencyDomains {
            cpu: heap.cpu,
            ram: heap.ram,
            inaccessible: heap.inaccessible,
        },
    })
}

/// The heaps that the structs state, named by their indices. It fails where memory is refused.
pub fn heaps_of(alloc: Global, flats: &[FlatHeap]) -> Result<Vec<HeapInfo>, AllocError>
    ensures { IfOk result (λ heaps. heaps.items ≡ heaps_said 0 flats.now) }
{
    let mut heaps = Vec::new(alloc);
    for index in 0..flats.len() {
        heaps.push(heap_of(alloc, index as u64, flats[index])?)?;
    }
    Ok(heaps)
}
