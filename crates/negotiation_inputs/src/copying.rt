//! Copies of lists, in memory of their own.

ghost use Rattle.std.specs.Prelude.{◌≡◌, IfOk};

use std::alloc::{AllocError, Global};
use sysmem_memory::{Heap, HeapInfo};

fn copied_heap(heap: &Heap) -> Result<Heap, AllocError>
    ensures { IfOk result (λ copy. copy ≡ heap.now) }
{
    Ok(Heap {
        heap_type: heap.heap_type.clone()?,
        id: heap.id,
    })
}

fn copied_info(info: &HeapInfo) -> Result<HeapInfo, AllocError>
    ensures { IfOk result (λ copy. copy ≡ info.now) }
{
    Ok(HeapInfo {
        heap: copied_heap(&info.heap)?,
        contiguous: info.contiguous,
        secure: info.secure,
        domains: info.domains,
    })
}

/// A copy of heaps, types and all.
pub(crate) fn copied_heaps(alloc: Global, heaps: &[HeapInfo]) -> Result<Vec<HeapInfo>, AllocError>
    ensures { IfOk result (λ copy. copy.items ≡ heaps.now) }
{
    let mut copy = Vec::new(alloc);
    for heap in heaps {
        copy.push(copied_info(heap)?)?;
    }
    Ok(copy)
}
