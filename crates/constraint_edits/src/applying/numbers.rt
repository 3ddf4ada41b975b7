//! Counts with another number, and copies of what is asked of memory.

ghost use Rattle.std.specs.Prelude.{◌≡◌, Some, IfOk, IfSome};
ghost use Rattle.constraint_edits.specs.EditedNumbers.{count_or, counts_edited, counts_exchanged};

use crate::amount::Amount;
use std::alloc::{AllocError, Global};
use sysmem_counts::{CountConstraints, Field};
use sysmem_memory::{Heap, MemoryConstraints};

/// The count that is stated, or the absent one where none is; `None` where it is no count.
fn count_or(absent: u32, amount: Option<Amount>) -> Option<u32>
    ensures { IfSome result (λ count. count_or absent amount ≡ Some count) }
{
    match amount {
        None => Some(absent),
        Some(Amount::Number(number)) => match u32::try_from(number) {
            Ok(count) => Some(count),
            Err(_) => None,
        },
        Some(Amount::Sides(_, _)) => None,
    }
}

/// The counts after a field is left out, or has an amount; `None` where that is none of theirs.
pub(super) fn counts_edited(
    counts: &CountConstraints,
    field: Field,
    amount: Option<Amount>,
) -> Option<CountConstraints>
    ensures { IfSome result (λ made. counts_edited field amount counts.now ≡ Some made) }
{
    let mut made = *counts;
    match field {
        Field::MinBufferCountForCamping => {
            made.min_buffer_count_for_camping = count_or(0, amount)?;
        }
        Field::MinBufferCountForDedicatedSlack => {
            made.min_buffer_count_for_dedicated_slack = count_or(0, amount)?;
        }
        Field::MinBufferCountForSharedSlack => {
            made.min_buffer_count_for_shared_slack = count_or(0, amount)?;
        }
        Field::MinBufferCount => made.min_buffer_count = count_or(0, amount)?,
        Field::MaxBufferCount => made.max_buffer_count = count_or(u32::MAX, amount)?,
        _ => return None,
    }
    Some(made)
}

/// The counts with the least and the greatest number exchanged.
pub(super) fn counts_exchanged(counts: &CountConstraints) -> CountConstraints
    ensures { result ≡ counts_exchanged counts.now }
{
    CountConstraints {
        min_buffer_count: counts.max_buffer_count,
        max_buffer_count: counts.min_buffer_count,
        ..*counts
    }
}

pub(super) fn copied_heap(heap: &Heap) -> Result<Heap, AllocError>
    ensures { IfOk result (λ copy. copy ≡ heap.now) }
{
    Ok(Heap {
        heap_type: heap.heap_type.clone()?,
        id: heap.id,
    })
}

fn copied_heaps(alloc: Global, heaps: &[Heap]) -> Result<Vec<Heap>, AllocError>
    ensures { IfOk result (λ copy. copy.items ≡ heaps.now) }
{
    let mut copy = Vec::new(alloc);
    for heap in heaps {
        copy.push(copied_heap(heap)?)?;
    }
    Ok(copy)
}

/// A copy of what is asked of memory.
pub(super) fn copied_memory(
    alloc: Global,
    memory: &MemoryConstraints,
) -> Result<MemoryConstraints, AllocError>
    ensures { IfOk result (λ copy. copy ≡ memory.now) }
{
    Ok(MemoryConstraints {
        min_size_bytes: memory.min_size_bytes,
        max_size_bytes: memory.max_size_bytes,
        physically_contiguous_required: memory.physically_contiguous_required,
        secure_required: memory.secure_required,
        cpu_domain_supported: memory.cpu_domain_supported,
        ram_domain_supported: memory.ram_domain_supported,
        inaccessible_domain_supported: memory.inaccessible_domain_supported,
        permitted_heaps: copied_heaps(alloc, &memory.permitted_heaps)?,
    })
}
