//! What a participant asks for beside images.

ghost use Rattle.std.specs.Prelude.{◌≡◌, ◌≤◌, IfOk};
ghost use Rattle.sysmem_counts.specs.Usage.{usage_bits};
ghost use Rattle.flat_negotiation.specs.declared.parts.stated.TheConstants.{SET_BITS};
ghost use Rattle.flat_negotiation.specs.Heaps.{permitted_said};
ghost use Rattle.flat_negotiation.specs.Wishes.{counts_said, memory_said};

use crate::parts::flat::FlatParticipant;
use crate::parts::heaps::heap_name;
use crate::parts::stated::{has_bit, large_stated, stated};
use bitflags::Flags;
use std::alloc::{AllocError, Global};
use sysmem_counts::{CountConstraints, Usage};
use sysmem_memory::{Heap, MOST_HEAPS, MemoryConstraints};

/// What the participant uses the buffers for.
pub fn usage_of(flat: &FlatParticipant<'_>) -> Usage
    ensures { usage_bits result ≡ flat.now.usage }
{
    Usage::from_bits_retain(flat.usage)
}

/// What it asks of the number of buffers.
pub fn counts_of(flat: &FlatParticipant<'_>) -> CountConstraints
    ensures { result ≡ counts_said flat.now }
{
    CountConstraints {
        min_buffer_count_for_camping: flat.camping,
        min_buffer_count_for_dedicated_slack: flat.dedicated_slack,
        min_buffer_count_for_shared_slack: flat.shared_slack,
        min_buffer_count: flat.min_count,
        max_buffer_count: stated(u32::MAX, flat.max_count),
    }
}

/// The names of the heaps, of the first `most`, whose bits are set.
fn permitted_heaps(alloc: Global, bits: u64, most: u32) -> Result<Vec<Heap>, AllocError>
    requires { most ≤ SET_BITS }
    ensures { IfOk result (λ heaps. heaps.items ≡ permitted_said most bits) }
{
    let mut heaps = Vec::new(alloc);
    for index in 0..most {
        if has_bit(bits, index) {
            heaps.push(heap_name(alloc, u64::from(index))?)?;
        }
    }
    Ok(heaps)
}

/// What it asks of a buffer's memory. It fails where memory is refused.
pub fn memory_of(alloc: Global, flat: &FlatParticipant<'_>) -> Result<MemoryConstraints, AllocError>
    ensures { IfOk result (λ memory. memory ≡ memory_said flat.now) }
{
    Ok(MemoryConstraints {
        min_size_bytes: flat.min_bytes,
        max_size_bytes: large_stated(u64::MAX, flat.max_bytes),
        physically_contiguous_required: flat.contiguous,
        secure_required: flat.secure,
        cpu_domain_supported: flat.cpu || !flat.ram && !flat.inaccessible,
        ram_domain_supported: flat.ram,
        inaccessible_domain_supported: flat.inaccessible,
        permitted_heaps: permitted_heaps(alloc, flat.heaps, MOST_HEAPS as u32)?,
    })
}
