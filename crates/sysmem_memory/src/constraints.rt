//! A participant's memory constraints.

ghost use Rattle.std.specs.Prelude.{◌≡◌};
ghost use Rattle.sysmem_memory.specs.Wishes.{permitting};

use crate::heap::Heap;
use std::marker::Model;

/// What a participant asks of a buffer's memory. Sizes are in bytes.
#[derive(Debug)]
pub struct MemoryConstraints {
    pub min_size_bytes: u64,
    pub max_size_bytes: u64,
    pub physically_contiguous_required: bool,
    pub secure_required: bool,
    pub cpu_domain_supported: bool,
    pub ram_domain_supported: bool,
    pub inaccessible_domain_supported: bool,
    /// The heaps that the buffer may lie in; an empty list permits every heap.
    pub permitted_heaps: Vec<Heap>,
}

impl Drop for MemoryConstraints {
    fn drop(self) {
        let MemoryConstraints {
            min_size_bytes: _,
            max_size_bytes: _,
            physically_contiguous_required: _,
            secure_required: _,
            cpu_domain_supported: _,
            ram_domain_supported: _,
            inaccessible_domain_supported: _,
            permitted_heaps: _,
        } = self;
    }
}

impl Model for MemoryConstraints {
    ghost use Rattle.sysmem_memory.specs.Wishes.{MemoryWishes};

    ghost Value = { MemoryWishes };

    ghost view = { λ m. record {
      min_size_bytes = m.min_size_bytes;
      max_size_bytes = m.max_size_bytes;
      physically_contiguous_required = m.physically_contiguous_required;
      secure_required = m.secure_required;
      cpu_domain_supported = m.cpu_domain_supported;
      ram_domain_supported = m.ram_domain_supported;
      inaccessible_domain_supported = m.inaccessible_domain_supported;
      permitted_heaps = m.permitted_heaps.items;
    } };
}

impl MemoryConstraints {
    /// Constraints that permit these heaps, with no heaps every heap, take the coherency
    /// domain `cpu` alone, and ask for nothing else. A participant that names no
    /// constraints has these, with no heaps.
    pub fn permitting(permitted_heaps: Vec<Heap>) -> MemoryConstraints
        ensures { result ≡ permitting permitted_heaps.items }
    {
        MemoryConstraints {
            min_size_bytes: 0,
            max_size_bytes: u64::MAX,
            physically_contiguous_required: false,
            secure_required: false,
            cpu_domain_supported: true,
            ram_domain_supported: false,
            inaccessible_domain_supported: false,
            permitted_heaps,
        }
    }
}
