//! Heaps, by their names, and what a platform says of each.

ghost use Rattle.std.proofs.Common.{rules};
ghost use Rattle.std.specs.Cmp.Rules.{comparing};
ghost use Rattle.sysmem_memory.specs.Heap.{same_heap};

use crate::domain::CoherencyDomains;
use std::marker::Model;

/// A heap's name: its type, 1 to 128 ASCII letters, digits, `.`, `_` or `-`, and its id.
#[derive(Debug, Drop)]
pub struct Heap {
    pub heap_type: String,
    pub id: u64,
}

impl Model for Heap {
    ghost use Rattle.std.specs.String.{string_bytes};
    ghost use Rattle.sysmem_memory.specs.Heap.{HeapName};

    ghost Value = { HeapName };

    ghost view = { λ h. record { heap_type = string_bytes h.heap_type; id = h.id } };
}

impl PartialEq for Heap {
    ghost eq = { same_heap };

    ghost laws = { Prim.search (comparing, rules) };

    fn eq(&self, other: &Heap) -> bool {
        self.id == other.id && self.heap_type == other.heap_type
    }
}

/// A heap of a platform.
#[derive(Debug)]
pub struct HeapInfo {
    pub heap: Heap,
    pub contiguous: bool,
    pub secure: bool,
    pub domains: CoherencyDomains,
}

impl Drop for HeapInfo {
    fn drop(self) {
        let HeapInfo {
            heap: _,
            contiguous: _,
            secure: _,
            domains: _,
        } = self;
    }
}

impl Model for HeapInfo {
    ghost use Rattle.sysmem_memory.specs.Heap.{HeapFacts};

    ghost Value = { HeapFacts };

    ghost view = { λ h. record {
      heap = h.heap;
      contiguous = h.contiguous;
      secure = h.secure;
      domains = h.domains;
    } };
}
