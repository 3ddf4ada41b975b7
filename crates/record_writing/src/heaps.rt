//! Records of heaps.

ghost use Rattle.std.specs.Prelude.{◌≡◌, OnOk};
ghost use Rattle.record_laws.specs.Ranges.{IsHeapId};
ghost use Rattle.record_laws.specs.Sparse.{with_fields, name_said, permitted_written, heap_written};
ghost use Rattle.record_writing.specs.Growing.{fields_in};

use crate::fields::Fields;
use crate::listed::Listed;
use crate::names::domains_value;
use serde_json::Value;
use std::alloc::{AllocError, Global};
use sysmem_counts::Field;
use sysmem_memory::{Heap, HeapInfo};

/// Puts what names a heap: its type, and its id where that isn't 0.
fn put_heap_name(fields: &mut Fields, heap: &Heap) -> Result<(), AllocError>
    ensures put { OnOk result
        (fields_in fields.new ≡ with_fields (fields_in fields.old) (name_said heap.now)) }
    ensures in_range { OnOk result (IsHeapId heap.now) }
{
    fields.put_text(Field::HeapType, heap.heap_type.as_str())?;
    Ok(fields.put_number(Field::Id, heap.id, 0)?)
}

/// A heap that a participant permits.
impl Listed for Heap {
    ghost written = { permitted_written };

    ghost in_range = { IsHeapId };

    fn value(&self, alloc: Global) -> Result<Value, AllocError> {
        let mut fields = Fields::new(alloc);
        put_heap_name(&mut fields, self)?;
        Ok(fields.into_value())
    }
}

/// A heap of a platform.
impl Listed for HeapInfo {
    ghost written = { heap_written };

    ghost in_range = { λ info. IsHeapId info.heap };

    fn value(&self, alloc: Global) -> Result<Value, AllocError> {
        let mut fields = Fields::new(alloc);
        put_heap_name(&mut fields, &self.heap)?;
        fields.put_true(Field::Contiguous, self.contiguous)?;
        fields.put_true(Field::Secure, self.secure)?;
        let domains = domains_value(alloc, self.domains)?;
        fields.put(Field::Domains, domains)?;
        Ok(fields.into_value())
    }
}
