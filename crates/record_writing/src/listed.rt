//! Lists whose items are records.

ghost use Rattle.std.specs.Prelude.{◌≡◌, map, All, IfOk, OnOk};
ghost use Rattle.serde_json.specs.Data.{Data};
ghost use Rattle.serde_json.specs.View.{view};

use serde_json::Value;
use std::alloc::{AllocError, Global};

/// An item of a list in a record.
pub(crate) trait Listed: Sized {
    /// What is written of an item.
    ghost written: { Self → Data };

    /// Its numbers are of their types.
    ghost in_range: { Self → Type 0 };

    /// The item's record.
    fn value(&self, alloc: Global) -> Result<Value, AllocError>
        ensures written { IfOk result (λ value. view value ≡ written self.now) }
        ensures in_range { OnOk result (in_range self.now) };
}

/// The records of a list's items.
pub(crate) fn values_of<T: Listed>(alloc: Global, items: &[T]) -> Result<Vec<Value>, AllocError>
    ensures written { IfOk result
        (λ values. map view values.items ≡ map T.Listed.written items.now) }
    ensures in_range { OnOk result (All T.Listed.in_range items.now) }
{
    let mut values = Vec::new(alloc);
    for item in items {
        values.push(item.value(alloc)?)?;
    }
    Ok(values)
}
