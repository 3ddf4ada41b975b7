//! Reads a list of a record, item by item.

ghost use Rattle.std.specs.Prelude.{[], List};
ghost use Rattle.serde_json.specs.Data.{Data};
ghost use Rattle.serde_json.specs.View.{view, items_view};
ghost use Rattle.record_reading.specs.Reading.Fields.{seen_by, read_each, ItemReader, IsSteadyReader, Reads};

use crate::fault::Fault;
use serde_json::Value;
use std::alloc::Global;

/// An item of a list in a record.
pub(super) trait Listed: Sized + Drop {
    ghost added: { ItemReader Self };

    /// Adds the item that the value states to the items before it.
    fn add(alloc: Global, items: &mut Vec<Self>, value: &Value) -> Result<(), Fault>
        ensures { Reads (λ lack. added lack items.old.items (view value.now))
            (seen_by (λ _. items.new.items) result) };
}

/// The items of a list, each added to those before it.
pub(super) fn list_in<T: Listed>(alloc: Global, list: &[Value]) -> Result<Vec<T>, Fault>
    requires { (items : List T) (d : Data) → IsSteadyReader (λ lack. T.added lack items d) }
    ensures { Reads (λ lack. read_each (T.added lack) [] (items_view list.now))
        (seen_by (λ items. items.items) result) }
{
    let mut items = Vec::new(alloc);
    for value in list {
        T::add(alloc, &mut items, value)?;
    }
    Ok(items)
}
