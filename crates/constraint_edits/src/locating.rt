//! Which of a participant's entries, or of the heaps that it permits, an edit of its record is of.

ghost use Rattle.std.specs.Prelude.{◌≡◌, None, IfOk};

use crate::change::Change;
use crate::edits::Edit;
use crate::objects::entries_of;
use crate::permitting::place_meant;
use crate::taking::first_naming;
use serde_json::Value;
use std::alloc::{AllocError, Global};
use sysmem_counts::Field;
use sysmem_memory::HeapInfo;

/// The change that an edit is of what a record states, on a platform with these heaps.
pub(crate) fn change_of(
    alloc: Global,
    value: &Value,
    edit: Edit,
    heaps: &[HeapInfo],
) -> Result<Change, AllocError>
    ensures edit { IfOk result (λ change. change.edit ≡ edit) }
    ensures amount { IfOk result (λ change. change.amount ≡ None) }
{
    let entries = entries_of(value);
    let (start, end) = match edit {
        Edit::MeansHeap(index) => (place_meant(alloc, value, heaps, index)?, 0),
        Edit::TakesPair(pair) => {
            let index = first_naming(entries, pair.format.name());
            (pairs_before(entries, index), 0)
        }
        Edit::EntryFirst(index) | Edit::TakesColourIn(_, index) => (
            pairs_before(entries, index),
            pairs_before(entries, index.saturating_add(1)),
        ),
        _ => (0, 0),
    };
    Ok(Change {
        edit,
        amount: None,
        start,
        end,
    })
}

/// How many pairs the entries before the one of an index name. Each is an entry of what the
/// participant asks.
fn pairs_before(entries: &[Value], index: usize) -> usize {
    let mut pairs = 0usize;
    for entry in entries.get(..index).unwrap_or(entries) {
        pairs = pairs.saturating_add(pairs_of(entry));
    }
    pairs
}

/// How many pairs an entry names: its own, if it has one, and further ones.
fn pairs_of(entry: &Value) -> usize {
    let own = usize::from(entry.get(Field::PixelFormat.name()).is_some());
    let further = entry
        .get(Field::PixelFormatAndModifiers.name())
        .and_then(Value::as_array);
    match further {
        Some(list) => own.saturating_add(list.len()),
        None => own,
    }
}
