//! Constraints that permit a heap more, one alone, or another in the place of one that nearly has its
//! name.

use crate::edits::EditedRecord;
use crate::objects::{MEMORY, exact_value, text_value, with};
use explanation_text::wording::put_few;
use explanation_text::{Deed, Fact, ListBuilder, Said, Text, TextBuilder, nearest};
use serde_json::Value;
use std::alloc::{AllocError, Global};
use sysmem_counts::Field;
use sysmem_memory::{Heap, HeapInfo};

const HEAPS: &str = "permitted_heaps";

/// The heaps that constraints permit, where they name some and not this one.
fn others_than<'a>(value: &'a Value, heap: &Heap) -> Option<&'a [Value]> {
    let list = value.get(MEMORY)?.get(HEAPS)?.as_array()?.as_slice();
    for item in list {
        if is_heap(item, heap) {
            return None;
        }
    }
    if list.is_empty() { None } else { Some(list) }
}

fn type_in(item: &Value) -> &str {
    item.get("heap_type").and_then(Value::as_str).unwrap_or("")
}

fn id_in(item: &Value) -> u64 {
    item.get("id").and_then(Value::as_u64).unwrap_or(0)
}

fn is_heap(item: &Value, heap: &Heap) -> bool {
    id_in(item) == heap.id && type_in(item) == heap.heap_type.as_str()
}

/// Whether the heap that an item names is one of a platform's.
fn is_among(item: &Value, heaps: &[HeapInfo]) -> bool {
    let (name, id) = (type_in(item), id_in(item));
    for info in heaps {
        if info.heap.id == id && info.heap.heap_type.as_str() == name {
            return true;
        }
    }
    false
}

fn heap_value(alloc: Global, heap: &Heap) -> Result<Value, AllocError> {
    let name = text_value(alloc, &heap.heap_type)?;
    let typed = with(alloc, None, "heap_type", name)?;
    with(alloc, Some(&typed), "id", exact_value(heap.id))
}

/// Whether constraints name some heaps and not this one.
pub(crate) fn permits_more(value: &Value, info: Option<&HeapInfo>) -> bool {
    match info {
        Some(info) => others_than(value, &info.heap).is_some(),
        None => false,
    }
}

/// Whether constraints name a heap that isn't there and nearly has the name of that of an index,
/// which they don't name.
pub(crate) fn means(
    alloc: Global,
    value: &Value,
    heaps: &[HeapInfo],
    index: usize,
) -> Result<bool, AllocError> {
    let Some(info) = heaps.get(index) else {
        return Ok(false);
    };
    match others_than(value, &info.heap) {
        Some(list) => Ok(near_in(alloc, list, &info.heap, heaps)?.is_some()),
        None => Ok(false),
    }
}

/// The constraints with a heap more that they permit; `None` where they permit it.
pub(crate) fn permitting(
    alloc: Global,
    value: &Value,
    info: Option<&HeapInfo>,
) -> Result<Option<EditedRecord>, AllocError> {
    let Some(info) = info else {
        return Ok(None);
    };
    let heap = &info.heap;
    let Some(list) = others_than(value, heap) else {
        return Ok(None);
    };
    let mut copy = ListBuilder::new(alloc);
    for item in list {
        copy.add(item.clone()?);
    }
    copy.add(heap_value(alloc, heap)?);
    let mut words = TextBuilder::new(alloc);
    words.field(Field::PermittedHeaps).put(" with ");
    let added = put_heap(&mut words, &heap.heap_type, heap.id);
    words.put(" too");
    words.tell(Fact::Change(Deed::Add(Field::PermittedHeaps, added)));
    permitted(alloc, value, copy.done()?, words)
}

/// The heaps that constraints name.
fn named_by(value: &Value) -> &[Value] {
    let heaps = match value.get(MEMORY) {
        Some(memory) => memory.get(HEAPS).and_then(Value::as_array),
        None => None,
    };
    match heaps {
        Some(list) => list.as_slice(),
        None => &[],
    }
}

/// Whether constraints permit other heaps than this one, or name none.
pub(crate) fn permits_others(value: &Value, info: Option<&HeapInfo>) -> bool {
    match (named_by(value), info) {
        ([only], Some(info)) => !is_heap(only, &info.heap),
        (_, info) => info.is_some(),
    }
}

/// The constraints with one heap alone that they permit; `None` where they permit no other.
pub(crate) fn permitting_alone(
    alloc: Global,
    value: &Value,
    info: Option<&HeapInfo>,
) -> Result<Option<EditedRecord>, AllocError> {
    let Some(info) = info else {
        return Ok(None);
    };
    if !permits_others(value, Some(info)) {
        return Ok(None);
    }
    let heap = &info.heap;
    let mut words = TextBuilder::new(alloc);
    words.field(Field::PermittedHeaps).put(" ");
    let was = put_heaps(&mut words, named_by(value));
    words.put(" becomes ");
    let only = put_heap(&mut words, &heap.heap_type, heap.id);
    words.tell(Fact::Change(Deed::Set {
        field: Field::PermittedHeaps,
        was,
        value: only,
    }));
    let list = vec![in alloc; heap_value(alloc, heap)?]?;
    permitted(alloc, value, list, words)
}

/// Puts heaps after a text, `(absent)` where there are none; gives what is said of some.
fn put_heaps(text: &mut TextBuilder, heaps: &[Value]) -> Option<Said> {
    if heaps.is_empty() {
        text.put("(absent)");
        return None;
    }
    let start = text.len();
    let mut names: ListBuilder<Text> = ListBuilder::new(text.alloc());
    for item in heaps {
        let mut words = TextBuilder::new(text.alloc());
        let _said = put_heap(&mut words, type_in(item), id_in(item));
        names.add_text(words);
    }
    match names.done() {
        Ok(names) => put_few(text, &names, 3),
        Err(AllocError) => text.refuse(),
    }
    Some(text.since(start))
}

fn permitted(
    alloc: Global,
    value: &Value,
    list: Vec<Value>,
    words: TextBuilder,
) -> Result<Option<EditedRecord>, AllocError> {
    let memory = with(alloc, value.get(MEMORY), HEAPS, Value::Array(list))?;
    Ok(Some(EditedRecord {
        value: with(alloc, Some(value), MEMORY, memory)?,
        words: words.into_text()?,
    }))
}

/// The index of the first heap of a list that the platform lacks and that nearly has the name of
/// this one.
fn near_in(
    alloc: Global,
    list: &[Value],
    heap: &Heap,
    heaps: &[HeapInfo],
) -> Result<Option<usize>, AllocError> {
    let known = [heap.heap_type.as_str()];
    for (index, item) in list.iter().enumerate() {
        if !is_among(item, heaps) && nearest(alloc, type_in(item), &known)?.is_some() {
            return Ok(Some(index));
        }
    }
    Ok(None)
}

/// The place in the list of permitted heaps of the one that nearly has the name of the heap of an
/// index; 0 where none has.
pub(crate) fn place_meant(
    alloc: Global,
    value: &Value,
    heaps: &[HeapInfo],
    index: usize,
) -> Result<usize, AllocError> {
    let Some(info) = heaps.get(index) else {
        return Ok(0);
    };
    let Some(list) = others_than(value, &info.heap) else {
        return Ok(0);
    };
    Ok(near_in(alloc, list, &info.heap, heaps)?.unwrap_or(0))
}

/// The constraints with the heap of an index in the place of one that nearly has its name and isn't
/// there; `None` where none is.
pub(crate) fn meaning(
    alloc: Global,
    value: &Value,
    heaps: &[HeapInfo],
    index: usize,
) -> Result<Option<EditedRecord>, AllocError> {
    let Some(info) = heaps.get(index) else {
        return Ok(None);
    };
    let heap = &info.heap;
    let Some(list) = others_than(value, heap) else {
        return Ok(None);
    };
    let Some(place) = near_in(alloc, list, heap, heaps)? else {
        return Ok(None);
    };
    let mut copy = ListBuilder::new(alloc);
    let mut words = TextBuilder::new(alloc);
    for (index, item) in list.iter().enumerate() {
        if index == place {
            words = words_for(alloc, heap, item);
            copy.add(heap_value(alloc, heap)?);
        } else {
            copy.add(item.clone()?);
        }
    }
    permitted(alloc, value, copy.done()?, words)
}

/// `permitted_heaps with cma#0 in the place of cmma#0`.
fn words_for(alloc: Global, heap: &Heap, item: &Value) -> TextBuilder {
    let mut words = TextBuilder::new(alloc);
    words.field(Field::PermittedHeaps).put(" with ");
    let meant = put_heap(&mut words, &heap.heap_type, heap.id);
    words.put(" in the place of ");
    let was = put_heap(&mut words, type_in(item), id_in(item));
    words.tell(Fact::Change(Deed::Replace {
        field: Field::PermittedHeaps,
        was,
        item: meant,
    }));
    words
}

/// Puts a heap after a text: `cma#0`; gives what is said so.
fn put_heap(text: &mut TextBuilder, heap_type: &str, id: u64) -> Said {
    let start = text.len();
    text.put(heap_type).put("#").put_number(id);
    text.since(start)
}
