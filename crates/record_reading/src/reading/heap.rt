//! Reads the name of a heap, and a list of permitted heaps.

ghost use Rattle.std.specs.Prelude.{string_bytes};
ghost use Rattle.serde_json.specs.View.{view};
ghost use Rattle.record_reading.specs.Reading.Fields.{seen_by, Reads};
ghost use Rattle.record_reading.specs.Reading.Heaps.{heap_type_of, heap_name_of, permitted_heap, with_permitted, permitted_of};

use super::field::{add, expect_object, list_of, number_or, stated, text_of};
use super::list::{Listed, list_in};
use crate::fault::{Code, Fault, FaultPlace};
use negotiation_inputs::{has_permitted, is_heap_type};
use serde_json::Value;
use std::alloc::Global;
use sysmem_counts::Field;
use sysmem_memory::{Heap, MOST_HEAPS};

fn heap_type_of(alloc: Global, value: &Value) -> Result<String, Fault>
    ensures { Reads (λ lack. heap_type_of lack (view value.now))
        (seen_by (λ text. string_bytes text) result) }
{
    let text = text_of(value, Field::HeapType)?;
    if !is_heap_type(text) {
        return Err(Fault::of(Code::WrongKind, Field::HeapType));
    }
    match String::from_str(alloc, text) {
        Ok(heap_type) => Ok(heap_type),
        Err(_) => Err(Fault::of(Code::WantOfMemory, Field::HeapType)),
    }
}

/// The type and the id of a heap.
pub(super) fn heap_name_of(alloc: Global, object: &Value) -> Result<Heap, Fault>
    ensures { Reads (λ lack. heap_name_of lack (view object.now)) result }
{
    let heap_type = heap_type_of(alloc, stated(object, Code::WrongKind, Field::HeapType)?)?;
    let id = number_or(object, Field::Id, 0, u64::MAX)?;
    Ok(Heap { heap_type, id })
}

/// The fields of a permitted heap.
pub const HEAP_NAME_FIELDS: [Field; 2] = [Field::HeapType, Field::Id];

fn permitted_heap(alloc: Global, object: &Value) -> Result<Heap, Fault>
    ensures { Reads (λ lack. permitted_heap lack (view object.now)) result }
{
    expect_object(
        object,
        FaultPlace::At(Field::PermittedHeaps),
        &HEAP_NAME_FIELDS,
    )?;
    heap_name_of(alloc, object)
}

impl Listed for Heap {
    ghost added = { with_permitted };

    fn add(alloc: Global, heaps: &mut Vec<Heap>, value: &Value) -> Result<(), Fault> {
        let heap = permitted_heap(alloc, value)?;
        if MOST_HEAPS <= heaps.len() {
            return Err(Fault::of(Code::TooMany, Field::PermittedHeaps));
        }
        if has_permitted(heaps, &heap) {
            return Err(Fault::of(Code::RepeatedHeap, Field::PermittedHeaps));
        }
        add(heaps, heap, Field::PermittedHeaps)
    }
}

/// A list of at most 64 heaps, no two of one type and id.
pub(super) fn permitted_of(alloc: Global, value: &Value) -> Result<Vec<Heap>, Fault>
    ensures { Reads (λ lack. permitted_of lack (view value.now))
        (seen_by (λ heaps. heaps.items) result) }
{
    list_in(alloc, list_of(value, Field::PermittedHeaps)?)
}
