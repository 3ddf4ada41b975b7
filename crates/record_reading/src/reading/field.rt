//! Reads one field of a record.

ghost use Rattle.std.specs.Prelude.{◌≡◌, ◌≤◌, ◌++◌, ◌∷◌, [], IfOk};
ghost use Rattle.std.specs.List.{list_all};
ghost use Rattle.serde_json.specs.View.{view, items_view, members_view};
ghost use Rattle.sysmem_counts.specs.Bounds.{most_number};
ghost use Rattle.record_reading.specs.Reading.Fields.{keys_of, object_of, is_key_of, number_up_to, number_or, flag_or, stated, text_of, list_of, seen_by, kept, Reads};

use crate::fault::{Code, Fault, FaultPlace};
use serde_json::{Map, Value};
use sysmem_counts::Field;

#[tactic(auto, unfolding(crate::specs::Reading::Fields::is_key_of))]
fn is_key_of(key: &str, fields: &[Field]) -> bool
    ensures { result ≡ is_key_of fields.now key.now }
{
    fields.iter().any(|field| field.name() == key)
}

fn are_keys_of(members: &Map<String, Value>, fields: &[Field]) -> bool
    ensures { result
        ≡ list_all (is_key_of fields.now) (keys_of (members_view members.now.entries)) }
{
    members.keys().all(|key| is_key_of(key.as_str(), fields))
}

/// Succeeds where the value is an object with no other fields than these. `NotAnObject` or
/// `UnknownField`, at this place, where it isn't.
pub fn expect_object(value: &Value, at: FaultPlace, fields: &[Field]) -> Result<(), Fault>
    ensures { seen_by (λ _. view value.now) result ≡ object_of at fields.now (view value.now) }
{
    match value.as_object() {
        None => Err(Fault {
            code: Code::NotAnObject,
            at,
        }),
        Some(members) => {
            if are_keys_of(members, fields) {
                Ok(())
            } else {
                Err(Fault {
                    code: Code::UnknownField,
                    at,
                })
            }
        }
    }
}

/// The value of a field that the record must have; where it is missing, a fault of this code at the
/// field.
pub fn stated(object: &Value, code: Code, field: Field) -> Result<&Value, Fault>
    ensures { seen_by (λ value. view value.now) result ≡ stated code field (view object.now) }
{
    object.get(field.name()).ok_or(Fault::of(code, field))
}

/// A whole number from 0 to the greatest.
pub(super) fn number_up_to(value: &Value, field: Field, greatest: u64) -> Result<u64, Fault>
    ensures read { result ≡ number_up_to field greatest (view value.now) }
    ensures fits { IfOk result (λ number. number ≤ greatest) }
{
    match value.as_u64() {
        Some(number) if number <= greatest => Ok(number),
        _ => Err(Fault::of(Code::WrongKind, field)),
    }
}

/// A whole number from 0 to the greatest, or what a record without it has.
pub(super) fn number_or(
    object: &Value,
    field: Field,
    absent: u64,
    greatest: u64,
) -> Result<u64, Fault>
    ensures read { result ≡ number_or field absent greatest (view object.now) }
    ensures fits { absent ≤ greatest → IfOk result (λ number. number ≤ greatest) }
{
    match object.get(field.name()) {
        None => Ok(absent),
        Some(value) => number_up_to(value, field, greatest),
    }
}

/// The number of a field, 0 to 4,294,967,295; `absent` where the record lacks the field, and
/// `WrongKind` at the field where it is anything else.
pub fn count_or(object: &Value, field: Field, absent: u32) -> Result<u32, Fault>
    ensures { result ≡ number_or field absent most_number (view object.now) }
{
    let number = number_or(object, field, u64::from(absent), u64::from(u32::MAX))?;
    Ok(number as u32)
}

/// True or false.
pub(super) fn flag_or(object: &Value, field: Field, absent: bool) -> Result<bool, Fault>
    ensures { result ≡ flag_or field absent (view object.now) }
{
    match object.get(field.name()) {
        None => Ok(absent),
        Some(value) => value.as_bool().ok_or(Fault::of(Code::WrongKind, field)),
    }
}

/// Any text.
pub(super) fn text_of(value: &Value, field: Field) -> Result<&str, Fault>
    ensures { seen_by (λ text. text.now) result ≡ text_of field (view value.now) }
{
    value.as_str().ok_or(Fault::of(Code::WrongKind, field))
}

/// A list of any items.
pub(super) fn list_of(value: &Value, field: Field) -> Result<&[Value], Fault>
    ensures { seen_by (λ list. items_view list.now) result ≡ list_of field (view value.now) }
{
    match value.as_array() {
        Some(list) => Ok(list.as_slice()),
        None => Err(Fault::of(Code::WrongKind, field)),
    }
}

/// Adds an item to the list of a field.
pub(super) fn add<T: Drop>(list: &mut Vec<T>, item: T, field: Field) -> Result<(), Fault>
    ensures { Reads (λ lack. kept lack field (list.old.items ++ item ∷ []))
        (seen_by (λ _. list.new.items) result) }
{
    match list.push(item) {
        Ok(()) => Ok(()),
        Err(_) => Err(Fault::of(Code::WantOfMemory, field)),
    }
}
