//! Values of JSON with a member put in or left out, and their words.

use crate::amount::amount_of;
use explanation_text::wording::put_few;
use explanation_text::{Deed, Fact, ListBuilder, Said, TextBuilder};
use serde_json::{Map, Number, Value};
use std::alloc::{AllocError, Global};
use sysmem_counts::Field;

pub(crate) const MEMORY: &str = "buffer_memory_constraints";

pub(crate) const ENTRIES: &str = "image_format_constraints";

/// The members of an object without that of a key; none where there is no object.
fn members_but(
    alloc: Global,
    object: Option<&Value>,
    key: &str,
) -> Result<Map<String, Value>, AllocError> {
    let mut members = Map::new(alloc);
    let Some(Value::Object(others)) = object else {
        return Ok(members);
    };
    for (name, member) in others.iter() {
        if name.as_str() != key {
            let _before = members.insert(name.clone()?, member.clone()?)?;
        }
    }
    Ok(members)
}

/// An object with a member, in the place of one with that key.
pub(crate) fn with(
    alloc: Global,
    object: Option<&Value>,
    key: &str,
    member: Value,
) -> Result<Value, AllocError> {
    let mut members = members_but(alloc, object, key)?;
    let name = String::from_str(alloc, key)?;
    let _before = members.insert(name, member)?;
    Ok(Value::Object(members))
}

/// An object without a member.
pub(crate) fn lacking(alloc: Global, object: &Value, key: &str) -> Result<Value, AllocError> {
    Ok(Value::Object(members_but(alloc, Some(object), key)?))
}

/// A number as JSON, however great it is.
pub(crate) fn exact_value(number: u64) -> Value {
    match Number::from_u128(u128::from(number)) {
        Some(number) => Value::Number(number),
        None => Value::Null,
    }
}

pub(crate) fn text_value(alloc: Global, text: &str) -> Result<Value, AllocError> {
    Ok(Value::String(String::from_str(alloc, text)?))
}

/// The entries of constraints.
pub(crate) fn entries_of(value: &Value) -> &[Value] {
    match value.get(ENTRIES).and_then(Value::as_array) {
        Some(entries) => entries.as_slice(),
        None => &[],
    }
}

/// Whether an entry of constraints has a member.
pub(crate) fn have(value: &Value, key: &str) -> bool {
    for entry in entries_of(value) {
        if entry.get(key).is_some() {
            return true;
        }
    }
    false
}

/// Puts a value in short after a text, a size as `1920x1080`; gives what is said so.
fn put_value(text: &mut TextBuilder, value: &Value) -> Said {
    if let Some(amount) = amount_of(value) {
        text.put_number(amount);
        return amount.said();
    }
    let start = text.len();
    match value.to_string(text.alloc()) {
        Ok(written) => {
            text.put(&written);
        }
        Err(AllocError) => text.refuse(),
    }
    match value {
        Value::Bool(is_set) => Said::Flag(*is_set),
        _ => text.since(start),
    }
}

/// The values that a key has in entries.
pub(crate) fn members_in<'a>(
    alloc: Global,
    entries: &'a [Value],
    key: &str,
) -> Result<Vec<&'a Value>, AllocError> {
    let mut members = Vec::new(alloc);
    for entry in entries {
        if let Some(member) = entry.get(key) {
            members.push(member)?;
        }
    }
    Ok(members)
}

/// Puts values in short after a text, each once: `1280x720 and 4096x2160`; gives what is said so.
pub(crate) fn put_values(text: &mut TextBuilder, values: &Vec<&Value>) -> Result<Said, AllocError> {
    let mut each: Vec<&Value> = Vec::new(text.alloc());
    for value in values {
        if !each.contains(value) {
            each.push(*value)?;
        }
    }
    if let [only] = each.as_slice() {
        return Ok(put_value(text, *only));
    }
    let start = text.len();
    put_several(text, &each);
    Ok(text.since(start))
}

/// Puts values in short after a text.
fn put_several(text: &mut TextBuilder, values: &Vec<&Value>) {
    let mut names = ListBuilder::new(text.alloc());
    for value in values {
        let mut words = TextBuilder::new(text.alloc());
        let _said = put_value(&mut words, *value);
        names.add_text(words);
    }
    match names.done() {
        Ok(names) => put_few(text, &names, 3),
        Err(AllocError) => text.refuse(),
    }
}

/// `max_size 1920x1080 left out`.
pub(crate) fn words_without(alloc: Global, field: Field, value: &Value) -> TextBuilder {
    let mut words = TextBuilder::new(alloc);
    words.field(field).put(" ");
    let was = put_value(&mut words, value);
    words.put(" left out");
    words.tell(Fact::Change(Deed::LeaveOut(field, was)));
    words
}
