//! What is wrong with a value, in words.

use crate::record::keys::{is_one_of, kind_at, range_of};
use crate::record::sides::sides_in;
use explanation_text::{Meant, TextBuilder};
use serde_json::{Number, Value};
use std::alloc::{AllocError, Global};
use sysmem_counts::Kind;

/// What a value is, in words.
fn kind_of(value: &Value) -> &'static str {
    match value {
        Value::Null => "null",
        Value::Bool(true) => "true",
        Value::Bool(false) => "false",
        Value::Number(_) => "a number",
        Value::String(_) => "a string",
        Value::Array(_) => "a list",
        Value::Object(_) => "an object",
    }
}

/// What is wrong with a field's value, or with an item of its list, that is written so.
pub(crate) fn wrong_value(
    alloc: Global,
    field: &str,
    value: &Value,
    written: &[u8],
    is_item: bool,
) -> TextBuilder {
    match kind_at(field) {
        Kind::Flag => wrong_kind(alloc, value, "true or false is"),
        Kind::Sides | Kind::Object => wrong_kind(alloc, value, "an object is"),
        Kind::Number | Kind::Limit => {
            let (least, most) = range_of(field);
            wrong_number(alloc, value, written, least, most)
        }
        Kind::Name => wrong_name(alloc, value),
        Kind::Names if is_item => wrong_kind(alloc, value, "a name is"),
        Kind::Objects if is_item => wrong_kind(alloc, value, "an object is"),
        Kind::Names | Kind::Objects => wrong_kind(alloc, value, "a list is"),
    }
}

/// Whether a value is of a kind, or would be with the quotes or the brackets that are due.
pub(crate) fn may_stand(kind: Kind, value: &Value) -> bool {
    match kind {
        Kind::Flag => value.as_bool().is_some() || flag_in(value).is_some(),
        Kind::Number | Kind::Limit => match value {
            Value::Number(_) => true,
            Value::String(text) => text.parse::<u64>().is_ok(),
            _ => false,
        },
        Kind::Sides => value.is_object() || sides_in(value).is_some(),
        Kind::Object => value.is_object(),
        Kind::Name => value.is_string(),
        Kind::Names => value.is_array() || value.is_string(),
        Kind::Objects => value.is_array() || value.is_object(),
    }
}

/// Texts that stand for true, and for false.
const YES: &[&str] = &["true", "True", "TRUE", "yes", "Yes", "on"];

const NO: &[&str] = &["false", "False", "FALSE", "no", "No", "off"];

/// True or false, where it is written as a text or as 1 or 0.
pub(crate) fn flag_in(value: &Value) -> Option<bool> {
    match (value.as_str(), value.as_u64()) {
        (Some(text), _) => flag_of(text),
        (_, Some(1)) => Some(true),
        (_, Some(0)) => Some(false),
        _ => None,
    }
}

fn flag_of(text: &str) -> Option<bool> {
    if is_one_of(text, YES) {
        Some(true)
    } else if is_one_of(text, NO) {
        Some(false)
    } else {
        None
    }
}

/// `a string, where a list is due`.
pub fn wrong_kind(alloc: Global, value: &Value, due: &str) -> TextBuilder {
    let mut words = TextBuilder::of(alloc, kind_of(value));
    words.put(", where ").put(due).put(" due");
    words
}

/// What is wrong with a heap's type, or with what stands for a name.
fn wrong_name(alloc: Global, value: &Value) -> TextBuilder {
    let Some(text) = value.as_str() else {
        return wrong_kind(alloc, value, "a name is");
    };
    let what = if text.is_empty() {
        "empty"
    } else if text.len() > 128 {
        "longer than 128"
    } else {
        "a wrong character"
    };
    TextBuilder::of(alloc, what)
}

/// Whether a text may be the type of a heap.
pub(crate) fn is_heap_type(text: &str) -> bool {
    !text.is_empty()
        && text.len() <= 128
        && text.as_bytes().iter().all(|byte| byte.is_ascii_alphanumeric()
            || matches!(*byte, b'.' | b'_' | b'-'))
}

/// The type of a heap that is like a text which can't be one: `_` stands for each character that it
/// can't have. `None` where that can't be one either.
pub(crate) fn heap_type_like(alloc: Global, bad: &str) -> Result<Option<Meant>, AllocError> {
    let mut name = String::new(alloc);
    for c in bad.chars() {
        let is_good = c.is_ascii_alphanumeric() || c == '.' || c == '-';
        name.push(if is_good { c } else { '_' })?;
    }
    Ok(if is_heap_type(&name) {
        Some(Meant::Word(name))
    } else {
        None
    })
}

/// What is wrong with what stands for a number.
pub(crate) fn wrong_number(
    alloc: Global,
    value: &Value,
    written: &[u8],
    least: u64,
    most: u64,
) -> TextBuilder {
    let Value::Number(number) = value else {
        return wrong_kind(alloc, value, "a number is");
    };
    if number.is_f64() {
        return TextBuilder::of(alloc, wrong_float(written));
    }
    match number.as_u64() {
        None => TextBuilder::of(alloc, "below 0"),
        Some(n) => if n < least {
            TextBuilder::of(alloc, "too small")
        } else {
            let mut words = TextBuilder::of(alloc, "above ");
            words.put_number(most);
            words
        },
    }
}

fn wrong_float(written: &[u8]) -> &'static str {
    if written
        .iter()
        .any(|b| *b == b'.' || *b == b'e' || *b == b'E')
    {
        return "written with a point or an exponent";
    }
    if written == b"-0".as_slice() {
        return "written -0";
    }
    "beyond 64 bits"
}

/// Whether a value is a whole number in a range.
pub(crate) fn is_number_within(value: &Value, least: u64, most: u64) -> bool {
    match value.as_u64() {
        Some(n) => least <= n && n <= most,
        None => false,
    }
}
