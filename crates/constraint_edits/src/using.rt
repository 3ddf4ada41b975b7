//! Constraints of one whose buffers no CPU uses, or who asks for more of them.

use crate::edits::EditedRecord;
use crate::objects::{exact_value, text_value, with};
use explanation_text::{Deed, Fact, Said, TextBuilder};
use serde_json::Value;
use std::alloc::{AllocError, Global};
use sysmem_counts::Field;

const USAGE: &str = "usage";

/// The constraints without the use by a CPU; `None` where there is none. Nothing else used is the
/// usage `none`.
pub(crate) fn without_cpu(
    alloc: Global,
    value: &Value,
) -> Result<Option<EditedRecord>, AllocError> {
    let Some(usages) = value.get(USAGE).and_then(Value::as_array) else {
        return Ok(None);
    };
    let mut others = Vec::new(alloc);
    for usage in usages {
        if !is_cpu(usage) {
            others.push(usage.clone()?)?;
        }
    }
    if others.len() == usages.len() {
        return Ok(None);
    }
    let mut words = TextBuilder::new(alloc);
    if others.is_empty() {
        others.push(text_value(alloc, "none")?)?;
        put_unused(&mut words);
    } else {
        put_without_cpu(&mut words);
    }
    Ok(Some(EditedRecord {
        value: with(alloc, Some(value), USAGE, Value::Array(others))?,
        words: words.into_text()?,
    }))
}

/// Puts that nothing uses the buffers, where a CPU alone does, after a text.
fn put_unused(text: &mut TextBuilder) {
    text.put("usage ");
    let was = put_said(text, "cpu");
    text.put(" becomes ");
    let value = put_said(text, "none");
    text.tell(Fact::Change(Deed::Set {
        field: Field::Usage,
        was: Some(was),
        value,
    }))
}

/// Puts that no CPU uses the buffers after a text.
fn put_without_cpu(text: &mut TextBuilder) {
    text.put("usage without ");
    let lacking = put_said(text, "cpu");
    text.tell(Fact::Change(Deed::Remove(Field::Usage, lacking)))
}

/// Puts a word after a text; gives what is said so.
fn put_said(text: &mut TextBuilder, word: &str) -> Said {
    let start = text.len();
    text.put(word);
    text.since(start)
}

/// Whether a CPU is to use the buffers.
pub(crate) fn has_cpu(value: &Value) -> bool {
    let Some(usages) = value.get(USAGE).and_then(Value::as_array) else {
        return false;
    };
    for usage in usages {
        if is_cpu(usage) {
            return true;
        }
    }
    false
}

fn is_cpu(usage: &Value) -> bool {
    match usage.as_str() {
        Some(name) => name == "cpu",
        None => false,
    }
}

/// Whether so many buffers are asked for at least.
pub(crate) fn asks_for(value: &Value, count: u32) -> bool {
    match value
        .get(Field::MinBufferCount.name())
        .and_then(Value::as_u64)
    {
        Some(least) => least >= u64::from(count),
        None => false,
    }
}

/// The constraints with so many buffers asked for at least; `None` where as many are.
pub(crate) fn asking_for(
    alloc: Global,
    value: &Value,
    count: u32,
) -> Result<Option<EditedRecord>, AllocError> {
    if asks_for(value, count) {
        return Ok(None);
    }
    let name = Field::MinBufferCount.name();
    let mut words = TextBuilder::new(alloc);
    words.field(Field::MinBufferCount);
    let least = value.get(name).and_then(Value::as_u64);
    match least {
        Some(least) => words.put(" ").put_number(least),
        None => words.put(" (absent)"),
    };
    words.put(" becomes ").put_number(count);
    words.tell(Fact::Change(Deed::Set {
        field: Field::MinBufferCount,
        was: least.map(Said::Number),
        value: Said::Number(u64::from(count)),
    }));
    Ok(Some(EditedRecord {
        value: with(alloc, Some(value), name, exact_value(u64::from(count)))?,
        words: words.into_text()?,
    }))
}
