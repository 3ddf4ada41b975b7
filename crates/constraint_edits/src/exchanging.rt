//! Constraints that contradict themselves, with a least and a greatest value exchanged.

use crate::amount::{Amount, amount_of};
use crate::edits::{EditedRecord, with_entries};
use crate::objects::{MEMORY, entries_of, have, with};
use crate::several::ChangedEntries;
use explanation_text::{Deed, Fact, ListBuilder, TextBuilder};
use serde_json::Value;
use std::alloc::{AllocError, Global};
use sysmem_counts::Field;

/// The constraints with the values of two fields exchanged wherever the first is above the second;
/// `None` where it nowhere is.
pub(crate) fn exchanged(
    alloc: Global,
    value: &Value,
    least: Field,
    most: Field,
) -> Result<Option<EditedRecord>, AllocError> {
    if let Some(change) = exchanged_in(alloc, value, least, most)? {
        return Ok(Some(change));
    }
    if let Some(memory) = value.get(MEMORY) {
        if let Some(change) = exchanged_in(alloc, memory, least, most)? {
            return Ok(Some(change.in_memory_of(alloc, value)?));
        }
    }
    if !have(value, least.name()) {
        return Ok(None);
    }
    let mut changed = ChangedEntries::none(alloc);
    let mut copy = ListBuilder::new(alloc);
    for (index, entry) in entries_of(value).iter().enumerate() {
        match exchanged_in(alloc, entry, least, most)? {
            Some(change) => {
                let (entry, said) = change.into_parts();
                changed.add(index, said)?;
                copy.add(entry);
            }
            None => copy.add(entry.clone()?),
        }
    }
    let words = changed.into_words(words_between(alloc, least, None, most, None))?;
    with_entries(alloc, value, copy.done()?, words)
}

/// The same of one object.
fn exchanged_in(
    alloc: Global,
    object: &Value,
    least: Field,
    most: Field,
) -> Result<Option<EditedRecord>, AllocError> {
    let found = (object.get(least.name()), object.get(most.name()));
    let (Some(low), Some(high)) = found else {
        return Ok(None);
    };
    let (Some(a), Some(b)) = (amount_of(low), amount_of(high)) else {
        return Ok(None);
    };
    if !a.is_above(b) {
        return Ok(None);
    }
    let lowered = with(alloc, Some(object), least.name(), high.clone()?)?;
    let words = words_between(alloc, least, Some(a), most, Some(b));
    Ok(Some(EditedRecord {
        value: with(alloc, Some(&lowered), most.name(), low.clone()?)?,
        words: words.into_text()?,
    }))
}

/// `min_size 640x480 and max_size 320x240 exchanged`, or without values `min_size and max_size
/// exchanged`.
fn words_between(
    alloc: Global,
    least: Field,
    low: Option<Amount>,
    most: Field,
    high: Option<Amount>,
) -> TextBuilder {
    let mut words = TextBuilder::new(alloc);
    words.field(least);
    put_behind(&mut words, low);
    words.put(" and ").field(most);
    put_behind(&mut words, high);
    words.put(" exchanged");
    words.tell(Fact::Change(Deed::Exchange(least, most)));
    words
}

/// Puts a value behind a field, if there is one.
fn put_behind(text: &mut TextBuilder, amount: Option<Amount>) {
    if let Some(amount) = amount {
        text.put(" ").put_number(amount);
    }
}

/// Whether the first field is somewhere above the second.
pub(crate) fn exchanges(value: &Value, least: &str, most: &str) -> bool {
    let in_memory = match value.get(MEMORY) {
        Some(memory) => is_above(memory, least, most),
        None => false,
    };
    if in_memory || is_above(value, least, most) {
        return true;
    }
    for entry in entries_of(value) {
        if is_above(entry, least, most) {
            return true;
        }
    }
    false
}

/// Whether in one object the first field is above the second.
fn is_above(object: &Value, least: &str, most: &str) -> bool {
    let (Some(low), Some(high)) = (object.get(least), object.get(most)) else {
        return false;
    };
    match (amount_of(low), amount_of(high)) {
        (Some(a), Some(b)) => a.is_above(b),
        _ => false,
    }
}
