//! Constraints whose entries all state one amount of a bound.

use crate::amount::{Amount, amount_of, asked_bound};
use crate::applying::absent_amount;
use crate::edits::{EditedRecord, with_entries};
use crate::objects::{entries_of, members_in, put_values, with};
use explanation_text::{Deed, Fact, ListBuilder, Said, TextBuilder};
use serde_json::Value;
use std::alloc::{AllocError, Global};
use sysmem_counts::Field;

/// Whether an entry doesn't state this amount of a bound, and none asks for more by it.
pub(crate) fn can_state(value: &Value, field: Field, amount: Amount) -> bool {
    let mut is_other = false;
    for entry in entries_of(value) {
        if asked_bound(entry, field, Some(amount)).is_some() {
            return false;
        }
        is_other |= entry.get(field.name()).and_then(amount_of) != Some(amount);
    }
    is_other
}

/// The constraints with this amount of a bound in each entry; `None` where it is so already, or one
/// asks for more.
pub(crate) fn stating(
    alloc: Global,
    value: &Value,
    field: Field,
    amount: Amount,
) -> Result<Option<EditedRecord>, AllocError> {
    if !can_state(value, field, amount) {
        return Ok(None);
    }
    let mut copy = ListBuilder::new(alloc);
    for entry in entries_of(value) {
        let member = amount.value(alloc)?;
        copy.add(with(alloc, Some(entry), field.name(), member)?);
    }
    let mut words = TextBuilder::new(alloc);
    words.field(field).put(" ");
    let was = put_stated(&mut words, value, field, amount)?;
    words.put(" becomes ").put_number(amount);
    words.tell(Fact::Change(Deed::Set {
        field,
        was,
        value: amount.said(),
    }));
    with_entries(alloc, value, copy.done()?, words.into_text()?)
}

/// Puts what the entries state of a bound after a text, which is to have this amount: `8x8`, `8x8 or
/// absent`, `(absent, so 1x1)`; gives what is said so, if one states it.
fn put_stated(
    text: &mut TextBuilder,
    value: &Value,
    field: Field,
    amount: Amount,
) -> Result<Option<Said>, AllocError> {
    let entries = entries_of(value);
    let stated = members_in(text.alloc(), entries, field.name())?;
    if stated.is_empty() {
        put_absent(text, absent_amount(field, amount));
        return Ok(None);
    }
    let start = text.len();
    let said = put_values(text, &stated)?;
    if stated.len() == entries.len() {
        return Ok(Some(said));
    }
    text.put(" or absent");
    Ok(Some(text.since(start)))
}

fn put_absent(text: &mut TextBuilder, absent: Option<Amount>) {
    match absent {
        Some(amount) => text.put("(absent, so ").put_number(amount).put(")"),
        None => text.put("(absent)"),
    };
}
