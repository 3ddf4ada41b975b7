//! Changes that would help, as objects.

use crate::json::mentions::mentions_in;
use crate::json::object::Object;
use crate::json::scene::Scene;
use crate::json::values::{count_value, said_value};
use explanation_text::{Deed, Fact, Item, Said};
use serde_json::Value;
use std::alloc::{AllocError, Global};
use sysmem_counts::Field;

/// A change as an object: its words, what they name, and what is done.
pub(crate) fn change_value(
    alloc: Global,
    scene: &Scene<'_, '_>,
    item: &Item,
) -> Result<Value, AllocError> {
    let mut object = Object::new(alloc);
    mentions_in(alloc, item)?.put(&mut object, scene)?;
    put_change(&mut object, item)?;
    object.say("text", &item.text)?;
    Ok(object.into_value())
}

/// Puts what an item says is done into an object, if it says that.
pub(crate) fn put_change(object: &mut Object, item: &Item) -> Result<(), AllocError> {
    for fact in &item.facts {
        if let Fact::Change(deed) = fact {
            put_deed(object, &item.text, *deed)?;
        }
    }
    Ok(())
}

/// Puts what is done into an object.
fn put_deed(object: &mut Object, text: &str, deed: Deed) -> Result<(), AllocError> {
    object.say("does", word_for(deed))?;
    if let Some(field) = field_of(deed) {
        object.say("field", field.name())?;
    }
    match deed {
        Deed::Set { value, was, .. } => {
            put_said(object, text, "value", value)?;
            put_was(object, text, was)
        }
        Deed::LeaveOut(_, was) => put_was(object, text, Some(was)),
        Deed::Exchange(_, other) => object.say("with", other.name()),
        Deed::Replace { was, item, .. } => {
            put_said(object, text, "value", item)?;
            put_was(object, text, Some(was))
        }
        Deed::Add(_, item) | Deed::Remove(_, item) | Deed::AddEntry(item) => {
            put_said(object, text, "value", item)
        }
        Deed::PutFirst(number) => object.put("entry", count_value(number)),
    }
}

/// What is done, in a word.
fn word_for(deed: Deed) -> &'static str {
    match deed {
        Deed::Set { .. } => "set",
        Deed::LeaveOut(_, _) => "leave_out",
        Deed::Exchange(_, _) => "exchange",
        Deed::Add(_, _) => "add",
        Deed::Replace { .. } => "replace",
        Deed::Remove(_, _) => "remove",
        Deed::AddEntry(_) => "add_entry",
        Deed::PutFirst(_) => "put_first",
    }
}

/// The field that an item says is changed, if it says that of one.
pub(crate) fn field_changed(item: &Item) -> Option<Field> {
    for fact in &item.facts {
        if let Fact::Change(deed) = fact {
            return field_of(*deed);
        }
    }
    None
}

/// The field to which it is done, if it is to one.
fn field_of(deed: Deed) -> Option<Field> {
    match deed {
        Deed::Set { field, .. }
        | Deed::LeaveOut(field, _)
        | Deed::Exchange(field, _)
        | Deed::Add(field, _)
        | Deed::Replace { field, .. }
        | Deed::Remove(field, _) => Some(field),
        Deed::AddEntry(_) => Some(Field::PixelFormat),
        Deed::PutFirst(_) => None,
    }
}

/// Puts a value that a text says into an object.
fn put_said(object: &mut Object, text: &str, key: &str, said: Said) -> Result<(), AllocError> {
    let value = said_value(object.alloc(), text, said)?;
    object.put(key, value)
}

/// Puts what a field is before into an object, null where it is absent.
fn put_was(object: &mut Object, text: &str, was: Option<Said>) -> Result<(), AllocError> {
    match was {
        Some(said) => put_said(object, text, "was", said),
        None => object.put("was", Value::Null),
    }
}
