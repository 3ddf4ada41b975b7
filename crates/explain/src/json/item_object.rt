//! The object of an item.

use crate::json::changes::put_change;
use crate::json::mentions::mentions_in;
use crate::json::object::Object;
use crate::json::places::{place_of_call, put_source};
use crate::json::scene::Scene;
use crate::json::values::{count_value, said_value};
use explanation_text::{Fact, Item, Kind, Label, ListBuilder};
use serde_json::Value;
use std::alloc::{AllocError, Global};
use sysmem_counts::Field;

/// Puts what an item says beside its text into an object.
pub(crate) fn put_item(
    object: &mut Object,
    scene: &Scene<'_, '_>,
    item: &Item,
) -> Result<(), AllocError> {
    put_form(object, item)?;
    match item.kind {
        Kind::Answer => {
            let domains = scene.domains(object.alloc())?;
            object.list("domains", domains)
        }
        Kind::Source => match &item.shown {
            Some(shown) => put_source(object, scene, shown),
            None => Ok(()),
        },
        Kind::Decision => Ok(()),
        Kind::Title => put_words(object, scene, item),
        Kind::Words => {
            put_words(object, scene, item)?;
            put_told(object, item)
        }
    }
}

/// Puts how deep an item stands, what kind it is of and its label into an object.
pub(crate) fn put_form(object: &mut Object, item: &Item) -> Result<(), AllocError> {
    object.put("depth", count_value(item.depth))?;
    object.say("kind", kind_of(item))?;
    object.say("label", item.label.word())
}

/// What kind of item it is, in a word.
fn kind_of(item: &Item) -> &'static str {
    match item.kind {
        Kind::Answer => "answer",
        Kind::Title => "title",
        Kind::Words if item.label.is_change() => "change",
        Kind::Words => "words",
        Kind::Source => "source",
        Kind::Decision => "decision",
    }
}

/// Puts what words name, and where the first call stands that they name.
fn put_words(object: &mut Object, scene: &Scene<'_, '_>, item: &Item) -> Result<(), AllocError> {
    let alloc = object.alloc();
    let mentions = mentions_in(alloc, item)?;
    mentions.put(object, scene)?;
    let Some(number) = mentions.calls.first() else {
        return Ok(());
    };
    match place_of_call(alloc, &scene.document, *number)? {
        Some(place) => object.put("place", place),
        None => Ok(()),
    }
}

/// Puts what an item tells as values into an object.
fn put_told(object: &mut Object, item: &Item) -> Result<(), AllocError> {
    let alloc = object.alloc();
    if item.label.is_change() {
        return put_change(object, item);
    }
    if item.label == Label::Lines {
        return object.list("lines", lines_in(alloc, item)?);
    }
    if item.facts.contains(&Fact::Heads) {
        return Ok(());
    }
    for fact in &item.facts {
        if let Fact::Value(said) = fact {
            let value = said_value(alloc, &item.text, *said)?;
            object.put("value", value)?;
        }
    }
    Ok(())
}

/// The lines of fields.
fn lines_in(alloc: Global, item: &Item) -> Result<Vec<Value>, AllocError> {
    let mut lines = ListBuilder::new(alloc);
    for fact in &item.facts {
        if let Fact::Stated(field, line, entry) = fact {
            lines.add(line_value(alloc, *field, *line, *entry)?);
        }
    }
    lines.done()
}

/// A field with its line and the entry that states it, if that isn't the first.
fn line_value(
    alloc: Global,
    field: Field,
    line: usize,
    entry: Option<usize>,
) -> Result<Value, AllocError> {
    let mut object = Object::new(alloc);
    if let Some(entry) = entry {
        object.put("entry", count_value(entry))?;
    }
    object.say("field", field.name())?;
    object.put("line", count_value(line))?;
    Ok(object.into_value())
}
