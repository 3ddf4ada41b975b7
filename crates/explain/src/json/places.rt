//! Where in a script's text stands what is told.

use crate::json::object::Object;
use crate::json::scene::Scene;
use crate::json::values::count_value;
use explanation_text::{Shown, Step, TextBuilder, column_of, line_of};
use script_faults::{Document, RecordPart};
use serde_json::Value;
use std::alloc::{AllocError, Global};

/// How long the text may be, in bytes, in which calls are looked for: for each it is gone through.
const LONGEST: usize = 262_144;

/// Puts where a part of the script stands, what is said of it and what helps into an object.
pub(crate) fn put_source(
    object: &mut Object,
    scene: &Scene<'_, '_>,
    shown: &Shown,
) -> Result<(), AllocError> {
    let alloc = object.alloc();
    let file = scene.document.file;
    let place = place_value(alloc, file, shown.line, shown.column, &shown.path)?;
    object.put("place", place)?;
    object.say("note", &shown.note)?;
    let mut helps = Vec::new(alloc);
    for help in &shown.helps {
        helps.push(Value::try_from_str(alloc, help)?)?;
    }
    object.list("helps", helps)
}

fn place_value(
    alloc: Global,
    file: &str,
    line: usize,
    column: usize,
    path: &str,
) -> Result<Value, AllocError> {
    let mut place = Object::new(alloc);
    place.put("column", count_value(column))?;
    place.say("file", file)?;
    place.put("line", count_value(line))?;
    if !path.is_empty() {
        place.say("path", path)?;
    }
    Ok(place.into_value())
}

/// Where the call of a number stands, if the text isn't very long.
pub(crate) fn place_of_call(
    alloc: Global,
    document: &Document<'_>,
    number: usize,
) -> Result<Option<Value>, AllocError> {
    if document.bytes.len() > LONGEST {
        return Ok(None);
    }
    let index = number.saturating_sub(1);
    let steps = [Step::Key("calls"), Step::Item(index)];
    let Some(span) = document.span(alloc, &steps, RecordPart::Value)? else {
        return Ok(None);
    };
    let at = span.start.min(document.bytes.len());
    let line = line_of(document.bytes, at);
    let column = column_of(document.bytes, at);
    let mut words = TextBuilder::of(alloc, "calls[");
    words.put_number(index).put("]");
    let path = words.done()?;
    Ok(Some(place_value(alloc, document.file, line, column, &path)?))
}
