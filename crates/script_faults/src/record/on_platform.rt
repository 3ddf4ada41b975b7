//! What the platform of a script has, of what may be meant in constraints.

use crate::only::Only;
use crate::record::document::Document;
use crate::record::firsts::{id_of, text_of};
use explanation_text::{Step, TextBuilder};
use serde_json::Value;
use std::alloc::{AllocError, Global};
use sysmem_counts::Field;

/// The list that the platform has at a field; an empty one where it has none.
fn list_at<'a>(document: &Document<'a>, field: Field) -> &'a [Value] {
    let path = [Step::Key("platform"), Step::Key(field.name())];
    match document.at(&path).and_then(Value::as_array) {
        Some(list) => list.as_slice(),
        None => &[],
    }
}

/// The id of the platform's first heap of a type, if it has one.
pub(crate) fn heap_id(document: &Document<'_>, heap_type: &str) -> Option<u64> {
    for heap in list_at(document, Field::Heaps) {
        if text_of(heap, Field::HeapType.name(), "") == heap_type {
            return Some(id_of(heap));
        }
    }
    None
}

/// The types of the platform's heaps.
pub(crate) fn heap_types<'a>(
    alloc: Global,
    document: &Document<'a>,
) -> Result<Vec<&'a str>, AllocError> {
    let mut types = Vec::new(alloc);
    for heap in list_at(document, Field::Heaps) {
        types.push(text_of(heap, Field::HeapType.name(), ""))?;
    }
    Ok(types)
}

/// The platform's colour spaces as JSON in one line, if it has some.
pub(crate) fn colours_text(alloc: Global, document: &Document<'_>) -> Option<TextBuilder> {
    let mut text = TextBuilder::new(alloc);
    for colour in list_at(document, Field::ColorSpaces) {
        let mark = if text.len() == 0 { "[\"" } else { ", \"" };
        text.put(mark).put(colour.as_str()?).put("\"");
    }
    if text.len() == 0 {
        return None;
    }
    text.put("]");
    Some(text)
}

/// The only modifier but `LINEAR` that the platform's pairs have, of those of a format if one is
/// given; `None` where they have several, or none.
pub(crate) fn only_tiling<'a>(document: &Document<'a>, format: Option<&str>) -> Option<&'a str> {
    let mut only = Only::Nothing;
    for pair in list_at(document, Field::Pairs) {
        let modifier = text_of(pair, Field::PixelFormatModifier.name(), "LINEAR");
        if modifier != "LINEAR" && is_of(pair, format) {
            only = only.and(modifier);
        }
    }
    only.name()
}

/// Whether a pair is of a format, if one is given.
fn is_of(pair: &Value, format: Option<&str>) -> bool {
    match format {
        Some(format) => text_of(pair, Field::PixelFormat.name(), "") == format,
        None => true,
    }
}
