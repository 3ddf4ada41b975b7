//! The objects that names mean which stand in their place, as JSON.

use crate::record::document::Document;
use crate::record::kinds::is_heap_type;
use crate::record::names::format_of;
use crate::record::on_platform::{colours_text, heap_id};
use explanation_text::TextBuilder;
use serde_json::Value;
use std::alloc::Global;
use sysmem_counts::Field;

/// How many names of a list are looked at.
const MOST: usize = 64;

/// The object of a field's list that is meant where just a name stands: a heap, with the id that
/// the platform's has; a pair, or an entry with the colour spaces of the platform.
pub(crate) fn object_of(
    alloc: Global,
    document: &Document<'_>,
    field: Field,
    value: &Value,
) -> Option<TextBuilder> {
    let name = value.as_str()?;
    match field {
        Field::PermittedHeaps => heap_of(alloc, document, name),
        Field::Pairs | Field::PixelFormatAndModifiers => pair_of(alloc, name, None),
        Field::ImageFormatConstraints => {
            pair_of(alloc, name, Some(&colours_text(alloc, document)?))
        }
        _ => None,
    }
}

fn heap_of(alloc: Global, document: &Document<'_>, name: &str) -> Option<TextBuilder> {
    if !is_heap_type(name) {
        return None;
    }
    let mut text = TextBuilder::of(alloc, "{\"heap_type\": \"");
    text.put(name).put("\"");
    match heap_id(document, name) {
        Some(id) if id > 0 => text.put(", \"id\": ").put_number(id).put("}"),
        _ => text.put("}"),
    };
    Some(text)
}

/// A pair of the format that a name means; or an entry, which has these colour spaces.
fn pair_of(alloc: Global, name: &str, colours: Option<&TextBuilder>) -> Option<TextBuilder> {
    let mut text = TextBuilder::of(alloc, "{\"pixel_format\": \"");
    text.put(format_of(name)?).put("\"");
    if let Some(colours) = colours {
        text.put(", \"color_spaces\": ").put_words(colours);
    }
    text.put("}");
    Some(text)
}

/// The same of each item of a list, in brackets; `None` where one of them means none.
pub(crate) fn objects_of(
    alloc: Global,
    document: &Document<'_>,
    field: Field,
    list: &[Value],
) -> Option<TextBuilder> {
    if list.len() > MOST {
        return None;
    }
    let mut text = TextBuilder::new(alloc);
    for item in list {
        let mark = if text.len() == 0 { "[" } else { ", " };
        text.put(mark)
            .put_words(&object_of(alloc, document, field, item)?);
    }
    text.put("]");
    Some(text)
}
