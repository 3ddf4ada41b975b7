//! What is wrong with a list, and what else it has than an item.

use crate::help::listed;
use crate::record::document::Document;
use crate::record::firsts::{id_of, text_of};
use explanation_text::{Step, TextBuilder};
use record_reading::Code;
use serde_json::Value;
use std::alloc::{AllocError, Global};
use sysmem_counts::Field;
use sysmem_formats::PixelFormat;

/// What is wrong with a list, or with one of its items.
pub(crate) fn note_of_list(code: Code, is_empty: bool) -> &'static str {
    match code {
        Code::TooMany => "the 65th",
        Code::TiledMisfit => "a tiled modifier doesn't go with this format",
        _ if is_empty => "the list is empty",
        Code::BadUsage => "no other usage may stand beside \"none\"",
        _ => "given before",
    }
}

/// The formats that go with tiles, in words.
pub(crate) fn tiled_formats(alloc: Global) -> Result<TextBuilder, AllocError> {
    let mut names = Vec::new(alloc);
    for format in &PixelFormat::ALL {
        if format.pixel_bytes() == 4 {
            names.push(format.name())?;
        }
    }
    Ok(listed(alloc, "tiles go with formats of 4 bytes: ", &names, "and"))
}

/// The least id that no heap of the type of one has.
pub(crate) fn free_id(heaps: &[Value], heap: &Value) -> u64 {
    let mut id = 0u64;
    for _heap in heaps {
        if !heaps.iter().any(|other| has_id(other, heap, id)) {
            break;
        }
        id = id.saturating_add(1);
    }
    id
}

/// Whether a heap has the type of another, and this id.
fn has_id(other: &Value, heap: &Value, id: u64) -> bool {
    let key = Field::HeapType.name();
    id_of(other) == id && text_of(other, key, "") == text_of(heap, key, "")
}

/// Whether a list has the format of its item at a path as LINEAR too.
pub(crate) fn is_linear_beside(document: &Document<'_>, path: &[Step<'_>]) -> bool {
    let Some((_, list)) = path.split_last() else {
        return false;
    };
    let (Some(pair), Some(pairs)) = (document.at(path), document.at(list)) else {
        return false;
    };
    let (format, modifier) = (Field::PixelFormat.name(), Field::PixelFormatModifier.name());
    match pairs.as_array() {
        Some(pairs) => pairs.iter().any(|other| text_of(other, format, "")
            == text_of(pair, format, "")
            && text_of(other, modifier, "LINEAR") == "LINEAR"),
        None => false,
    }
}
