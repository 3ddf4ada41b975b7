//! A width and a height that are given otherwise than as an object with these keys.

use crate::record::keys::{Table, found};
use explanation_text::TextBuilder;
use serde_json::Value;
use std::alloc::Global;

/// Other people's words for the sides of a size.
const SIDES_OF_WORDS: Table = &[
    ("width", "width"),
    ("Width", "width"),
    ("w", "width"),
    ("W", "width"),
    ("x", "width"),
    ("wide", "width"),
    ("columns", "width"),
    ("horizontal", "width"),
    ("height", "height"),
    ("Height", "height"),
    ("h", "height"),
    ("H", "height"),
    ("y", "height"),
    ("high", "height"),
    ("rows", "height"),
    ("vertical", "height"),
];

/// The side of a size that others call so.
pub(crate) fn side_of(key: &str) -> Option<&'static str> {
    found(SIDES_OF_WORDS, key)
}

/// The width and the height of an object that has just these, by whatever keys.
pub(crate) fn sides_of(size: &Value) -> Option<(u64, u64)> {
    if size.as_object()?.len() != 2 {
        return None;
    }
    Some((side_in(size, "width")?, side_in(size, "height")?))
}

/// A side of a size, by whatever key.
fn side_in(size: &Value, side: &str) -> Option<u64> {
    for key in size.as_object()?.keys() {
        if side_of(key.as_str()) == Some(side) {
            return size.get(key.as_str())?.as_u64();
        }
    }
    None
}

/// Width and height, where they are written as a list of two numbers, or as `640x512`.
pub(crate) fn sides_in(value: &Value) -> Option<(u64, u64)> {
    if let Some(text) = value.as_str() {
        let (width, height) = text.split_once('x')?;
        return Some((width.parse::<u64>().ok()?, height.parse::<u64>().ok()?));
    }
    let list = value.as_array()?;
    match (list.get(0), list.get(1)) {
        (Some(width), Some(height)) if list.len() == 2 => Some((width.as_u64()?, height.as_u64()?)),
        _ => None,
    }
}

/// A size with these sides, as JSON.
pub(crate) fn size_text(alloc: Global, sides: (u64, u64)) -> TextBuilder {
    let (width, height) = sides;
    let mut text = TextBuilder::of(alloc, "{\"width\": ");
    text.put_number(width)
        .put(", \"height\": ")
        .put_number(height)
        .put("}");
    text
}
