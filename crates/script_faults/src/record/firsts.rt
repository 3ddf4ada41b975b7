//! Where what a list has twice stands first.

use crate::record::paths::put_longer;
use explanation_text::{Step, TextBuilder, value_at};
use record_reading::Code;
use serde_json::Value;

/// Puts where the value at a path, which its list has twice, stands first after a text, if it is
/// found.
pub(crate) fn put_first_like(
    text: &mut TextBuilder,
    script: &Value,
    path: &[Step<'_>],
    code: Code,
) -> bool {
    if code == Code::RepeatedPair {
        return put_first_pair(text, script, path);
    }
    let Some((Step::Item(index), list)) = path.split_last() else {
        return false;
    };
    let Some(first) = first_item(script, path, list, *index) else {
        return false;
    };
    put_longer(text, list, &[Step::Item(first)]);
    true
}

/// The index of the first item of a list, before an index, that is the same as the value at a path.
fn first_item(script: &Value, path: &[Step<'_>], list: &[Step<'_>], index: usize) -> Option<usize> {
    let mine = value_at(script, path)?;
    let items = value_at(script, list)?.as_array()?;
    items
        .iter()
        .take(index)
        .position(|other| is_same_name(other, mine))
}

/// Whether two names, heaps or pairs are the same one.
fn is_same_name(a: &Value, b: &Value) -> bool {
    if !a.is_object() || !b.is_object() {
        return a.as_str().is_some() && a.as_str() == b.as_str();
    }
    if a.get("heap_type").is_some() {
        return text_of(a, "heap_type", "") == text_of(b, "heap_type", "") && id_of(a) == id_of(b);
    }
    is_same_pair(a, b)
}

/// The text that an object has at a key, or another one.
pub(crate) fn text_of<'a>(value: &'a Value, key: &str, absent: &'a str) -> &'a str {
    match value.get(key) {
        Some(text) => text.as_str().unwrap_or(absent),
        None => absent,
    }
}

/// The id of a heap: where none is given 0.
pub(crate) fn id_of(heap: &Value) -> u64 {
    heap.get("id").and_then(Value::as_u64).unwrap_or(0)
}

/// Whether two objects name one pair of a format and a modifier.
fn is_same_pair(a: &Value, b: &Value) -> bool {
    let format = text_of(a, "pixel_format", "");
    let absent = if format == "DO_NOT_CARE" {
        format
    } else {
        "LINEAR"
    };
    format == text_of(b, "pixel_format", "")
        && text_of(a, "pixel_format_modifier", absent)
            == text_of(b, "pixel_format_modifier", absent)
}

/// Where in an entry a pair stands.
#[derive(Clone, Copy)]
enum KeyPlace {
    /// As its own.
    Own,
    /// Among its further pairs, at an index.
    Further(usize),
}

/// Puts where the pair at a path stands first among the pairs of a record's entries.
fn put_first_pair(text: &mut TextBuilder, script: &Value, path: &[Step<'_>]) -> bool {
    let Some(end) = path.iter().position(|step| matches!(
        *step,
        Step::Key("image_format_constraints")
    ))
    else {
        return false;
    };
    let base = path.get(..end.saturating_add(1)).unwrap_or(path);
    let Some((index, place)) = first_pair(script, path, base) else {
        return false;
    };
    let entry = Step::Item(index);
    match place {
        KeyPlace::Own => put_longer(text, base, &[entry, Step::Key("pixel_format")]),
        KeyPlace::Further(index) => {
            let pairs = Step::Key("pixel_format_and_modifiers");
            put_longer(text, base, &[entry, pairs, Step::Item(index)])
        }
    }
    true
}

/// The first entry of the list at a path that has the pair at another path, by its index, and where
/// it has it.
fn first_pair(script: &Value, path: &[Step<'_>], list: &[Step<'_>]) -> Option<(usize, KeyPlace)> {
    let mine = pair_at(script, path)?;
    let entries = value_at(script, list)?.as_array()?;
    for (index, entry) in entries.iter().enumerate() {
        if let Some(place) = place_in(entry, mine) {
            return Some((index, place));
        }
    }
    None
}

/// The entry or further pair at a path, or the one that a member at the path is of.
fn pair_at<'a>(script: &'a Value, path: &[Step<'_>]) -> Option<&'a Value> {
    match path.split_last() {
        Some((Step::Key(_), entry)) => value_at(script, entry),
        _ => value_at(script, path),
    }
}

/// Where an entry has a pair first, if it does.
fn place_in(entry: &Value, mine: &Value) -> Option<KeyPlace> {
    if entry.get("pixel_format").is_some() && is_same_pair(entry, mine) {
        return Some(KeyPlace::Own);
    }
    let pairs = entry.get("pixel_format_and_modifiers")?.as_array()?;
    let index = pairs.iter().position(|pair| is_same_pair(pair, mine))?;
    Some(KeyPlace::Further(index))
}
