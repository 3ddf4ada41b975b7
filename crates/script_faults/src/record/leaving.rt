//! What of a record may be left out where it has a fault.

use crate::record::document::Document;
use explanation_text::Step;
use serde_json::Value;
use sysmem_counts::Field;

/// The path of what goes where what stands at a path of the record at `base` steps can't stay: a
/// list goes with its only item, and an object with a member that it must have. `None` where the
/// record must have it, or says with it that it takes images.
pub(crate) fn what_goes<'b, 's>(
    document: &Document<'_>,
    base: usize,
    path: &'b [Step<'s>],
) -> Option<&'b [Step<'s>]> {
    let mut len = path.len();
    for _step in path {
        if len <= base {
            return None;
        }
        let gone = path.get(..len)?;
        let (last, whole) = gone.split_last()?;
        if !is_needed(document.at(whole)?, *last) {
            return Some(gone);
        }
        len = whole.len();
    }
    None
}

/// Whether an object or a list needs this part of it.
fn is_needed(whole: &Value, part: Step<'_>) -> bool {
    match part {
        Step::Item(_) => match whole.as_array() {
            Some(items) => items.len() == 1,
            None => false,
        },
        Step::Key(key) => key == Field::ImageFormatConstraints.name() || must_have(whole, key),
    }
}

/// Whether an object that can have a key must have it, as it is else.
fn must_have(object: &Value, key: &str) -> bool {
    match Field::from_name(key) {
        Some(
            Field::Usage
            | Field::ColorSpaces
            | Field::Heaps
            | Field::Pairs
            | Field::HeapType
            | Field::Domains,
        ) => true,
        Some(Field::PixelFormat) => !has_pairs(object),
        Some(Field::PixelFormatAndModifiers) => {
            has_pairs(object) && object.get(Field::PixelFormat.name()).is_none()
        }
        Some(_) => false,
        None => key == "width" || key == "height",
    }
}

/// Whether an entry has further pairs.
fn has_pairs(entry: &Value) -> bool {
    let pairs = entry.get(Field::PixelFormatAndModifiers.name());
    match pairs.and_then(Value::as_array) {
        Some(pairs) => !pairs.is_empty(),
        None => false,
    }
}

/// Whether an object that can have these keys lacks one that it must have; but an entry may get
/// the colour spaces of the platform.
pub(crate) fn lacks_needed(object: &Value, keys: &[&str], is_platform: bool) -> bool {
    keys.iter().any(|key| object.get(*key).is_none()
        && must_have(object, *key)
        && (is_platform || *key != Field::ColorSpaces.name()))
}
