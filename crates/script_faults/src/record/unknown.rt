//! The first key of an object that it can't have.

use crate::record::document::{Document, RecordPart};
use crate::record::keys::is_one_of;
use crate::record::paths::{Path, with};
use explanation_text::Step;
use serde_json::Value;
use std::alloc::{AllocError, Global};

/// How many unknown keys of one object are looked for in the text.
const MOST: usize = 16;

/// The path to the first member, as the text has them, of the object at a path whose key isn't one
/// of these.
pub fn first_unknown<'a>(
    alloc: Global,
    document: &Document<'a>,
    path: &[Step<'a>],
    keys: &[&str],
) -> Result<Option<Path<'a>>, AllocError> {
    match first_key(alloc, document, path, keys)? {
        Some(key) => Ok(Some(with(alloc, path, Step::Key(key))?)),
        None => Ok(None),
    }
}

/// The key of that member.
fn first_key<'a>(
    alloc: Global,
    document: &Document<'a>,
    path: &[Step<'a>],
    keys: &[&str],
) -> Result<Option<&'a str>, AllocError> {
    let Some(members) = document.at(path).and_then(Value::as_object) else {
        return Ok(None);
    };
    let mut first: Option<&'a str> = None;
    let mut least = usize::MAX;
    let mut seen = 0usize;
    for key in members.keys() {
        if is_one_of(key, keys) || seen >= MOST {
            continue;
        }
        seen = seen.saturating_add(1);
        let start = start_of(alloc, document, path, key.as_str())?;
        if start < least || first.is_none() {
            least = start;
            first = Some(key.as_str());
        }
    }
    Ok(first)
}

/// Where the key of a member of the object at a path stands; behind all others where it isn't
/// found.
fn start_of<'a>(
    alloc: Global,
    document: &Document<'a>,
    path: &[Step<'a>],
    key: &'a str,
) -> Result<usize, AllocError> {
    let longer = with(alloc, path, Step::Key(key))?;
    match document.span(alloc, &longer, RecordPart::Key)? {
        Some(span) => Ok(span.start),
        None => Ok(usize::MAX),
    }
}

/// The key of the member at a path; empty where the path ends with no key.
pub fn key_of<'a>(path: &[Step<'a>]) -> &'a str {
    match path.last() {
        Some(Step::Key(key)) => *key,
        _ => "",
    }
}
