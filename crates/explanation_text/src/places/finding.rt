//! Where the value at a path stands.

ghost use Rattle.std.specs.Prelude.{IfOk, IfSome};
ghost use Rattle.serde_json.specs.View.{view};
ghost use Rattle.explanation_text.specs.Places.{IsPlaceOf};

use crate::places::keys::{Span, Step, is_spelled};
use crate::places::path::value_at;
use crate::places::skipping::{after_space, end_of_text, end_of_value};
use crate::places::spelling::spells;
use serde_json::Value;
use std::alloc::{AllocError, Global};

/// Where a value begins, with its key.
#[derive(Clone, Copy)]
struct Member {
    key: Span,
    start: usize,
}

/// Where the value at a path begins in a text of JSON, with its key, if the text has one. Of a key
/// that an object has twice the last counts.
fn found_at(alloc: Global, bytes: &[u8], path: &[Step<'_>]) -> Result<Option<Member>, AllocError> {
    let start = after_space(bytes, 0);
    let mut found = Member {
        key: Span { start, end: start },
        start,
    };
    for step in path {
        match member_at(alloc, bytes, found.start, *step)? {
            Some(member) => found = member,
            None => return Ok(None),
        }
    }
    Ok(Some(found))
}

/// Where the value begins to which a step leads from the value that begins at a place.
fn member_at(
    alloc: Global,
    bytes: &[u8],
    at: usize,
    step: Step<'_>,
) -> Result<Option<Member>, AllocError> {
    match step {
        Step::Key(key) => member_with(alloc, bytes, at, key),
        Step::Item(index) => Ok(item_at(bytes, at, index)),
    }
}

/// The last member of a key, of the object that begins at a place.
fn member_with(
    alloc: Global,
    bytes: &[u8],
    at: usize,
    key: &str,
) -> Result<Option<Member>, AllocError> {
    let mut found = None;
    let Some(mut next) = after_byte(bytes, at, b'{') else {
        return Ok(found);
    };
    for _member in 0..bytes.len() {
        let Some(member) = member_from(bytes, next) else {
            break;
        };
        if is_spelled(alloc, member.key.within(bytes), key)? {
            found = Some(member);
        }
        match after_comma(bytes, member.start) {
            Some(more) => next = more,
            None => break,
        }
    }
    Ok(found)
}

/// The member whose key begins at a place.
fn member_from(bytes: &[u8], at: usize) -> Option<Member> {
    if bytes.get(at) != Some(&b'"') {
        return None;
    }
    let end = end_of_text(bytes, at);
    Some(Member {
        key: Span { start: at, end },
        start: after_byte(bytes, after_space(bytes, end), b':')?,
    })
}

/// The item of an index, of the list that begins at a place. It has no key.
fn item_at(bytes: &[u8], at: usize, index: usize) -> Option<Member> {
    let mut start = after_byte(bytes, at, b'[')?;
    for _item in 0..index {
        start = after_comma(bytes, start)?;
    }
    if bytes.get(start) == Some(&b']') {
        return None;
    }
    Some(Member {
        key: Span { start: 0, end: 0 },
        start,
    })
}

/// What comes after a byte and spaces, if the byte stands at a place.
fn after_byte(bytes: &[u8], at: usize, byte: u8) -> Option<usize> {
    if bytes.get(at) != Some(&byte) {
        return None;
    }
    Some(after_space(bytes, at.saturating_add(1)))
}

/// What comes after the value that begins at a place and a comma, if one stands there.
fn after_comma(bytes: &[u8], at: usize) -> Option<usize> {
    let end = after_space(bytes, end_of_value(bytes, at));
    after_byte(bytes, end, b',')
}

/// Where the value at a path stands in a text that spells this value. `None`: there is none at the
/// path, or it isn't found.
pub fn span_of<'a>(
    alloc: Global,
    bytes: &'a [u8],
    path: &'a [Step<'a>],
    whole: &Value,
) -> Result<Option<Span>, AllocError>
    ensures { IfOk result (λ span. IfSome span (IsPlaceOf bytes.now path.now (view whole.now))) }
{
    let Some(value) = value_at(whole, path) else {
        return Ok(None);
    };
    let Some(found) = found_at(alloc, bytes, path)? else {
        return Ok(None);
    };
    let span = Span {
        start: found.start,
        end: end_of_value(bytes, found.start),
    };
    let Some(text) = bytes.get(span.start..span.end) else {
        return Ok(None);
    };
    if spells(alloc, text, value)? {
        Ok(Some(span))
    } else {
        Ok(None)
    }
}

/// Where the key of the value at a path stands in a text of JSON, its quotes among it.
pub fn key_span_of<'a>(
    alloc: Global,
    bytes: &'a [u8],
    path: &'a [Step<'a>],
) -> Result<Option<Span>, AllocError> {
    Ok(found_at(alloc, bytes, path)?.map(|found| found.key))
}
