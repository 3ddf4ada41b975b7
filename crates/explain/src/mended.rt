//! The text of a script in which parts are corrected.

use explanation_text::{Correction, Meant, Moved, Span, Step};
use script_faults::Document;
use serde_json::Value;
use std::alloc::{AllocError, Global};

/// A part of a text, and what stands there instead.
#[derive(Drop)]
struct Replaced {
    span: Span,
    by: Vec<u8>,
}

/// The script with what is meant, whose lines stay where they are; `None` where two corrections are
/// of one part, or one can't be meant.
pub(crate) fn mended(
    alloc: Global,
    document: &Document<'_>,
    corrections: &[&Correction],
) -> Result<Option<Vec<u8>>, AllocError> {
    let mut parts: Vec<Replaced> = Vec::new(alloc);
    for one in corrections {
        if !may_be_meant(document, *one) {
            return Ok(None);
        }
        let before = parts.len();
        add_parts(&mut parts, document, *one)?;
        if parts.len() == before {
            return Ok(None);
        }
    }
    with_parts(alloc, document.bytes, &parts)
}

/// Whether a correction may be meant: a name is nobody else's, and a number stands alone.
fn may_be_meant(document: &Document<'_>, one: &Correction) -> bool {
    let was = one.span.within(document.bytes);
    match &one.meant {
        Meant::Node(name) => !is_no_name(unquoted(was)) || !is_made(document, name),
        Meant::Number(_) if was.starts_with(b"0x") || was.starts_with(b"0X") => {
            let before = document.bytes.get(..one.span.start).unwrap_or(&[]);
            !matches!(before.last(), Some(last) if last.is_ascii_digit())
        }
        _ => true,
    }
}

/// Whether a text has what no name has, or nothing.
fn is_no_name(bytes: &[u8]) -> bool {
    bytes.is_empty()
        || bytes.iter().any(|byte| !byte.is_ascii_alphanumeric() && *byte != b'_' && *byte != b'-')
}

/// Whether a call makes a name.
fn is_made(document: &Document<'_>, name: &str) -> bool {
    let calls = document.at(&[Step::Key("calls")]).and_then(Value::as_array);
    match calls {
        Some(calls) => calls.iter().any(|call| call.get("as").and_then(Value::as_str)
            == Some(name)),
        None => false,
    }
}

/// A text with parts replaced, which are in order; `None` where one begins before another ends.
fn with_parts(
    alloc: Global,
    bytes: &[u8],
    parts: &[Replaced],
) -> Result<Option<Vec<u8>>, AllocError> {
    let mut made = Vec::new(alloc);
    let mut from = 0usize;
    for part in parts {
        if part.span.start < from {
            return Ok(None);
        }
        made.extend_from_slice(bytes.get(from..part.span.start).unwrap_or(&[]))?;
        made.extend_from_slice(&part.by)?;
        from = part.span.end;
    }
    made.extend_from_slice(bytes.get(from..).unwrap_or(&[]))?;
    Ok(Some(made))
}

/// Adds a part to others, in the order of the text; where two begin, first the one that is empty.
fn add_part(parts: &mut Vec<Replaced>, span: Span, by: Vec<u8>) -> Result<(), AllocError> {
    let is_empty = span.start == span.end;
    let place = parts
        .iter()
        .position(|part| {
            part.span.start > span.start
                || (is_empty && part.span.start == span.start && part.span.end > span.start)
        })
        .unwrap_or(parts.len());
    parts.insert(place, Replaced { span, by })?;
    Ok(())
}

/// Adds the parts that a correction replaces.
fn add_parts(
    parts: &mut Vec<Replaced>,
    document: &Document<'_>,
    one: &Correction,
) -> Result<(), AllocError> {
    let alloc = *parts.allocator();
    let bytes = document.bytes;
    let was = one.span.within(bytes);
    match &one.meant {
        Meant::Node(_) => {
            for span in &nodes_alike(alloc, bytes, one.span)? {
                add_part(parts, *span, instead(alloc, was, &one.meant)?)?;
            }
            Ok(())
        }
        Meant::Nothing | Meant::NoCall(_) => cut(parts, bytes, with_comma(bytes, one.span)),
        Meant::Moved(moved) => {
            let gone = with_comma(bytes, one.span);
            cut(parts, bytes, gone)?;
            let member = member_of(alloc, bytes, was, moved)?;
            for place in &moved.places {
                let is_last = ends_object(bytes, *place, gone);
                let member = member_at(alloc, &member, moved, is_last)?;
                add_part(parts, before(*place), member)?;
            }
            Ok(())
        }
        Meant::Later { end, .. } => {
            cut(parts, bytes, with_comma(bytes, one.span))?;
            add_part(
                parts,
                before(*end),
                between(alloc, b", ", &flat(alloc, was)?, b"")?,
            )
        }
        _ => add_part(parts, one.span, instead(alloc, was, &one.meant)?),
    }
}

/// Adds a part that goes; its lines stay.
fn cut(parts: &mut Vec<Replaced>, bytes: &[u8], span: Span) -> Result<(), AllocError> {
    let ends = ends_of(*parts.allocator(), span.within(bytes))?;
    add_part(parts, span, ends)
}

/// The ends of the lines of a text.
fn ends_of(alloc: Global, bytes: &[u8]) -> Result<Vec<u8>, AllocError> {
    let mut ends = Vec::new(alloc);
    for byte in bytes {
        if *byte == b'\n' {
            ends.push(b'\n')?;
        }
    }
    Ok(ends)
}

/// The same text of JSON in one line.
fn flat(alloc: Global, bytes: &[u8]) -> Result<Vec<u8>, AllocError> {
    let mut line = Vec::new(alloc);
    for byte in bytes {
        line.push(if *byte == b'\n' || *byte == b'\r' {
            b' '
        } else {
            *byte
        })?;
    }
    Ok(line)
}

/// Nothing, before a byte.
fn before(at: usize) -> Span {
    Span { start: at, end: at }
}

/// Whether an object ends behind a place in it, once a part is gone.
fn ends_object(bytes: &[u8], place: usize, gone: Span) -> bool {
    let next = next_byte(bytes, place);
    let next = if next == gone.start {
        next_byte(bytes, gone.end)
    } else {
        next
    };
    bytes.get(next).copied() == Some(b'}')
}

/// The place of the first byte from one on that is no white space.
fn next_byte(bytes: &[u8], place: usize) -> usize {
    place.saturating_add(blanks_first(bytes.get(place..).unwrap_or(&[])))
}

/// A member that moves, with the key that is meant.
fn member_of(
    alloc: Global,
    bytes: &[u8],
    was: &[u8],
    moved: &Moved,
) -> Result<Vec<u8>, AllocError> {
    let Some(renamed) = &moved.renamed else {
        return Vec::from_slice(alloc, was);
    };
    let name = renamed.field.name();
    let key = format!(in alloc; "\"{name}\": ")?;
    between(alloc, key.as_bytes(), renamed.value.within(bytes), b"")
}

/// A member as it comes first behind a bracket, and last or not.
fn member_at(
    alloc: Global,
    member: &[u8],
    moved: &Moved,
    is_last: bool,
) -> Result<Vec<u8>, AllocError> {
    let mut made = Vec::new(alloc);
    if moved.is_new {
        let key = moved.into.key();
        let front = format!(in alloc; "\"{key}\": {{")?;
        made.extend_from_slice(front.as_bytes())?;
    }
    made.extend_from_slice(&flat(alloc, member)?)?;
    if moved.is_new {
        made.push(b'}')?;
    }
    if !is_last {
        made.extend_from_slice(b", ")?;
    }
    Ok(made)
}

/// What stands in the place of a part for what is meant, as JSON.
fn instead(alloc: Global, was: &[u8], meant: &Meant) -> Result<Vec<u8>, AllocError> {
    match meant {
        Meant::Node(name) | Meant::Word(name) | Meant::Name(name) => {
            between(alloc, b"\"", name.as_bytes(), b"\"")
        }
        Meant::Quotes => between(alloc, b"\"", unquoted(was), b"\""),
        Meant::List => between(alloc, b"[", was, b"]"),
        Meant::Number(number) | Meant::Value(_, number) => {
            let text = format!(in alloc; "{number}")?;
            Vec::from_slice(alloc, text.as_bytes())
        }
        Meant::Flag(_, is_set) => Vec::from_slice(alloc, flag_text(*is_set).as_bytes()),
        Meant::Written(text) => flat(alloc, text.as_bytes()),
        Meant::Mark(mark) => {
            let mut text = String::new(alloc);
            text.push(*mark)?;
            Vec::from_slice(alloc, text.as_bytes())
        }
        Meant::Blank => {
            let ends = ends_of(alloc, was)?;
            between(alloc, b" ", &ends, b"")
        }
        Meant::Moved(_) | Meant::Later { .. } | Meant::Nothing | Meant::NoCall(_) => {
            Ok(Vec::new(alloc))
        }
    }
}

/// Bytes between two others.
fn between(alloc: Global, open: &[u8], inner: &[u8], close: &[u8]) -> Result<Vec<u8>, AllocError> {
    let mut made = Vec::from_slice(alloc, open)?;
    made.extend_from_slice(inner)?;
    made.extend_from_slice(close)?;
    Ok(made)
}

pub(crate) fn flag_text(is_set: bool) -> &'static str {
    if is_set { "true" } else { "false" }
}

/// The parts that are corrected alike: of the name of a node all that name it, from there on.
pub(crate) fn spans_of(
    alloc: Global,
    document: &Document<'_>,
    correction: &Correction,
) -> Result<Vec<Span>, AllocError> {
    match &correction.meant {
        Meant::Node(_) => nodes_alike(alloc, document.bytes, correction.span),
        _ => Vec::from_slice(alloc, &[correction.span]),
    }
}

/// A member or an item with the comma behind it, or else with the one before it.
fn with_comma(bytes: &[u8], span: Span) -> Span {
    let behind = bytes.get(span.end..).unwrap_or(&[]);
    let blanks = blanks_first(behind);
    if behind.get(blanks).copied() == Some(b',') {
        let end = span.end.saturating_add(blanks).saturating_add(1);
        return Span {
            start: span.start,
            end,
        };
    }
    let before = bytes.get(..span.start).unwrap_or(&[]);
    let start = span.start.saturating_sub(blanks_last(before));
    match start.checked_sub(1) {
        Some(comma) if bytes.get(comma).copied() == Some(b',') => Span {
            start: comma,
            end: span.end,
        },
        _ => span,
    }
}

/// How many bytes of white space a text begins with.
fn blanks_first(bytes: &[u8]) -> usize {
    for (k, byte) in bytes.iter().enumerate() {
        if !byte.is_ascii_whitespace() {
            return k;
        }
    }
    bytes.len()
}

/// How many bytes of white space a text ends with.
fn blanks_last(bytes: &[u8]) -> usize {
    for (k, byte) in bytes.iter().rev().enumerate() {
        if !byte.is_ascii_whitespace() {
            return k;
        }
    }
    bytes.len()
}

/// Where calls are made on a node of the name that stands there, or make it, from there on.
fn nodes_alike(alloc: Global, bytes: &[u8], first: Span) -> Result<Vec<Span>, AllocError> {
    let mut spans = Vec::new(alloc);
    let name = first.within(bytes);
    for start in first.start..bytes.len() {
        let end = start.saturating_add(name.len());
        if bytes.get(start..end) == Some(name) && names_node(bytes, start) {
            spans.push(Span { start, end })?;
        }
    }
    Ok(spans)
}

/// Whether the value at a place of a text is that of a key `on` or `as`.
fn names_node(bytes: &[u8], at: usize) -> bool {
    let before = bytes.get(..at).unwrap_or(&[]).trim_ascii_end();
    match before.strip_suffix(b":") {
        Some(key) => {
            let key = key.trim_ascii_end();
            key.ends_with(b"\"on\"") || key.ends_with(b"\"as\"")
        }
        None => false,
    }
}

/// What stands between quotes, or all where none do.
pub(crate) fn unquoted(was: &[u8]) -> &[u8] {
    match was.first() {
        Some(b'"' | b'\'') => was.get(1..was.len().saturating_sub(1)).unwrap_or(&[]),
        _ => was,
    }
}
