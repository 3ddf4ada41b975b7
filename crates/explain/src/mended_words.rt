//! What is corrected in a script's text, in words.

use crate::mended::{flag_text, spans_of, unquoted};
use explanation_text::wording::{mark_after, put_visible};
use explanation_text::{Correction, ListBuilder, Meant, Moved, Span, Text, TextBuilder, line_of};
use script_faults::Document;
use std::alloc::AllocError;
use sysmem_counts::Field;
use sysmem_formats::{Modifier, PixelFormat};

/// How many lines of one correction are told: for each the text is gone through.
const MOST_LINES: usize = 16;

/// Puts what stands in the place of what after a text: `vulkan in the place of gpu (line 13)`.
pub(crate) fn put_corrections(
    text: &mut TextBuilder,
    document: &Document<'_>,
    corrections: &[&Correction],
) -> Result<(), AllocError> {
    for (k, one) in corrections.iter().enumerate() {
        let spans = spans_of(text.alloc(), document, *one)?;
        put_correction(text, document.bytes, *one);
        put_lines(text, document.bytes, &spans);
        text.put(mark_after(k, corrections.len()));
    }
    Ok(())
}

fn put_correction(text: &mut TextBuilder, bytes: &[u8], one: &Correction) {
    let was = one.span.within(bytes);
    match &one.meant {
        Meant::List => {
            text.put("brackets around ");
            put_listed(text, was)
        }
        Meant::Quotes => {
            text.put("double quotes around ");
            put_bytes(text, unquoted(was))
        }
        Meant::Nothing | Meant::Blank => {
            put_part(text, was);
            text.put(" left out");
        }
        Meant::NoCall(call) => {
            text.put("call ").call(*call).put(" left out");
        }
        Meant::Moved(moved) => {
            put_part(text, was);
            put_moved(text, moved)
        }
        Meant::Later { call, after, .. } => {
            text.put("call ").call(*call);
            text.put(" moved after call ").call(*after);
        }
        Meant::Written(written) if was.is_empty() => {
            put_flat(text, written.trim_end_matches(", "));
            text.put(" added");
        }
        Meant::Mark(mark) if was.is_empty() => put_mark(text, *mark),
        Meant::Node(_) | Meant::Word(_) | Meant::Name(_) => {
            put_replaced(text, &one.meant, unquoted(was))
        }
        _ => put_replaced(text, &one.meant, was),
    }
}

/// Puts into which object a member moves after a text, and as which field where its key is another.
fn put_moved(text: &mut TextBuilder, moved: &Moved) {
    text.put(" moved into ");
    moved.into.put(text);
    if let Some(renamed) = &moved.renamed {
        text.put(" as ").field(renamed.field);
    }
}

/// Puts a part that goes, in a few words, after a text.
fn put_part(text: &mut TextBuilder, was: &[u8]) {
    match was.first() {
        Some(b',') => text.put("the comma"),
        Some(b'{') => text.put("the object"),
        Some(b'[') => text.put("the list"),
        Some(b'/' | b'#') => text.put("the comment"),
        Some(0xEF) => text.put("the byte order mark"),
        _ => return put_named(text, named_in(was)),
    };
}

/// Puts that a mark is added after a text.
fn put_mark(text: &mut TextBuilder, mark: char) {
    match mark {
        ',' => text.put("a comma"),
        ':' => text.put("a colon"),
        '"' => text.put("a double quote"),
        _ => text.put_char(mark),
    };
    text.put(" added");
}

/// Puts a text of JSON in one line after a text.
fn put_flat(text: &mut TextBuilder, written: &str) {
    for (k, word) in written.split_ascii_whitespace().enumerate() {
        text.put(if k > 0 { " " } else { "" });
        put_visible(text, word);
    }
}

/// Puts what is meant in the place of what after a text.
fn put_replaced(text: &mut TextBuilder, meant: &Meant, was: &[u8]) {
    put_new(text, meant);
    text.put(" in the place of ");
    if was.is_empty() {
        text.put("an empty name");
    }
    put_bytes(text, was)
}

/// Puts what is meant after a text.
fn put_new(text: &mut TextBuilder, meant: &Meant) {
    match meant {
        Meant::Node(name) | Meant::Name(name) => {
            text.put(name);
        }
        Meant::Word(name) => put_known(text, name),
        Meant::Number(number) => {
            text.put_number(*number);
        }
        Meant::Value(field, number) => {
            text.field(*field).put(" ").put_number(*number);
        }
        Meant::Flag(field, is_set) => {
            text.field(*field).put(" ").put(flag_text(*is_set));
        }
        Meant::Written(written) => {
            text.put(written);
        }
        Meant::Mark(mark) => {
            text.put_char(*mark);
        }
        Meant::List
        | Meant::Quotes
        | Meant::Moved(_)
        | Meant::Later { .. }
        | Meant::Nothing
        | Meant::NoCall(_)
        | Meant::Blank => {}
    }
}

/// Puts what may be a field, a format, a modifier or another word after a text.
fn put_known(text: &mut TextBuilder, word: &str) {
    if let Some(field) = Field::from_name(word) {
        text.field(field);
    } else if let Some(format) = PixelFormat::from_name(word) {
        text.format(format);
    } else if let Some(modifier) = Modifier::from_name(word) {
        text.modifier(modifier);
    } else {
        text.put(word);
    }
}

/// Puts a name that stands in quotes, or that an object stands there.
fn put_listed(text: &mut TextBuilder, was: &[u8]) {
    if was.first().copied() == Some(b'"') {
        put_bytes(text, was)
    } else {
        text.put("the object");
    }
}

/// Puts a key or another text after a text.
fn put_named(text: &mut TextBuilder, was: &[u8]) {
    match std::str::from_utf8(was) {
        Ok(word) if Field::from_name(word).is_some() => put_known(text, word),
        _ => put_bytes(text, was),
    }
}

/// The key of a member, or an item of a list.
fn named_in(was: &[u8]) -> &[u8] {
    let quote = was.iter().skip(1).position(|byte| *byte == b'"');
    match (was.first(), quote) {
        (Some(b'"'), Some(end)) => was.get(1..end.saturating_add(1)).unwrap_or(&[]),
        _ => was,
    }
}

fn put_bytes(text: &mut TextBuilder, was: &[u8]) {
    match String::from_utf8_lossy(text.alloc(), was) {
        Ok(was) => put_visible(text, &was),
        Err(AllocError) => text.refuse(),
    }
}

/// Puts the lines in which some parts begin after a text: ` (lines 60, 64 and 75)`.
fn put_lines(text: &mut TextBuilder, bytes: &[u8], spans: &[Span]) {
    text.put(if spans.len() > 1 {
        " (lines "
    } else {
        " (line "
    });
    let more = spans.len().saturating_sub(MOST_LINES);
    let parts = spans
        .len()
        .min(MOST_LINES)
        .saturating_add(usize::from(more > 0));
    for (k, span) in spans.iter().take(MOST_LINES).enumerate() {
        let line = line_of(bytes, span.start.min(bytes.len()));
        text.put_number(line).put(mark_after(k, parts));
    }
    if more > 0 {
        text.put_number(more).put(" more");
    }
    text.put(")");
}
