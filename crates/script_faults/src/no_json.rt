//! Where a text stops being JSON, in words.

use explanation_text::{Items, JsonStop, Mark, Span, TextBuilder, show, stop_of};
use std::alloc::{AllocError, Global};

/// A text that is no JSON, or may be none.
#[derive(Clone, Copy)]
pub(crate) struct Broken<'a> {
    /// The name of its file, as it was given.
    pub file: &'a str,
    pub bytes: &'a [u8],
    /// Below how many items it is told.
    pub depth: usize,
}

impl<'a> Broken<'a> {
    /// Puts a byte with a caret below it, a note, and what helps after the items.
    fn show(&self, items: &mut Items, at: usize, note: &str, helps: &[String]) {
        let mark = Mark {
            span: byte_at(at),
            path: "",
            note,
        };
        show(items, self.depth, self.file, self.bytes, mark, helps)
    }
}

fn byte_at(at: usize) -> Span {
    Span {
        start: at,
        end: at.saturating_add(1),
    }
}

/// Whether a text has nothing but white space.
pub(crate) fn is_blank(bytes: &[u8]) -> bool {
    for byte in bytes {
        if !byte.is_ascii_whitespace() {
            return false;
        }
    }
    true
}

/// Tells where a text that isn't empty stops being UTF-8 or JSON.
pub(crate) fn add_break(items: &mut Items, broken: Broken<'_>) -> Result<(), AllocError> {
    let bytes = broken.bytes;
    let valid = match std::str::from_utf8(bytes) {
        Ok(_) => bytes.len(),
        Err(error) => error.valid_up_to(),
    };
    let front = bytes.get(..valid).unwrap_or(bytes);
    match stop_of(items.alloc(), front)? {
        Some(stop) if stop.at < valid || valid == bytes.len() => add_stop(items, broken, stop),
        _ => add_byte(items, broken, valid),
    }
}

/// Tells where a text can't be continued to JSON.
fn add_stop(items: &mut Items, broken: Broken<'_>, stop: JsonStop) -> Result<(), AllocError> {
    let JsonStop {
        at,
        expected,
        help,
        meant,
    } = stop;
    let helps = helps_of(items.alloc(), help)?;
    let end = if at >= broken.bytes.len() {
        ", found the end"
    } else {
        ""
    };
    let mut words = TextBuilder::of(items.alloc(), "expected ");
    words.put(expected.words()).put(end);
    let note = words.done()?;
    broken.show(items, at, &note, &helps);
    if let Some(correction) = meant {
        items.correct(correction);
    }
    Ok(())
}

/// A list of what helps, where something does.
fn helps_of(alloc: Global, help: String) -> Result<Vec<String>, AllocError> {
    if help.is_empty() {
        return Ok(Vec::new(alloc));
    }
    Ok(vec![in alloc; help]?)
}

/// Tells a byte that isn't UTF-8.
fn add_byte(items: &mut Items, broken: Broken<'_>, at: usize) -> Result<(), AllocError> {
    let alloc = items.alloc();
    let byte = broken.bytes.get(at).copied().unwrap_or(0);
    let note = format!(in alloc; "the byte 0x{byte:02x} isn't UTF-8")?;
    broken.show(items, at, &note, &[]);
    Ok(())
}
