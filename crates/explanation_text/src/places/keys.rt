//! Places in a text, and paths that lead to values.

use serde_json::Value;
use std::alloc::{AllocError, Global};

/// A part of a text: the bytes from `start`, up to `end`.
#[derive(Clone, Copy, PartialEq, Eq)]
pub struct Span {
    pub start: usize,
    pub end: usize,
}

impl Span {
    /// Its bytes; none where it doesn't lie in the text.
    pub fn within<'a>(&self, bytes: &'a [u8]) -> &'a [u8] {
        bytes.get(self.start..self.end).unwrap_or(&[])
    }

    /// Its text; empty where it isn't a part of this one.
    pub fn text_in<'a>(&self, text: &'a str) -> &'a str {
        text.get(self.start..self.end).unwrap_or("")
    }
}

/// A step from a value to a value in it.
#[derive(Clone, Copy)]
pub enum Step<'a> {
    /// To the member of an object with this key.
    Key(&'a str),
    /// To this item of a list, from 0.
    Item(usize),
}

/// Whether the bytes of a key, its quotes among them, spell this text.
pub(crate) fn is_spelled(alloc: Global, key: &[u8], text: &str) -> Result<bool, AllocError> {
    if !key.contains(&b'\\') {
        return Ok(unquoted(key) == Some(text.as_bytes()));
    }
    match Value::from_slice(alloc, key) {
        Ok(value) => Ok(value.as_str() == Some(text)),
        Err(error) => if error.is_memory() {
            Err(AllocError)
        } else {
            Ok(false)
        },
    }
}

/// What stands between the quotes.
fn unquoted(key: &[u8]) -> Option<&[u8]> {
    match key {
        [b'"', text @ .., b'"'] => Some(text),
        _ => None,
    }
}
