//! Where the parts of a text end that is taken as JSON.

use crate::places::machine::is_space;

/// The first byte from a place on that is no space; the length of the text where there is none.
pub(crate) fn after_space(bytes: &[u8], at: usize) -> usize {
    let rest = bytes.get(at..).unwrap_or(&[]);
    for (k, byte) in rest.iter().enumerate() {
        if !is_space(*byte) {
            return at.saturating_add(k);
        }
    }
    bytes.len()
}

/// Where the value ends that begins at a place.
pub(crate) fn end_of_value(bytes: &[u8], at: usize) -> usize {
    match bytes.get(at) {
        Some(b'"') => end_of_text(bytes, at),
        Some(b'{' | b'[') => end_of_inner(bytes, at),
        _ => end_of_word(bytes, at),
    }
}

/// Where the text in quotes ends that begins at a place.
pub(crate) fn end_of_text(bytes: &[u8], at: usize) -> usize {
    let start = at.saturating_add(1);
    let rest = bytes.get(start..).unwrap_or(&[]);
    let mut is_escaped = false;
    for (k, byte) in rest.iter().enumerate() {
        if is_escaped {
            is_escaped = false;
        } else if *byte == b'\\' {
            is_escaped = true;
        } else if *byte == b'"' {
            return start.saturating_add(k).saturating_add(1);
        }
    }
    bytes.len()
}

/// Where the number or the word ends that begins at a place.
fn end_of_word(bytes: &[u8], at: usize) -> usize {
    let rest = bytes.get(at..).unwrap_or(&[]);
    for (k, byte) in rest.iter().enumerate() {
        if is_space(*byte) || matches!(*byte, b',' | b']' | b'}') {
            return at.saturating_add(k);
        }
    }
    bytes.len()
}

/// Where the list or the object ends that begins at a place.
fn end_of_inner(bytes: &[u8], at: usize) -> usize {
    let rest = bytes.get(at..).unwrap_or(&[]);
    let mut nesting = Nesting::new();
    for (k, byte) in rest.iter().enumerate() {
        nesting.take(*byte);
        if nesting.depth == 0 {
            return at.saturating_add(k).saturating_add(1);
        }
    }
    bytes.len()
}

/// How many keys a text has: colons that stand in no text in quotes.
pub(crate) fn keys_in(bytes: &[u8]) -> usize {
    let mut nesting = Nesting::new();
    let mut keys = 0usize;
    for byte in bytes {
        if *byte == b':' && nesting.quoted == QuoteState::Not {
            keys = keys.saturating_add(1);
        }
        nesting.take(*byte);
    }
    keys
}

/// Whether the next byte stands in a text in quotes.
#[derive(Clone, Copy, PartialEq, Eq)]
enum QuoteState {
    Not,
    Is,
    /// The same, after a backslash.
    Escaped,
}

/// In how many lists and objects the next byte stands.
#[derive(Clone, Copy)]
struct Nesting {
    depth: usize,
    quoted: QuoteState,
}

impl Nesting {
    fn new() -> Nesting {
        Nesting {
            depth: 0,
            quoted: QuoteState::Not,
        }
    }

    /// Takes the next byte.
    fn take(&mut self, byte: u8) {
        match self.quoted {
            QuoteState::Not => self.take_plain(byte),
            QuoteState::Is if byte == b'"' => self.quoted = QuoteState::Not,
            QuoteState::Is if byte == b'\\' => self.quoted = QuoteState::Escaped,
            QuoteState::Is => {}
            QuoteState::Escaped => self.quoted = QuoteState::Is,
        }
    }

    /// Takes a byte that stands in no text in quotes.
    fn take_plain(&mut self, byte: u8) {
        match byte {
            b'"' => self.quoted = QuoteState::Is,
            b'{' | b'[' => self.depth = self.depth.saturating_add(1),
            b'}' | b']' => self.depth = self.depth.saturating_sub(1),
            _ => {}
        }
    }
}
