//! What may be meant where a text stops being JSON.

use crate::correction::{Correction, Meant};
use crate::places::keys::Span;
use crate::places::machine::{Machine, is_space};
use crate::places::stopping::is_json;
use crate::places::taken::Expected;
use std::alloc::{AllocError, Global};

/// What may be meant at the byte where a text stops being JSON, where that is known.
pub(crate) fn mend_of(
    alloc: Global,
    machine: &Machine,
    bytes: &[u8],
    at: usize,
    expected: Expected,
) -> Result<Option<Correction>, AllocError> {
    let Some(byte) = bytes.get(at).copied() else {
        return closing(alloc, machine, at, expected);
    };
    if let Some(span) = comment_at(bytes, at) {
        return Ok(blank(span));
    }
    match expected {
        Expected::Value => value_at(alloc, bytes, at, byte),
        Expected::Key => Ok(key_at(machine, bytes, at, byte)),
        Expected::Colon => Ok(colon_at(at, byte)),
        Expected::CommaOrBrace | Expected::CommaOrBracket => {
            comma_at(alloc, machine, bytes, at, byte)
        }
        Expected::Text => Ok(quote_at(bytes, at)),
        Expected::NoDigit => Ok(blank(zeros_before(bytes, at))),
        Expected::Null => word_begun(alloc, bytes, at, "null"),
        Expected::True => word_begun(alloc, bytes, at, "true"),
        Expected::False => word_begun(alloc, bytes, at, "false"),
        _ => Ok(None),
    }
}

/// The part, left out.
fn blank(span: Span) -> Option<Correction> {
    Some(Correction {
        span,
        meant: Meant::Blank,
    })
}

/// The part in double quotes.
fn quoted(span: Span) -> Option<Correction> {
    Some(Correction {
        span,
        meant: Meant::Quotes,
    })
}

/// A text in the place of a part.
fn written(alloc: Global, span: Span, text: &str) -> Result<Option<Correction>, AllocError> {
    let text = String::from_str(alloc, text)?;
    Ok(Some(Correction {
        span,
        meant: Meant::Written(text),
    }))
}

/// A mark in the place of a part.
fn marked(span: Span, mark: char) -> Option<Correction> {
    Some(Correction {
        span,
        meant: Meant::Mark(mark),
    })
}

/// The byte at a place.
fn byte_at(at: usize) -> Span {
    Span {
        start: at,
        end: at.saturating_add(1),
    }
}

/// Nothing, before the byte at a place.
fn before_byte(at: usize) -> Span {
    Span { start: at, end: at }
}

/// At the end of the text: the brackets that are still open, where a value stands before it.
fn closing(
    alloc: Global,
    machine: &Machine,
    at: usize,
    expected: Expected,
) -> Result<Option<Correction>, AllocError> {
    if !matches!(expected, Expected::CommaOrBrace | Expected::CommaOrBracket) {
        return Ok(None);
    }
    let mut text = String::new(alloc);
    for open in machine.open().iter().rev() {
        text.push(if open.is_list { ']' } else { '}' })?;
    }
    written(alloc, before_byte(at), &text)
}

/// The comment that begins at a place: to the end of its line, or to `*/`.
fn comment_at(bytes: &[u8], at: usize) -> Option<Span> {
    let text = bytes.get(at..).unwrap_or(&[]);
    let length = if text.starts_with(b"/*") {
        text.windows(2)
            .position(|two| two == b"*/".as_slice())?
            .saturating_add(2)
    } else if text.starts_with(b"//") || text.starts_with(b"#") {
        text.iter()
            .position(|byte| *byte == b'\n')
            .unwrap_or(text.len())
    } else {
        return None;
    };
    Some(Span {
        start: at,
        end: at.saturating_add(length),
    })
}

/// Where a value is due: what may be meant.
fn value_at(
    alloc: Global,
    bytes: &[u8],
    at: usize,
    byte: u8,
) -> Result<Option<Correction>, AllocError> {
    match byte {
        b']' | b'}' | b',' => Ok(comma_before(bytes, at)),
        b'\'' => Ok(single_quoted(bytes, at)),
        b'+' => Ok(blank(byte_at(at))),
        b'.' => written(alloc, before_byte(at), "0"),
        0xEF if at == 0 => Ok(blank(Span { start: 0, end: 3 })),
        _ if is_word_byte(byte) => word_meant(alloc, bytes, at),
        _ => Ok(None),
    }
}

/// What a word may mean that stands where a value is due.
fn word_meant(alloc: Global, bytes: &[u8], at: usize) -> Result<Option<Correction>, AllocError> {
    let span = word_at(bytes, at);
    let word = span.within(bytes);
    for (known, meant) in [
        ("null", "null"),
        ("none", "null"),
        ("true", "true"),
        ("false", "false"),
    ] {
        if word.eq_ignore_ascii_case(known.as_bytes()) {
            return written(alloc, span, meant);
        }
    }
    Ok(quoted(span))
}

/// A known word in the place of the one at a place, if that begins it, in capitals or not, or is
/// `none`.
fn word_begun(
    alloc: Global,
    bytes: &[u8],
    at: usize,
    known: &str,
) -> Result<Option<Correction>, AllocError> {
    let span = word_at(bytes, at);
    let word = span.within(bytes);
    let front = known
        .as_bytes()
        .get(..word.len())
        .unwrap_or(known.as_bytes());
    if word.eq_ignore_ascii_case(front) || word.eq_ignore_ascii_case(b"none") {
        written(alloc, span, known)
    } else {
        Ok(None)
    }
}

/// Where a key is due: what may be meant. An object after a comma comes after the one that is open,
/// whose bracket is missing.
fn key_at(machine: &Machine, bytes: &[u8], at: usize, byte: u8) -> Option<Correction> {
    match byte {
        b'}' | b',' => comma_before(bytes, at),
        b'{' => {
            let _comma = comma_before(bytes, at)?;
            marked(before_byte(machine.last_end()), '}')
        }
        b'\'' => single_quoted(bytes, at),
        _ if is_word_byte(byte) => quoted(word_at(bytes, at)),
        _ => None,
    }
}

/// After a key: `=` in the place of the colon, or none before a value.
fn colon_at(at: usize, byte: u8) -> Option<Correction> {
    match byte {
        b'=' => marked(byte_at(at), ':'),
        b'"' | b'{' | b'[' | b'-' | b'0'..=b'9' => marked(before_byte(at), ':'),
        _ => None,
    }
}

/// After a value: a comma that is missing, a bracket that is, or one too many.
fn comma_at(
    alloc: Global,
    machine: &Machine,
    bytes: &[u8],
    at: usize,
    byte: u8,
) -> Result<Option<Correction>, AllocError> {
    match byte {
        b'"' | b'{' | b'[' | b'-' | b'0'..=b'9' | b't' | b'f' | b'n' | b'\'' => {
            Ok(marked(before_byte(machine.last_end()), ','))
        }
        b';' => Ok(marked(byte_at(at), ',')),
        b'}' | b']' => bracket_at(alloc, machine, bytes, at),
        b'x' | b'X' => Ok(hexadecimal_at(bytes, at)),
        b'*' => Ok(product_at(machine, bytes)),
        b':' => Ok(list_end(machine, bytes)),
        _ => Ok(None),
    }
}

/// The end of the list that is open, before the comma and the last string in it, which is a key of
/// what has the list.
fn list_end(machine: &Machine, bytes: &[u8]) -> Option<Correction> {
    let open = machine.open().last()?;
    if !open.is_list {
        return None;
    }
    let comma = comma_before(bytes, machine.begin())?;
    marked(before_byte(comma.span.start), ']')
}

/// A bracket that ends what isn't open: it is left out where that gives JSON, else the one that is
/// due stands before it.
fn bracket_at(
    alloc: Global,
    machine: &Machine,
    bytes: &[u8],
    at: usize,
) -> Result<Option<Correction>, AllocError> {
    let span = byte_at(at);
    let mut without = Vec::from_slice(alloc, bytes.get(..at).unwrap_or(&[]))?;
    without.extend_from_slice(bytes.get(span.end..).unwrap_or(&[]))?;
    if is_json(alloc, &without)? {
        return Ok(blank(span));
    }
    match machine.open().last() {
        Some(open) => {
            let due = if open.is_list { ']' } else { '}' };
            Ok(marked(before_byte(machine.last_end()), due))
        }
        None => Ok(None),
    }
}

/// The decimal number for a hexadecimal one whose `x` stands at a place.
fn hexadecimal_at(bytes: &[u8], at: usize) -> Option<Correction> {
    let (end, number) = digits_at(bytes, at.saturating_add(1))?;
    let start = at.checked_sub(1)?;
    if bytes.get(start).copied() != Some(b'0') {
        return None;
    }
    Some(Correction {
        span: Span { start, end },
        meant: Meant::Number(number),
    })
}

/// The product in the place of the last number and of those by which it is multiplied.
fn product_at(machine: &Machine, bytes: &[u8]) -> Option<Correction> {
    let start = machine.begin();
    let text = bytes.get(start..).unwrap_or(&[]);
    let length = text
        .iter()
        .position(|byte| !matches!(*byte, b'0'..=b'9' | b'*' | b' '))
        .unwrap_or(text.len());
    let text = text.get(..length).unwrap_or(text).trim_ascii_end();
    let mut product = 1u64;
    for factor in std::str::from_utf8(text).ok()?.split('*') {
        product = product.checked_mul(decimal_of(factor)?)?;
    }
    Some(Correction {
        span: Span {
            start,
            end: start.saturating_add(text.len()),
        },
        meant: Meant::Number(product),
    })
}

/// The number of decimal digits, with spaces before and after them; `None` where there are none.
fn decimal_of(text: &str) -> Option<u64> {
    let digits = text.as_bytes().trim_ascii();
    let mut number = None;
    for byte in digits {
        let digit = char::from(*byte).to_digit(10)?;
        number = Some(
            number
                .unwrap_or(0u64)
                .checked_mul(10)?
                .checked_add(u64::from(digit))?,
        );
    }
    number
}

/// Where hexadecimal digits end that begin at a place, and their number; `None` where there are
/// none, or the number is beyond 64 bits.
fn digits_at(bytes: &[u8], start: usize) -> Option<(usize, u64)> {
    let mut number = 0u64;
    let mut end = start;
    for byte in bytes.get(start..).unwrap_or(&[]) {
        let Some(digit) = char::from(*byte).to_digit(16) else {
            break;
        };
        number = number.checked_mul(16)?.checked_add(u64::from(digit))?;
        end = end.saturating_add(1);
    }
    if end == start {
        None
    } else {
        Some((end, number))
    }
}

/// The comma before a place, left out, if it is the last byte there that is no space.
fn comma_before(bytes: &[u8], at: usize) -> Option<Correction> {
    let front = bytes.get(..at).unwrap_or(&[]);
    let comma = front.iter().rposition(|byte| !is_space(*byte))?;
    if bytes.get(comma).copied() == Some(b',') {
        blank(byte_at(comma))
    } else {
        None
    }
}

/// A text in single quotes, which ends in its line.
fn single_quoted(bytes: &[u8], at: usize) -> Option<Correction> {
    let start = at.saturating_add(1);
    let text = bytes.get(start..).unwrap_or(&[]);
    let length = text
        .iter()
        .position(|byte| matches!(*byte, b'\'' | b'\n' | b'"'))?;
    if text.get(length).copied() != Some(b'\'') {
        return None;
    }
    quoted(Span {
        start: at,
        end: start.saturating_add(length).saturating_add(1),
    })
}

/// The quote that ends a string, before the marks at the end of the line in which it stops.
fn quote_at(bytes: &[u8], at: usize) -> Option<Correction> {
    let front = bytes.get(..at).unwrap_or(&[]);
    let is_mark = |byte: u8| matches!(byte, b',' | b'}' | b']') || is_space(byte);
    let last = front.iter().rposition(|byte| !is_mark(*byte))?;
    marked(before_byte(last.saturating_add(1)), '"')
}

/// The zeros before a digit.
fn zeros_before(bytes: &[u8], at: usize) -> Span {
    let front = bytes.get(..at).unwrap_or(&[]);
    let start = match front.iter().rposition(|byte| *byte != b'0') {
        Some(last) => last.saturating_add(1),
        None => 0,
    };
    Span { start, end: at }
}

/// Whether a byte may stand in a name.
fn is_word_byte(byte: u8) -> bool {
    byte.is_ascii_alphanumeric() || matches!(byte, b'_' | b'-' | b'#')
}

/// The word that has the byte at a place.
fn word_at(bytes: &[u8], at: usize) -> Span {
    let front = bytes.get(..at).unwrap_or(&[]);
    let start = match front.iter().rposition(|byte| !is_word_byte(*byte)) {
        Some(last) => last.saturating_add(1),
        None => 0,
    };
    let behind = bytes.get(at..).unwrap_or(&[]);
    let length = behind
        .iter()
        .position(|byte| !is_word_byte(*byte))
        .unwrap_or(behind.len());
    Span {
        start,
        end: at.saturating_add(length),
    }
}
