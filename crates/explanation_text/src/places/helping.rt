//! What may help where a text stops being JSON, in words.

use crate::places::lines::{column_of, line_of};
use crate::places::machine::{Machine, Open};
use crate::places::taken::Expected;
use std::alloc::{AllocError, Global};

/// How many of the lists and objects that are open are named.
const MOST_NAMED: usize = 3;

/// What may help, in words; empty where nothing is known.
pub(crate) fn help_of(
    alloc: Global,
    machine: &Machine,
    bytes: &[u8],
    at: usize,
    expected: Expected,
) -> Result<String, AllocError> {
    let mut words = String::new(alloc);
    put_help(&mut words, machine, bytes, at, expected)?;
    Ok(words)
}

fn put_help(
    words: &mut String,
    machine: &Machine,
    bytes: &[u8],
    at: usize,
    expected: Expected,
) -> Result<(), AllocError> {
    let Some(byte) = bytes.get(at).copied() else {
        return put_help_at_end(words, machine, bytes);
    };
    match expected {
        Expected::CommaOrBrace | Expected::CommaOrBracket => {
            put_help_after_value(words, machine, bytes, at, byte)
        }
        Expected::Text => put_help_in_text(words, machine, bytes),
        Expected::Key if byte == b'{' && before(bytes, at) == Some(b',') => {
            put_still_open(words, machine, bytes)
        }
        _ => words.push_str(plain_help(bytes, at, byte, expected)),
    }
}

/// What helps without a word on other places.
fn plain_help(bytes: &[u8], at: usize, byte: u8, expected: Expected) -> &'static str {
    match expected {
        Expected::Value => help_of_value(bytes, at, byte),
        Expected::Key => help_of_key(bytes, at, byte),
        Expected::Colon if byte == b',' || byte == b'}' => "keys stand in objects, and this is one",
        Expected::End => "one JSON value is complete before this",
        Expected::Null => "it is written null",
        Expected::True => "it is written true",
        Expected::False => "it is written false",
        _ => "",
    }
}

/// Puts where a byte stands after the words, with what stands before that.
fn put_place(words: &mut String, before: &str, bytes: &[u8], at: usize) -> Result<(), AllocError> {
    let line = if at <= bytes.len() {
        line_of(bytes, at)
    } else {
        0
    };
    let column = column_of(bytes, at);
    write!(words, "{before}line {line}, column {column}")
}

/// At the end of the text: what is still open.
fn put_help_at_end(words: &mut String, machine: &Machine, bytes: &[u8]) -> Result<(), AllocError> {
    if bytes.iter().all(|b| b.is_ascii_whitespace()) {
        return words.push_str("the file is empty");
    }
    words.push_str("the text ends here")?;
    if machine.is_in_text() {
        put_place(
            words,
            "; still open: the string of ",
            bytes,
            machine.begin(),
        )?;
    }
    put_opens(words, machine, bytes)
}

/// Names the lists and objects that are open, the innermost first.
fn put_opens(words: &mut String, machine: &Machine, bytes: &[u8]) -> Result<(), AllocError> {
    let mut is_first = !machine.is_in_text();
    for open in machine.open().iter().rev().take(MOST_NAMED) {
        words.push_str(if is_first { "; still open: " } else { ", " })?;
        put_open(words, bytes, open)?;
        is_first = false;
    }
    Ok(())
}

/// Names a list or an object that is open.
fn put_open(words: &mut String, bytes: &[u8], open: &Open) -> Result<(), AllocError> {
    let bracket = if open.is_list {
        "the [ of "
    } else {
        "the { of "
    };
    put_place(words, bracket, bytes, open.start)
}

/// Says what was opened last and is still open.
fn put_still_open(words: &mut String, machine: &Machine, bytes: &[u8]) -> Result<(), AllocError> {
    let Some(open) = machine.open().last() else {
        return Ok(());
    };
    put_open(words, bytes, open)?;
    words.push_str(" is still open")
}

/// The last byte before a place that is no space, if there is one.
fn before(bytes: &[u8], at: usize) -> Option<u8> {
    let front = bytes.get(..at).unwrap_or(bytes);
    front
        .iter()
        .rev()
        .copied()
        .find(|b| !b.is_ascii_whitespace())
}

fn help_of_value(bytes: &[u8], at: usize, byte: u8) -> &'static str {
    match byte {
        b']' | b'}' if before(bytes, at) == Some(b',') => "delete the comma before it",
        b'\'' => "strings stand in double quotes: \"",
        b'/' | b'#' => "JSON has no comments",
        b'+' | b'.' => "numbers begin with a digit or -",
        0xEF if at == 0 => "the text begins with a byte order mark: save it without one",
        _ => help_of_word(bytes.get(at..).unwrap_or(&[])),
    }
}

/// What a word is written as that begins the text.
fn help_of_word(text: &[u8]) -> &'static str {
    if begins_word(text, b"null") || begins_word(text, b"none") {
        return "it is written null";
    }
    if begins_word(text, b"true") {
        return "it is written true";
    }
    if begins_word(text, b"false") {
        return "it is written false";
    }
    ""
}

/// Whether the text begins with a word, in capitals or not.
fn begins_word(text: &[u8], word: &[u8]) -> bool {
    text.get(..word.len())
        .unwrap_or(&[])
        .eq_ignore_ascii_case(word)
}

fn help_of_key(bytes: &[u8], at: usize, byte: u8) -> &'static str {
    match byte {
        b'}' if before(bytes, at) == Some(b',') => "delete the comma before it",
        b'/' | b'#' => "JSON has no comments",
        b'\'' | b'_' | b'a'..=b'z' | b'A'..=b'Z' => "keys stand in double quotes: \"",
        _ => "",
    }
}

/// After a value, where a comma or the bracket that ends what is open is due.
fn put_help_after_value(
    words: &mut String,
    machine: &Machine,
    bytes: &[u8],
    at: usize,
    byte: u8,
) -> Result<(), AllocError> {
    let Some(open) = machine.open().last() else {
        return Ok(());
    };
    match byte {
        b'"' | b'{' | b'[' | b'-' | b'0'..=b'9' | b't' | b'f' | b'n' => {
            put_place(
                words,
                "a comma is missing after ",
                bytes,
                machine.last_end(),
            )
        }
        b'}' | b']' => put_still_open(words, machine, bytes),
        b'*' => words.push_str("JSON has no products"),
        b':' if open.is_list => {
            put_place(
                words,
                "a list has no keys; the [ stands at ",
                bytes,
                open.start,
            )
        }
        b'/' | b'#' => words.push_str("JSON has no comments"),
        b'x' | b'X' if before(bytes, at) == Some(b'0') => {
            words.push_str("JSON has no hexadecimal numbers")
        }
        _ => Ok(()),
    }
}

fn put_help_in_text(words: &mut String, machine: &Machine, bytes: &[u8]) -> Result<(), AllocError> {
    put_place(words, "the string begins at ", bytes, machine.begin())?;
    words.push_str("; a line's end, a tab and other control characters stand in it as escapes")
}
