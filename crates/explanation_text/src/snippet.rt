//! A line of a text with carets below a part of it.

use crate::correction::Correction;
use crate::items::{Items, Kind};
use crate::label::Label;
use crate::places::{
    Span, begins_character, characters, column_of, end_of_line, line_of, start_of_line,
};
use crate::wording::{put_repeated, put_visible, width_of};
use crate::words::TextBuilder;
use std::alloc::{AllocError, Global};

/// How many characters of a line are shown.
const ROOM: usize = 84;
/// How many stand before the part, where the line is cut.
const BEFORE: usize = 24;
/// How wide what helps may be.
const HELP: usize = 88;

/// A part of a text, the path to it in words, empty where there is none, and what is said of it.
#[derive(Clone, Copy)]
pub struct Mark<'a> {
    pub span: Span,
    pub path: &'a str,
    pub note: &'a str,
}

/// What is shown of a part of a text.
#[derive(Drop)]
pub struct Shown {
    /// From 1, as the column, which is a character.
    pub line: usize,
    pub column: usize,
    /// The path to the part, in words; empty where there is none.
    pub path: String,
    /// What is said of the part.
    pub note: String,
    pub helps: Vec<String>,
    /// What may be meant by a part of what is shown, where that is known.
    pub correction: Option<Correction>,
}

impl Shown {
    fn new(
        alloc: Global,
        bytes: &[u8],
        mark: Mark<'_>,
        helps: &[String],
    ) -> Result<Shown, AllocError> {
        let at = mark.span.start.min(bytes.len());
        let mut said = Vec::new(alloc);
        for help in helps {
            said.push(String::from_str(alloc, help)?)?;
        }
        Ok(Shown {
            line: line_of(bytes, at),
            column: column_of(bytes, at),
            path: String::from_str(alloc, mark.path)?,
            note: String::from_str(alloc, mark.note)?,
            helps: said,
            correction: None,
        })
    }
}

/// What is shown of a line: its text, and where the carets stand below it.
#[derive(Drop)]
struct Window {
    line: TextBuilder,
    column: usize,
    carets: usize,
}

/// Puts a part of a text with carets below it after the items.
pub fn show(
    items: &mut Items,
    depth: usize,
    file: &str,
    bytes: &[u8],
    mark: Mark<'_>,
    helps: &[String],
) {
    let mut text = TextBuilder::new(items.alloc());
    put_snippet(&mut text, file, bytes, mark, helps);
    items.push(Kind::Source, depth, Label::Plain, text);
    match Shown::new(items.alloc(), bytes, mark, helps) {
        Ok(shown) => items.keep_shown(shown),
        Err(AllocError) => items.refuse(),
    }
}

/// Puts where a part stands, its line, carets with a note below it, and what helps after a text.
fn put_snippet(text: &mut TextBuilder, file: &str, bytes: &[u8], mark: Mark<'_>, helps: &[String]) {
    let at = mark.span.start.min(bytes.len());
    let line = line_of(bytes, at);
    let width = digits(line);
    put_repeated(text, ' ', width);
    text.put("--> ");
    put_visible(text, file);
    text.put(":").put_number(line);
    text.put(":").put_number(column_of(bytes, at));
    if !mark.path.is_empty() {
        text.put(": ").put(mark.path);
    }
    put_bar(text, width, " |");
    text.put("\n").put_number(line).put(" | ");
    put_window(text, width, bytes, mark);
    put_helps(text, width, helps)
}

/// How many digits a number has.
fn digits(number: usize) -> usize {
    number.checked_ilog10().unwrap_or(0) as usize + 1
}

/// Puts the line of a part with carets and a note below it after a text.
fn put_window(text: &mut TextBuilder, width: usize, bytes: &[u8], mark: Mark<'_>) {
    let window = window_of(text.alloc(), bytes, mark);
    match window.line.done() {
        Ok(line) => text.put(line.trim_end()),
        Err(AllocError) => return text.refuse(),
    };
    put_bar(text, width, " | ");
    put_repeated(text, ' ', window.column);
    put_repeated(text, '^', window.carets);
    text.put(" ").put(mark.note);
}

fn put_bar(text: &mut TextBuilder, width: usize, bar: &str) {
    text.put("\n");
    put_repeated(text, ' ', width);
    text.put(bar);
}

fn put_helps(text: &mut TextBuilder, width: usize, helps: &[String]) {
    for help in helps {
        put_bar(text, width, " = ");
        put_help(text, width, help);
    }
}

/// Puts what helps after a text, broken at spaces.
fn put_help(text: &mut TextBuilder, width: usize, help: &str) {
    let mut used = 0usize;
    for word in help.split(' ') {
        let more = width_of(word).saturating_add(1);
        if 0 < used && used.saturating_add(more) > HELP {
            put_bar(text, width, "   ");
            used = 0;
        } else if 0 < used {
            text.put(" ");
        }
        text.put(word);
        used = used.saturating_add(more);
    }
}

/// What is shown of the line of a part, a stretch of it where it is long.
fn window_of(alloc: Global, bytes: &[u8], mark: Mark<'_>) -> Window {
    let start = mark.span.start;
    let begin = start_of_line(bytes, start);
    let whole = bytes.get(begin..end_of_line(bytes, start)).unwrap_or(&[]);
    let line = whole.strip_suffix(b"\r").unwrap_or(whole);
    let column = characters(bytes.get(begin..start).unwrap_or(&[]));
    let stop = mark.span.end.min(begin.saturating_add(line.len()));
    let carets = characters(bytes.get(start..stop).unwrap_or(&[])).max(1);
    let all = characters(line);
    let needed = column
        .saturating_add(carets)
        .saturating_add(width_of(mark.note));
    if all <= ROOM && needed <= ROOM {
        let mut shown = TextBuilder::new(alloc);
        put_part(&mut shown, line);
        return Window {
            line: shown,
            column,
            carets,
        };
    }
    cut(alloc, line, all, column, carets)
}

/// A stretch of a long line.
fn cut(alloc: Global, line: &[u8], all: usize, column: usize, carets: usize) -> Window {
    let left = column.saturating_sub(BEFORE);
    let right = left.saturating_add(ROOM);
    let mut shown = TextBuilder::new(alloc);
    let mut before = column.saturating_sub(left);
    if 0 < left {
        shown.put("...");
        before = before.saturating_add(3);
    }
    let from = place_of(line, left);
    let to = place_of(line, right);
    put_part(&mut shown, line.get(from..to).unwrap_or(&[]));
    let width = width_of(shown.as_str());
    if right < all {
        shown.put("...");
    }
    let most = width
        .saturating_sub(before)
        .min(ROOM.saturating_sub(before))
        .max(1);
    Window {
        line: shown,
        column: before,
        carets: carets.min(most),
    }
}

/// Puts bytes after a text, as characters that can be seen.
fn put_part(text: &mut TextBuilder, bytes: &[u8]) {
    match String::from_utf8_lossy(text.alloc(), bytes) {
        Ok(lossy) => put_visible(text, &lossy),
        Err(AllocError) => text.refuse(),
    }
}

/// Where the character of this number stands, or the end.
fn place_of(line: &[u8], number: usize) -> usize {
    let mut seen = 0usize;
    for (k, byte) in line.iter().enumerate() {
        if !begins_character(*byte) {
            continue;
        }
        if seen == number {
            return k;
        }
        seen = seen.saturating_add(1);
    }
    line.len()
}
