//! Lists of names and counts, in words.

use crate::words::{Phrase, TextBuilder};

/// How many names one list has; one more is shown rather than counted.
pub const MOST_NAMES: usize = 4;

/// Puts the names after the text, as `a, b and c`.
pub fn put_joined<T: Phrase + Drop>(text: &mut TextBuilder, names: &[T], word: &str) {
    let Some((last, others)) = names.split_last() else {
        return;
    };
    put_listed(text, others);
    if !others.is_empty() {
        text.put(" ").put(word).put(" ");
    }
    last.put_into(text);
}

/// Puts the names after the text, with commas between them.
fn put_listed<T: Phrase + Drop>(text: &mut TextBuilder, names: &[T]) {
    for (k, name) in names.iter().enumerate() {
        let before = if k == 0 { "" } else { ", " };
        text.put(before);
        name.put_into(text);
    }
}

/// What stands after the item of an index in a list of so many: `, `, ` and ` or nothing.
pub fn mark_after(index: usize, count: usize) -> &'static str {
    match count.saturating_sub(index) {
        0 | 1 => "",
        2 => " and ",
        _ => ", ",
    }
}

/// Puts at most so many of the names after the text, and counts the others: `a, b and 3 more`.
pub fn put_few<T: Phrase + Drop>(text: &mut TextBuilder, names: &[T], most: usize) {
    if names.len() <= most.saturating_add(1) {
        return put_joined(text, names, "and");
    }
    put_listed(text, names.get(..most).unwrap_or(names));
    let more = names.len().saturating_sub(most);
    text.put(" and ").put_number(more).put(" more");
}

/// Puts a count with its word after the text: `1 call`, `2 calls`.
pub fn put_count(text: &mut TextBuilder, count: usize, one: &str, many: &str) {
    let word = if count == 1 { one } else { many };
    text.put_number(count).put(" ").put(word);
}

/// The first and the last of each run of characters that can't be seen, that steer a terminal, the
/// direction of writing or the drawing of music, or that aren't characters of a text.
const UNSEEN: [(u32, u32); 14] = [
    (0, 0x1F),
    (0x7F, 0x9F),
    (0xAD, 0xAD),
    (0x61C, 0x61C),
    (0x180E, 0x180E),
    (0x200B, 0x200F),
    (0x2028, 0x202E),
    (0x2060, 0x206F),
    (0xFDD0, 0xFDEF),
    (0xFEFF, 0xFEFF),
    (0xFFF9, 0xFFFB),
    (0xFFFE, 0xFFFF),
    (0x1D173, 0x1D17A),
    (0xE0000, 0xE007F),
];

/// Whether a character is one of these.
fn is_unseen(c: char) -> bool {
    let code = u32::from(c);
    UNSEEN
        .iter()
        .any(|(first, last)| *first <= code && code <= *last)
}

/// The character that is seen in place of one: a space for a tab, and U+FFFD for others that can't
/// be seen.
fn visible(c: char) -> char {
    if c == '\t' {
        ' '
    } else if is_unseen(c) {
        '\u{FFFD}'
    } else {
        c
    }
}

/// Puts a text after another, each of its characters as one that can be seen: a tab as a space, and
/// others as U+FFFD.
pub fn put_visible(text: &mut TextBuilder, source: &str) {
    for c in source.chars() {
        text.put_char(visible(c));
    }
}

/// Puts so many of a character after the text.
pub fn put_repeated(text: &mut TextBuilder, c: char, times: usize) {
    for _i in 0..times {
        text.put_char(c);
    }
}

/// How many characters a text has.
pub fn width_of(text: &str) -> usize {
    text.chars().count()
}
