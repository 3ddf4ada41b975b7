//! What is told, as text: lines of at most 100 columns, but for source lines and decisions, and for
//! words that stand far in.

use crate::items::{Item, Kind};
use crate::label::Label;
use crate::wording::{put_repeated, width_of};
use crate::words::TextBuilder;
use std::alloc::{AllocError, Global};

/// How wide a line is.
const WIDTH: usize = 100;
/// How many columns words have at least, however far in they stand.
const LEAST: usize = 40;
/// How wide the labels are that stand in a column.
const LABEL: usize = 6;

/// The text of items. Each line ends with a newline.
pub fn text_of(alloc: Global, items: &[Item]) -> Result<String, AllocError> {
    let mut text = TextBuilder::new(alloc);
    let mut indents = Vec::new(alloc);
    for item in items {
        put_item(&mut text, &mut indents, item)?;
    }
    text.done()
}

/// Puts an item after the text, and keeps how far what stands below it is indented.
fn put_item(
    text: &mut TextBuilder,
    indents: &mut Vec<usize>,
    item: &Item,
) -> Result<(), AllocError> {
    let indent = match item.depth.checked_sub(1) {
        Some(above) => indents.get(above).copied().unwrap_or(2),
        None => 0,
    };
    let label = label_width(item);
    let inner = indent.saturating_add(below(item, label));
    keep_indent(indents, item.depth, indent, inner)?;
    if item.kind == Kind::Source {
        put_source(text, indent, &item.text);
        return Ok(());
    }
    put_label(text, item, indent, label);
    if item.kind == Kind::Words {
        return put_words(text, indent, label, &item.text);
    }
    text.put(&item.text).put("\n");
    Ok(())
}

/// Keeps how far what stands below an item of this depth is indented, and forgets it of the items
/// before that aren't above it.
fn keep_indent(
    indents: &mut Vec<usize>,
    depth: usize,
    indent: usize,
    inner: usize,
) -> Result<(), AllocError> {
    indents.truncate(depth);
    for _missing in indents.len()..depth {
        indents.push(indent)?;
    }
    indents.push(inner)?;
    Ok(())
}

/// How many columns an item's label takes, with the space after it.
fn label_width(item: &Item) -> usize {
    let width = width_of(item.label.word());
    match item.label {
        Label::Plain => 0,
        Label::Alone(_) | Label::Promised => width.saturating_add(1),
        _ => width.max(LABEL).saturating_add(1),
    }
}

/// How much further what stands below an item is indented.
fn below(item: &Item, label: usize) -> usize {
    if matches!(item.label, Label::Plain | Label::Change) {
        2
    } else {
        label
    }
}

/// Puts an item's label after the text, at the line's begin; a title stands below an empty line.
fn put_label(text: &mut TextBuilder, item: &Item, indent: usize, label: usize) {
    if item.kind == Kind::Title {
        text.put("\n");
    }
    put_repeated(text, ' ', indent);
    let word = item.label.word();
    text.put(word);
    put_repeated(text, ' ', label.saturating_sub(width_of(word)))
}

/// Puts lines after the text, each after some spaces.
fn put_source(text: &mut TextBuilder, indent: usize, source: &str) {
    for line in source.lines() {
        put_repeated(text, ' ', indent);
        text.put(line).put("\n");
    }
}

/// Puts words after the text, broken at spaces; a name stays with its path.
fn put_words(
    text: &mut TextBuilder,
    indent: usize,
    label: usize,
    words: &str,
) -> Result<(), AllocError> {
    let inner = indent.saturating_add(label.max(2));
    let most = WIDTH
        .saturating_sub(indent)
        .saturating_sub(label)
        .saturating_sub(2)
        .max(LEAST);
    let parts: Vec<&str> = words.split(' ').collect(text.alloc())?;
    put_parts(text, &parts, inner, most);
    Ok(())
}

/// Puts words after the text, and a line's end: of a line that would be so wide or wider what is
/// left goes to the next, which is indented.
fn put_parts(text: &mut TextBuilder, parts: &[&str], inner: usize, most: usize) {
    let mut used = 0usize;
    for (k, word) in parts.iter().enumerate() {
        let width = width_of(word);
        let path = path_width(parts.get(k.saturating_add(1)));
        let needed = used.saturating_add(width).saturating_add(path);
        if 0 < k && needed >= most && !word.starts_with('/') {
            begin_line(text, inner);
            used = 0;
        } else if 0 < k {
            text.put(" ");
            used = used.saturating_add(1);
        }
        text.put(word);
        used = used.saturating_add(width);
    }
    text.put("\n");
}

/// Ends the text's line, and begins one that is indented.
fn begin_line(text: &mut TextBuilder, indent: usize) {
    text.put("\n");
    put_repeated(text, ' ', indent)
}

/// How wide the path is that stays with the word before it, with a space; 0 where the word is none.
fn path_width(word: Option<&&str>) -> usize {
    match word {
        Some(path) if path.starts_with('/') => width_of(path).saturating_add(1),
        _ => 0,
    }
}
