//! A page that grows: markup of this crate's own, numbers, and words of others, whose characters
//! never become markup.

ghost use Rattle.std.specs.Prelude.{◌≡◌, ◌++◌, OnOk, false, true};
ghost use Rattle.std.specs.Str.{chars};
ghost use Rattle.std.specs.String.{string_bytes};
ghost use Rattle.explanation_text.specs.Spelled.{Says, spelled, spelling};

use crate::wording::put_visible;
use crate::words::TextBuilder;
use std::alloc::{AllocError, Global};
use std::fmt::Write;

/// A page of HTML. Where memory is refused to it, it is cut, and no text comes of it.
#[derive(Drop)]
pub(crate) struct Page {
    text: String,
    is_cut: bool,
}

impl Page {
    pub(crate) fn new(alloc: Global) -> Page {
        Page {
            text: String::new(alloc),
            is_cut: false,
        }
    }

    /// The text; `AllocError` where memory was refused to a part of it.
    pub(crate) fn into_text(self) -> Result<String, AllocError> {
        if self.is_cut {
            return Err(AllocError);
        }
        Ok(self.text)
    }

    /// Memory was refused to something of the page.
    pub(crate) fn cut(&mut self)
        ensures { self.new.is_cut ≡ true }
    {
        self.is_cut = true;
    }

    /// Puts markup after the page.
    pub(crate) fn put(&mut self, markup: &'static str) {
        if self.text.push_str(markup).is_err() {
            self.cut();
        }
    }

    /// Puts a number after the page.
    pub(crate) fn put_number(&mut self, number: usize) {
        if write!(self.text, "{number}").is_err() {
            self.cut();
        }
    }

    /// Puts numbers after the page, each with the markup before it.
    pub(crate) fn put_numbers(&mut self, parts: &[(&'static str, usize)]) {
        for (before, number) in parts {
            self.put(before);
            self.put_number(*number);
        }
    }

    /// Puts words after the page, as `say` does, between markup.
    pub(crate) fn add_in(&mut self, before: &'static str, words: &str, after: &'static str) {
        self.put(before);
        self.say(words);
        self.put(after);
    }

    /// Puts words after the page, as they are to be read: each character as one that can be seen,
    /// and those that HTML takes for its own by their names.
    pub(crate) fn say(&mut self, words: &str)
        ensures { self.new.is_cut ≡ false
            → Says (string_bytes self.old.text) (string_bytes self.new.text) }
    {
        if put_words(&mut self.text, words).is_err() {
            self.cut();
        }
    }

    /// Puts lines after the page in the same way.
    pub(crate) fn add_lines(&mut self, lines: &str) {
        for line in lines.lines() {
            self.say(line);
            self.put("\n");
        }
    }
}

/// Puts words after a text, those characters that can't be seen as others.
fn put_words(text: &mut String, words: &str) -> Result<(), AllocError>
    ensures { OnOk result (Says (string_bytes text.old) (string_bytes text.new)) }
{
    let mut seen = TextBuilder::new(*text.allocator());
    put_visible(&mut seen, words);
    put_spelled(text, &seen.done()?)
}

/// Puts words after a text, each character as HTML spells it.
fn put_spelled(text: &mut String, words: &str) -> Result<(), AllocError>
    ensures { OnOk result
        (string_bytes text.new ≡ string_bytes text.old ++ spelled (chars words.now)) }
{
    for c in words.chars() {
        put_character(text, c)?;
    }
    Ok(())
}

/// Puts a character after a text, as HTML spells it between and within quotes.
fn put_character(text: &mut String, c: char) -> Result<(), AllocError>
    ensures { OnOk result (string_bytes text.new ≡ string_bytes text.old ++ spelling c) }
{
    match c {
        '&' => text.push_str("&amp;"),
        '<' => text.push_str("&lt;"),
        '>' => text.push_str("&gt;"),
        '"' => text.push_str("&quot;"),
        '\'' => text.push_str("&#39;"),
        _ => text.push(c),
    }
}
