//! A change that is made in several entries of a record, in words that are true of each.

use explanation_text::wording::put_few;
use explanation_text::{ListBuilder, Text, TextBuilder};
use std::alloc::{AllocError, Global};

/// The entries that a change is made in.
#[derive(Drop)]
pub(crate) struct ChangedEntries {
    /// Their numbers, from 1.
    numbers: Vec<usize>,
    /// What is changed in the first of them; no words where there is none.
    words: Text,
    /// Whether these words are true of all.
    pub(crate) are_alike: bool,
}

impl ChangedEntries {
    /// No entries.
    pub(crate) fn none(alloc: Global) -> ChangedEntries {
        ChangedEntries {
            numbers: Vec::new(alloc),
            words: Text::new(alloc),
            are_alike: true,
        }
    }

    /// Adds the entry of an index, from 0, of which these words are true.
    pub(crate) fn add(&mut self, index: usize, words: Text) -> Result<(), AllocError> {
        if self.numbers.is_empty() {
            self.words = words;
        } else if self.words != words {
            self.are_alike = false;
        }
        self.numbers.push(index.saturating_add(1))?;
        Ok(())
    }

    /// The words of the first entry where they are true of all; else these, which say nothing of one
    /// entry, and the entries' numbers.
    pub(crate) fn into_words(self, of_any: TextBuilder) -> Result<Text, AllocError> {
        let ChangedEntries {
            numbers,
            words,
            are_alike,
        } = self;
        if are_alike {
            return Ok(words);
        }
        let mut several = of_any;
        several.put(" in entries ");
        let mut names: ListBuilder<Text> = ListBuilder::new(several.alloc());
        for number in numbers {
            let mut name = TextBuilder::new(several.alloc());
            name.put_number(number);
            names.add_text(name);
        }
        let names = names.done()?;
        put_few(&mut several, &names, 3);
        several.into_text()
    }
}
