//! Words and lists that are put together, of which want of memory is asked for once, at their end.

use crate::facts::{Fact, Said};
use crate::places::Span;
use std::alloc::{AllocError, Global};
use std::fmt::Display;
use sysmem_counts::Field;
use sysmem_formats::{Modifier, PixelFormat};

/// What words can name.
#[derive(Clone, Copy, PartialEq, Eq)]
pub enum Thing {
    /// A node, by number.
    Node(usize),
    /// A call, by number, from 1.
    Call(usize),
    Field(Field),
    Format(PixelFormat),
    Modifier(Modifier),
}

/// What a text names at one of its bytes.
#[derive(Clone, Copy, PartialEq, Eq)]
pub struct Mention {
    pub at: usize,
    pub thing: Thing,
}

/// A node, by number, with its name.
#[derive(Clone, Copy, PartialEq, Eq)]
pub struct Name<'a> {
    pub node: usize,
    pub text: &'a str,
}

/// What may stand in a list of words.
pub trait Phrase {
    /// Puts it after words.
    fn put_into(&self, words: &mut TextBuilder);
}

impl Phrase for &str {
    fn put_into(&self, words: &mut TextBuilder) {
        words.put(self);
    }
}

impl Phrase for Name<'_> {
    fn put_into(&self, words: &mut TextBuilder) {
        words.name(*self);
    }
}

impl Phrase for Text {
    fn put_into(&self, words: &mut TextBuilder) {
        words.put_text(self);
    }
}

/// A text, with what it names and tells.
#[derive(Drop, PartialEq, Eq)]
pub struct Text {
    text: String,
    mentions: Vec<Mention>,
    facts: Vec<Fact>,
}

impl Text {
    pub fn new(alloc: Global) -> Text {
        Text {
            text: String::new(alloc),
            mentions: Vec::new(alloc),
            facts: Vec::new(alloc),
        }
    }

    pub fn alloc(&self) -> Global {
        *self.text.allocator()
    }

    pub fn is_empty(&self) -> bool {
        self.text.is_empty()
    }

    /// The text, and what it names and tells, in order.
    pub fn into_parts(self) -> (String, Vec<Mention>, Vec<Fact>) {
        (self.text, self.mentions, self.facts)
    }
}

/// A text that grows by its parts. Where memory is refused to one of them, no text comes of it.
#[derive(Drop)]
pub struct TextBuilder {
    text: Text,
    is_refused: bool,
}

impl TextBuilder {
    pub fn new(alloc: Global) -> TextBuilder {
        TextBuilder {
            text: Text::new(alloc),
            is_refused: false,
        }
    }

    /// Words with a first part.
    pub fn of(alloc: Global, part: &str) -> TextBuilder {
        let mut words = TextBuilder::new(alloc);
        words.put(part);
        words
    }

    /// Words with a name first.
    pub fn of_name(alloc: Global, name: Name<'_>) -> TextBuilder {
        let mut words = TextBuilder::new(alloc);
        words.name(name);
        words
    }

    /// Words with a text first.
    pub fn of_text(alloc: Global, text: &Text) -> TextBuilder {
        let mut words = TextBuilder::new(alloc);
        words.put_text(text);
        words
    }

    pub fn alloc(&self) -> Global {
        self.text.alloc()
    }

    /// The text so far.
    pub fn as_str(&self) -> &str {
        &self.text.text
    }

    /// Memory was refused to something that is a part of the text.
    pub fn refuse(&mut self) {
        self.is_refused = true;
    }

    /// Puts a part after the text.
    pub fn put(&mut self, part: &str) -> &mut TextBuilder {
        if self.text.text.push_str(part).is_err() {
            self.is_refused = true;
        }
        self
    }

    /// Puts a character after the text.
    pub fn put_char(&mut self, c: char) -> &mut TextBuilder {
        if self.text.text.push(c).is_err() {
            self.is_refused = true;
        }
        self
    }

    /// Puts a number after the text, in decimal.
    pub fn put_number<N: Display + Drop>(&mut self, number: N) -> &mut TextBuilder {
        if write!(self.text.text, "{number}").is_err() {
            self.is_refused = true;
        }
        self
    }

    /// Puts other words after the text.
    pub fn put_words(&mut self, words: &TextBuilder) -> &mut TextBuilder {
        if words.is_refused {
            self.is_refused = true;
        }
        self.put_text(&words.text)
    }

    /// Puts another text after the text.
    pub fn put_text(&mut self, text: &Text) -> &mut TextBuilder {
        let before = self.len();
        for mention in &text.mentions {
            self.mention(before.saturating_add(mention.at), mention.thing);
        }
        for fact in &text.facts {
            self.tell(fact.behind(before));
        }
        self.put(&text.text)
    }

    /// Puts the name of a node after the text.
    pub fn name(&mut self, name: Name<'_>) -> &mut TextBuilder {
        self.named(Thing::Node(name.node)).put(name.text)
    }

    /// Puts the number of a call after the text.
    pub fn call(&mut self, number: usize) -> &mut TextBuilder {
        self.named(Thing::Call(number)).put_number(number)
    }

    /// Puts the name of a field after the text.
    pub fn field(&mut self, field: Field) -> &mut TextBuilder {
        self.named(Thing::Field(field)).put(field.name())
    }

    /// Puts the name of a format after the text.
    pub fn format(&mut self, format: PixelFormat) -> &mut TextBuilder {
        self.named(Thing::Format(format)).put(format.name())
    }

    /// Puts the name of a modifier after the text.
    pub fn modifier(&mut self, modifier: Modifier) -> &mut TextBuilder {
        self.named(Thing::Modifier(modifier)).put(modifier.name())
    }

    /// Puts how much or how great what the text is about is after it.
    pub fn value(&mut self, number: u128) -> &mut TextBuilder {
        if let Ok(number) = u64::try_from(number) {
            self.tell(Fact::Value(Said::Number(number)));
        }
        self.put_number(number)
    }

    /// Puts a colon after the text, which has no label and heads what stands below it.
    pub fn head(&mut self) -> &mut TextBuilder {
        self.tell(Fact::Heads);
        self.put(":")
    }

    /// How long the text is, in bytes.
    pub fn len(&self) -> usize {
        self.text.text.len()
    }

    /// What stands in the text from a byte on.
    pub fn since(&self, start: usize) -> Said {
        Said::Words(Span {
            start,
            end: self.len(),
        })
    }

    /// Keeps what the text tells.
    pub fn tell(&mut self, fact: Fact) {
        if self.text.facts.push(fact).is_err() {
            self.is_refused = true;
        }
    }

    /// Names a thing by what comes next.
    fn named(&mut self, thing: Thing) -> &mut TextBuilder {
        let at = self.len();
        self.mention(at, thing);
        self
    }

    fn mention(&mut self, at: usize, thing: Thing) {
        if self.text.mentions.push(Mention { at, thing }).is_err() {
            self.is_refused = true;
        }
    }

    /// The text with what it names and tells; `AllocError` where memory was refused to a part of it.
    pub fn into_text(self) -> Result<Text, AllocError> {
        if self.is_refused {
            return Err(AllocError);
        }
        Ok(self.text)
    }

    /// The text alone; `AllocError` where memory was refused to a part of it.
    pub fn done(self) -> Result<String, AllocError> {
        let (text, _mentions, _facts) = self.into_text()?.into_parts();
        Ok(text)
    }
}

/// A list that grows. Where memory is refused to an item, no list comes of it.
#[derive(Drop)]
pub struct ListBuilder<T: Drop> {
    list: Vec<T>,
    is_refused: bool,
}

impl<T: Drop> ListBuilder<T> {
    pub fn new(alloc: Global) -> ListBuilder<T> {
        ListBuilder {
            list: Vec::new(alloc),
            is_refused: false,
        }
    }

    /// Puts an item after the list.
    pub fn add(&mut self, item: T) {
        if self.list.push(item).is_err() {
            self.is_refused = true;
        }
    }

    pub fn alloc(&self) -> Global {
        *self.list.allocator()
    }

    /// The list so far.
    pub fn list(&self) -> &[T] {
        &self.list
    }

    /// The list; `AllocError` where memory was refused to an item.
    pub fn done(self) -> Result<Vec<T>, AllocError> {
        if self.is_refused {
            return Err(AllocError);
        }
        Ok(self.list)
    }
}

impl ListBuilder<String> {
    /// Puts a text after the list; refuses the list where memory was refused to the text.
    pub fn add_words(&mut self, words: TextBuilder) {
        match words.done() {
            Ok(text) => self.add(text),
            Err(AllocError) => self.is_refused = true,
        }
    }
}

impl ListBuilder<Text> {
    /// Puts a text with what it names and tells after the list; refuses the list where memory was refused to
    /// the text.
    pub fn add_text(&mut self, words: TextBuilder) {
        match words.into_text() {
            Ok(text) => self.add(text),
            Err(AllocError) => self.is_refused = true,
        }
    }
}
