//! What is told, as one list of items.

use crate::correction::Correction;
use crate::decided::Decided;
use crate::facts::Fact;
use crate::label::Label;
use crate::markup::Standing;
use crate::snippet::Shown;
use crate::words::{Mention, Text, TextBuilder};
use std::alloc::{AllocError, Global};

/// How an item is shown.
#[derive(Clone, Copy, PartialEq, Eq)]
pub enum Kind {
    /// The answer, before all else.
    Answer,
    /// The title of a section.
    Title,
    /// Words, which may be broken at spaces.
    Words,
    /// Lines that keep their columns.
    Source,
    /// A line in a report's words, which isn't broken.
    Decision,
}

/// A line, or some, of what is told.
pub struct Item {
    /// What the text is about.
    pub label: Label,
    /// May have several lines where it is `Source`.
    pub text: String,
    /// What the text names, in order.
    pub mentions: Vec<Mention>,
    /// What the text tells, as values.
    pub facts: Vec<Fact>,
    /// Below how many items it stands.
    pub depth: usize,
    pub kind: Kind,
    /// Of a `Decision` what it decides.
    pub decided: Option<Decided>,
    /// Of a `Source` what is shown.
    pub shown: Option<Shown>,
}

impl Drop for Item {
    fn drop(self) {
        let Item {
            label: _,
            text: _,
            mentions: _,
            facts: _,
            depth: _,
            kind: _,
            decided: _,
            shown: _,
        } = self;
    }
}

impl Item {
    /// What may be meant by a part of what is shown, where that is known.
    pub fn correction(&self) -> Option<&Correction> {
        match &self.shown {
            Some(shown) => shown.correction.as_ref(),
            None => None,
        }
    }

    pub fn new(kind: Kind, depth: usize, label: Label, text: Text) -> Item {
        let (text, mentions, facts) = text.into_parts();
        Item {
            label,
            text,
            mentions,
            facts,
            depth,
            kind,
            decided: None,
            shown: None,
        }
    }
}

/// A list of items that grows. Where memory is refused to a part of it, no list comes of it.
pub struct Items {
    alloc: Global,
    list: Vec<Item>,
    is_refused: bool,
}

impl Drop for Items {
    fn drop(self) {
        let Items {
            alloc: _,
            list: _,
            is_refused: _,
        } = self;
    }
}

impl Items {
    pub fn new(alloc: Global) -> Items {
        Items {
            alloc,
            list: Vec::new(alloc),
            is_refused: false,
        }
    }

    pub fn alloc(&self) -> Global {
        self.alloc
    }

    /// Memory was refused to something that is a part of the list.
    pub fn refuse(&mut self) {
        self.is_refused = true;
    }

    /// Refuses the list where memory was refused to what was to be told.
    pub fn note(&mut self, told: Result<(), AllocError>) {
        if told.is_err() {
            self.refuse();
        }
    }

    pub fn push(&mut self, kind: Kind, depth: usize, label: Label, words: TextBuilder) {
        match words.into_text() {
            Ok(text) => self.add(Item::new(kind, depth, label, text)),
            Err(AllocError) => self.refuse(),
        }
    }

    /// Puts an item after the list.
    pub fn add(&mut self, item: Item) {
        if self.list.push(item).is_err() {
            self.refuse();
        }
    }

    /// Keeps with the last item what it shows.
    pub(crate) fn keep_shown(&mut self, shown: Shown) {
        if let Some(item) = self.list.last_mut() {
            item.shown = Some(shown);
        }
    }

    /// Tells what may be meant by a part of what the last item shows.
    pub fn correct(&mut self, correction: Correction) {
        if let Some(item) = self.list.last_mut()
            && let Some(shown) = &mut item.shown
        {
            shown.correction = Some(correction);
        }
    }

    /// Whether it is known what may be meant by a part of what the last item shows.
    pub fn is_corrected(&self) -> bool {
        match self.list.last() {
            Some(item) => item.correction().is_some(),
            None => false,
        }
    }

    /// Puts the title of a section after the list, whose part in a decision is this.
    pub fn title(&mut self, text: &str, standing: Standing) {
        let mut words = TextBuilder::of(self.alloc, text);
        words.tell(Fact::Section(standing));
        self.push(Kind::Title, 0, Label::Plain, words)
    }

    /// Puts words with a label after the list.
    pub fn say(&mut self, depth: usize, label: Label, words: TextBuilder) {
        self.push(Kind::Words, depth, label, words)
    }

    /// Puts a text with a label after the list.
    pub fn list_text(&mut self, depth: usize, label: Label, text: &str) {
        self.say(depth, label, TextBuilder::of(self.alloc, text))
    }

    /// Puts a line of a report with a label after the list, and what it decides; the label of one
    /// that would come of what stands above it is `Promised`.
    pub fn decide(&mut self, depth: usize, label: Label, line: String, decided: Decided) {
        let mentions = Vec::new(self.alloc);
        self.add(Item {
            label,
            text: line,
            mentions,
            facts: Vec::new(self.alloc),
            depth,
            kind: Kind::Decision,
            decided: Some(decided),
            shown: None,
        })
    }

    /// Puts all of another list after this one.
    pub fn append(&mut self, others: Items) {
        match others.into_list() {
            Ok(list) => self.add_each(list),
            Err(AllocError) => self.refuse(),
        }
    }

    fn add_each(&mut self, list: Vec<Item>) {
        for item in list {
            self.add(item);
        }
    }

    /// Puts the items of a section after the list, so much deeper and at most so many, and then that
    /// there are more; without its title, and who has constraints.
    pub fn append_section(
        &mut self,
        section: Items,
        deeper: usize,
        most: usize,
    ) -> Result<(), AllocError> {
        let mut told: Vec<Item> = Vec::new(self.alloc);
        for item in section.into_list()? {
            if item.kind != Kind::Title && item.label != Label::Who {
                told.push(item)?;
            }
        }
        self.append_first(told, deeper, most);
        Ok(())
    }

    /// Puts the first items of a list, so much deeper and at most so many, and then that there are
    /// more.
    fn append_first(&mut self, told: Vec<Item>, deeper: usize, most: usize) {
        let count = whole_of(&told, most);
        let is_cut = count < told.len();
        let depth = match told.first() {
            Some(item) => item.depth.saturating_add(deeper),
            None => deeper,
        };
        for (k, item) in told.into_iter().enumerate() {
            if k < count {
                let mut item = item;
                item.depth = item.depth.saturating_add(deeper);
                self.add(item);
            }
        }
        if is_cut {
            self.list_text(depth, Label::Plain, "and more of this");
        }
    }

    /// How many there are.
    pub fn len(&self) -> usize {
        self.list.len()
    }

    /// Whether there are none.
    pub fn is_empty(&self) -> bool {
        self.list.is_empty()
    }

    pub fn list(&self) -> &[Item] {
        &self.list
    }

    /// The list; `AllocError` where memory was refused to a part of it.
    pub fn into_list(self) -> Result<Vec<Item>, AllocError> {
        let Items {
            list,
            is_refused,
            alloc: _,
        } = self;
        if is_refused {
            Err(AllocError)
        } else {
            Ok(list)
        }
    }
}

/// Whether two lists say the same; not where memory was refused to a part of one.
pub fn are_same(a: &Items, b: &Items) -> bool {
    !a.is_refused
        && !b.is_refused
        && a.list.len() == b.list.len()
        && a.list.iter().zip(&b.list).all(|(x, y)| is_same(x, y))
}

fn is_same(a: &Item, b: &Item) -> bool {
    a.label == b.label
        && a.depth == b.depth
        && a.text.as_str() == b.text.as_str()
        && a.mentions == b.mentions
}

/// How many items are put of which there may be so many: the last of them heads none that is cut.
fn whole_of(items: &[Item], most: usize) -> usize {
    let most = items.len().min(most);
    for count in (1..most.saturating_add(1)).rev() {
        if !heads_next(items, count.saturating_sub(1)) {
            return count;
        }
    }
    0
}

/// Whether the item of an index stands above the next one.
fn heads_next(items: &[Item], index: usize) -> bool {
    match (items.get(index), items.get(index.saturating_add(1))) {
        (Some(item), Some(next)) => item.depth < next.depth,
        _ => false,
    }
}
