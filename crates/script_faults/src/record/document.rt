//! The text of a script or of a record with the value that it spells, and pointing at a part of it.

ghost use Rattle.std.specs.Prelude.{◌≡◌, ◌≢◌, IfOk, IfSome, option_map};
ghost use Rattle.serde_json.specs.View.{view};
ghost use Rattle.explanation_text.specs.Places.{IsPlaceOf, value_on};
ghost use Rattle.script_faults.specs.declared.record.document.RecordPart.TheVariants.{Key};

use crate::help::Help;
use crate::record::paths::put_path;
use explanation_text::{
    Correction, Items, Label, Mark, Meant, Span, Step, TextBuilder, key_span_of, show, span_of,
    value_at,
};
use serde_json::Value;
use std::alloc::{AllocError, Global};
use std::slice::from_ref;

/// What of a place is marked: where something is missing its first byte alone.
fn pointed(span: Span, part: RecordPart) -> Span {
    match part {
        RecordPart::Begin => Span {
            start: span.start,
            end: span.start.saturating_add(1),
        },
        _ => span,
    }
}

/// Says what is wrong at a path that isn't found in the text.
fn add_unplaced(items: &mut Items, depth: usize, path: &str, note: &str) {
    let mut words = TextBuilder::of(items.alloc(), ": ");
    words.put(path).put(": ").put(note);
    items.say(depth, Label::Plain, words)
}

/// Keeps with the last item what may be meant by a part, where that is found.
fn keep(items: &mut Items, found: Result<Option<Span>, AllocError>, meant: Meant) {
    match found {
        Ok(Some(span)) => items.correct(Correction { span, meant }),
        Ok(None) => {}
        Err(AllocError) => items.refuse(),
    }
}

/// The same of a text of JSON.
fn keep_written(items: &mut Items, found: Result<Option<Span>, AllocError>, written: TextBuilder) {
    match written.done() {
        Ok(written) => keep(items, found, Meant::Written(written)),
        Err(AllocError) => items.refuse(),
    }
}

/// `calls[4].constraints`, or `the script`.
fn path_words(alloc: Global, path: &[Step<'_>], whole: Whole) -> TextBuilder {
    let mut words = TextBuilder::new(alloc);
    if path.is_empty() {
        words.put(whole.words());
    }
    put_path(&mut words, path);
    words
}

/// What a text stands for as a whole.
#[derive(Clone, Copy, PartialEq, Eq)]
pub enum Whole {
    Script,
    Record,
}

impl Whole {
    fn words(self) -> &'static str {
        match self {
            Whole::Script => "the script",
            Whole::Record => "the record",
        }
    }
}

/// The text of a script, or of a record that stands alone.
#[derive(Clone, Copy)]
pub struct Document<'a> {
    /// The name of its file, as it was given.
    pub file: &'a str,
    pub bytes: &'a [u8],
    /// What the text spells.
    pub value: &'a Value,
    pub whole: Whole,
}

/// What of a member is pointed at.
#[derive(Clone, Copy, PartialEq, Eq)]
pub enum RecordPart {
    Value,
    Key,
    /// Where it begins, as something is missing in it.
    Begin,
}

impl<'a> Document<'a> {
    /// The value at a path.
    pub fn at(&self, path: &[Step<'_>]) -> Option<&'a Value>
        ensures { option_map (λ found. view found.now) result
            ≡ value_on path.now (view self.now.value.now) }
    {
        value_at(self.value, path)
    }

    /// Where the value at a path or its key stands, if it does.
    pub fn span(
        &self,
        alloc: Global,
        path: &[Step<'_>],
        part: RecordPart,
    ) -> Result<Option<Span>, AllocError>
        ensures { part ≢ Key → IfOk result (λ span. IfSome span
            (IsPlaceOf self.now.bytes.now path.now (view self.now.value.now))) }
    {
        if part == RecordPart::Key {
            return key_span_of(alloc, self.bytes, path);
        }
        span_of(alloc, self.bytes, path, self.value)
    }

    /// How the value at a path is written.
    pub fn written(&self, alloc: Global, path: &[Step<'_>]) -> Result<&'a [u8], AllocError> {
        match self.span(alloc, path, RecordPart::Value)? {
            Some(span) => Ok(span.within(self.bytes)),
            None => Ok(&[]),
        }
    }

    /// Puts a part of the text with carets below it, a note, and what helps after the items.
    pub fn point(
        &self,
        items: &mut Items,
        depth: usize,
        path: &[Step<'_>],
        part: RecordPart,
        note: &str,
        helps: &[String],
    ) {
        let alloc = items.alloc();
        let said = path_words(alloc, path, self.whole);
        match (self.span(alloc, path, part), said.done()) {
            (Ok(Some(span)), Ok(said)) => {
                self.show(items, depth, pointed(span, part), &said, note, helps)
            }
            (Ok(None), Ok(said)) => add_unplaced(items, depth, &said, note),
            _ => items.refuse(),
        }
    }

    /// The same with one sentence of what helps, and what may be meant.
    pub fn advise(
        &self,
        items: &mut Items,
        depth: usize,
        path: &[Step<'_>],
        part: RecordPart,
        note: &str,
        help: Help,
    ) {
        let (words, meant) = help.into_parts();
        match words.done() {
            Ok(words) => {
                self.point(items, depth, path, part, note, from_ref(&words));
                self.correct(items, path, part, meant)
            }
            Err(AllocError) => items.refuse(),
        }
    }

    /// Keeps with the last item what may be meant by a part of the value at a path.
    pub(crate) fn correct(
        &self,
        items: &mut Items,
        path: &[Step<'_>],
        part: RecordPart,
        meant: Option<Meant>,
    ) {
        if let Some(meant) = meant {
            let span = self.span(items.alloc(), path, part);
            keep(items, span, meant)
        }
    }

    /// Keeps with the last item that another value may be meant at a path, which is written as JSON.
    pub(crate) fn replace(&self, items: &mut Items, path: &[Step<'_>], written: TextBuilder) {
        let span = self.span(items.alloc(), path, RecordPart::Value);
        keep_written(items, span, written)
    }

    /// Keeps with the last item that the member or the item of a list at a path may be left out.
    pub fn leave_out(&self, items: &mut Items, path: &[Step<'_>]) {
        self.mean(items, path, Meant::Nothing)
    }

    /// Keeps with the last item what may be meant by the member or the item of a list at a path.
    pub(crate) fn mean(&self, items: &mut Items, path: &[Step<'_>], meant: Meant) {
        let span = self.whole_span(items.alloc(), path);
        keep(items, span, meant)
    }

    /// Keeps with the last item that the object at a path may lack a member with this value, which
    /// is written as JSON; but not one with escapes, which isn't told as it reads.
    pub(crate) fn add_member(
        &self,
        items: &mut Items,
        path: &[Step<'_>],
        key: &str,
        written: TextBuilder,
    ) {
        if written.as_str().contains('\\') {
            return;
        }
        let alloc = items.alloc();
        let mut member = TextBuilder::of(alloc, "\"");
        member.put(key).put("\": ").put_words(&written).put(", ");
        let span = self.begin_of(alloc, path);
        keep_written(items, span, member)
    }

    /// Where the first member of the object at a path would stand, if that has members.
    fn begin_of(&self, alloc: Global, path: &[Step<'_>]) -> Result<Option<Span>, AllocError> {
        let at = self.first_place(alloc, path)?;
        Ok(at.map(|at| Span { start: at, end: at }))
    }

    /// The byte behind the bracket of the object at a path, if that has members.
    pub(crate) fn first_place(
        &self,
        alloc: Global,
        path: &[Step<'_>],
    ) -> Result<Option<usize>, AllocError> {
        match self.at(path).and_then(Value::as_object) {
            Some(members) if !members.is_empty() => {}
            _ => return Ok(None),
        }
        let span = self.span(alloc, path, RecordPart::Value)?;
        Ok(span.map(|span| span.start.saturating_add(1)))
    }

    /// Where the member at a path stands, its key among it; or an item of a list.
    fn whole_span(&self, alloc: Global, path: &[Step<'_>]) -> Result<Option<Span>, AllocError> {
        let Some(value) = self.span(alloc, path, RecordPart::Value)? else {
            return Ok(None);
        };
        let Some(Step::Key(_)) = path.last() else {
            return Ok(Some(value));
        };
        let key = self.span(alloc, path, RecordPart::Key)?;
        Ok(key.map(|key| Span {
            start: key.start,
            end: value.end,
        }))
    }

    /// The same with a note that is put together.
    pub fn tell(
        &self,
        items: &mut Items,
        depth: usize,
        path: &[Step<'_>],
        part: RecordPart,
        note: TextBuilder,
        help: Help,
    ) {
        match note.done() {
            Ok(note) => self.advise(items, depth, path, part, &note, help),
            Err(AllocError) => items.refuse(),
        }
    }

    /// Points at a part with a note that is put together, where nothing helps.
    pub(crate) fn note(
        &self,
        items: &mut Items,
        depth: usize,
        path: &[Step<'_>],
        part: RecordPart,
        note: TextBuilder,
    ) {
        match note.done() {
            Ok(note) => self.point(items, depth, path, part, &note, &[]),
            Err(AllocError) => items.refuse(),
        }
    }

    /// Points at a part that is known, with the path to it in words.
    pub fn show(
        &self,
        items: &mut Items,
        depth: usize,
        span: Span,
        path: &str,
        note: &str,
        helps: &[String],
    ) {
        show(
            items,
            depth,
            self.file,
            self.bytes,
            Mark { span, path, note },
            helps,
        )
    }
}
