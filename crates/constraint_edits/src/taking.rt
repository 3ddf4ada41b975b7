//! Constraints that take a colour space more, in all entries or in one, or take one alone; or a format
//! with a modifier more; or have another entry first.

use crate::edits::{EditedRecord, with_entries};
use crate::objects::{entries_of, lacking, text_value, with};
use crate::several::ChangedEntries;
use explanation_text::wording::put_few;
use explanation_text::{Deed, Fact, ListBuilder, TextBuilder};
use serde_json::Value;
use std::alloc::{AllocError, Global};
use sysmem_counts::Field;
use sysmem_formats::{ColourSpace, Modifier, Pair, PixelFormat};

const COLOURS: &str = "color_spaces";

/// The name that stands for any colour space.
const ANY: &str = "DO_NOT_CARE";

const FORMAT: &str = "pixel_format";

const MODIFIER: &str = "pixel_format_modifier";

/// The names in a list of texts.
fn names_in<'a>(alloc: Global, list: Option<&'a Value>) -> Result<Vec<&'a str>, AllocError> {
    let mut names = Vec::new(alloc);
    if let Some(items) = list.and_then(Value::as_array) {
        for item in items {
            names.push(item.as_str().unwrap_or(""))?;
        }
    }
    Ok(names)
}

/// The constraints with a colour space more in each entry, or alone in each that takes it; `None`
/// where that changes none, or takes other colour spaces out of each.
pub(crate) fn taking_colour(
    alloc: Global,
    value: &Value,
    colour: &str,
    is_alone: bool,
) -> Result<Option<EditedRecord>, AllocError> {
    let mut changed = ChangedEntries::none(alloc);
    let mut copy = ListBuilder::new(alloc);
    for (index, entry) in entries_of(value).iter().enumerate() {
        let names = names_in(alloc, entry.get(COLOURS))?;
        if !is_recoloured(&names, colour, is_alone) {
            copy.add(entry.clone()?);
            continue;
        }
        let words = words_of(alloc, colour, &names, is_alone);
        changed.add(index, words.into_text()?)?;
        copy.add(with_colour(alloc, entry, colour, is_alone)?);
    }
    if is_alone && !changed.are_alike {
        return Ok(None);
    }
    let words = changed.into_words(words_beside(alloc, colour, &[]))?;
    with_entries(alloc, value, copy.done()?, words)
}

/// The constraints with a colour space more in the entry of an index, from 0; `None` where there is
/// none, or it takes that.
pub(crate) fn taking_colour_in(
    alloc: Global,
    value: &Value,
    colour: &str,
    index: usize,
) -> Result<Option<EditedRecord>, AllocError> {
    let Some(entry) = lacking_colour(alloc, value, colour, index)? else {
        return Ok(None);
    };
    let names = names_in(alloc, entry.get(COLOURS))?;
    let mut words = words_beside(alloc, colour, &names);
    words
        .put(" in entry ")
        .put_number(index.saturating_add(1))
        .put(" (");
    put_named(&mut words, entry);
    words.put(")");
    let mut copy = ListBuilder::new(alloc);
    for (k, other) in entries_of(value).iter().enumerate() {
        if k == index {
            copy.add(with_colour(alloc, other, colour, false)?);
        } else {
            copy.add(other.clone()?);
        }
    }
    with_entries(alloc, value, copy.done()?, words.into_text()?)
}

/// The entry of an index, from 0, if there is one and it doesn't name a colour space.
fn lacking_colour<'a>(
    alloc: Global,
    value: &'a Value,
    colour: &str,
    index: usize,
) -> Result<Option<&'a Value>, AllocError> {
    let Some(entry) = entries_of(value).get(index) else {
        return Ok(None);
    };
    let names = names_in(alloc, entry.get(COLOURS))?;
    Ok(if is_recoloured(&names, colour, false) {
        Some(entry)
    } else {
        None
    })
}

/// Whether there is an entry of an index, from 0, which doesn't name a colour space.
pub(crate) fn recolours_in(
    alloc: Global,
    value: &Value,
    colour: &str,
    index: usize,
) -> Result<bool, AllocError> {
    Ok(lacking_colour(alloc, value, colour, index)?.is_some())
}

/// The indices of the entries, from 0, that don't name a colour space; none where a record has one
/// entry alone, which needn't be told apart.
pub fn entries_without(
    alloc: Global,
    value: &Value,
    colour: ColourSpace,
) -> Result<Vec<usize>, AllocError> {
    let mut indices = Vec::new(alloc);
    let entries = entries_of(value);
    if entries.len() < 2 {
        return Ok(indices);
    }
    for (index, entry) in entries.iter().enumerate() {
        let names = names_in(alloc, entry.get(COLOURS))?;
        if is_recoloured(&names, colour.name(), false) {
            indices.push(index)?;
        }
    }
    Ok(indices)
}

/// Whether the colour spaces of an entry are others with one more, or with that alone.
pub(crate) fn recolours(
    alloc: Global,
    value: &Value,
    colour: &str,
    is_alone: bool,
) -> Result<bool, AllocError> {
    for entry in entries_of(value) {
        if is_recoloured(&names_in(alloc, entry.get(COLOURS))?, colour, is_alone) {
            return Ok(true);
        }
    }
    Ok(false)
}

/// Whether the colour spaces of these names are others with one more, or with that alone, if they
/// have it.
fn is_recoloured(names: &[&str], colour: &str, is_alone: bool) -> bool {
    let has = names.iter().any(|name| *name == colour);
    if is_alone {
        has && names.len() > 1 || names.iter().any(|name| *name == ANY)
    } else {
        !has
    }
}

/// What is changed in an entry with these colour spaces.
fn words_of(alloc: Global, colour: &str, names: &[&str], is_alone: bool) -> TextBuilder {
    if is_alone {
        words_alone(alloc, colour, names)
    } else {
        words_beside(alloc, colour, names)
    }
}

/// `color_spaces SRGB and REC709 becomes REC709`.
fn words_alone(alloc: Global, colour: &str, names: &[&str]) -> TextBuilder {
    let mut words = TextBuilder::new(alloc);
    words.field(Field::ColorSpaces).put(" ");
    let start = words.len();
    put_few(&mut words, names, 3);
    let was = words.since(start);
    words.put(" becomes ");
    let start = words.len();
    words.put(colour);
    let value = words.since(start);
    words.tell(Fact::Change(Deed::Set {
        field: Field::ColorSpaces,
        was: Some(was),
        value,
    }));
    words
}

/// `color_spaces SRGB, with REC709 too`, or without names `color_spaces with REC709 too`.
fn words_beside(alloc: Global, colour: &str, names: &[&str]) -> TextBuilder {
    let mut words = TextBuilder::new(alloc);
    words.field(Field::ColorSpaces).put(" ");
    if !names.is_empty() {
        put_few(&mut words, names, 3);
        words.put(", ");
    }
    words.put("with ");
    let start = words.len();
    words.put(colour);
    let added = words.since(start);
    words.put(" too");
    words.tell(Fact::Change(Deed::Add(Field::ColorSpaces, added)));
    words
}

/// An entry with a colour space more, or with that alone.
fn with_colour(
    alloc: Global,
    entry: &Value,
    colour: &str,
    is_alone: bool,
) -> Result<Value, AllocError> {
    let mut list = ListBuilder::new(alloc);
    if let (Some(items), false) = (entry.get(COLOURS).and_then(Value::as_array), is_alone) {
        for item in items {
            list.add(item.clone()?);
        }
    }
    list.add(text_value(alloc, colour)?);
    with(alloc, Some(entry), COLOURS, Value::Array(list.done()?))
}

/// The constraints with an entry for a format and modifier before the others, which is else like
/// the first that names this format, or like the first of all where none does; `None` where there
/// is no entry.
pub(crate) fn taking_pair(
    alloc: Global,
    value: &Value,
    pair: Pair,
) -> Result<Option<EditedRecord>, AllocError> {
    let entries = entries_of(value);
    let format = pair.format.name();
    let index = first_naming(entries, format);
    let Some(like) = entries.get(index) else {
        return Ok(None);
    };
    let mut copy = ListBuilder::new(alloc);
    copy.add(naming(alloc, like, pair)?);
    for entry in entries {
        copy.add(entry.clone()?);
    }
    let words = words_on(alloc, like, index, pair);
    with_entries(alloc, value, copy.done()?, words.into_text()?)
}

/// The index of the first entry that names a format as its own; 0 where none does.
pub(crate) fn first_naming(entries: &[Value], format: &str) -> usize {
    for (index, entry) in entries.iter().enumerate() {
        if names_format(entry, format) {
            return index;
        }
    }
    0
}

/// Whether an entry names a format as its own.
fn names_format(entry: &Value, format: &str) -> bool {
    match text_in(entry, FORMAT) {
        Some(name) => name == format,
        None => false,
    }
}

/// The constraints with the entry of an index, from 0, before the others; `None` where it is the
/// first, or there is none.
pub(crate) fn putting_first(
    alloc: Global,
    value: &Value,
    index: usize,
) -> Result<Option<EditedRecord>, AllocError> {
    let entries = entries_of(value);
    let Some(entry) = entries.get(index) else {
        return Ok(None);
    };
    if index == 0 {
        return Ok(None);
    }
    let mut copy = ListBuilder::new(alloc);
    copy.add(entry.clone()?);
    for (k, other) in entries.iter().enumerate() {
        if k != index {
            copy.add(other.clone()?);
        }
    }
    let shown = index.saturating_add(1);
    let mut words = TextBuilder::of(alloc, "entry ");
    words.put_number(shown).put(" (");
    put_named(&mut words, entry);
    words.put(") put first");
    words.tell(Fact::Change(Deed::PutFirst(shown)));
    with_entries(alloc, value, copy.done()?, words.into_text()?)
}

/// An entry for a format and modifier alone, else like this one.
fn naming(alloc: Global, entry: &Value, pair: Pair) -> Result<Value, AllocError> {
    let single = lacking(alloc, entry, "pixel_format_and_modifiers")?;
    let format = text_value(alloc, pair.format.name())?;
    let named = with(alloc, Some(&single), FORMAT, format)?;
    let modifier = text_value(alloc, pair.modifier.name())?;
    with(alloc, Some(&named), MODIFIER, modifier)
}

/// `pixel_format NV12 LINEAR too, in an entry before the others that is else like the first
/// (YUY2)`, or `like entry 2 (..)`.
fn words_on(alloc: Global, like: &Value, index: usize, pair: Pair) -> TextBuilder {
    let mut words = TextBuilder::new(alloc);
    words.field(Field::PixelFormat).put(" ");
    let start = words.len();
    words.format(pair.format).put(" ").modifier(pair.modifier);
    let taken = words.since(start);
    words.tell(Fact::Change(Deed::AddEntry(taken)));
    words.put(" too, in an entry before the others that is else like ");
    if index == 0 {
        words.put("the first (");
    } else {
        let shown = index.saturating_add(1);
        words.put("entry ").put_number(shown).put(" (");
    }
    put_named(&mut words, like);
    words.put(")");
    words
}

/// Puts the format and the modifier that an entry names after a text.
fn put_named(text: &mut TextBuilder, entry: &Value) {
    let name = text_in(entry, FORMAT).unwrap_or("several pairs");
    match PixelFormat::from_name(name) {
        Some(format) => text.format(format),
        None => text.put(name),
    };
    if let Some(name) = text_in(entry, MODIFIER) {
        text.put(" ");
        match Modifier::from_name(name) {
            Some(modifier) => text.modifier(modifier),
            None => text.put(name),
        };
    }
}

fn text_in<'a>(entry: &'a Value, key: &str) -> Option<&'a str> {
    entry.get(key)?.as_str()
}
