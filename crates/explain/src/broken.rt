//! What a script means that is no JSON, once it is corrected where it stops being some.

use crate::corrected::{FARTHEST, add_answer, add_too_long, is_too_long, no_story};
use crate::drafts::spelled;
use crate::mended::mended;
use crate::mended_words::put_corrections;
use explanation_text::wording::put_few;
use explanation_text::{Items, JsonStop, Label, ListBuilder, Text, TextBuilder, stop_of};
use script_faults::Document;
use script_reading::{ParseFault, parse_script};
use serde_json::Value;
use std::alloc::{AllocError, Global};
use std::slice::from_ref;

/// How many places are corrected.
const MOST: usize = 40;
/// How many places are told.
const MOST_TOLD: usize = 4;

/// A text that is JSON, and what was corrected in it.
#[derive(Drop)]
struct Whole {
    bytes: Vec<u8>,
    said: Vec<Text>,
}

/// What a script has once it is corrected where it stops being JSON, if there it is known what may
/// be meant.
pub(crate) fn corrected_json(alloc: Global, document: &Document<'_>) -> Result<Items, AllocError> {
    let mut items = Items::new(alloc);
    // For each place that is corrected the text is gone through.
    if is_too_long(document) {
        add_too_long(&mut items, "what comes once this is corrected");
        return Ok(items);
    }
    let Some(whole) = whole_of(alloc, document)? else {
        return Ok(items);
    };
    match parse_script(alloc, &whole.bytes) {
        Ok(value) => add_whole(&mut items, document, &whole, &value)?,
        Err(ParseFault::NoMemory) => return Err(AllocError),
        Err(ParseFault::Refused(_)) => {}
    }
    Ok(items)
}

/// Tells what was corrected, and what the script has then.
fn add_whole(
    items: &mut Items,
    document: &Document<'_>,
    whole: &Whole,
    value: &Value,
) -> Result<(), AllocError> {
    let mut words = TextBuilder::of(items.alloc(), "with ");
    put_few(&mut words, &whole.said, MOST_TOLD);
    words.put(" the script has:");
    items.say(1, Label::Then, words);
    let other = Document {
        file: document.file,
        bytes: &whole.bytes,
        value,
        whole: document.whole,
    };
    let now = no_story(items.alloc());
    let levels = FARTHEST.saturating_sub(1);
    add_answer(items, &spelled(other), None, Some(&now), levels)
}

/// The text, corrected place by place until it is JSON; `None` where it isn't known what is meant at
/// one, or there are many.
fn whole_of(alloc: Global, document: &Document<'_>) -> Result<Option<Whole>, AllocError> {
    if std::str::from_utf8(document.bytes).is_err() {
        return Ok(None);
    }
    let mut bytes = Vec::from_slice(alloc, document.bytes)?;
    let mut said = ListBuilder::new(alloc);
    for _place in 0..MOST {
        let Some(stop) = stop_of(alloc, &bytes)? else {
            let said = said.done()?;
            return Ok(Some(Whole { bytes, said }));
        };
        let JsonStop {
            at: _,
            expected: _,
            help: _,
            meant,
        } = stop;
        let Some(one) = meant else {
            return Ok(None);
        };
        let now = Document {
            file: document.file,
            bytes: &bytes,
            value: document.value,
            whole: document.whole,
        };
        let mut words = TextBuilder::new(alloc);
        put_corrections(&mut words, &now, from_ref(&&one))?;
        said.add_text(words);
        match mended(alloc, &now, from_ref(&&one))? {
            Some(next) => bytes = next,
            None => return Ok(None),
        }
    }
    Ok(None)
}
