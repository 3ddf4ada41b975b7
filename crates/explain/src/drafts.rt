//! A script that is told of, and the text that has its calls, be it elsewhere.

use crate::corrected::is_too_long;
use explanation_text::{Item, Items, ListBuilder, Step, Thing};
use record_reading::Fault;
use script_faults::{Document, add_record_fault};
use script_replay::Reply;
use script_story::{Story, list_refused};
use serde_json::{Value, put};
use std::alloc::{AllocError, Global};

const CALLS: &str = "calls";

const CONSTRAINTS: &str = "constraints";

/// A script that is told of.
#[derive(Clone, Copy)]
pub(crate) struct Draft<'a> {
    /// The script; its bytes are none where calls aren't in the lines that the text has them in.
    pub(crate) document: Document<'a>,
    /// The text whose calls are made, and what it spells.
    pub(crate) text: Document<'a>,
    /// Which of the text's calls each call is, from 0; beyond all where it is added. Empty where each
    /// call is the one in its place.
    pub(crate) order: &'a [usize],
    /// Whether the text spells the script.
    pub(crate) is_spelled: bool,
}

/// The script that a text spells.
pub(crate) fn spelled<'a>(text: Document<'a>) -> Draft<'a> {
    Draft {
        document: text,
        text,
        order: &[],
        is_spelled: true,
    }
}

/// A script with calls made otherwise than in a draft, each of them this one of the text.
pub(crate) fn remade<'a>(
    draft: &Draft<'a>,
    value: &'a Value,
    order: &'a [usize],
    is_in_place: bool,
) -> Draft<'a> {
    Draft {
        document: Document {
            file: draft.document.file,
            bytes: if is_in_place {
                draft.document.bytes
            } else {
                &[]
            },
            value,
            whole: draft.document.whole,
        },
        text: draft.text,
        order,
        is_spelled: false,
    }
}

/// A draft whose calls state what a corrected text states.
pub(crate) fn restated<'a>(draft: &Draft<'a>, text: Document<'a>, value: &'a Value) -> Draft<'a> {
    Draft {
        document: Document {
            file: text.file,
            bytes: if draft.document.bytes.is_empty() {
                &[]
            } else {
                text.bytes
            },
            value,
            whole: text.whole,
        },
        text,
        order: draft.order,
        is_spelled: false,
    }
}

/// Which of the text's calls the call of an index is.
fn place_of(draft: &Draft<'_>, index: usize) -> usize {
    if draft.order.is_empty() {
        return index;
    }
    draft.order.get(index).copied().unwrap_or(usize::MAX)
}

/// Which of the text's calls those of a draft are in this order, which is empty where it is the
/// draft's.
pub(crate) fn places_of(
    alloc: Global,
    draft: &Draft<'_>,
    order: &[usize],
) -> Result<Vec<usize>, AllocError> {
    if order.is_empty() {
        return Vec::from_slice(alloc, draft.order);
    }
    let mut places = ListBuilder::new(alloc);
    for index in order {
        places.add(place_of(draft, *index));
    }
    places.done()
}

/// What is told of the calls that were refused, with the faults of their constraints where the text
/// has them.
pub(crate) fn shown_calls(
    alloc: Global,
    draft: &Draft<'_>,
    story: &Story<'_>,
) -> Result<Vec<Item>, AllocError> {
    let unplaced = Document {
        file: draft.text.file,
        bytes: &[],
        value: &Value::Null,
        whole: draft.text.whole,
    };
    let mut rows = Items::new(alloc);
    list_refused(&mut rows, &unplaced, story)?;
    let mut shown = Items::new(alloc);
    for row in rows.into_list()? {
        let fault = fault_in(story, &row);
        shown.add(row);
        match fault {
            Some((index, fault)) if !is_too_long(&draft.text) => {
                add_placed(&mut shown, draft, index, fault)?
            }
            _ => {}
        }
    }
    shown.into_list()
}

/// The fault of the constraints of the call of which a row tells, by index, if they have one.
fn fault_in(story: &Story<'_>, row: &Item) -> Option<(usize, Fault)> {
    let Thing::Call(number) = row.mentions.first()?.thing else {
        return None;
    };
    match story.call(number)?.reply {
        Reply::Misread(fault) => Some((number.saturating_sub(1), fault)),
        _ => None,
    }
}

/// Tells the fault of the constraints of the call of an index where the text has it.
fn add_placed(
    items: &mut Items,
    draft: &Draft<'_>,
    index: usize,
    fault: Fault,
) -> Result<(), AllocError> {
    let base = [
        Step::Key(CALLS),
        Step::Item(place_of(draft, index)),
        Step::Key(CONSTRAINTS),
    ];
    add_record_fault(items, 2, &draft.text, &base, fault, false)
}

/// The script of a draft whose calls state what another text states that has the same calls, where
/// that is something else.
pub(crate) fn with_stated(
    alloc: Global,
    draft: &Draft<'_>,
    text: &Document<'_>,
) -> Result<Value, AllocError> {
    let mut copy = draft.document.value.clone()?;
    if let Some(Value::Array(calls)) = copy.get_mut(CALLS) {
        let list = all_stated(alloc, calls, draft, text)?;
        *calls = list;
    }
    Ok(copy)
}

/// The same of its calls.
fn all_stated(
    alloc: Global,
    calls: &[Value],
    draft: &Draft<'_>,
    text: &Document<'_>,
) -> Result<Vec<Value>, AllocError> {
    let mut list = ListBuilder::new(alloc);
    for (index, call) in calls.iter().enumerate() {
        let made = stated_in(alloc, call, draft, text, index)?;
        list.add(made);
    }
    list.done()
}

/// The call of an index, with what another text states there, if that is something else.
fn stated_in(
    alloc: Global,
    call: &Value,
    draft: &Draft<'_>,
    text: &Document<'_>,
    index: usize,
) -> Result<Value, AllocError> {
    let path = [
        Step::Key(CALLS),
        Step::Item(place_of(draft, index)),
        Step::Key(CONSTRAINTS),
    ];
    let mut made = call.clone()?;
    let (Some(before), Some(after)) = (draft.text.at(&path), text.at(&path)) else {
        return Ok(made);
    };
    let was = before.to_string(alloc)?;
    let is = after.to_string(alloc)?;
    if let Value::Object(members) = &mut made
        && was != is
    {
        put(members, alloc, CONSTRAINTS, after.clone()?)?;
    }
    Ok(made)
}
