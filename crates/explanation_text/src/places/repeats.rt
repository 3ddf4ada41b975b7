//! Keys that an object has twice.

use crate::places::keys::Span;
use crate::places::machine::Machine;
use crate::places::skipping::keys_in;
use crate::places::taken::{Halt, Mark};
use serde_json::Value;
use std::alloc::{AllocError, Global};

/// How many keys of one object are compared with the next.
const MOST_KEYS: usize = 64;

/// A key of an object that is open.
#[derive(Clone, Copy)]
struct Key {
    /// How many lists and objects are open around its value.
    depth: usize,
    span: Span,
}

/// The first keys, up to a number, that stand in their object before, each as it is written first
/// and again: of these values the last counts. Of one object the first 64 keys are compared with
/// those that follow. The text spells this value.
pub fn repeated_keys(
    alloc: Global,
    bytes: &[u8],
    whole: &Value,
    most: usize,
) -> Result<Vec<(Span, Span)>, AllocError> {
    let mut repeats = Vec::new(alloc);
    if keys_in(bytes) == members_in(alloc, whole, bytes.len())? {
        return Ok(repeats);
    }
    let mut machine = Machine::new(alloc);
    let mut keys = Vec::new(alloc);
    note_all(&mut machine, bytes, most, &mut keys, &mut repeats)?;
    Ok(repeats)
}

/// How many members the objects of a value have, of so many lists and objects at most.
fn members_in(alloc: Global, whole: &Value, most: usize) -> Result<usize, AllocError> {
    let mut left: Vec<&Value> = Vec::new(alloc);
    left.push(whole)?;
    let mut members = 0usize;
    for _value in 0..most {
        match left.pop() {
            Some(value) => members = members.saturating_add(take_apart(&mut left, value)?),
            None => break,
        }
    }
    Ok(members)
}

/// Adds the lists and objects in a value to others; says how many members it has itself.
fn take_apart<'a>(left: &mut Vec<&'a Value>, value: &'a Value) -> Result<usize, AllocError> {
    if let Value::Array(items) = value {
        for item in items {
            add_inner(left, item)?;
        }
    }
    let Value::Object(members) = value else {
        return Ok(0);
    };
    for (_, member) in members.iter() {
        add_inner(left, member)?;
    }
    Ok(members.len())
}

/// Adds a value to others if it is a list or an object.
fn add_inner<'a>(left: &mut Vec<&'a Value>, value: &'a Value) -> Result<(), AllocError> {
    if let Value::Array(_) | Value::Object(_) = value {
        left.push(value)?;
    }
    Ok(())
}

/// Reads the text up to its end, to where it is no JSON, or to so many repeats.
fn note_all(
    machine: &mut Machine,
    bytes: &[u8],
    most: usize,
    keys: &mut Vec<Key>,
    repeats: &mut Vec<(Span, Span)>,
) -> Result<(), AllocError> {
    for (at, byte) in bytes.iter().enumerate() {
        let _ended = machine.end_number(at, *byte);
        match machine.take(at, *byte) {
            Ok(Mark::KeyEnds) => note(machine, bytes, keys, repeats)?,
            Ok(Mark::Ends) => leave(machine, keys),
            Ok(_) => {}
            Err(Halt::NoMemory) => return Err(AllocError),
            Err(Halt::Wrong(_)) => return Ok(()),
        }
        if repeats.len() >= most {
            return Ok(());
        }
    }
    Ok(())
}

/// Forgets the keys of objects that are complete: of the keys that are kept the last ones, since an
/// object's keys stand after those of the objects around it.
fn leave(machine: &Machine, keys: &mut Vec<Key>) {
    let depth = machine.open().len();
    let kept = match keys.iter().rposition(|key| key.depth <= depth) {
        Some(last) => last.saturating_add(1),
        None => 0,
    };
    keys.truncate(kept);
}

/// Keeps the key that ended, or where it stood before.
fn note(
    machine: &Machine,
    bytes: &[u8],
    keys: &mut Vec<Key>,
    repeats: &mut Vec<(Span, Span)>,
) -> Result<(), AllocError> {
    let depth = machine.open().len();
    let Some(open) = machine.open().last() else {
        return Ok(());
    };
    let span = open.key;
    let text = span.within(bytes);
    let mut others = 0usize;
    for key in keys.iter().rev() {
        if key.depth != depth {
            break;
        }
        if key.span.within(bytes) == text {
            repeats.push((key.span, span))?;
            return Ok(());
        }
        others = others.saturating_add(1);
    }
    if others < MOST_KEYS {
        keys.push(Key { depth, span })?;
    }
    Ok(())
}
