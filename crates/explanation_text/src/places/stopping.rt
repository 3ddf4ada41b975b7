//! Where a text that is no JSON can't be continued to some.

use crate::correction::Correction;
use crate::places::helping::help_of;
use crate::places::machine::Machine;
use crate::places::mending::mend_of;
use crate::places::taken::{Expected, Halt};
use serde_json::Value;
use std::alloc::{AllocError, Global};

/// Where a text stops being the beginning of JSON.
#[derive(Drop)]
pub struct JsonStop {
    /// The byte that can't stand there, or the length of the text.
    pub at: usize,
    pub expected: Expected,
    /// What may help, in words; empty where nothing is known.
    pub help: String,
    /// What may be meant, where that is known.
    pub meant: Option<Correction>,
}

/// The first byte from which on the text is no beginning of JSON, or its end where it is one that
/// isn't complete; `None` where it is JSON. The text is taken as UTF-8.
pub fn stop_of(alloc: Global, bytes: &[u8]) -> Result<Option<JsonStop>, AllocError> {
    let mut machine = Machine::new(alloc);
    match end_of_json(alloc, &mut machine, bytes)? {
        Some((at, expected)) => stopped(alloc, &machine, bytes, at, expected),
        None => Ok(None),
    }
}

/// Whether a text is JSON.
pub(crate) fn is_json(alloc: Global, bytes: &[u8]) -> Result<bool, AllocError> {
    let mut machine = Machine::new(alloc);
    Ok(end_of_json(alloc, &mut machine, bytes)?.is_none())
}

/// Where the text stops being the beginning of JSON, and what the grammar allows there.
fn end_of_json(
    alloc: Global,
    machine: &mut Machine,
    bytes: &[u8],
) -> Result<Option<(usize, Expected)>, AllocError> {
    for (at, byte) in bytes.iter().enumerate() {
        if machine.end_number(at, *byte) && is_too_great(alloc, machine, bytes, at)? {
            return Ok(Some((machine.begin(), Expected::Smaller)));
        }
        match machine.take(at, *byte) {
            Ok(_) => {}
            Err(Halt::NoMemory) => return Err(AllocError),
            Err(Halt::Wrong(expected)) => return Ok(Some((at, expected))),
        }
    }
    let end = bytes.len();
    match machine.finish(end) {
        Ok(number_ended) => if number_ended && is_too_great(alloc, machine, bytes, end)? {
            Ok(Some((machine.begin(), Expected::Smaller)))
        } else {
            Ok(None)
        },
        Err(expected) => Ok(Some((end, expected))),
    }
}

fn stopped(
    alloc: Global,
    machine: &Machine,
    bytes: &[u8],
    at: usize,
    expected: Expected,
) -> Result<Option<JsonStop>, AllocError> {
    let help = help_of(alloc, machine, bytes, at, expected)?;
    let meant = mend_of(alloc, machine, bytes, at, expected)?;
    Ok(Some(JsonStop {
        at,
        expected,
        help,
        meant,
    }))
}

/// Whether the number that ends before a place is none that can be read.
fn is_too_great(
    alloc: Global,
    machine: &Machine,
    bytes: &[u8],
    end: usize,
) -> Result<bool, AllocError> {
    let digits = bytes.get(machine.begin()..end).unwrap_or(&[]);
    if digits.len() < 300 && !digits.contains(&b'e') && !digits.contains(&b'E') {
        return Ok(false);
    }
    match Value::from_slice(alloc, digits) {
        Ok(_) => Ok(false),
        Err(error) => if error.is_memory() {
            Err(AllocError)
        } else {
            Ok(true)
        },
    }
}
