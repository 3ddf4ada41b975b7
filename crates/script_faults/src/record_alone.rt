//! A record that stands alone: its first fault, in words.

ghost use Rattle.std.specs.Prelude.{◌≡◌, ◌++◌, IfOk, Some, codes, option_map, string_bytes};
ghost use Rattle.serde_json.specs.View.{view};
ghost use Rattle.script_reading.specs.Text.{IsJson};
ghost use Rattle.record_reading.specs.Reading.{participant_of, platform_of};
ghost use Rattle.script_faults.specs.RecordFault.{Spells, TellsRecord, fault_in, fault_name, first_fault};

use crate::no_json::{Broken, add_break, is_blank};
use crate::record::{Document, Whole, add_record_fault};
use explanation_text::{Items, Label, text_of};
use record_reading::{Code, Fault, read_platform};
use serde_json::Value;
use std::alloc::{AllocError, Global};
use std::fmt;
use sysmem_sanitise::read_constraints;

/// Whose record it is.
#[derive(Clone, Copy, Debug, PartialEq, Eq)]
pub enum RecordKind {
    Platform,
    Participant,
}

/// What is wrong with the bytes of a record.
#[derive(Clone, Copy, Debug, PartialEq, Eq)]
pub enum RecordFault {
    /// They aren't one JSON value.
    NotJson,
    /// This is the first fault of their value.
    Faulty(Fault),
}

/// The name of what is wrong: `S3 id`, or `no JSON`.
impl fmt::Display for RecordFault {
    ghost output = { λ fault. Some (fault_name fault) };

    fn fmt<W: fmt::Write>(&self, f: &mut fmt::Formatter<W>) -> fmt::Result {
        match self {
            RecordFault::NotJson => write!(f, "no JSON"),
            RecordFault::Faulty(fault) => write!(f, "{fault}"),
        }
    }
}

/// What is wrong with a record, in words: the name of its first fault in a line, and below it where
/// that stands and what would be right. `None` where nothing is wrong. The file's name stands before
/// lines and columns. `AllocError` where memory is refused.
#[tactic(auto, using(crate::proofs::RecordSayings::tells_no_json))]
pub fn record_fault(
    alloc: Global,
    kind: RecordKind,
    bytes: &[u8],
    file: &str,
) -> Result<Option<String>, AllocError>
    ensures { IfOk result (λ words.
        TellsRecord kind bytes.now (option_map (λ text. string_bytes text) words)) }
{
    match value_of(alloc, bytes)? {
        Some(value) => value_fault(alloc, kind, bytes, file, &value),
        None => {
            let told = break_words(alloc, bytes, file)?;
            Ok(Some(named(alloc, RecordFault::NotJson, &told)?))
        }
    }
}

/// The value that bytes spell; `None` where they are no JSON.
fn value_of(alloc: Global, bytes: &[u8]) -> Result<Option<Value>, AllocError>
    ensures { IfOk result (λ value. Spells bytes.now (option_map (λ one. view one) value)) }
{
    match Value::from_slice(alloc, bytes) {
        Ok(value) => Ok(Some(value)),
        Err(error) => {
            if error.is_memory() {
                Err(AllocError)
            } else {
                Ok(None)
            }
        }
    }
}

/// The same of a record whose bytes spell a value.
#[tactic(auto, using(crate::proofs::RecordSayings::tells_none))]
fn value_fault(
    alloc: Global,
    kind: RecordKind,
    bytes: &[u8],
    file: &str,
    value: &Value,
) -> Result<Option<String>, AllocError>
    ensures { IfOk result (λ words. IsJson bytes.now (view value.now)
        → TellsRecord kind bytes.now (option_map (λ text. string_bytes text) words)) }
{
    let Some(fault) = first_fault(alloc, kind, value)? else {
        return Ok(None);
    };
    let document = Document {
        file,
        bytes,
        value,
        whole: Whole::Record,
    };
    let told = place_words(alloc, kind, &document, fault)?;
    Ok(Some(named(alloc, RecordFault::Faulty(fault), &told)?))
}

/// The first fault of a value that is read as a record, if it has one.
fn first_fault(alloc: Global, kind: RecordKind, value: &Value) -> Result<Option<Fault>, AllocError>
    ensures { IfOk result (λ fault. first_fault kind (view value.now) ≡ fault) }
{
    match kind {
        RecordKind::Platform => platform_fault(alloc, value),
        RecordKind::Participant => constraints_fault(alloc, value),
    }
}

/// The first fault of a platform's record, if it has one.
fn platform_fault(alloc: Global, value: &Value) -> Result<Option<Fault>, AllocError>
    ensures { IfOk result (λ fault. fault_in (platform_of (view value.now)) ≡ fault) }
{
    match read_platform(alloc, value) {
        Ok(_) => Ok(None),
        Err(fault) => match fault.code {
            Code::WantOfMemory => Err(AllocError),
            _ => Ok(Some(fault)),
        },
    }
}

/// The first fault of a participant's record, if it has one.
fn constraints_fault(alloc: Global, value: &Value) -> Result<Option<Fault>, AllocError>
    ensures { IfOk result (λ fault. fault_in (participant_of (view value.now)) ≡ fault) }
{
    match read_constraints(alloc, value) {
        Ok(_) => Ok(None),
        Err(fault) => match fault.code {
            Code::WantOfMemory => Err(AllocError),
            _ => Ok(Some(fault)),
        },
    }
}

/// The name of what is wrong, and below it what is told of it.
fn named(alloc: Global, fault: RecordFault, told: &str) -> Result<String, AllocError>
    ensures { IfOk result (λ text. string_bytes text
        ≡ fault_name fault ++ codes "\n" ++ told.now) }
{
    format!(in alloc; "{fault}\n{told}")
}

/// Where a record's first fault stands, and what would be right there.
fn place_words(
    alloc: Global,
    kind: RecordKind,
    document: &Document<'_>,
    fault: Fault,
) -> Result<String, AllocError> {
    let mut items = Items::new(alloc);
    let is_platform = kind == RecordKind::Platform;
    add_record_fault(&mut items, 0, document, &[], fault, is_platform)?;
    text_of(alloc, &items.into_list()?)
}

/// Where a record's bytes stop being JSON.
fn break_words(alloc: Global, bytes: &[u8], file: &str) -> Result<String, AllocError> {
    let mut items = Items::new(alloc);
    if is_blank(bytes) {
        items.list_text(
            0,
            Label::Plain,
            "the record is empty, where an object is due",
        );
    } else {
        let depth = 0;
        add_break(&mut items, Broken { file, bytes, depth })?;
    }
    text_of(alloc, &items.into_list()?)
}
