//! Reads records, one a line of standard input, and prints each as it is written again, or its
//! first fault.
//!
//! - `constraints RECORD`: the record of a participant's constraints.
//! - `platform RECORD`: the record of a platform.

use crate::failure::Failure;
use record_reading::{Fault, read_platform};
use record_writing::{write_constraints, write_platform};
use serde_json::Value;
use std::alloc::Global;
use std::fmt::Write;
use std::io;
use sysmem_sanitise::read_constraints;

/// Writes the records of standard input.
pub(crate) fn write_records(rt: &HostRuntime) -> Result<(), Failure> {
    let lines = io::read_to_string(rt.alloc(), rt.reader())?;
    let text = written(rt.alloc(), &lines)?;
    print!(rt; "{text}")?;
    Ok(())
}

/// What is printed of these lines.
fn written(alloc: Global, lines: &str) -> Result<String, Failure> {
    let mut text = String::new(alloc);
    put_lines(alloc, &mut text, lines)?;
    Ok(text)
}

fn put_lines(alloc: Global, text: &mut String, lines: &str) -> Result<(), Failure> {
    for line in lines.lines() {
        let Some((kind, record)) = line.split_once(' ') else {
            return Err(Failure::NoWord);
        };
        put_record(alloc, text, kind, record)?;
        text.push('\n')?;
    }
    Ok(())
}

fn put_record(alloc: Global, text: &mut String, kind: &str, record: &str) -> Result<(), Failure> {
    let Ok(value) = Value::from_str(alloc, record) else {
        return Err(Failure::NotJson);
    };
    match kind {
        "constraints" => put_constraints(alloc, text, &value),
        "platform" => put_platform(alloc, text, &value),
        _ => Err(Failure::NoSuchWord),
    }
}

fn put_constraints(alloc: Global, text: &mut String, value: &Value) -> Result<(), Failure> {
    match read_constraints(alloc, value) {
        Ok(constraints) => {
            let record = write_constraints(alloc, &constraints)?;
            put_value(alloc, text, &record)
        }
        Err(fault) => put_fault(text, fault),
    }
}

fn put_platform(alloc: Global, text: &mut String, value: &Value) -> Result<(), Failure> {
    match read_platform(alloc, value) {
        Ok(platform) => {
            let record = write_platform(alloc, &platform)?;
            put_value(alloc, text, &record)
        }
        Err(fault) => put_fault(text, fault),
    }
}

fn put_value(alloc: Global, text: &mut String, value: &Value) -> Result<(), Failure> {
    let written = value.to_string(alloc)?;
    text.push_str(&written)?;
    Ok(())
}

fn put_fault(text: &mut String, fault: Fault) -> Result<(), Failure> {
    write!(text, "{fault}")?;
    Ok(())
}
