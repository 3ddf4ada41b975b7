//! A script's explanation, from its bytes to the text that is written.

use crate::explaining::{Outcome, Outputs, explain};
use byte_transfer::{Sink, Source, read_up_to_limit, write_fully};
use script_reading::LONGEST;
use script_run::RunFault;
use std::alloc::Global;

/// Reads a script, and writes what it means. The file's name, as it was given, stands before lines
/// and columns.
///
/// Any failure of the reader is the fault `Read`, and any of the writer the fault `Write`; a script
/// that is refused is explained, and no fault.
pub fn explain_file<R: Source, W: Sink>(
    alloc: Global,
    file: &str,
    reader: &mut R,
    writer: &mut W,
) -> Result<Outcome, RunFault> {
    let bytes = read_up_to_limit(alloc, reader, LONGEST)?;
    let wanted = Outputs {
        text: true,
        objects: false,
        page: false,
    };
    let Ok(told) = explain(alloc, file, &bytes, wanted) else {
        return Err(RunFault::NoMemory);
    };
    let Some(text) = &told.text else {
        return Err(RunFault::NoMemory);
    };
    write_fully(writer, text.as_bytes())?;
    Ok(told.outcome)
}
