//! A script's explanation, from its bytes to the text and the page that are written.

use crate::explaining::{Outcome, Outputs, explain};
use byte_transfer::{Sink, Source, read_up_to_limit, write_fully};
use script_reading::LONGEST;
use script_run::RunFault;
use std::alloc::Global;

/// Reads a script, writes what it means as text, and then as a page. The file's name, as it was
/// given, stands before lines and columns.
///
/// Any failure of the reader is the fault `Read`, and any of a writer the fault `Write`; a script
/// that is refused is explained, and no fault. The page is made before anything is written: where
/// memory is refused to it, nothing is.
pub fn explain_to_page<R: Source, W: Sink, P: Sink>(
    alloc: Global,
    file: &str,
    reader: &mut R,
    writer: &mut W,
    page: &mut P,
) -> Result<Outcome, RunFault> {
    let bytes = read_up_to_limit(alloc, reader, LONGEST)?;
    let wanted = Outputs {
        text: true,
        objects: false,
        page: true,
    };
    let Ok(told) = explain(alloc, file, &bytes, wanted) else {
        return Err(RunFault::NoMemory);
    };
    let (Some(text), Some(drawn)) = (&told.text, &told.page) else {
        return Err(RunFault::NoMemory);
    };
    write_fully(writer, text.as_bytes())?;
    write_fully(page, drawn.as_bytes())?;
    Ok(told.outcome)
}
