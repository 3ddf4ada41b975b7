//! A script's explanation as objects, from its bytes to what is written.

ghost use Rattle.std.specs.Prelude.{◌≡◌, Err};
ghost use Rattle.script_run.specs.Run.{IsCausedBy, both_counts};
ghost use Rattle.explain.specs.ObjectEndings.{Tells};

use crate::explaining::{Outcome, Outputs, explain};
use byte_transfer::{ReadFault, Sink, Source, read_up_to_limit, write_fully};
use script_reading::LONGEST;
use script_run::RunFault;
use std::alloc::{AllocError, Global};

/// Objects alone.
const OBJECTS: Outputs = Outputs {
    text: false,
    objects: true,
    page: false,
};

/// Reads a script, and writes what it means as objects of JSON: one for each item, and one that
/// ends them. The file's name, as it was given, stands in places.
///
/// Any failure of the reader is the fault `Read`, and any of the writer the fault `Write`; what was
/// written then is a prefix of the objects. A script that is refused is explained, and no fault.
#[tactic(auto, using(crate::proofs::Ends::tells_unread, crate::proofs::Ends::tells_unmade, crate::proofs::Ends::tells_part, crate::proofs::Ends::tells_done))]
pub fn explain_as_json<R: Source, W: Sink>(
    alloc: Global,
    file: &str,
    reader: &mut R,
    writer: &mut W,
) -> Result<Outcome, RunFault>
    ensures told { Tells result (W.contents writer.old) (W.contents writer.new) }
    ensures read_fault { IsCausedBy (result ≡ Err RunFault.Read)
        (R.failures reader.old) (R.failures reader.new) }
    ensures write_fault { IsCausedBy (result ≡ Err RunFault.Write)
        (W.failures writer.old) (W.failures writer.new) }
{
    let bytes = match read_up_to_limit(alloc, reader, LONGEST) {
        Ok(bytes) => bytes,
        Err(ReadFault::Failed) => return Err(RunFault::Read),
        Err(ReadFault::NoMemory) => return Err(RunFault::NoMemory),
    };
    let Ok(told) = explain(alloc, file, &bytes, OBJECTS) else {
        return Err(RunFault::NoMemory);
    };
    let Some(objects) = &told.objects else {
        return Err(RunFault::NoMemory);
    };
    match write_fully(writer, objects.as_bytes()) {
        Ok(()) => Ok(told.outcome),
        Err(_) => Err(RunFault::Write),
    }
}

/// The same, which then writes the page of the explanation. It is made before anything is written:
/// where memory is refused to it, nothing is.
pub fn explain_as_json_to_page<R: Source, W: Sink, P: Sink>(
    alloc: Global,
    file: &str,
    reader: &mut R,
    writer: &mut W,
    page: &mut P,
) -> Result<Outcome, RunFault>
    ensures read_fault { IsCausedBy (result ≡ Err RunFault.Read)
        (R.failures reader.old) (R.failures reader.new) }
    ensures write_fault { IsCausedBy (result ≡ Err RunFault.Write)
        (both_counts (W.failures writer.old) (P.failures page.old))
        (both_counts (W.failures writer.new) (P.failures page.new)) }
{
    let bytes = read_up_to_limit(alloc, reader, LONGEST)?;
    let wanted = Outputs {
        page: true,
        ..OBJECTS
    };
    let Ok(told) = explain(alloc, file, &bytes, wanted) else {
        return Err(RunFault::NoMemory);
    };
    let (Some(objects), Some(drawn)) = (&told.objects, &told.page) else {
        return Err(RunFault::NoMemory);
    };
    write_fully(writer, objects.as_bytes())?;
    write_fully(page, drawn.as_bytes())?;
    Ok(told.outcome)
}
