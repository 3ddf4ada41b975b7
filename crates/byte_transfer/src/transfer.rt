//! Bytes from a source and to a sink, each to the end or to the first failure.
ghost use Rattle.std.specs.Prelude.{◌≡◌, ◌≢◌, ◌↔◌, Err, IfOk, OnOk, OnErr};
ghost use Rattle.std.specs.Io.KnownBytes.{Appends};
ghost use Rattle.byte_transfer.specs.Transfer.{ReadsToLimit, ReadsFew, WritesFront};

use crate::fault::{ReadFault, WriteFault};
use crate::sink::Sink;
use crate::source::Source;
use std::alloc::Global;

const CHUNK: usize = 4096;

/// Reads to the end, or to one byte more than `limit` bytes, so that a caller can tell too many.
///
/// Any failure of the reader is the fault `Failed`, an interruption too, and nothing else is.
pub fn read_up_to_limit<R: Source>(
    alloc: Global,
    reader: &mut R,
    limit: usize,
) -> Result<Vec<u8>, ReadFault>
    ensures bytes { IfOk result (λ bytes. ReadsToLimit limit
        (R.remaining reader.old) (R.remaining reader.new) bytes.items) }
    ensures few { ReadsFew limit (R.remaining reader.old) (R.remaining reader.new) }
    ensures cause { (result ≡ Err ReadFault.Failed)
        ↔ (R.failures reader.new ≢ R.failures reader.old) }
{
    let mut chunk = [0; CHUNK];
    let mut bytes = Vec::new(alloc);
    while bytes.len() <= limit {
        let room = (CHUNK - 1).min(limit - bytes.len()) + 1;
        let Ok(count) = reader.read(&mut chunk[..room]) else {
            return Err(ReadFault::Failed);
        };
        if count == 0 {
            return Ok(bytes);
        }
        bytes.extend_from_slice(&chunk[..count])?;
    }
    Ok(bytes)
}

/// Writes all the bytes, or a prefix of them.
///
/// Any failure of the writer is the fault, a write that takes no byte too, and nothing else is.
pub fn write_fully<W: Sink>(writer: &mut W, bytes: &[u8]) -> Result<(), WriteFault>
    ensures written { OnOk result
        (Appends (W.contents writer.old) (W.contents writer.new) bytes.now) }
    ensures front { OnErr result
        (WritesFront (W.contents writer.old) (W.contents writer.new) bytes.now) }
    ensures worked { OnOk result (W.failures writer.new ≡ W.failures writer.old) }
    ensures failed { OnErr result (W.failures writer.new ≢ W.failures writer.old) }
{
    let mut rest = bytes;
    while !rest.is_empty() {
        let Ok(count) = writer.write(rest) else {
            return Err(WriteFault);
        };
        rest = &rest[count..];
    }
    Ok(())
}
