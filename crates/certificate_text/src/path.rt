//! Paths.

ghost use Rattle.std.specs.Prelude.{◌≡◌, ◌++◌, ◌≤◌, [], None, codes, OnOk};
ghost use Rattle.std.specs.Fmt.{decimal};
ghost use Rattle.std.specs.String.{string_bytes};
ghost use Rattle.certificate_text.specs.Puts.{PutsData};
ghost use Rattle.certificate_text.specs.Paths.{path_said, path_text, path_behind, steps_said, steps_text, with_byte, with_digit};
ghost use Rattle.certificate_text.specs.Reading.{SaysAs};
ghost use Rattle.certificate_text.specs.Said.{node_said};
ghost use Rattle.certificate_text.specs.Told.{path_data};
ghost use Rattle.serde_json.specs.View.{view};

use crate::json_writer::Writer;
use crate::part::CertificatePart;
use crate::unread::Unread;
use serde_json::Value;
use std::alloc::{AllocError, Global};
use sysmem_tree::Path;

impl CertificatePart for Path {
    ghost said = { node_said };

    fn read(alloc: Global, value: &Value) -> Result<Path, Unread> {
        let mut ordinals = Vec::new(alloc);
        read_path(&mut ordinals, value)?;
        Ok(Path::new(ordinals))
    }
}

/// Puts the path of these ordinals after what is written, and writes it in the text on the way.
pub(crate) fn put_path(
    out: &mut Writer,
    text: &mut String,
    ordinals: &[u32],
) -> Result<(), AllocError>
    ensures { PutsData result out.old out.new (path_data ordinals.now) }
{
    text.clear();
    push_path(text, ordinals)?;
    out.string(text.as_str())
}

/// Puts the text of a path after the text so far: `/` or `/0/1`. Where memory is refused, a part of
/// it may stand there.
pub fn push_path(text: &mut String, ordinals: &[u32]) -> Result<(), AllocError>
    ensures { OnOk result (string_bytes text.new
        ≡ string_bytes text.old ++ path_text ordinals.now) }
{
    if ordinals.is_empty() {
        return text.push_str("/");
    }
    push_steps(text, ordinals)
}

fn push_steps(text: &mut String, ordinals: &[u32]) -> Result<(), AllocError>
    ensures { OnOk result (string_bytes text.new
        ≡ string_bytes text.old ++ steps_text ordinals.now) }
{
    for ordinal in ordinals {
        push_step(text, *ordinal)?;
    }
    Ok(())
}

fn push_step(text: &mut String, ordinal: u32) -> Result<(), AllocError>
    ensures { OnOk result (string_bytes text.new
        ≡ string_bytes text.old ++ codes "/" ++ decimal ordinal) }
{
    let mut digits = itoa::Buffer::new();
    text.push_str("/")?;
    text.push_str(digits.format(ordinal))
}

/// Reads a path into the list, in place of what that has.
pub(crate) fn read_path(ordinals: &mut Vec<u32>, value: &Value) -> Result<(), Unread>
    ensures { SaysAs (λ _. ordinals.new.items) result (node_said (view value.now)) }
{
    match value.as_str() {
        Some(text) => read_text(ordinals, text),
        None => Err(Unread::WrongForm),
    }
}

/// Reads a path's text into it: `/` is the root's.
fn read_text(ordinals: &mut Vec<u32>, text: &str) -> Result<(), Unread>
    ensures { SaysAs (λ _. ordinals.new.items) result (path_said text.now) }
{
    ordinals.clear();
    match text.as_bytes().split_first() {
        Some((first, behind)) if *first == b'/' => read_behind(ordinals, behind),
        _ => Err(Unread::WrongForm),
    }
}

/// Reads what stands after the first slash.
fn read_behind(ordinals: &mut Vec<u32>, bytes: &[u8]) -> Result<(), Unread>
    requires { ordinals.old.items ≡ [] }
    ensures { SaysAs (λ _. ordinals.new.items) result (path_behind bytes.now) }
{
    if bytes.is_empty() {
        return Ok(());
    }
    read_steps(ordinals, bytes)
}

/// Reads the ordinals between slashes.
fn read_steps(ordinals: &mut Vec<u32>, bytes: &[u8]) -> Result<(), Unread>
    requires { ordinals.old.items ≡ [] }
    ensures { SaysAs (λ _. ordinals.new.items) result (steps_said None bytes.now) }
{
    let mut ordinal = None;
    for byte in bytes {
        if *byte == b'/' {
            ordinals.push(ordinal.ok_or(Unread::WrongForm)?)?;
            ordinal = None;
        } else {
            ordinal = Some(with_byte(ordinal, *byte).ok_or(Unread::WrongForm)?);
        }
    }
    ordinals.push(ordinal.ok_or(Unread::WrongForm)?)?;
    Ok(())
}

/// An ordinal with a further digit.
fn with_byte(ordinal: Option<u32>, byte: u8) -> Option<u32>
    ensures { result ≡ with_byte ordinal byte }
{
    if byte.is_ascii_digit() {
        with_digit(ordinal, byte - b'0')
    } else {
        None
    }
}

/// An ordinal with a further digit from 0 to 9. None follows a 0, and the greatest number stands
/// for all that are greater.
fn with_digit(ordinal: Option<u32>, digit: u8) -> Option<u32>
    requires { digit ≤ 9 }
    ensures { result ≡ with_digit ordinal digit }
{
    match ordinal {
        None => Some(u32::from(digit)),
        Some(0) => None,
        Some(number) => {
            let longer = 10 * u64::from(number) + u64::from(digit);
            Some(longer.min(u64::from(u32::MAX)) as u32)
        }
    }
}
