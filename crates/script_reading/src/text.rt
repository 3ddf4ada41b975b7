//! The bytes of a script, and the value that they spell.
ghost use Rattle.std.specs.Prelude.{Ok, Result};
ghost use Rattle.serde_json.specs.View.{view};
ghost use Rattle.script_reading.specs.Faults.{GivesOneOf};
ghost use Rattle.script_reading.specs.Text.{Outcome, IsValue};

use crate::fault::{ParseFault, ScriptFault};
use serde_json::Value;
use std::alloc::Global;

/// The length of the longest script, in bytes.
pub const LONGEST: usize = 4_194_304;

/// Reads the one JSON value that the bytes of a script spell. The script's faults are `TooLong` and
/// `NotJson`.
pub fn parse_script(alloc: Global, bytes: &[u8]) -> Result<Value, ParseFault>
    ensures { GivesOneOf view result (Outcome IsValue bytes.now) }
{
    if bytes.len() > LONGEST {
        return Err(ParseFault::Refused(ScriptFault::TooLong));
    }
    match Value::from_slice(alloc, bytes) {
        Ok(value) => Ok(value),
        Err(error) => {
            if error.is_memory() {
                Err(ParseFault::NoMemory)
            } else {
                Err(ParseFault::Refused(ScriptFault::NotJson))
            }
        }
    }
}
