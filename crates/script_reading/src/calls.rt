//! All the calls of a script.
ghost use Rattle.std.specs.Prelude.{map};
ghost use Rattle.serde_json.specs.View.{items_view};
ghost use Rattle.script_reading.specs.Faults.{Gives};
ghost use Rattle.script_reading.specs.Known.{known_seen};
ghost use Rattle.script_reading.specs.Script.{calls_from, calls_of};
ghost use Rattle.script_reading.specs.Seen.{call_seen};

use crate::call::Call;
use crate::fault::ParseFault;
use crate::known::KnownNames;
use serde_json::Value;
use std::alloc::Global;

/// Reads the calls of a script in order, up to the first fault, which names its call. The first
/// call is 1.
pub fn read_calls<'a>(alloc: Global, values: &'a [Value]) -> Result<Vec<Call<'a>>, ParseFault>
    ensures { Gives (λ calls. map call_seen calls.items) result (calls_of (items_view values.now)) }
{
    let mut known = KnownNames::new(alloc)?;
    read_with(alloc, &mut known, values)
}

/// The same, where this is known before the first call.
fn read_with<'a>(
    alloc: Global,
    known: &mut KnownNames<'a>,
    values: &'a [Value],
) -> Result<Vec<Call<'a>>, ParseFault>
    ensures { Gives (λ calls. map call_seen calls.items) result
        (calls_from 1 (known_seen known.old) (items_view values.now)) }
{
    let mut calls = Vec::new(alloc);
    for (index, value) in values.iter().enumerate() {
        let call = known.read_call(index + 1, value)?;
        calls.push(call)?;
    }
    Ok(calls)
}
