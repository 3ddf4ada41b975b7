//! The calls of a script whose actors are threads: on each name one actor alone makes calls.
ghost use Rattle.std.specs.Prelude.{◌≡◌, ◌==◌, ◌&&◌, [], not, map};
ghost use Rattle.std.specs.List.{list_any};
ghost use Rattle.serde_json.specs.View.{items_view};
ghost use Rattle.script_reading.specs.Apart.{apart_from, calls_apart};
ghost use Rattle.script_reading.specs.Faults.{Gives};
ghost use Rattle.script_reading.specs.Known.{known_seen};
ghost use Rattle.script_reading.specs.Seen.{call_seen};

use crate::call::Call;
use crate::fault::{ParseFault, ScriptFault};
use crate::known::KnownNames;
use serde_json::Value;
use std::alloc::Global;

/// Whether another actor made a call on the same name before.
fn is_shared(before: &[Call<'_>], call: &Call<'_>) -> bool
    ensures { result ≡ list_any (λ c. (c.place == call.now.place)
        && not (c.actor == call.now.actor)) before.now }
{
    before.iter().any(|other| other.place == call.place && other.actor != call.actor)
}

/// Reads the calls of a script whose actors are threads, as `read_calls` does, but for one fault
/// more, the last of a call's: on the name on which it is made another actor made one before.
pub fn read_calls_apart<'a>(alloc: Global, values: &'a [Value]) -> Result<Vec<Call<'a>>, ParseFault>
    ensures { Gives (λ calls. map call_seen calls.items) result
        (calls_apart (items_view values.now)) }
{
    let mut known = KnownNames::new(alloc)?;
    read_apart(alloc, &mut known, values)
}

/// The same, where this is known before the first call.
fn read_apart<'a>(
    alloc: Global,
    known: &mut KnownNames<'a>,
    values: &'a [Value],
) -> Result<Vec<Call<'a>>, ParseFault>
    ensures { Gives (λ calls. map call_seen calls.items) result
        (apart_from 1 (known_seen known.old) [] (items_view values.now)) }
{
    let mut calls = Vec::new(alloc);
    for (index, value) in values.iter().enumerate() {
        let call = known.read_call(index + 1, value)?;
        if is_shared(&calls, &call) {
            return Err(ParseFault::Refused(ScriptFault::SharedName(index + 1)));
        }
        calls.push(call)?;
    }
    Ok(calls)
}
