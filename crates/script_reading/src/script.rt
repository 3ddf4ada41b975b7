//! A script: the platform that it names and its calls.
ghost use Rattle.std.specs.Prelude.{◌≡◌, codes, option_and_then, option_map};
ghost use Rattle.std.specs.List.{list_all};
ghost use Rattle.serde_json.specs.Find.{as_array, get};
ghost use Rattle.serde_json.specs.View.{items_view, members_view, view};
ghost use Rattle.record_reading.specs.Reading.Fields.{keys_of};
ghost use Rattle.script_reading.specs.Apart.{script_apart};
ghost use Rattle.script_reading.specs.Faults.{Gives};
ghost use Rattle.script_reading.specs.Script.{is_part, parts_of, script_of};
ghost use Rattle.script_reading.specs.Seen.{script_seen};

use crate::apart::read_calls_apart;
use crate::call::Call;
use crate::calls::read_calls;
use crate::fault::{ParseFault, ScriptFault};
use crate::platform::read_platform;
use negotiation_inputs::Platform;
use serde_json::{Map, Value};
use std::alloc::Global;

const MOST_CALLS: usize = 4096;

/// A script: the platform that it names, and its calls.
#[derive(Drop)]
pub struct Script<'a> {
    pub platform: Platform,
    pub calls: Vec<Call<'a>>,
}

fn is_part(key: &str) -> bool
    ensures { result ≡ is_part key.now }
{
    key == "platform" || key == "calls"
}

fn has_only_parts(members: &Map<String, Value>) -> bool
    ensures { result ≡ list_all is_part (keys_of (members_view members.now.entries)) }
{
    members.keys().all(|key| is_part(key.as_str()))
}

fn calls_in(script: &Value) -> Option<&Vec<Value>>
    ensures { option_map (λ calls. items_view calls.now.items) result
        ≡ option_and_then as_array (get (codes "calls") (view script.now)) }
{
    script.get("calls")?.as_array()
}

fn parts_of(script: &Value) -> Option<(&Value, &[Value])>
    ensures { option_map (λ parts. (view parts.0.now, items_view parts.1.now)) result
        ≡ parts_of (view script.now) }
{
    let members = script.as_object()?;
    let platform = script.get("platform")?;
    let calls = calls_in(script)?;
    if has_only_parts(members) {
        Some((platform, calls))
    } else {
        None
    }
}

/// Reads the script that a value stands for, up to its first fault: its parts, the platform, the
/// number of calls, then each call.
pub fn read_script(alloc: Global, script: &Value) -> Result<Script<'_>, ParseFault>
    ensures { Gives script_seen result (script_of (view script.now)) }
{
    let Some((platform, calls)) = parts_of(script) else {
        return Err(ParseFault::Refused(ScriptFault::Misshapen));
    };
    let platform = read_platform(alloc, platform)?;
    if calls.len() > MOST_CALLS {
        return Err(ParseFault::Refused(ScriptFault::TooManyCalls));
    }
    let calls = read_calls(alloc, calls)?;
    Ok(Script { platform, calls })
}

/// Reads the script that a value stands for, where its actors are threads: as `read_script` does,
/// but for the calls, of which it refuses the first, too, on a name on which another actor made
/// one.
pub fn read_script_apart(alloc: Global, script: &Value) -> Result<Script<'_>, ParseFault>
    ensures { Gives script_seen result (script_apart (view script.now)) }
{
    let Some((platform, calls)) = parts_of(script) else {
        return Err(ParseFault::Refused(ScriptFault::Misshapen));
    };
    let platform = read_platform(alloc, platform)?;
    if calls.len() > MOST_CALLS {
        return Err(ParseFault::Refused(ScriptFault::TooManyCalls));
    }
    let calls = read_calls_apart(alloc, calls)?;
    Ok(Script { platform, calls })
}
