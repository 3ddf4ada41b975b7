//! The text of a call.

ghost use Rattle.std.specs.Prelude.{◌≡◌, ◌++◌, IfSome, OnOk, codes, option_map};
ghost use Rattle.std.specs.String.{string_bytes};
ghost use Rattle.serde_json.specs.View.{view};
ghost use Rattle.serde_json.specs.Written.{compact_text};
ghost use Rattle.script_reading.specs.Call.{act_name, name_made};
ghost use Rattle.script_reading.specs.Seen.{act_seen};
ghost use Rattle.script_writing.specs.Call.{StatesRecord, call_text, stated_by, stated_text, text_if, text_member};
ghost use Rattle.script_writing.specs.Script.{IsPlain, IsSpelled};

use script_reading::Act;
use serde_json::Value;
use std::alloc::{AllocError, Global};

/// Puts the text of a record.
pub(crate) fn put_record(alloc: Global, text: &mut String, value: &Value) -> Result<(), AllocError>
    requires { IsPlain (view value.now) }
    ensures text { OnOk result (string_bytes text.new
        ≡ string_bytes text.old ++ compact_text (view value.now)) }
    ensures spelled { OnOk result (IsSpelled (view value.now)) }
{
    let written = value.to_string(alloc)?;
    text.push_str(&written)
}

/// Puts a text behind a key, and a comma before both.
fn put_text(text: &mut String, key: &str, value: &str) -> Result<(), AllocError>
    ensures { OnOk result (string_bytes text.new
        ≡ string_bytes text.old ++ text_member key.now value.now) }
{
    text.push_str(",\"")?;
    text.push_str(key)?;
    text.push_str("\":\"")?;
    text.push_str(value)?;
    text.push_str("\"")
}

/// The same, if there is a text.
fn put_text_if(text: &mut String, key: &str, value: Option<&str>) -> Result<(), AllocError>
    ensures { OnOk result (string_bytes text.new
        ≡ string_bytes text.old ++ text_if key.now (option_map (λ one. one.now) value.entry)) }
{
    match value {
        Some(value) => put_text(text, key, value),
        None => Ok(()),
    }
}

/// The constraints that a call states, if it states any.
fn stated_by<'a>(act: Act<'a>) -> Option<&'a Value>
    ensures { option_map (λ one. view one.now) result ≡ stated_by (act_seen act.entry) }
{
    match act {
        Act::SetConstraints(Some(stated)) => Some(stated.value()),
        _ => None,
    }
}

/// Puts the constraints that a call states, if it states any.
fn put_stated(alloc: Global, text: &mut String, stated: Option<&Value>) -> Result<(), AllocError>
    requires { IfSome stated (λ one. IsPlain (view one.now)) }
    ensures text { OnOk result (string_bytes text.new
        ≡ string_bytes text.old ++ stated_text (option_map (λ one. view one.now) stated.entry)) }
    ensures spelled { OnOk result (IfSome stated.entry (λ one. IsSpelled (view one.now))) }
{
    let Some(value) = stated else {
        return Ok(());
    };
    text.push_str(",\"constraints\":")?;
    put_record(alloc, text, value)
}

/// Puts the first members of a call: what it does, and on which name.
fn put_head(text: &mut String, act: Act<'_>, on: &str) -> Result<(), AllocError>
    ensures { OnOk result (string_bytes text.new ≡ string_bytes text.old
        ++ (codes "{\"call\":\"" ++ (act_name (act_seen act.entry) ++ (codes "\""
        ++ text_member (codes "on") on.now)))) }
{
    text.push_str("{\"call\":\"")?;
    text.push_str(act.name())?;
    text.push_str("\"")?;
    put_text(text, "on", on)
}

/// Puts a call: what it does, on which name, and by which actor, if it names one.
pub(crate) fn put_call(
    alloc: Global,
    text: &mut String,
    act: Act<'_>,
    on: &str,
    actor: Option<&str>,
) -> Result<(), AllocError>
    requires { StatesRecord (act_seen act) }
    ensures text { OnOk result (string_bytes text.new ≡ string_bytes text.old ++ call_text (record {
      act = act_seen act.entry;
      on = on.now;
      actor = option_map (λ one. one.now) actor.entry;
    })) }
    ensures spelled { OnOk result (IfSome (stated_by (act_seen act.entry)) IsSpelled) }
{
    put_head(text, act, on)?;
    put_text_if(text, "actor", actor)?;
    put_text_if(text, "as", act.name_made())?;
    put_stated(alloc, text, stated_by(act))?;
    text.push_str("}")
}
