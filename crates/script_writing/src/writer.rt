//! Writes a script, call by call.

ghost use Rattle.std.specs.Prelude.{◌≡◌, ◌++◌, [], ◌∷◌, IfOk, List, OnOk, codes, if◌then◌else◌, option_map};
ghost use Rattle.negotiation_inputs.specs.Platform.{PlatformFacts};
ghost use Rattle.script_reading.specs.Seen.{act_seen};
ghost use Rattle.script_writing.specs.Call.{StatesRecord, WrittenCall};
ghost use Rattle.script_writing.specs.Script.{HasTaken, IsScriptText};

use crate::call::{put_call, put_record};
use negotiation_inputs::Platform;
use record_writing::write_platform;
use script_reading::Act;
use std::alloc::{AllocError, Global};
use std::marker::Model;

/// A script that is being written: its platform, and its calls so far.
#[derive(Drop)]
pub struct ScriptWriter {
    alloc: Global,
    text: String,
    has_calls: bool,
}

impl Model for ScriptWriter {
    ghost use Rattle.std.specs.String.{string_bytes};
    ghost use Rattle.script_writing.specs.Script.{Begun};

    ghost Value = { Begun };

    ghost view = { λ w. record { text = string_bytes w.text; later = w.has_calls } };
}

/// What stands before a call: a newline, and a comma behind another call.
fn before_call(has_calls: bool) -> &'static str
    ensures { result.now ≡ (if has_calls then codes ",\n" else codes "\n") }
{
    if has_calls { ",\n" } else { "\n" }
}

impl ScriptWriter {
    /// Begins the script of a platform, which has no calls yet.
    pub fn new(alloc: Global, platform: &Platform) -> Result<ScriptWriter, AllocError>
        ensures { IfOk result (λ writer. HasTaken writer platform.now []) }
    {
        let mut text = String::from_str(alloc, "{\"platform\":")?;
        let record = write_platform(alloc, platform)?;
        put_record(alloc, &mut text, &record)?;
        text.push_str(",\n\"calls\":[")?;
        Ok(ScriptWriter {
            alloc,
            text,
            has_calls: false,
        })
    }

    /// Writes a call: what it does, on which name, and by which actor, if it names one. Its
    /// constraints are a record that was written. Where memory is refused to the text, a part of the
    /// call may be written, and nothing is said of the script any more.
    pub fn put(&mut self, act: Act<'_>, on: &str, actor: Option<&str>) -> Result<(), AllocError>
        requires { StatesRecord (act_seen act) }
        ensures { (platform : PlatformFacts) (calls : List WrittenCall)
            → HasTaken self.old platform calls
            → OnOk result (HasTaken self.new platform (calls ++ record {
              act = act_seen act.entry;
              on = on.now;
              actor = option_map (λ one. one.now) actor.entry;
            } ∷ [])) }
    {
        self.text.push_str(before_call(self.has_calls))?;
        put_call(self.alloc, &mut self.text, act, on, actor)?;
        self.has_calls = true;
        Ok(())
    }

    /// Ends the script: its text.
    pub fn finish(self) -> Result<Vec<u8>, AllocError>
        ensures { (platform : PlatformFacts) (calls : List WrittenCall)
            → HasTaken self platform calls
            → IfOk result (λ text. IsScriptText platform calls text.items) }
    {
        let ScriptWriter { mut text, .. } = self;
        text.push_str("]}\n")?;
        let _ = text.as_str();
        Ok(text.into_bytes())
    }
}
