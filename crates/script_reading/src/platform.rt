//! The platform that a script names.
ghost use Rattle.serde_json.specs.View.{view};
ghost use Rattle.script_reading.specs.Faults.{Gives};
ghost use Rattle.script_reading.specs.Platform.{platform_said};

use crate::fault::{ParseFault, ScriptFault};
use negotiation_inputs::Platform;
use record_reading::Code;
use serde_json::Value;
use std::alloc::Global;

/// Reads the platform that a value stands for.
pub(crate) fn read_platform(alloc: Global, value: &Value) -> Result<Platform, ParseFault>
    ensures { Gives (λ platform. platform) result (platform_said (view value.now)) }
{
    match record_reading::read_platform(alloc, value) {
        Ok(platform) => Ok(platform),
        Err(fault) => match fault.code {
            Code::WantOfMemory => Err(ParseFault::NoMemory),
            _ => Err(ParseFault::Refused(ScriptFault::Platform(fault))),
        },
    }
}
