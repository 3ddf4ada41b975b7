//! The list of the calls of scripts leaves none out.

ghost use Rattle.std.specs.Prelude.{◌≡◌, bytes_eq, count_by};
ghost use Rattle.script_reading.specs.Call.{ActFacts, act_name};

use crate::call::CALLS;

/// Each call's name is in `CALLS`, once.
pub fn all_calls()
    ensures { (act : ActFacts) → count_by (λ name. bytes_eq name.now (act_name act)) CALLS ≡ 1 }
{}
