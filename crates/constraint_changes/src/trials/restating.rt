//! Calls of which some state other constraints.

ghost use Rattle.std.specs.Prelude.{◌≡◌, map, IfOk};
ghost use Rattle.script_reading.specs.Seen.{call_seen};
ghost use Rattle.constraint_changes.specs.Edited.{IsRestated};

use crate::trials::trying::replaced;
use script_reading::Call;
use serde_json::Value;
use std::alloc::{AllocError, Global};

/// Constraints that a call states in the place of its own.
pub struct RestatedConstraints {
    /// The place of the call, from 0.
    pub place: usize,
    pub value: Value,
}

impl Drop for RestatedConstraints {
    fn drop(self) {
        let RestatedConstraints { place: _, value: _ } = self;
    }
}

impl RestatedConstraints {
    /// The constraints alone.
    pub fn into_value(self) -> Value
        ensures { result ≡ self.value }
    {
        let RestatedConstraints { value, place: _ } = self;
        value
    }
}

/// A copy of what calls state.
pub fn copied(
    alloc: Global,
    stated: &[RestatedConstraints],
) -> Result<Vec<RestatedConstraints>, AllocError> {
    let mut copy = Vec::new(alloc);
    for one in stated {
        let value = one.value.clone()?;
        copy.push(RestatedConstraints {
            place: one.place,
            value,
        })?;
    }
    Ok(copy)
}

/// The calls, of which some state other constraints.
pub fn restated<'a>(
    alloc: Global,
    calls: &[Call<'a>],
    stated: &'a [RestatedConstraints],
) -> Result<Vec<Call<'a>>, AllocError>
    ensures { IfOk result
        (λ made. IsRestated (map call_seen calls.now) (map call_seen made.items)) }
{
    let mut made = Vec::from_slice(alloc, calls)?;
    for one in stated {
        let next = replaced(alloc, &made, one.place, &one.value)?;
        made = next;
    }
    Ok(made)
}
