//! Reads what the buffers are used for.

ghost use Rattle.std.specs.Prelude.{◌≡◌};
ghost use Rattle.serde_json.specs.View.{view, items_view};
ghost use Rattle.record_reading.specs.Reading.Constraints.{no_usage, with_family, usage_of};
ghost use Rattle.record_reading.specs.Reading.Fields.{read_each};

use super::field::{list_of, text_of};
use crate::fault::{Code, Fault};
use bitflags::Flags;
use negotiation_inputs::is_usage;
use serde_json::Value;
use sysmem_counts::{Field, Usage};

fn with_family(mut usage: Usage, value: &Value) -> Result<Usage, Fault>
    ensures { result ≡ with_family usage (view value.now) }
{
    let name = text_of(value, Field::Usage)?;
    let family = Usage::from_name(name).ok_or(Fault::of(Code::UnknownName, Field::Usage))?;
    usage.insert(family);
    Ok(usage)
}

fn families_of(list: &[Value]) -> Result<Usage, Fault>
    ensures { result ≡ read_each with_family no_usage (items_view list.now) }
{
    let mut usage = Usage::empty();
    for value in list {
        usage = with_family(usage, value)?;
    }
    Ok(usage)
}

/// A list of families that isn't empty: `none` alone, or others. A repeated family counts once.
/// `WrongKind` where the value isn't a list or an item isn't a text, `UnknownName` where an item
/// names no family, and `BadUsage` where the list is empty or has `none` beside others.
pub fn usage_of(value: &Value) -> Result<Usage, Fault>
    ensures { result ≡ usage_of (view value.now) }
{
    let usage = families_of(list_of(value, Field::Usage)?)?;
    if is_usage(usage) {
        Ok(usage)
    } else {
        Err(Fault::of(Code::BadUsage, Field::Usage))
    }
}
