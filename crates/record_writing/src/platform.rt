//! The record of a platform.

ghost use Rattle.std.specs.Prelude.{◌≡◌, Ok, IfOk, OnOk};
ghost use Rattle.serde_json.specs.View.{view};
ghost use Rattle.record_reading.specs.Reading.Platform.{platform_of};
ghost use Rattle.negotiation_inputs.specs.Platform.{IsPlatform};
ghost use Rattle.record_laws.specs.Ranges.{IsPlatformInRange};
ghost use Rattle.record_laws.specs.Sparse.{platform_written};

use crate::fields::Fields;
use crate::listed::values_of;
use negotiation_inputs::Platform;
use record_laws::laws::written_is_read;
use serde_json::Value;
use std::alloc::{AllocError, Global};
use sysmem_counts::Field;

fn record_of(alloc: Global, platform: &Platform) -> Result<Value, AllocError>
    ensures written { IfOk result (λ value. view value ≡ platform_written platform.now) }
    ensures is { OnOk result
        (IsPlatform platform.now.heaps platform.now.pairs platform.now.colours) }
    ensures in_range { OnOk result (IsPlatformInRange platform.now) }
{
    let mut fields = Fields::new(alloc);
    let heaps = Value::from(values_of(alloc, platform.heaps())?);
    fields.put(Field::Heaps, heaps)?;
    let pairs = Value::from(values_of(alloc, platform.pairs())?);
    fields.put(Field::Pairs, pairs)?;
    let colours = Value::from(values_of(alloc, platform.colours())?);
    fields.put(Field::ColorSpaces, colours)?;
    Ok(fields.into_value())
}

/// The record of a platform, without the fields whose values are what an absent field stands for.
/// It fails where memory is refused.
pub fn write_platform(alloc: Global, platform: &Platform) -> Result<Value, AllocError>
    ensures written { IfOk result (λ value. view value ≡ platform_written platform.now) }
    ensures read_back { IfOk result (λ value. platform_of (view value) ≡ Ok platform.now) }
{
    written_is_read();
    let value = record_of(alloc, platform)?;
    Ok(value)
}
