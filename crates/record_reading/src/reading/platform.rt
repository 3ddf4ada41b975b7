//! Reads a platform's record.

ghost use Rattle.std.specs.Prelude.{◌≡◌, ◌≢◌, Ok, Err, IfOk, IfErr};
ghost use Rattle.serde_json.specs.View.{view};
ghost use Rattle.sysmem_counts.specs.declared.field.Field.TheVariants.{Heaps, Pairs, ColorSpaces};
ghost use Rattle.record_reading.specs.declared.fault.Code.TheVariants.{WantOfMemory};
ghost use Rattle.record_reading.specs.Faults.{lack_of};
ghost use Rattle.record_reading.specs.Reading.Fields.{Reads, required, seen_by};
ghost use Rattle.record_reading.specs.Reading.Heaps.{heaps_of};
ghost use Rattle.record_reading.specs.Reading.Platform.{pairs_of, colours_of, platform_of, platform_with};

use super::field::{expect_object, stated};
use super::heap_info::heaps_of;
use super::pair::{colours_of, pairs_of};
use crate::fault::{Code, Fault, FaultPlace};
use negotiation_inputs::Platform;
use serde_json::Value;
use std::alloc::Global;
use sysmem_counts::Field;
use sysmem_formats::{ColourSpace, Pair};
use sysmem_memory::HeapInfo;

/// The fields of a platform.
pub const PLATFORM_FIELDS: [Field; 3] = [Field::Heaps, Field::Pairs, Field::ColorSpaces];

/// The heaps of a record, which has to have them; so of its pairs and its colour spaces.
fn heaps_in(alloc: Global, object: &Value) -> Result<Vec<HeapInfo>, Fault>
    ensures { Reads (λ lack. required Heaps (heaps_of lack) (view object.now))
        (seen_by (λ heaps. heaps.items) result) }
{
    heaps_of(alloc, stated(object, Code::WrongKind, Field::Heaps)?)
}

fn pairs_in(alloc: Global, object: &Value) -> Result<Vec<Pair>, Fault>
    ensures { Reads (λ lack. required Pairs (pairs_of lack) (view object.now))
        (seen_by (λ pairs. pairs.items) result) }
{
    pairs_of(alloc, stated(object, Code::WrongKind, Field::Pairs)?)
}

fn colours_in(alloc: Global, object: &Value) -> Result<Vec<ColourSpace>, Fault>
    ensures { Reads (λ lack. required ColorSpaces (colours_of lack) (view object.now))
        (seen_by (λ colours. colours.items) result) }
{
    colours_of(alloc, stated(object, Code::WrongKind, Field::ColorSpaces)?)
}

fn platform_of(alloc: Global, object: &Value) -> Result<Platform, Fault>
    ensures { Reads (λ lack. platform_with lack (view object.now)) result }
{
    expect_object(object, FaultPlace::Whole, &PLATFORM_FIELDS)?;
    let heaps = heaps_in(alloc, object)?;
    let pairs = pairs_in(alloc, object)?;
    let colours = colours_in(alloc, object)?;
    Ok(Platform::new(heaps, pairs, colours))
}

/// Reads a platform's record: its heaps, its pairs of a format and a modifier, and its colour
/// spaces, each a list that isn't empty and has no item twice. At most 64 heaps are read.
///
/// Refuses with the record's first fault in the order of its fields. Memory that a field takes and
/// is refused is a fault of this field, where it takes it.
pub fn read_platform(alloc: Global, value: &Value) -> Result<Platform, Fault>
    ensures taken { IfOk result (λ platform. platform_of (view value.now) ≡ Ok platform) }
    ensures refused { IfErr result
        (λ fault. fault.code ≢ WantOfMemory → platform_of (view value.now) ≡ Err fault) }
    ensures wanting { IfErr result (λ fault. fault.code ≡ WantOfMemory
        → platform_with (lack_of fault) (view value.now) ≡ Err fault) }
{
    platform_of(alloc, value)
}
