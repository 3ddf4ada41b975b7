//! Reads the pairs and the colour spaces of a platform.

ghost use Rattle.std.specs.Prelude.{◌≡◌};
ghost use Rattle.serde_json.specs.View.{view};
ghost use Rattle.sysmem_counts.specs.declared.field.Field.TheVariants.{PixelFormatModifier};
ghost use Rattle.sysmem_formats.specs.declared.modifier.Modifier.TheVariants.{Linear};
ghost use Rattle.record_reading.specs.Reading.Fields.{seen_by, Reads, optional, named};
ghost use Rattle.record_reading.specs.Reading.Names.{modifier_named};
ghost use Rattle.record_reading.specs.Reading.Platform.{pair_of, with_pair, pairs_of, with_new_colour, colours_of};

use super::field::{add, expect_object, list_of, stated};
use super::list::{Listed, list_in};
use super::name::name_of;
use crate::fault::{Code, Fault, FaultPlace};
use negotiation_inputs::{has_pair, is_tiled_misfit, lists_colour};
use serde_json::Value;
use std::alloc::Global;
use sysmem_counts::Field;
use sysmem_formats::{ColourSpace, Modifier, Pair};

fn modifier_in(object: &Value) -> Result<Modifier, Fault>
    ensures { result
        ≡ optional PixelFormatModifier Linear (named modifier_named PixelFormatModifier)
        (view object.now) }
{
    match object.get(Field::PixelFormatModifier.name()) {
        None => Ok(Modifier::Linear),
        Some(value) => name_of(value, Field::PixelFormatModifier),
    }
}

/// The fields of a pair of a format and a modifier.
pub const PAIR_FIELDS: [Field; 2] = [Field::PixelFormat, Field::PixelFormatModifier];

fn pair_of(object: &Value) -> Result<Pair, Fault>
    ensures { result ≡ pair_of (view object.now) }
{
    expect_object(object, FaultPlace::At(Field::Pairs), &PAIR_FIELDS)?;
    let format = stated(object, Code::WrongKind, Field::PixelFormat)?;
    Ok(Pair {
        format: name_of(format, Field::PixelFormat)?,
        modifier: modifier_in(object)?,
    })
}

impl Listed for Pair {
    ghost added = { with_pair };

    fn add(_: Global, pairs: &mut Vec<Pair>, value: &Value) -> Result<(), Fault> {
        let pair = pair_of(value)?;
        if is_tiled_misfit(pair) {
            return Err(Fault::of(Code::TiledMisfit, Field::Pairs));
        }
        if has_pair(pairs, pair) {
            return Err(Fault::of(Code::BadPlatformList, Field::Pairs));
        }
        add(pairs, pair, Field::Pairs)
    }
}

/// A list of pairs that isn't empty, no two alike and none a tiled modifier with a format that
/// isn't of 4 bytes.
pub(super) fn pairs_of(alloc: Global, value: &Value) -> Result<Vec<Pair>, Fault>
    ensures { Reads (λ lack. pairs_of lack (view value.now))
        (seen_by (λ pairs. pairs.items) result) }
{
    let pairs = list_in(alloc, list_of(value, Field::Pairs)?)?;
    if pairs.is_empty() {
        return Err(Fault::of(Code::BadPlatformList, Field::Pairs));
    }
    Ok(pairs)
}

impl Listed for ColourSpace {
    ghost added = { with_new_colour };

    fn add(_: Global, colours: &mut Vec<ColourSpace>, value: &Value) -> Result<(), Fault> {
        let colour = name_of(value, Field::ColorSpaces)?;
        if lists_colour(colours, colour) {
            return Err(Fault::of(Code::BadPlatformList, Field::ColorSpaces));
        }
        add(colours, colour, Field::ColorSpaces)
    }
}

/// A list of colour spaces that isn't empty, no two alike.
pub(super) fn colours_of(alloc: Global, value: &Value) -> Result<Vec<ColourSpace>, Fault>
    ensures { Reads (λ lack. colours_of lack (view value.now))
        (seen_by (λ colours. colours.items) result) }
{
    let colours = list_in(alloc, list_of(value, Field::ColorSpaces)?)?;
    if colours.is_empty() {
        return Err(Fault::of(Code::BadPlatformList, Field::ColorSpaces));
    }
    Ok(colours)
}
