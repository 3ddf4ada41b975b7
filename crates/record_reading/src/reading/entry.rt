//! Reads the image entries of a participant.

ghost use Rattle.std.specs.Prelude.{◌≡◌, ◌++◌, [], map};
ghost use Rattle.serde_json.specs.View.{view};
ghost use Rattle.sysmem_counts.specs.declared.field.Field.TheVariants.{ImageFormatConstraints};
ghost use Rattle.record_reading.specs.Reading.Entries.{entry_object, entry_with, with_entry, entries_of};
ghost use Rattle.record_reading.specs.Reading.Fields.{Reads, kept, optional, seen_by};

use super::asked::asked_pairs;
use super::bounds::bounds_of;
use super::colour_set::colour_set_of;
use super::field::{add, expect_object, list_of, stated};
use super::list::{Listed, list_in};
use crate::fault::{Code, Fault, FaultPlace};
use negotiation_inputs::AskedPair;
use serde_json::Value;
use std::alloc::Global;
use sysmem_counts::Field;
use sysmem_image::{ColourSet, Entry, EntryBounds, bounds_table};

fn entry_with(colours: ColourSet, bounds: EntryBounds, pair: AskedPair) -> Entry
    ensures { result ≡ entry_with colours bounds pair }
{
    Entry {
        format: pair.format,
        modifier: pair.modifier,
        colours,
        bounds,
    }
}

fn add_entries(
    entries: &mut Vec<Entry>,
    colours: ColourSet,
    bounds: EntryBounds,
    pairs: &[AskedPair],
) -> Result<(), Fault>
    ensures { Reads (λ lack. kept lack ImageFormatConstraints
        (entries.old.items ++ map (entry_with colours bounds) pairs.now))
        (seen_by (λ _. entries.new.items) result) }
{
    for pair in pairs {
        add(
            entries,
            entry_with(colours, bounds, *pair),
            Field::ImageFormatConstraints,
        )?;
    }
    Ok(())
}

macro_rules! entry_fields {
    (() $($name:ident: $shape:ident $rule:ident $field:ident $absent:ident $range:ident,)*) => {
        [
            Field::PixelFormat,
            Field::PixelFormatModifier,
            Field::PixelFormatAndModifiers,
            Field::ColorSpaces,
            $(Field::$field,)*
            Field::RequireBytesPerRowAtPixelBoundary,
        ]
    };
}

/// The fields of an entry.
pub const ENTRY_FIELDS: [Field; 16] = bounds_table!(entry_fields!());

fn expect_entry(object: &Value) -> Result<(), Fault>
    ensures { seen_by (λ _. view object.now) result ≡ entry_object (view object.now) }
{
    expect_object(
        object,
        FaultPlace::At(Field::ImageFormatConstraints),
        &ENTRY_FIELDS,
    )
}

impl Listed for Entry {
    ghost added = { with_entry };

    fn add(alloc: Global, entries: &mut Vec<Entry>, value: &Value) -> Result<(), Fault> {
        expect_entry(value)?;
        let pairs = asked_pairs(alloc, entries, value)?;
        let colours = colour_set_of(stated(value, Code::NoColourSpaces, Field::ColorSpaces)?)?;
        let bounds = bounds_of(value)?;
        add_entries(entries, colours, bounds, &pairs)
    }
}

/// The entries of a participant's record, one for each pair that they give; none where it lacks the
/// field. At most 64 are read.
///
/// Refuses with the first fault, entry by entry and in the order of an entry's fields. Memory that
/// a field takes and is refused is a fault of this field, where it takes it.
pub fn entries_in(alloc: Global, object: &Value) -> Result<Vec<Entry>, Fault>
    ensures { Reads (λ lack. optional ImageFormatConstraints [] (entries_of lack) (view object.now))
        (seen_by (λ entries. entries.items) result) }
{
    match object.get(Field::ImageFormatConstraints.name()) {
        None => Ok(Vec::new(alloc)),
        Some(value) => list_in(alloc, list_of(value, Field::ImageFormatConstraints)?),
    }
}
