//! The entries of a participant.

ghost use Rattle.std.specs.Prelude.{◌≡◌, false, IfErr, IfOk};
ghost use Rattle.std.specs.List.{AllZip};
ghost use Rattle.sysmem_counts.specs.declared.field.Field.{Field};
ghost use Rattle.flat_negotiation.specs.Entries.{AreBoundsSaid, EntryUnsaid, IsEntrySaid, IsFormatSaid, IsModifierSaid};
ghost use Rattle.flat_negotiation.specs.Pairs.{IsNoFormat, IsNoModifier};
ghost use Rattle.flat_negotiation.specs.Unsaid.{IfAmiss, IsAmiss};

use crate::parts::colours::set_of;
use crate::parts::flat::FlatEntry;
use crate::parts::stated::{large_stated, sides_stated, stated};
use crate::parts::unsaid::{Amiss, Unsaid, add};
use drm_images::{format_of, modifier_of};
use std::alloc::Global;
use sysmem_counts::Field;
use sysmem_formats::{Modifier, PixelFormat};
use sysmem_image::{Entry, EntryBounds, ImageBounds};

/// One more than the greatest set of colour spaces.
const COLOUR_SETS: u32 = 512;

/// The greatest divisor of a row: `most_multiple` of the definitions, neither more, by what an
/// `Entry` asks of its bounds, nor less, by what `entry_of` says of a fault.
const MOST_DIVISOR: u32 = 65_536;

/// The format that is asked for, where it isn't any.
fn format_asked(any: bool, code: u32) -> Result<Option<PixelFormat>, Field>
    ensures said { IfOk result (IsFormatSaid any code) }
    ensures none { IfErr result (λ _. IsNoFormat code) }
    ensures one { IfErr result (λ _. any ≡ false) }
    ensures field { IfErr result (λ field. field ≡ Field.PixelFormat) }
{
    if any {
        return Ok(None);
    }
    match format_of(code) {
        Some(format) => Ok(Some(format)),
        None => Err(Field::PixelFormat),
    }
}

/// The modifier that is asked for, where it isn't any.
fn modifier_asked(any: bool, bits: u64) -> Result<Option<Modifier>, Field>
    ensures said { IfOk result (IsModifierSaid any bits) }
    ensures none { IfErr result (λ _. IsNoModifier bits) }
    ensures one { IfErr result (λ _. any ≡ false) }
    ensures field { IfErr result (λ field. field ≡ Field.PixelFormatModifier) }
{
    if any {
        return Ok(None);
    }
    match modifier_of(bits) {
        Some(modifier) => Ok(Some(modifier)),
        None => Err(Field::PixelFormatModifier),
    }
}

fn bounds_of(entry: &FlatEntry) -> ImageBounds
    ensures { AreBoundsSaid entry.now result }
{
    ImageBounds {
        min_size: sides_stated(1, entry.min_size),
        max_size: sides_stated(u32::MAX, entry.max_size),
        size_alignment: sides_stated(1, entry.size_alignment),
        min_bytes_per_row: stated(1, entry.min_pitch),
        max_bytes_per_row: stated(u32::MAX, entry.max_pitch),
        bytes_per_row_divisor: stated(1, entry.pitch_divisor),
        start_offset_divisor: stated(1, entry.offset_divisor),
        display_rect_alignment: sides_stated(1, entry.display_rect_alignment),
        required_min_size: sides_stated(u32::MAX, entry.required_min_size),
        required_max_size: sides_stated(0, entry.required_max_size),
        max_width_times_height: large_stated(u64::MAX, entry.max_pixels),
    }
}

/// The entry that the struct states, or the field in which it says none.
fn entry_of(flat: &FlatEntry) -> Result<Entry, Field>
    ensures said { IfOk result (IsEntrySaid flat.now) }
    ensures amiss { IfErr result (λ field. EntryUnsaid field flat.now) }
{
    let format = format_asked(flat.any_format, flat.format)?;
    let modifier = modifier_asked(flat.any_modifier, flat.modifier)?;
    if flat.colours >= COLOUR_SETS {
        return Err(Field::ColorSpaces);
    }
    if flat.pitch_divisor > MOST_DIVISOR {
        return Err(Field::BytesPerRowDivisor);
    }
    Ok(Entry {
        format,
        modifier,
        colours: set_of(flat.colours),
        bounds: EntryBounds {
            asked: bounds_of(flat),
            at_pixel_boundary: flat.rows_end_at_pixels,
        },
    })
}

/// The entries that the structs state. It fails where memory is refused, or where a struct says no
/// entry.
pub fn entries_of(alloc: Global, flats: &[FlatEntry]) -> Result<Vec<Entry>, Unsaid>
    ensures said { IfOk result (λ entries. AllZip IsEntrySaid flats.now entries.items) }
    ensures amiss { IfErr result (IfAmiss (IsAmiss EntryUnsaid flats.now)) }
{
    let mut entries = Vec::new(alloc);
    for index in 0..flats.len() {
        match entry_of(&flats[index]) {
            Ok(entry) => add(&mut entries, entry)?,
            Err(field) => return Err(Unsaid::Misstated(Amiss { index, field })),
        }
    }
    Ok(entries)
}
