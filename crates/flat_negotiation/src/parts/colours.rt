//! Colour spaces, as the bits of a set.

ghost use Rattle.std.specs.Prelude.{◌≡◌, ◌↔◌, ◌<◌, IfErr, IfOk, IfSome, IfNone, Some};
ghost use Rattle.std.specs.List.{AllZip};
ghost use Rattle.sysmem_formats.specs.declared.colour_space.ColourSpace.{ColourSpace as Colour};
ghost use Rattle.flat_negotiation.specs.declared.parts.stated.TheConstants.{SET_BITS};
ghost use Rattle.flat_negotiation.specs.Colours.{ColourUnsaid, IsColourSaid, any_listed, colour_bit, colour_index, listed, set_said};
ghost use Rattle.flat_negotiation.specs.Unsaid.{IfAmiss, IsAmiss};

use crate::parts::stated::has_bit;
use crate::parts::unsaid::{Amiss, Unsaid, add};
use std::alloc::Global;
use sysmem_counts::Field;
use sysmem_formats::ColourSpace;
use sysmem_image::ColourSet;

/// The bit of a colour space.
pub fn colour_bit(colour: ColourSpace) -> u32
    ensures { result ≡ colour_bit colour }
{
    match colour {
        ColourSpace::Srgb => 1,
        ColourSpace::Rec601Ntsc => 2,
        ColourSpace::Rec601NtscFullRange => 4,
        ColourSpace::Rec601Pal => 8,
        ColourSpace::Rec601PalFullRange => 16,
        ColourSpace::Rec709 => 32,
        ColourSpace::Rec2020 => 64,
        ColourSpace::Rec2100 => 128,
    }
}

fn colour_of(bit: u32) -> Option<ColourSpace>
    ensures { (colour : Colour) → (result ≡ Some colour) ↔ (colour_bit colour ≡ bit) }
{
    match bit {
        1 => Some(ColourSpace::Srgb),
        2 => Some(ColourSpace::Rec601Ntsc),
        4 => Some(ColourSpace::Rec601NtscFullRange),
        8 => Some(ColourSpace::Rec601Pal),
        16 => Some(ColourSpace::Rec601PalFullRange),
        32 => Some(ColourSpace::Rec709),
        64 => Some(ColourSpace::Rec2020),
        128 => Some(ColourSpace::Rec2100),
        _ => None,
    }
}

fn stated_colour(bit: u32) -> Result<ColourSpace, Field>
    ensures said { IfOk result (IsColourSaid bit) }
    ensures amiss { IfErr result (λ field. ColourUnsaid field bit) }
{
    match colour_of(bit) {
        Some(colour) => Ok(colour),
        None => Err(Field::ColorSpaces),
    }
}

/// The colour spaces that have these bits. It fails where memory is refused, or where none has a
/// bit.
pub fn colours_of(alloc: Global, bits: &[u32]) -> Result<Vec<ColourSpace>, Unsaid>
    ensures said { IfOk result (λ colours. AllZip IsColourSaid bits.now colours.items) }
    ensures amiss { IfErr result (IfAmiss (IsAmiss ColourUnsaid bits.now)) }
{
    let mut colours = Vec::new(alloc);
    for index in 0..bits.len() {
        match stated_colour(bits[index]) {
            Ok(colour) => add(&mut colours, colour)?,
            Err(field) => return Err(Unsaid::Misstated(Amiss { index, field })),
        }
    }
    Ok(colours)
}

fn listed(set: ColourSet, bits: u32, index: u32, colour: ColourSpace) -> ColourSet
    requires { index < SET_BITS }
    ensures { index ≡ colour_index colour → result ≡ listed bits colour set }
{
    let mut set = set;
    if has_bit(u64::from(bits), index) {
        set.insert(colour);
    }
    set
}

fn any_listed(bits: u32) -> ColourSet
    ensures { result ≡ any_listed bits }
{
    let mut set = ColourSet::new();
    if has_bit(u64::from(bits), 8) {
        set.insert_any();
    }
    set
}

/// The set that has these bits, of which those above the ninth say nothing.
pub(crate) fn set_of(bits: u32) -> ColourSet
    ensures { result ≡ set_said bits }
{
    let set = any_listed(bits);
    let set = listed(set, bits, 0, ColourSpace::Srgb);
    let set = listed(set, bits, 1, ColourSpace::Rec601Ntsc);
    let set = listed(set, bits, 2, ColourSpace::Rec601NtscFullRange);
    let set = listed(set, bits, 3, ColourSpace::Rec601Pal);
    let set = listed(set, bits, 4, ColourSpace::Rec601PalFullRange);
    let set = listed(set, bits, 5, ColourSpace::Rec709);
    let set = listed(set, bits, 6, ColourSpace::Rec2020);
    listed(set, bits, 7, ColourSpace::Rec2100)
}
