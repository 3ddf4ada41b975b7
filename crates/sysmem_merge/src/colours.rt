//! Sets of colour spaces, in one word each.

ghost use Rattle.std.specs.Prelude.{◌≡◌, ◌&&◌, ◌||◌, ◌<◌, true, false};
ghost use Rattle.sysmem_formats.specs.declared.colour_space.ColourSpace.{ColourSpace as Colour};
ghost use Rattle.sysmem_image.specs.Colours.{lists, accepts};
ghost use Rattle.sysmem_merge.specs.Pairs.{colour_bit, has, says_format, says_modifier};

use sysmem_formats::ColourSpace;
use sysmem_image::ColourSet;

/// Some of the eight colour spaces, a bit each; above them, whether somebody names
/// a pair's format and its modifier.
#[derive(Clone, Copy, Debug, PartialEq, Eq)]
pub(crate) struct Colours {
    bits: u32,
}

impl Colours {
    /// All of them.
    pub(crate) fn all() -> Colours
        ensures { (c : Colour) → has result c ≡ true }
    {
        Colours { bits: 255 }
    }

    /// None of them.
    pub(crate) fn none() -> Colours
        ensures colours { (c : Colour) → has result c ≡ false }
        ensures format { says_format result ≡ false }
        ensures modifier { says_modifier result ≡ false }
    {
        Colours { bits: 0 }
    }

    /// Those that an entry lists themselves.
    pub(crate) fn listed(set: &ColourSet) -> Colours
        ensures is { (c : Colour) → has result c ≡ lists set.now c }
        ensures small { result.bits < 256 }
    {
        let bits = u32::from(set.lists(ColourSpace::Srgb))
            + 2 * u32::from(set.lists(ColourSpace::Rec601Ntsc))
            + 4 * u32::from(set.lists(ColourSpace::Rec601NtscFullRange))
            + 8 * u32::from(set.lists(ColourSpace::Rec601Pal))
            + 16 * u32::from(set.lists(ColourSpace::Rec601PalFullRange))
            + 32 * u32::from(set.lists(ColourSpace::Rec709))
            + 64 * u32::from(set.lists(ColourSpace::Rec2020))
            + 128 * u32::from(set.lists(ColourSpace::Rec2100));
        Colours { bits }
    }

    /// Those that an entry lists itself, and whether it names a format and a modifier.
    pub(crate) fn names(set: &ColourSet, format: bool, modifier: bool) -> Colours
        ensures colours { (c : Colour) → has result c ≡ lists set.now c }
        ensures format { says_format result ≡ format }
        ensures modifier { says_modifier result ≡ modifier }
    {
        let listed = Colours::listed(set);
        Colours {
            bits: listed.bits + 256 * u32::from(format) + 512 * u32::from(modifier),
        }
    }

    /// Whether it says that somebody names a format and a modifier.
    pub(crate) fn has_pair(&self) -> bool
        ensures { result ≡ (says_format self.now && says_modifier self.now) }
    {
        self.bits >> 8 & 1 == 1 && self.bits >> 9 & 1 == 1
    }

    /// Those that an entry takes: all, where it lists `DO_NOT_CARE`.
    pub(crate) fn taken(set: &ColourSet) -> Colours
        ensures { (c : Colour) → has result c ≡ accepts set.now c }
    {
        if set.lists_any() {
            Colours::all()
        } else {
            Colours::listed(set)
        }
    }

    /// Whether the colour space is one of them.
    pub(crate) fn has(&self, colour: ColourSpace) -> bool
        ensures { result ≡ has self.now colour }
    {
        (self.bits >> bit_of(colour)) & 1 == 1
    }

    /// Those that are in both sets.
    pub(crate) fn in_both(&self, other: &Colours) -> Colours
        ensures { (c : Colour) → has result c ≡ (has self.now c && has other.now c) }
    {
        Colours {
            bits: self.bits & other.bits,
        }
    }

    /// Those that are in either set, and the parts of a pair's name that either says are named.
    pub(crate) fn in_either(&self, other: &Colours) -> Colours
        ensures colours { (c : Colour) → has result c ≡ (has self.now c || has other.now c) }
        ensures format { says_format result ≡ (says_format self.now || says_format other.now) }
        ensures modifier { says_modifier result
            ≡ (says_modifier self.now || says_modifier other.now) }
    {
        Colours {
            bits: self.bits | other.bits,
        }
    }
}

/// The colour space's bit, 0 to 7.
fn bit_of(colour: ColourSpace) -> u32
    ensures is { result ≡ colour_bit colour }
    ensures below { result < 8 }
{
    colour as u32
}
