//! The colour spaces that an entry lists.

ghost use Rattle.std.specs.Prelude.{◌≡◌};

use sysmem_formats::ColourSpace;

/// The colour spaces that an entry lists, and whether it lists `DO_NOT_CARE`.
#[derive(Clone, Copy, Debug, PartialEq, Eq)]
pub struct ColourSet {
    any: bool,
    srgb: bool,
    rec601_ntsc: bool,
    rec601_ntsc_full_range: bool,
    rec601_pal: bool,
    rec601_pal_full_range: bool,
    rec709: bool,
    rec2020: bool,
    rec2100: bool,
}

impl ColourSet {
    ghost use Rattle.sysmem_image.specs.Colours.{
      lists_any,
      lists,
      accepts,
      no_colours,
      with_any,
      with_colour,
    };

    /// A set that lists nothing.
    pub fn new() -> ColourSet
        ensures { result ≡ no_colours }
    {
        ColourSet {
            any: false,
            srgb: false,
            rec601_ntsc: false,
            rec601_ntsc_full_range: false,
            rec601_pal: false,
            rec601_pal_full_range: false,
            rec709: false,
            rec2020: false,
            rec2100: false,
        }
    }

    /// Lists `DO_NOT_CARE` too.
    pub fn insert_any(&mut self)
        ensures { self.new ≡ with_any self.old }
    {
        self.any = true;
    }

    /// Lists the colour space too.
    pub fn insert(&mut self, colour: ColourSpace)
        ensures { self.new ≡ with_colour self.old colour }
    {
        match colour {
            ColourSpace::Srgb => self.srgb = true,
            ColourSpace::Rec601Ntsc => self.rec601_ntsc = true,
            ColourSpace::Rec601NtscFullRange => self.rec601_ntsc_full_range = true,
            ColourSpace::Rec601Pal => self.rec601_pal = true,
            ColourSpace::Rec601PalFullRange => self.rec601_pal_full_range = true,
            ColourSpace::Rec709 => self.rec709 = true,
            ColourSpace::Rec2020 => self.rec2020 = true,
            ColourSpace::Rec2100 => self.rec2100 = true,
        }
    }

    /// Whether `DO_NOT_CARE` is listed.
    pub fn lists_any(&self) -> bool
        ensures { result ≡ lists_any self.now }
    {
        self.any
    }

    /// Whether the colour space itself is listed.
    pub fn lists(&self, colour: ColourSpace) -> bool
        ensures { result ≡ lists self.now colour }
    {
        match colour {
            ColourSpace::Srgb => self.srgb,
            ColourSpace::Rec601Ntsc => self.rec601_ntsc,
            ColourSpace::Rec601NtscFullRange => self.rec601_ntsc_full_range,
            ColourSpace::Rec601Pal => self.rec601_pal,
            ColourSpace::Rec601PalFullRange => self.rec601_pal_full_range,
            ColourSpace::Rec709 => self.rec709,
            ColourSpace::Rec2020 => self.rec2020,
            ColourSpace::Rec2100 => self.rec2100,
        }
    }

    /// Whether the colour space or `DO_NOT_CARE` is listed.
    pub fn accepts(&self, colour: ColourSpace) -> bool
        ensures { result ≡ accepts self.now colour }
    {
        self.lists_any() || self.lists(colour)
    }
}
