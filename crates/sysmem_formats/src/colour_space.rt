//! Colour spaces and their names.

ghost use Rattle.std.specs.Prelude.{◌≡◌, ◌↔◌};

/// Which colours the numbers of an image stand for.
#[derive(Clone, Copy, Debug, PartialEq, Eq)]
pub enum ColourSpace {
    Srgb,
    Rec601Ntsc,
    Rec601NtscFullRange,
    Rec601Pal,
    Rec601PalFullRange,
    Rec709,
    Rec2020,
    Rec2100,
}

impl ColourSpace {
    ghost use Rattle.sysmem_formats.specs.declared.colour_space.ColourSpace.{ColourSpace};
    ghost use Rattle.sysmem_formats.specs.Names.{colour_name};

    /// Each colour space.
    pub const ALL: [ColourSpace; 8] = [
        ColourSpace::Srgb,
        ColourSpace::Rec601Ntsc,
        ColourSpace::Rec601NtscFullRange,
        ColourSpace::Rec601Pal,
        ColourSpace::Rec601PalFullRange,
        ColourSpace::Rec709,
        ColourSpace::Rec2020,
        ColourSpace::Rec2100,
    ];

    /// The colour space's name in constraints, platforms and reports.
    pub fn name(self) -> &'static str
        ensures { result.now ≡ colour_name self }
    {
        match self {
            ColourSpace::Srgb => "SRGB",
            ColourSpace::Rec601Ntsc => "REC601_NTSC",
            ColourSpace::Rec601NtscFullRange => "REC601_NTSC_FULL_RANGE",
            ColourSpace::Rec601Pal => "REC601_PAL",
            ColourSpace::Rec601PalFullRange => "REC601_PAL_FULL_RANGE",
            ColourSpace::Rec709 => "REC709",
            ColourSpace::Rec2020 => "REC2020",
            ColourSpace::Rec2100 => "REC2100",
        }
    }

    /// The colour space of this name, or `None` where none has it. `DO_NOT_CARE` names none.
    pub fn from_name(name: &str) -> Option<ColourSpace>
        ensures { (colour : ColourSpace) → (result ≡ Some colour)
            ↔ (name.now ≡ colour_name colour) }
    {
        ColourSpace::ALL
            .iter()
            .find(|one| one.name() == name)
            .copied()
    }
}
