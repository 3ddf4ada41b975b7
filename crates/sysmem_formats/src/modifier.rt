//! Modifiers, which say how pixels are laid out, and their names.

ghost use Rattle.std.specs.Prelude.{◌≡◌, ◌↔◌, ◌<◌};
ghost use Rattle.sysmem_formats.specs.declared.modifier.TheConstants.{MODIFIERS};

/// How the rows of an image lie in memory: one after another, or in tiles.
#[derive(Clone, Copy, Debug, PartialEq, Eq)]
pub enum Modifier {
    Linear,
    IntelXTiled,
    IntelYTiled,
}

/// How many modifiers there are.
pub const MODIFIERS: usize = 3;

impl Modifier {
    ghost use Rattle.sysmem_formats.specs.declared.modifier.Modifier.{Modifier};
    ghost use Rattle.sysmem_formats.specs.Codes.{modifier_code};
    ghost use Rattle.sysmem_formats.specs.Names.{modifier_name};

    /// Each modifier, in the order of `index`.
    pub const ALL: [Modifier; MODIFIERS] = [
        Modifier::Linear,
        Modifier::IntelXTiled,
        Modifier::IntelYTiled,
    ];

    /// The modifier's name in constraints, platforms and reports.
    pub fn name(self) -> &'static str
        ensures { result.now ≡ modifier_name self }
    {
        match self {
            Modifier::Linear => "LINEAR",
            Modifier::IntelXTiled => "INTEL_I915_X_TILED",
            Modifier::IntelYTiled => "INTEL_I915_Y_TILED",
        }
    }

    /// The modifier of this name, or `None` where no modifier has it. `DO_NOT_CARE` names none.
    pub fn from_name(name: &str) -> Option<Modifier>
        ensures { (modifier : Modifier) → (result ≡ Some modifier)
            ↔ (name.now ≡ modifier_name modifier) }
    {
        Modifier::ALL.iter().find(|one| one.name() == name).copied()
    }

    /// The modifier's place in the list of all, from 0.
    pub fn index(self) -> usize
        ensures is { result ≡ modifier_code self }
        ensures below { result < MODIFIERS }
    {
        self as usize
    }
}
