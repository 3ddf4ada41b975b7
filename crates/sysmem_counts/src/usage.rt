// What a participant uses the buffers for.

ghost use Rattle.std.specs.Prelude.{⊤, ◌≡◌};
ghost use Rattle.sysmem_counts.specs.Families.{families};

use bitflags::{Flag, Flags};

/// What a participant uses the buffers for: a set of the families none, cpu, vulkan,
/// display and video. `Usage::from_name` reads a family's name, and `insert` unites two
/// usages (both of `bitflags::Flags`).
#[derive(Clone, Copy, Debug, PartialEq, Eq)]
pub struct Usage(u8);

impl Usage {
    ghost use Rattle.sysmem_counts.specs.Usage.{uses_cpu};

    /// The buffers aren't used, only allocated.
    pub const NONE: Usage = Usage(1);
    /// A processor reads or writes the buffers.
    pub const CPU: Usage = Usage(2);
    /// Vulkan reads or writes the buffers.
    pub const VULKAN: Usage = Usage(4);
    /// A display shows the buffers.
    pub const DISPLAY: Usage = Usage(8);
    /// A video codec reads or writes the buffers.
    pub const VIDEO: Usage = Usage(16);

    const FLAGS: &'static [Flag<Usage>] = &[
        Flag {
            name: "none",
            value: Usage::NONE,
        },
        Flag {
            name: "cpu",
            value: Usage::CPU,
        },
        Flag {
            name: "vulkan",
            value: Usage::VULKAN,
        },
        Flag {
            name: "display",
            value: Usage::DISPLAY,
        },
        Flag {
            name: "video",
            value: Usage::VIDEO,
        },
    ];

    /// Whether a processor uses the buffers.
    pub fn uses_cpu(self) -> bool
        ensures { result ≡ uses_cpu self }
    {
        self.contains(Usage::CPU)
    }
}

impl Flags for Usage {
    type Bits = u8;

    ghost exact = { ⊤ };

    ghost table = { families };

    ghost set_of = { λ usage. usage.0 };

    fn flags<'a>() -> &'a [Flag<Usage>] {
        Usage::FLAGS
    }

    fn bits(&self) -> u8 {
        self.0
    }

    fn from_bits_retain(bits: u8) -> Usage {
        Usage(bits)
    }
}
