//! The codes of formats and modifiers.

ghost use Rattle.std.specs.Option.{unwrap_or};
ghost use Rattle.std.specs.Prelude.{◌≡◌, ◌↔◌, Some, option_map};
ghost use Rattle.sysmem_formats.specs.declared.modifier.Modifier.{Modifier as Tiling};
ghost use Rattle.sysmem_formats.specs.declared.pixel_format.PixelFormat.{PixelFormat as Format};
ghost use Rattle.drm_images.specs.Codes.{fourcc, modifier_bits, word_of};

use sysmem_formats::{Modifier, PixelFormat};

/// The letters of a format's `DRM_FORMAT_*` code, or `None` of `L8`, which has none.
pub fn letters_of(format: PixelFormat) -> Option<&'static str>
    ensures { option_map (λ text. word_of text.now) result ≡ fourcc format }
{
    match format {
        PixelFormat::R8G8B8A8 => Some("AB24"),
        PixelFormat::B8G8R8A8 => Some("AR24"),
        PixelFormat::R8G8B8X8 => Some("XB24"),
        PixelFormat::B8G8R8X8 => Some("XR24"),
        PixelFormat::R8G8B8 => Some("BG24"),
        PixelFormat::B8G8R8 => Some("RG24"),
        PixelFormat::R5G6B5 => Some("RG16"),
        PixelFormat::R8G8 => Some("GR88"),
        PixelFormat::YUY2 => Some("YUYV"),
        PixelFormat::R8 => Some("R8  "),
        PixelFormat::L8 => None,
        PixelFormat::I420 => Some("YU12"),
        PixelFormat::YV12 => Some("YV12"),
        PixelFormat::NV12 => Some("NV12"),
        PixelFormat::P010 => Some("P010"),
    }
}

/// A format's `DRM_FORMAT_*` code, or 0 of `L8`, which has none.
pub fn code_of(format: PixelFormat) -> u32
    ensures { result ≡ unwrap_or (fourcc format) 0 }
{
    match format {
        PixelFormat::R8G8B8A8 => 0x3432_4241,
        PixelFormat::B8G8R8A8 => 0x3432_5241,
        PixelFormat::R8G8B8X8 => 0x3432_4258,
        PixelFormat::B8G8R8X8 => 0x3432_5258,
        PixelFormat::R8G8B8 => 0x3432_4742,
        PixelFormat::B8G8R8 => 0x3432_4752,
        PixelFormat::R5G6B5 => 0x3631_4752,
        PixelFormat::R8G8 => 0x3838_5247,
        PixelFormat::YUY2 => 0x5659_5559,
        PixelFormat::R8 => 0x2020_3852,
        PixelFormat::L8 => 0,
        PixelFormat::I420 => 0x3231_5559,
        PixelFormat::YV12 => 0x3231_5659,
        PixelFormat::NV12 => 0x3231_564e,
        PixelFormat::P010 => 0x3031_3050,
    }
}

/// The 64 bits of a modifier's `DRM_FORMAT_MOD_*`.
pub fn bits_of(modifier: Modifier) -> u64
    ensures { result ≡ modifier_bits modifier }
{
    match modifier {
        Modifier::Linear => 0,
        Modifier::IntelXTiled => 0x0100_0000_0000_0001,
        Modifier::IntelYTiled => 0x0100_0000_0000_0002,
    }
}

/// The format of a `DRM_FORMAT_*` code, or `None` where none has it.
pub fn format_of(code: u32) -> Option<PixelFormat>
    ensures { (format : Format) → (result ≡ Some format) ↔ (fourcc format ≡ Some code) }
{
    match code {
        0x3432_4241 => Some(PixelFormat::R8G8B8A8),
        0x3432_5241 => Some(PixelFormat::B8G8R8A8),
        0x3432_4258 => Some(PixelFormat::R8G8B8X8),
        0x3432_5258 => Some(PixelFormat::B8G8R8X8),
        0x3432_4742 => Some(PixelFormat::R8G8B8),
        0x3432_4752 => Some(PixelFormat::B8G8R8),
        0x3631_4752 => Some(PixelFormat::R5G6B5),
        0x3838_5247 => Some(PixelFormat::R8G8),
        0x5659_5559 => Some(PixelFormat::YUY2),
        0x2020_3852 => Some(PixelFormat::R8),
        0x3231_5559 => Some(PixelFormat::I420),
        0x3231_5659 => Some(PixelFormat::YV12),
        0x3231_564e => Some(PixelFormat::NV12),
        0x3031_3050 => Some(PixelFormat::P010),
        _ => None,
    }
}

/// The modifier of the 64 bits of a `DRM_FORMAT_MOD_*`, or `None` where none has them.
pub fn modifier_of(bits: u64) -> Option<Modifier>
    ensures { (modifier : Tiling) → (result ≡ Some modifier) ↔ (modifier_bits modifier ≡ bits) }
{
    match bits {
        0 => Some(Modifier::Linear),
        0x0100_0000_0000_0001 => Some(Modifier::IntelXTiled),
        0x0100_0000_0000_0002 => Some(Modifier::IntelYTiled),
        _ => None,
    }
}
