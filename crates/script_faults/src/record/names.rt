//! The names of the profile, and other people's names for what it has.

use crate::help::{Help, did_you_mean, listed, near_or_listed};
use crate::record::keys::{Table, found, is_one_of};
use bitflags::Flags;
use drm_images::letters_of;
use explanation_text::TextBuilder;
use std::alloc::{AllocError, Global};
use sysmem_counts::{Field, Usage};
use sysmem_formats::{ColourSpace, Modifier, PixelFormat};
use sysmem_memory::CoherencyDomain;

/// What constraints name where any will do; no platform does.
pub(crate) const ANY: &str = "DO_NOT_CARE";

/// The names that a field takes, in a platform or in constraints; none where it takes no names.
pub(crate) fn names_for(
    alloc: Global,
    field: Field,
    is_platform: bool,
) -> Result<Vec<&'static str>, AllocError> {
    let mut names: Vec<&'static str> = match field {
        Field::Usage => return Usage::flags().iter().map(|flag| flag.name).collect(alloc),
        Field::Domains => {
            return CoherencyDomain::ALL
                .iter()
                .map(|one| one.name())
                .collect(alloc);
        }
        Field::ColorSpaces => ColourSpace::ALL
            .iter()
            .map(|one| one.name())
            .collect(alloc)?,
        Field::PixelFormat => PixelFormat::ALL
            .iter()
            .map(|one| one.name())
            .collect(alloc)?,
        Field::PixelFormatModifier => Modifier::ALL.iter().map(|one| one.name()).collect(alloc)?,
        _ => return Ok(Vec::new(alloc)),
    };
    if !is_platform {
        names.push(ANY)?;
    }
    Ok(names)
}

/// Formats as DRM names them, without its prefix, where that isn't their code's letters; each with its
/// name in the profile.
const FORMATS_OF_DRM: Table = &[
    ("ABGR8888", "R8G8B8A8"),
    ("ARGB8888", "B8G8R8A8"),
    ("XBGR8888", "R8G8B8X8"),
    ("XRGB8888", "B8G8R8X8"),
    ("BGR888", "R8G8B8"),
    ("RGB888", "B8G8R8"),
    ("RGB565", "R5G6B5"),
    ("YUV420", "I420"),
    ("YVU420", "YV12"),
];

const MODIFIERS_OF_DRM: Table = &[
    ("DRM_FORMAT_MOD_LINEAR", "LINEAR"),
    ("MOD_LINEAR", "LINEAR"),
    ("I915_FORMAT_MOD_X_TILED", "INTEL_I915_X_TILED"),
    ("I915_X_TILED", "INTEL_I915_X_TILED"),
    ("X_TILED", "INTEL_I915_X_TILED"),
    ("I915_FORMAT_MOD_Y_TILED", "INTEL_I915_Y_TILED"),
    ("I915_Y_TILED", "INTEL_I915_Y_TILED"),
    ("Y_TILED", "INTEL_I915_Y_TILED"),
];

const USAGES_OF_WORDS: Table = &[
    ("gpu", "vulkan"),
    ("render", "vulkan"),
    ("opengl", "vulkan"),
    ("GPU", "vulkan"),
    ("camera", "video"),
    ("isp", "video"),
    ("codec", "video"),
    ("encoder", "video"),
    ("decoder", "video"),
    ("scaler", "video"),
    ("scanout", "display"),
    ("software", "cpu"),
    ("host", "cpu"),
    ("CPU", "cpu"),
];

const COLOURS_OF_WORDS: Table = &[
    ("BT709", "REC709"),
    ("bt709", "REC709"),
    ("BT.709", "REC709"),
    ("BT2020", "REC2020"),
    ("bt2020", "REC2020"),
    ("BT.2020", "REC2020"),
    ("BT2100", "REC2100"),
    ("bt2100", "REC2100"),
    ("BT.2100", "REC2100"),
    ("BT601", "REC601_NTSC or REC601_PAL"),
    ("bt601", "REC601_NTSC or REC601_PAL"),
    ("BT.601", "REC601_NTSC or REC601_PAL"),
];

const DOMAINS_OF_WORDS: Table = &[
    ("secure", "inaccessible"),
    ("protected", "inaccessible"),
    ("private", "inaccessible"),
    ("none", "inaccessible"),
    ("dma", "ram"),
    ("device", "ram"),
    ("uncached", "ram"),
    ("RAM", "ram"),
    ("cached", "cpu"),
    ("host", "cpu"),
    ("CPU", "cpu"),
];

/// Other people's names for those that a field takes, each with the name of the profile; of formats
/// see `FORMATS_OF_DRM`.
fn others_for(field: Field) -> Table {
    match field {
        Field::PixelFormatModifier => MODIFIERS_OF_DRM,
        Field::Usage => USAGES_OF_WORDS,
        Field::ColorSpaces => COLOURS_OF_WORDS,
        Field::Domains => DOMAINS_OF_WORDS,
        _ => &[],
    }
}

/// Names that Fuchsia has and this profile leaves out.
const LEFT_OUT: &[&str] = &[
    "MJPEG",
    "M420",
    "R3G3B2",
    "R2G2B2X2",
    "A2R10G10B10",
    "A2B10G10R10",
    "PASSTHROUGH",
];

/// Well-known formats of DRM and V4L2 for which this profile and Fuchsia have no name, without their
/// prefixes. Some of them are spelled nearly as known ones.
const WITHOUT_NAME: &[&str] = &[
    "NV15",
    "NV16",
    "NV20",
    "NV21",
    "NV24",
    "NV30",
    "NV42",
    "NV61",
    "P012",
    "P016",
    "P030",
    "P210",
    "UYVY",
    "VYUY",
    "YVYU",
    "Y210",
    "Y212",
    "Y216",
    "Y410",
    "Y412",
    "Y416",
    "AYUV",
    "YU16",
    "YV16",
    "YU24",
    "YV24",
    "YUV410",
    "YUV411",
    "YUV422",
    "YVU422",
    "YUV444",
    "YVU444",
    "BGR565",
    "XRGB1555",
    "ARGB1555",
    "XRGB4444",
    "ARGB4444",
    "XRGB2101010",
    "ARGB2101010",
    "XBGR2101010",
    "ABGR2101010",
];

/// Formats by their bytes in memory, as APIs of GPUs name them; DRM's of such names have none here.
const FORMATS_OF_BYTES: Table = &[
    ("BGRA8888", "B8G8R8A8"),
    ("BGRX8888", "B8G8R8X8"),
    ("RGBA8888", "R8G8B8A8"),
    ("RGBX8888", "R8G8B8X8"),
    ("BGRA_8888", "B8G8R8A8"),
    ("RGBA_8888", "R8G8B8A8"),
    ("RGBX_8888", "R8G8B8X8"),
];

/// What an unknown name at a field may mean, in words; or else the names that the field takes.
pub(crate) fn hint_of_name(
    alloc: Global,
    field: Field,
    name: &str,
    is_platform: bool,
) -> Result<Help, AllocError> {
    let known = names_for(alloc, field, is_platform)?;
    hint_among(alloc, field, name, &known)
}

/// The same, where the field takes these names.
fn hint_among(alloc: Global, field: Field, name: &str, known: &[&str]) -> Result<Help, AllocError> {
    if field == Field::PixelFormat {
        return hint_of_format(alloc, name, known);
    }
    match found(others_for(field), name) {
        Some(meant) => {
            let mut words = TextBuilder::of(alloc, "it is ");
            words.put(meant).put(" here");
            Ok(if is_one_of(meant, known) {
                Help::of_word(words, meant)
            } else {
                Help::of(words)
            })
        }
        None => hint_of_known(alloc, name, known),
    }
}

/// The name of the format that DRM names so, without its prefix, if that is another name.
fn format_of_drm(name: &str) -> Option<&'static str> {
    if let Some(format) = found(FORMATS_OF_DRM, name) {
        return Some(format);
    }
    let format = PixelFormat::ALL
        .iter()
        .find(|one| letters_of(**one) == Some(name))
        .copied()?;
    if format.name() == name {
        return None;
    }
    Some(format.name())
}

/// The format that a name means: this profile's, or DRM's.
pub(crate) fn format_of(name: &str) -> Option<&'static str> {
    let drm = without_prefix(name);
    match PixelFormat::from_name(drm) {
        Some(format) => Some(format.name()),
        None => format_of_drm(drm),
    }
}

/// The name of a format without the prefix of DRM or V4L2.
fn without_prefix(name: &str) -> &str {
    let drm = name.strip_prefix("DRM_FORMAT_").unwrap_or(name);
    drm.strip_prefix("V4L2_PIX_FMT_").unwrap_or(drm)
}

/// The same of a format.
fn hint_of_format(alloc: Global, name: &str, known: &[&str]) -> Result<Help, AllocError> {
    let drm = name.strip_prefix("DRM_FORMAT_").unwrap_or(name);
    if let Some(format) = format_of_drm(drm) {
        let mut words = TextBuilder::of(alloc, "DRM's ");
        words.put(drm).put(" is ").put(format).put(" here");
        return Ok(Help::of_word(words, format));
    }
    if let Some(format) = found(FORMATS_OF_BYTES, name) {
        let mut words = did_you_mean(alloc, format);
        words.put(" Here formats are named by their bytes in memory");
        return Ok(Help::of_word(words, format));
    }
    let plain = without_prefix(name);
    if PixelFormat::from_name(plain).is_some() {
        let mut words = TextBuilder::of(alloc, "it is written ");
        words.put(plain);
        return Ok(Help::of_word(words, plain));
    }
    if is_one_of(plain, WITHOUT_NAME) {
        let text = "another format, which has no name here; allowed: ";
        return Ok(Help::of(listed(alloc, text, known, "or")));
    }
    hint_of_known(alloc, name, known)
}

/// The same of a name that nobody else is known to have.
fn hint_of_known(alloc: Global, name: &str, known: &[&str]) -> Result<Help, AllocError> {
    if is_one_of(name, LEFT_OUT) {
        return Ok(Help::of_text(alloc, "Fuchsia has it, this profile doesn't"));
    }
    near_or_listed(alloc, name, known, "allowed: ", "or")
}
