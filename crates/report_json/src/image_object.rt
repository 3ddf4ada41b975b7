//! What buffers hold, as an object.

ghost use Rattle.std.specs.Prelude.{◌≡◌};
ghost use Rattle.drm_images.specs.Planes.{bytes_of};

use crate::put::{put_name, put_number};
use drm_images::{Plane, bits_of, image_bytes, letters_of, plane_at};
use std::alloc::AllocError;
use std::fmt::Write;
use sysmem_formats::{ColourSpace, Modifier, Offer, Pair, PixelFormat};
use sysmem_image::Corner;

/// Puts the image that buffers hold, or null where they hold none.
pub(crate) fn put_image(out: &mut String, offer: Offer, corner: Corner) -> Result<(), AllocError> {
    match offer {
        Offer::NoImage => out.push_str("null"),
        Offer::Image(pair, colour) => put_shown(out, pair, colour, corner),
    }
}

fn put_shown(
    out: &mut String,
    pair: Pair,
    colour: ColourSpace,
    corner: Corner,
) -> Result<(), AllocError> {
    let (colour, bits) = (colour.name(), bits_of(pair.modifier));
    write!(
        out,
        "{{\"color_space\":\"{colour}\",\"drm_modifier\":\"0x{bits:016x}\",\"fourcc\":"
    )?;
    put_name(out, letters_of(pair.format))?;
    let Corner { width, height, .. } = corner;
    put_names(out, pair, height)?;
    if let Some(bytes) = image_bytes(pair, corner.bytes_per_row, height) {
        put_each_plane(out, pair, corner.bytes_per_row, height, bytes)?;
    }
    write!(out, "],\"width\":{width}}}")
}

fn put_names(out: &mut String, pair: Pair, height: u32) -> Result<(), AllocError> {
    let modifier = pair.modifier.name();
    let format = pair.format.name();
    write!(
        out,
        ",\"height\":{height},\"modifier\":\"{modifier}\",\"pixel_format\":\"{format}\",\"planes\":["
    )
}

/// Puts the planes of an image that has so many bytes.
fn put_each_plane(
    out: &mut String,
    pair: Pair,
    pitch: u32,
    height: u32,
    _bytes: u64,
) -> Result<(), AllocError>
    requires { _bytes ≡ bytes_of pair pitch height }
{
    put_plane(out, "", plane_at(pair, pitch, height, 0))?;
    put_plane(out, ",", plane_at(pair, pitch, height, 1))?;
    put_plane(out, ",", plane_at(pair, pitch, height, 2))
}

/// Puts a plane, if there is such a one: `{"offset":1601536,"pitch":1472,"rows":544}`.
fn put_plane(out: &mut String, before: &str, plane: Option<Plane>) -> Result<(), AllocError> {
    let Some(plane) = plane else {
        return Ok(());
    };
    write!(out, "{before}{{\"offset\":")?;
    put_number(out, plane.offset)?;
    let Plane { pitch, rows, .. } = plane;
    write!(out, ",\"pitch\":{pitch},\"rows\":{rows}}}")
}
