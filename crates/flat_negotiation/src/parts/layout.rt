//! The bytes of an image, and where its planes lie.

ghost use Rattle.std.specs.Prelude.{◌≡◌, ◌<◌, ◌≤◌, ◌^◌, IfNone, IfSome, IsSome, Some};
ghost use Rattle.sysmem_formats.specs.declared.offer.Pair.{Pair as Codes};
ghost use Rattle.drm_images.specs.Codes.{fourcc};
ghost use Rattle.drm_images.specs.Planes.{bytes_of, planes_of};
ghost use Rattle.flat_negotiation.specs.Layout.{IsLayout, IsNoLayout, IsPairLayout, flat_plane, flat_planes, no_layout};

use crate::parts::flat::{FlatLayout, FlatPlane};
use crate::parts::pairs::pair_of;
use drm_images::{Plane, code_of, image_bytes, plane_at};
use sysmem_formats::{Pair, PixelFormat, is_tiled_misfit};

/// The `DRM_FORMAT_*` code of a format that has one, as all have but `L8`.
pub fn format_code(format: PixelFormat) -> u32
    requires { IsSome (fourcc format) }
    ensures { fourcc format ≡ Some result }
{
    code_of(format)
}

fn flat_plane(plane: Option<Plane>) -> FlatPlane
    ensures { result ≡ flat_plane plane }
{
    match plane {
        Some(plane) => FlatPlane {
            offset: plane.offset,
            rows: plane.rows,
            pitch: plane.pitch,
            reserved: 0,
        },
        None => FlatPlane {
            offset: 0,
            rows: 0,
            pitch: 0,
            reserved: 0,
        },
    }
}

/// The layout of an image of a pair, whose bytes are these.
fn planes_in(pair: Pair, pitch: u32, height: u32, bytes: u64) -> FlatLayout
    requires { bytes ≡ bytes_of pair pitch height }
    ensures { IsPairLayout pair pitch height result }
{
    let second = plane_at(pair, pitch, height, 1);
    let third = plane_at(pair, pitch, height, 2);
    FlatLayout {
        bytes,
        count: 1 + u32::from(second.is_some()) + u32::from(third.is_some()),
        reserved: 0,
        planes: [
            flat_plane(plane_at(pair, pitch, height, 0)),
            flat_plane(second),
            flat_plane(third),
            flat_plane(None),
        ],
    }
}

/// The layout of an image of a pair, with rows of `pitch` bytes, its height in pixels; `None` where
/// it has more bytes than 64 bits tell.
pub fn layout_in(pair: Pair, pitch: u32, height: u32) -> Option<FlatLayout>
    ensures layout { IfSome result (IsPairLayout pair pitch height) }
    ensures large { IfNone result (2 ^ 64 ≤ bytes_of pair pitch height) }
{
    let bytes = image_bytes(pair, pitch, height)?;
    Some(planes_in(pair, pitch, height, bytes))
}

/// The layout of an image of a pair with these codes, or `None` where there is no such pair, where
/// it is a tiled modifier with a format that isn't of 4 bytes, or where the image has more bytes
/// than 64 bits tell.
pub fn layout_of(format: u32, modifier: u64, pitch: u32, height: u32) -> Option<FlatLayout>
    ensures layout { IfSome result (IsLayout format modifier pitch height) }
    ensures none { IfNone result (IsNoLayout format modifier pitch height) }
{
    let pair = pair_of(format, modifier)?;
    if is_tiled_misfit(pair) {
        return None;
    }
    layout_in(pair, pitch, height)
}

/// No image: all of it is 0.
pub fn no_layout() -> FlatLayout
    ensures { result ≡ no_layout }
{
    FlatLayout {
        bytes: 0,
        count: 0,
        reserved: 0,
        planes: [
            flat_plane(None),
            flat_plane(None),
            flat_plane(None),
            flat_plane(None),
        ],
    }
}
