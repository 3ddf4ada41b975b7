//! The planes of an image.

ghost use Rattle.std.specs.Prelude.{◌≡◌, ◌+◌, ◌*◌, ◌/◌, ◌≤◌, ◌<◌, ◌^◌, ◌∷◌, [], IfNone, IfSome, slice_get};
ghost use Rattle.drm_images.specs.Planes.{bytes_of, first_plane, paired_plane, plane_end, planes_of, two_colours};

use sysmem_formats::{ColourSpace, Offer, Pair, Sampling, tiled_rows};

/// A plane of an image: where its first row begins in the image, the bytes of a row, and how many
/// rows it has, a tile's part included.
#[derive(Clone, Copy, Debug, PartialEq, Eq)]
pub struct Plane {
    pub offset: u64,
    pub pitch: u32,
    pub rows: u64,
}

/// The bytes of an image with rows of `pitch` bytes, its height in pixels: all planes, a tile's
/// part included. `None` where these don't fit 64 bits.
pub fn image_bytes(pair: Pair, pitch: u32, height: u32) -> Option<u64>
    ensures bytes { IfSome result (λ bytes. bytes ≡ bytes_of pair pitch height) }
    ensures large { IfNone result (2 ^ 64 ≤ bytes_of pair pitch height) }
{
    // No colour space changes where bytes lie.
    let offer = Offer::Image(pair, ColourSpace::Srgb);
    let bytes = sysmem_formats::image_bytes(&offer, pitch, height);
    if bytes <= u128::from(u64::MAX) {
        Some(bytes as u64)
    } else {
        None
    }
}

/// The plane of this index, from 0, of an image with rows of `pitch` bytes, its height in pixels,
/// or `None` where it has fewer. The planes are in the order of DRM; no plane ends after the image
/// does.
pub fn plane_at(pair: Pair, pitch: u32, height: u32, index: usize) -> Option<Plane>
    requires { bytes_of pair pitch height < 2 ^ 64 }
    ensures plane { result ≡ slice_get (planes_of pair pitch height) index }
    ensures within { IfSome result (λ plane. plane_end plane ≤ bytes_of pair pitch height) }
{
    let rows = tiled_rows(pair.modifier, u64::from(height));
    if index == 0 {
        return Some(Plane {
            offset: 0,
            pitch,
            rows,
        });
    }
    match pair.format.sampling() {
        Sampling::Full | Sampling::HalfRow => None,
        Sampling::TwoPlanes => paired_plane(pitch, rows, index),
        Sampling::ThreePlanes => colour_plane(pitch, rows, index),
    }
}

/// Of a format with one plane after the first.
#[tactic(auto, using(crate::proofs::Halves::halves))]
fn paired_plane(pitch: u32, rows: u64, index: usize) -> Option<Plane>
    requires some { 1 ≤ index }
    requires fits { (3 * (pitch * rows) + 1) / 2 < 2 ^ 64 }
    ensures plane { result ≡ slice_get (first_plane pitch rows
        ∷ paired_plane (pitch * rows) pitch rows ∷ []) index }
    ensures within { IfSome result (λ plane. plane_end plane ≤ (3 * (pitch * rows) + 1) / 2) }
{
    if index != 1 {
        return None;
    }
    Some(Plane {
        offset: u64::from(pitch) * rows,
        pitch,
        rows: rows / 2,
    })
}

/// Of a format with two planes after the first.
#[tactic(auto, using(crate::proofs::Halves::quarters))]
fn colour_plane(pitch: u32, rows: u64, index: usize) -> Option<Plane>
    requires some { 1 ≤ index }
    requires fits { (3 * (pitch * rows) + 1) / 2 < 2 ^ 64 }
    ensures plane { result ≡ slice_get (first_plane pitch rows
        ∷ two_colours (pitch * rows) pitch rows) index }
    ensures within { IfSome result (λ plane. plane_end plane ≤ (3 * (pitch * rows) + 1) / 2) }
{
    let first = u64::from(pitch) * rows;
    let one = u64::from(pitch / 2) * (rows / 2);
    if index != 1 && index != 2 {
        return None;
    }
    Some(Plane {
        offset: if index == 1 { first } else { first + one },
        pitch: pitch / 2,
        rows: rows / 2,
    })
}
