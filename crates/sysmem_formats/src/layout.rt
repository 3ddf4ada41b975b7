//! Where the bytes of an image lie: its rows, its planes, and what an offer asks of them.

ghost use Rattle.std.specs.Prelude.{◌≡◌, ◌↔◌, ◌<◌, ◌≤◌, ◌^◌, IsTrue};
ghost use Rattle.sysmem_formats.specs.Layout.{
  bytes_per_pixel_of,
  row_bytes_of,
  image_bytes_of,
  width_alignment_of,
  height_alignment_of,
  row_divisor_of,
  plane_bytes,
  rows_of,
  format_width_alignment,
  format_height_alignment,
  IsTiledMisfit,
};

use crate::modifier::Modifier;
use crate::offer::{Offer, Pair};
use crate::pixel_format::{PixelFormat, Sampling};

/// Bytes of one pixel in a row, 1 to 4; for subsampled colour, of the
/// first plane's row; 1 for no image.
pub fn bytes_per_pixel(offer: &Offer) -> u32
    ensures value { result ≡ bytes_per_pixel_of offer.now }
    ensures some { 1 ≤ result }
    ensures small { result ≤ 4 }
{
    match offer {
        Offer::NoImage => 1,
        Offer::Image(pair, _) => pair.format.pixel_bytes(),
    }
}

/// Bytes of a row that is `width` pixels wide, a tile's part included; 0 for no image.
pub fn row_bytes(offer: &Offer, width: u32) -> u64
    ensures value { result ≡ row_bytes_of offer.now width }
    ensures small { result < 2 ^ 36 }
{
    wide_row_bytes(offer, u64::from(width))
}

/// The same of a width that may be above 32 bits, but isn't 2^33 or more.
pub fn wide_row_bytes(offer: &Offer, width: u64) -> u64
    requires { width < 2 ^ 33 }
    ensures value { result ≡ row_bytes_of offer.now width }
    ensures small { result < 2 ^ 36 }
{
    match offer {
        Offer::NoImage => 0,
        Offer::Image(pair, _) => {
            let bytes = width * u64::from(pair.format.pixel_bytes());
            match pair.modifier {
                Modifier::Linear => bytes,
                Modifier::IntelXTiled => (bytes + 511) / 512 * 512,
                Modifier::IntelYTiled => (bytes + 127) / 128 * 128,
            }
        }
    }
}

/// Bytes of an image of `height` rows of `bytes_per_row` bytes, all planes and a
/// tile's rows included; 0 for no image.
pub fn image_bytes(offer: &Offer, bytes_per_row: u32, height: u32) -> u128
    ensures { result ≡ image_bytes_of offer.now bytes_per_row height }
{
    wide_image_bytes(offer, u64::from(bytes_per_row), u64::from(height))
}

/// The same of a row and a height that may be above 32 bits: a row below
/// 2^40 bytes, a height below 2^33.
pub fn wide_image_bytes(offer: &Offer, bytes_per_row: u64, height: u64) -> u128
    requires row { bytes_per_row < 2 ^ 40 }
    requires height { height < 2 ^ 33 }
    ensures { result ≡ image_bytes_of offer.now bytes_per_row height }
{
    match offer {
        Offer::NoImage => 0,
        Offer::Image(pair, _) => {
            let rows = tiled_rows(pair.modifier, height);
            all_planes(pair.format, u128::from(bytes_per_row) * u128::from(rows))
        }
    }
}

/// The multiples, in pixels, of which every width and every height of the offer are: 1 or 2 each.
pub fn own_alignment(offer: &Offer) -> (u32, u32)
    ensures width { result.0 ≡ width_alignment_of offer.now }
    ensures height { result.1 ≡ height_alignment_of offer.now }
    ensures some_width { 1 ≤ result.0 }
    ensures some_height { 1 ≤ result.1 }
{
    match offer {
        Offer::NoImage => (1, 1),
        Offer::Image(pair, _) => format_alignment(pair.format),
    }
}

/// The number of bytes of which every row of the offer is a multiple: 1 to 512.
pub fn own_row_divisor(offer: &Offer) -> u32
    ensures value { result ≡ row_divisor_of offer.now }
    ensures some { 1 ≤ result }
{
    match offer {
        Offer::NoImage => 1,
        Offer::Image(pair, _) => match pair.modifier {
            Modifier::Linear => format_alignment(pair.format).1,
            Modifier::IntelXTiled => 512,
            Modifier::IntelYTiled => 128,
        },
    }
}

/// Whether the pair is a tiled modifier with a format that isn't of 4 bytes. No constraints and no
/// platform may name such a pair, since a tile has one plane of 4-byte pixels.
pub fn is_tiled_misfit(pair: Pair) -> bool
    ensures { IsTrue result ↔ IsTiledMisfit pair }
{
    pair.modifier != Modifier::Linear && pair.format.pixel_bytes() != 4
}

/// The width's and the height's own alignment of the format.
fn format_alignment(format: PixelFormat) -> (u32, u32)
    ensures width { result.0 ≡ format_width_alignment format }
    ensures height { result.1 ≡ format_height_alignment format }
    ensures some_width { 1 ≤ result.0 }
    ensures some_height { 1 ≤ result.1 }
{
    match format.sampling() {
        Sampling::Full => (1, 1),
        Sampling::HalfRow => (2, 1),
        Sampling::TwoPlanes | Sampling::ThreePlanes => (2, 2),
    }
}

/// Rows of a height, a tile's part included.
pub fn tiled_rows(modifier: Modifier, height: u64) -> u64
    requires { height < 2 ^ 33 }
    ensures value { result ≡ rows_of modifier height }
    ensures small { result < 2 ^ 34 }
{
    match modifier {
        Modifier::Linear => height,
        Modifier::IntelXTiled => (height + 7) / 8 * 8,
        Modifier::IntelYTiled => (height + 31) / 32 * 32,
    }
}

/// The bytes of all planes of an image whose first plane has `first` bytes.
fn all_planes(format: PixelFormat, first: u128) -> u128
    requires { first < 2 ^ 80 }
    ensures { result ≡ plane_bytes format first }
{
    match format.sampling() {
        Sampling::Full | Sampling::HalfRow => first,
        Sampling::TwoPlanes | Sampling::ThreePlanes => (3 * first + 1) / 2,
    }
}
