//! The bounds that are put on images.

ghost use Rattle.std.specs.Prelude.{◌≤◌};

use crate::own::own_bounds;
use crate::size::Size;
use sysmem_formats::Offer;

/// What an entry, or several entries merged, ask of an image.
///
/// Alignments, divisors, `min_size` and `min_bytes_per_row` are at least 1.
#[derive(Clone, Copy, Debug, PartialEq, Eq)]
pub struct ImageBounds {
    pub min_size: Size,
    pub max_size: Size,
    pub size_alignment: Size,
    pub min_bytes_per_row: u32,
    pub max_bytes_per_row: u32,
    pub bytes_per_row_divisor: u32,
    pub start_offset_divisor: u32,
    pub display_rect_alignment: Size,
    pub required_min_size: Size,
    pub required_max_size: Size,
    pub max_width_times_height: u64,
    pub ghost min_width_some: { 1 ≤ min_size.width },
    pub ghost min_height_some: { 1 ≤ min_size.height },
    pub ghost width_alignment_some: { 1 ≤ size_alignment.width },
    pub ghost height_alignment_some: { 1 ≤ size_alignment.height },
    pub ghost min_row_some: { 1 ≤ min_bytes_per_row },
    pub ghost row_divisor_some: { 1 ≤ bytes_per_row_divisor },
    pub ghost start_divisor_some: { 1 ≤ start_offset_divisor },
    pub ghost display_width_some: { 1 ≤ display_rect_alignment.width },
    pub ghost display_height_some: { 1 ≤ display_rect_alignment.height },
}

impl ImageBounds {
    ghost use Rattle.std.specs.Prelude.{[]};
    ghost use Rattle.sysmem_image.specs.Bounds.{IsOwn};
    ghost use Rattle.sysmem_image.specs.Merged.{MergedOf};

    /// The bounds of an offer where no entry asks for anything: the absent values, with the
    /// offer's own alignments and row divisor.
    pub fn of(offer: &Offer) -> ImageBounds
        ensures own { IsOwn offer.now result }
        ensures merged { MergedOf offer.now [] result }
    {
        own_bounds(offer)
    }
}
