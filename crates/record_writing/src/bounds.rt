//! The bounds of an image entry.

ghost use Rattle.std.specs.Prelude.{◌≡◌, OnOk};
ghost use Rattle.sysmem_image.specs.Bounds.{IsInRange};
ghost use Rattle.record_laws.specs.Sparse.{with_fields, bounds_said};
ghost use Rattle.record_writing.specs.Growing.{fields_in};

use crate::fields::Fields;
use std::alloc::AllocError;
use sysmem_counts::Field;
use sysmem_image::EntryBounds;

/// Puts an entry's bounds, each unless it is what an absent one stands for.
pub(crate) fn put_bounds(fields: &mut Fields, bounds: &EntryBounds) -> Result<(), AllocError>
    ensures put { OnOk result
        (fields_in fields.new ≡ with_fields (fields_in fields.old) (bounds_said bounds.now)) }
    ensures in_range { OnOk result (IsInRange bounds.now.asked) }
{
    let asked = &bounds.asked;
    fields.put_size(Field::MinSize, asked.min_size, 1)?;
    fields.put_size(Field::MaxSize, asked.max_size, u32::MAX)?;
    fields.put_size(Field::SizeAlignment, asked.size_alignment, 1)?;
    fields.put_count(Field::MinBytesPerRow, asked.min_bytes_per_row, 1)?;
    fields.put_count(Field::MaxBytesPerRow, asked.max_bytes_per_row, u32::MAX)?;
    fields.put_count(Field::BytesPerRowDivisor, asked.bytes_per_row_divisor, 1)?;
    fields.put_count(Field::StartOffsetDivisor, asked.start_offset_divisor, 1)?;
    fields.put_size(Field::DisplayRectAlignment, asked.display_rect_alignment, 1)?;
    fields.put_size(Field::RequiredMinSize, asked.required_min_size, u32::MAX)?;
    fields.put_size(Field::RequiredMaxSize, asked.required_max_size, 0)?;
    let most_pixels = asked.max_width_times_height;
    fields.put_number(Field::MaxWidthTimesHeight, most_pixels, u64::MAX)?;
    let ends_at_pixel = bounds.at_pixel_boundary;
    Ok(fields.put_true(Field::RequireBytesPerRowAtPixelBoundary, ends_at_pixel)?)
}
