//! The smallest image that bounds admit.

ghost use Rattle.std.specs.Prelude.{◌≡◌, ℕ, ◌*◌, ◌≤◌, ◌<◌, ◌^◌, ◌↔◌, ◌⊎◌, IsTrue, List, IfOk, IfErr, OnErr};
ghost use Rattle.std.specs.Int.{◌∣◌};
ghost use Rattle.sysmem_image.specs.declared.bounds.ImageBounds.{ImageBounds};
ghost use Rattle.sysmem_counts.specs.declared.field.Field.{Field};
ghost use Rattle.sysmem_image.specs.Size.{IsSizeUpTo};
ghost use Rattle.sysmem_image.specs.Merged.{MergedOf};
ghost use Rattle.sysmem_image.specs.Corners.{IsCorner, RefusesCorner, HasNoWidth, HasNoHeight, EarlierHold, IsLeastAbove, AreLeastSides};
ghost use Rattle.sysmem_image.specs.Lines.{IsFirstLine};

use crate::bounds::ImageBounds;
use crate::keeping::is_size_up_to;
use crate::size::Corner;
use sysmem_counts::Field;
use sysmem_formats::{Offer, image_bytes, row_bytes};

/// The smallest image that the bounds admit and that is at least `required_max_size`.
///
/// Refuses where there is none, or where `min_size` is above `required_min_size`, with the field
/// whose line in the table of conflicts is the first that fails.
pub fn corner(bounds: &ImageBounds, offer: &Offer) -> Result<Corner, Field>
    ensures corner { IfOk result (λ k. IsCorner offer.now bounds.now k) }
    ensures required { IfOk result
        (λ _. IsSizeUpTo bounds.now.min_size bounds.now.required_min_size) }
    ensures none { IfErr result (λ field. RefusesCorner field offer.now bounds.now) }
    ensures earlier { IfErr result (λ field. EarlierHold field bounds.now) }
    ensures line { (es : List ImageBounds) → MergedOf offer.now es bounds.now →
        IfErr result (λ field. IsFirstLine field offer.now es) }
{
    corner_of(bounds, offer)
}

/// The corner, or the line that fails, said of the bounds alone.
fn corner_of(bounds: &ImageBounds, offer: &Offer) -> Result<Corner, Field>
    ensures corner { IfOk result (λ k. IsCorner offer.now bounds.now k) }
    ensures required { IfOk result
        (λ _. IsSizeUpTo bounds.now.min_size bounds.now.required_min_size) }
    ensures none { IfErr result (λ field. RefusesCorner field offer.now bounds.now) }
    ensures earlier { IfErr result (λ field. EarlierHold field bounds.now) }
{
    let required = is_size_up_to(bounds.min_size, bounds.required_min_size);
    if !required {
        return Err(Field::RequiredMinSize);
    }
    let (width, height) = least_sides(bounds)?;
    let small = is_area_up_to(width, height, bounds.max_width_times_height);
    if !small {
        return Err(Field::MaxWidthTimesHeight);
    }
    let bytes_per_row = least_within(
        bounds.bytes_per_row_divisor,
        bounds.min_bytes_per_row,
        row_bytes(offer, width),
        bounds.max_bytes_per_row,
        Field::MaxBytesPerRow,
    )?;
    let bytes = image_bytes(offer, bytes_per_row, height);
    Ok(Corner {
        width,
        height,
        bytes_per_row,
        bytes,
    })
}

/// The least sides that the bounds allow, or `max_size` where one is above it.
fn least_sides(bounds: &ImageBounds) -> Result<(u32, u32), Field>
    ensures sides { IfOk result (λ sides. AreLeastSides bounds.now sides.0 sides.1) }
    ensures named { IfErr result (λ f. f ≡ Field.MaxSize) }
    ensures none { OnErr result (HasNoWidth bounds.now ⊎ HasNoHeight bounds.now) }
{
    let (low, alignment) = (bounds.min_size, bounds.size_alignment);
    let (large, high) = (bounds.required_max_size, bounds.max_size);
    let width = least_side(alignment.width, low.width, large.width, high.width)?;
    let height = least_side(alignment.height, low.height, large.height, high.height)?;
    Ok((width, height))
}

/// Whether the product of two sides is at most a number.
fn is_area_up_to(width: u32, height: u32, most: u64) -> bool
    ensures { IsTrue result ↔ (width * height ≤ most) }
{
    u64::from(width) * u64::from(height) <= most
}

/// The least multiple of a side's alignment that isn't below its two lower bounds.
fn least_side(alignment: u32, low: u32, large: u32, max: u32) -> Result<u32, Field>
    requires { 1 ≤ alignment }
    ensures ok { IfOk result (λ m. IsLeastAbove alignment low large m) }
    ensures within { IfOk result (λ m. m ≤ max) }
    ensures named { IfErr result (λ f. f ≡ Field.MaxSize) }
    ensures none { OnErr result ((k : ℕ) → alignment ∣ k → low ≤ k → large ≤ k → max < k) }
{
    least_within(alignment, low, u64::from(large), max, Field::MaxSize)
}

/// The least multiple of a divisor that isn't below two numbers, or the
/// field where it is above a third.
fn least_within(divisor: u32, low: u32, other: u64, max: u32, field: Field) -> Result<u32, Field>
    requires divisor { 1 ≤ divisor }
    requires other { other < 2 ^ 40 }
    ensures ok { IfOk result (λ m. IsLeastAbove divisor low other m) }
    ensures within { IfOk result (λ m. m ≤ max) }
    ensures named { IfErr result (λ f. f ≡ field) }
    ensures none { OnErr result ((k : ℕ) → divisor ∣ k → low ≤ k → other ≤ k → max < k) }
{
    let from = other.max(u64::from(low));
    let least = from.next_multiple_of(u64::from(divisor));
    if least <= u64::from(max) {
        Ok(least as u32)
    } else {
        Err(field)
    }
}
