//! Entries with another value of a bound.

ghost use Rattle.std.specs.Prelude.{◌≡◌, ◌≤◌, max, Some, IfOk, IfSome, if◌then◌else◌};
ghost use Rattle.sysmem_image.specs.Size.{most_multiple, some_sides, square};
ghost use Rattle.record_reading.specs.Reading.Bounds.{divisor_read, stated_by};
ghost use Rattle.record_reading.specs.Reading.Fields.{same_field};
ghost use Rattle.constraint_edits.specs.Drafts.{size_of};
ghost use Rattle.constraint_edits.specs.EditedBounds.{absent_at, bound_edited, bound_replaced, bound_stated, bounds_exchanged, entry_exchanged, value_changed, value_put, value_replaced, values_exchanged, with_value};

use super::values::{
    Extent, absent_at, is_above, is_between, is_bound, is_same_field, value_at, value_given,
};
use crate::amount::Amount;
use std::alloc::{AllocError, Global};
use sysmem_counts::Field;
use sysmem_image::{Entry, EntryBounds, ImageBounds, Size};

/// The greatest alignment or divisor that an entry may have.
const MOST_MULTIPLE: u32 = 65_536;

/// A value in the place of a field's.
#[derive(Clone, Copy)]
struct Given {
    field: Field,
    value: Extent,
}

impl Given {
    /// The size that stands at a field then; `None` where it is too large.
    fn size(&self, field: Field, kept: Size) -> Option<Size>
        ensures { IfSome result (λ size. size
            ≡ (if same_field self.now.field field then size_of self.now.value else kept)) }
    {
        if !is_same_field(self.field, field) {
            return Some(kept);
        }
        let width = u32::try_from(self.value.width);
        let height = u32::try_from(self.value.height);
        match (width, height) {
            (Ok(width), Ok(height)) => Some(Size { width, height }),
            _ => None,
        }
    }

    /// The same of a size whose sides are 1 or more.
    fn some_size(&self, field: Field, kept: Size) -> Option<Size>
        ensures size { IfSome result (λ size. size ≡ some_sides
            (if same_field self.now.field field then size_of self.now.value else kept)) }
        ensures width { IfSome result (λ size. 1 ≤ size.width) }
        ensures height { IfSome result (λ size. 1 ≤ size.height) }
    {
        let size = self.size(field, kept)?;
        Some(Size {
            width: size.width.max(1),
            height: size.height.max(1),
        })
    }

    /// The number that stands at a field then.
    fn number(&self, field: Field, kept: u32) -> Option<u32>
        ensures { IfSome result (λ number. number
            ≡ (if same_field self.now.field field then size_of self.now.value
            else square kept).width) }
    {
        if !is_same_field(self.field, field) {
            return Some(kept);
        }
        match u32::try_from(self.value.width) {
            Ok(number) => Some(number),
            Err(_) => None,
        }
    }

    /// The same of a number that is 1 or more.
    fn some_number(&self, field: Field, kept: u32) -> Option<u32>
        ensures number { IfSome result (λ number. number ≡ max
            (if same_field self.now.field field then size_of self.now.value
            else square kept).width 1) }
        ensures some { IfSome result (λ number. 1 ≤ number) }
    {
        Some(self.number(field, kept)?.max(1))
    }

    /// The same of a divisor of rows.
    fn divisor(&self, field: Field, kept: u32) -> Option<u32>
        ensures number { IfSome result (λ number. number ≡ divisor_read
            (if same_field self.now.field field then size_of self.now.value
            else square kept).width) }
        ensures some { IfSome result (λ number. 1 ≤ number) }
        ensures small { IfSome result (λ number. number ≤ most_multiple) }
    {
        Some(self.number(field, kept)?.max(1).min(MOST_MULTIPLE))
    }

    /// The same of a number of 64 bits.
    fn large(&self, field: Field, kept: u64) -> u64
        ensures { result ≡ (if same_field self.now.field field then size_of self.now.value
            else square kept).width }
    {
        if is_same_field(self.field, field) {
            self.value.width
        } else {
            kept
        }
    }

    /// Bounds with the value in the place of the field's, seen by their values; `None` where it is
    /// too large.
    fn put(&self, kept: &EntryBounds) -> Option<EntryBounds>
        ensures { IfSome result (λ made. stated_by made ≡ stated_by
            (with_value self.now.field (size_of self.now.value) kept.now)) }
    {
        let old = &kept.asked;
        let asked = ImageBounds {
            min_size: self.some_size(Field::MinSize, old.min_size)?,
            max_size: self.size(Field::MaxSize, old.max_size)?,
            size_alignment: self.some_size(Field::SizeAlignment, old.size_alignment)?,
            min_bytes_per_row: self.some_number(Field::MinBytesPerRow, old.min_bytes_per_row)?,
            max_bytes_per_row: self.number(Field::MaxBytesPerRow, old.max_bytes_per_row)?,
            bytes_per_row_divisor: self.divisor(
                Field::BytesPerRowDivisor,
                old.bytes_per_row_divisor,
            )?,
            start_offset_divisor: self.some_number(
                Field::StartOffsetDivisor,
                old.start_offset_divisor,
            )?,
            display_rect_alignment: self.some_size(
                Field::DisplayRectAlignment,
                old.display_rect_alignment,
            )?,
            required_min_size: self.size(Field::RequiredMinSize, old.required_min_size)?,
            required_max_size: self.size(Field::RequiredMaxSize, old.required_max_size)?,
            max_width_times_height: self.large(
                Field::MaxWidthTimesHeight,
                old.max_width_times_height,
            ),
        };
        Some(EntryBounds {
            asked,
            at_pixel_boundary: kept.at_pixel_boundary,
        })
    }

    /// Bounds with the value in the place of the field's; `None` where it is too large.
    fn with_value(&self, kept: &EntryBounds) -> Option<EntryBounds>
        ensures { IfSome result (λ made. made
            ≡ with_value self.now.field (size_of self.now.value) kept.now) }
    {
        self.put(kept)
    }

    /// An entry with the value, if by its own it asks for more of the field, which is absent at this.
    fn changed(&self, absent: Extent, entry: &Entry) -> Option<Entry>
        requires { size_of absent ≡ absent_at self.now.field }
        ensures { IfSome result (λ made. made
            ≡ value_changed self.now.field (size_of self.now.value) entry.now) }
    {
        let was = value_at(self.field, &entry.bounds)?;
        if is_between(self.value, absent, was) {
            return Some(*entry);
        }
        self.stated(entry)
    }

    /// An entry with the value, if its own is this one.
    fn replaced(&self, was: Extent, entry: &Entry) -> Option<Entry>
        ensures { IfSome result (λ made. made ≡ value_replaced self.now.field (size_of was)
            (size_of self.now.value) entry.now) }
    {
        let own = value_at(self.field, &entry.bounds)?;
        if is_between(was, was, own) {
            return self.stated(entry);
        }
        Some(*entry)
    }

    /// An entry with the value.
    fn stated(&self, entry: &Entry) -> Option<Entry>
        ensures { IfSome result (λ made. made
            ≡ value_put self.now.field (size_of self.now.value) entry.now) }
    {
        let bounds = self.with_value(&entry.bounds)?;
        Some(bounded(entry, bounds))
    }
}

/// An entry with other bounds.
fn bounded(entry: &Entry, bounds: EntryBounds) -> Entry
    ensures { result ≡ record entry.now { bounds = bounds } }
{
    Entry {
        format: entry.format,
        modifier: entry.modifier,
        colours: entry.colours,
        bounds,
    }
}

/// Entries of which a bound is left out, or has an amount where it asks for more; `None` where the
/// field is no bound, or may not have it.
pub(super) fn bound_edited(
    alloc: Global,
    entries: &[Entry],
    field: Field,
    amount: Option<Amount>,
) -> Result<Option<Vec<Entry>>, AllocError>
    ensures { IfOk result (λ made. IfSome made
        (λ made. bound_edited field amount entries.now ≡ Some made.items)) }
{
    let (Some(value), Some(absent)) = (value_given(field, amount), absent_at(field)) else {
        return Ok(None);
    };
    let given = Given { field, value };
    let mut made = Vec::new(alloc);
    for entry in entries {
        match given.changed(absent, entry) {
            Some(entry) => made.push(entry)?,
            None => return Ok(None),
        }
    }
    Ok(Some(made))
}

/// Entries of which a bound that has the first amount is left out, or has another one; `None` where
/// the field is no bound, or may not have one of them.
pub(super) fn bound_replaced(
    alloc: Global,
    entries: &[Entry],
    field: Field,
    was: Amount,
    amount: Option<Amount>,
) -> Result<Option<Vec<Entry>>, AllocError>
    ensures { IfOk result (λ made. IfSome made
        (λ made. bound_replaced field was amount entries.now ≡ Some made.items)) }
{
    let (Some(own), Some(value)) = (value_given(field, Some(was)), value_given(field, amount))
    else {
        return Ok(None);
    };
    let given = Given { field, value };
    let mut made = Vec::new(alloc);
    for entry in entries {
        match given.replaced(own, entry) {
            Some(entry) => made.push(entry)?,
            None => return Ok(None),
        }
    }
    Ok(Some(made))
}

/// Entries that each state an amount of a bound; `None` where the field is no bound, or may not have
/// it.
pub(super) fn bound_stated(
    alloc: Global,
    entries: &[Entry],
    field: Field,
    amount: Amount,
) -> Result<Option<Vec<Entry>>, AllocError>
    ensures { IfOk result (λ made. IfSome made
        (λ made. bound_stated field amount entries.now ≡ Some made.items)) }
{
    let Some(value) = value_given(field, Some(amount)) else {
        return Ok(None);
    };
    let given = Given { field, value };
    let mut made = Vec::new(alloc);
    for entry in entries {
        match given.stated(entry) {
            Some(entry) => made.push(entry)?,
            None => return Ok(None),
        }
    }
    Ok(Some(made))
}

/// An entry's bounds with the values of two fields exchanged.
fn values_exchanged(bounds: &EntryBounds, least: Field, most: Field) -> Option<EntryBounds>
    ensures { IfSome result (λ made. made ≡ values_exchanged least most bounds.now) }
{
    let low = Given {
        field: least,
        value: value_at(most, bounds)?,
    };
    let high = Given {
        field: most,
        value: value_at(least, bounds)?,
    };
    high.with_value(&low.with_value(bounds)?)
}

/// An entry with the values of two fields exchanged, if the first is above the second.
fn entry_exchanged(entry: &Entry, least: Field, most: Field) -> Option<Entry>
    ensures { IfSome result (λ made. made ≡ entry_exchanged least most entry.now) }
{
    let low = value_at(least, &entry.bounds)?;
    let high = value_at(most, &entry.bounds)?;
    if !is_above(low, high) {
        return Some(*entry);
    }
    let bounds = values_exchanged(&entry.bounds, least, most)?;
    Some(bounded(entry, bounds))
}

/// Entries of which the values of two bounds are exchanged where the first is above the second;
/// `None` where one is no bound.
pub(super) fn bounds_exchanged(
    alloc: Global,
    entries: &[Entry],
    least: Field,
    most: Field,
) -> Result<Option<Vec<Entry>>, AllocError>
    ensures { IfOk result (λ made. IfSome made
        (λ made. bounds_exchanged least most entries.now ≡ Some made.items)) }
{
    if !is_bound(least) || !is_bound(most) {
        return Ok(None);
    }
    let mut made = Vec::new(alloc);
    for entry in entries {
        match entry_exchanged(entry, least, most) {
            Some(entry) => made.push(entry)?,
            None => return Ok(None),
        }
    }
    Ok(Some(made))
}
