//! Reads the bounds that an entry puts on images.

ghost use Rattle.std.specs.Prelude.{◌≡◌, ◌≤◌, IfOk};
ghost use Rattle.serde_json.specs.View.{view};
ghost use Rattle.sysmem_image.specs.Size.{most_multiple};
ghost use Rattle.record_reading.specs.Reading.Bounds.{some_number, multiple, large_number, bound_or, bounds_of, is_multiple, stated_bounds, stated_by};
ghost use Rattle.record_reading.specs.Reading.Fields.{seen_by};

use super::field::{count_or, flag_or, number_up_to};
use super::size::{any_size_or, multiple_size_or, some_size_or};
use crate::fault::{Code, Fault};
use negotiation_inputs::MOST_MULTIPLE;
use serde_json::Value;
use sysmem_counts::Field;
use sysmem_image::{EntryBounds, ImageBounds, absent_bound, bounds_table};

macro_rules! read_bounds {
    (($object:ident) $($name:ident: $shape:ident $rule:ident $field:ident $absent:ident $range:ident,)*) => {{
        $(let $name = read_bound!($shape $range $object, $field, $absent);)*
        ImageBounds { $($name,)* }
    }};
}

macro_rules! read_bound {
    (number any $object:ident, $field:ident, $absent:ident) => { count_or($object, Field::$field, absent_bound!(number $absent))? };
    (number some $object:ident, $field:ident, $absent:ident) => { some_number_or($object, Field::$field, absent_bound!(number $absent))? };
    (number multiple $object:ident, $field:ident, $absent:ident) => { multiple_or($object, Field::$field, absent_bound!(number $absent))? };
    (large from_one $object:ident, $field:ident, $absent:ident) => { large_number_or($object, Field::$field, absent_bound!(large $absent))? };
    (size any $object:ident, $field:ident, $absent:ident) => { any_size_or($object, Field::$field, absent_bound!(number $absent))? };
    (size some $object:ident, $field:ident, $absent:ident) => { some_size_or($object, Field::$field, absent_bound!(number $absent))? };
    (size multiple $object:ident, $field:ident, $absent:ident) => { multiple_size_or($object, Field::$field, absent_bound!(number $absent))? };
}

/// Whether an alignment or a divisor may be so.
pub(super) fn is_multiple(number: u64) -> bool
    ensures { result ≡ is_multiple number }
{
    1 <= number && number <= MOST_MULTIPLE
}

fn some_number_or(object: &Value, field: Field, absent: u32) -> Result<u32, Fault>
    ensures read { result ≡ bound_or some_number field absent (view object.now) }
    ensures some { 1 ≤ absent → IfOk result (λ n. 1 ≤ n) }
{
    match object.get(field.name()) {
        None => Ok(absent),
        Some(value) => {
            let number = number_up_to(value, field, u64::from(u32::MAX))?;
            Ok((number as u32).max(1))
        }
    }
}

fn multiple_or(object: &Value, field: Field, absent: u32) -> Result<u32, Fault>
    ensures read { result ≡ bound_or multiple field absent (view object.now) }
    ensures some { 1 ≤ absent → IfOk result (λ n. 1 ≤ n) }
    ensures small { absent ≤ most_multiple → IfOk result (λ n. n ≤ most_multiple) }
{
    match object.get(field.name()) {
        None => Ok(absent),
        Some(value) => {
            let number = number_up_to(value, field, u64::MAX)?;
            if is_multiple(number) {
                Ok(number as u32)
            } else {
                Err(Fault::of(Code::BadMultiple, field))
            }
        }
    }
}

fn large_number_or(object: &Value, field: Field, absent: u64) -> Result<u64, Fault>
    ensures { result ≡ bound_or large_number field absent (view object.now) }
{
    match object.get(field.name()) {
        None => Ok(absent),
        Some(value) => {
            let number = number_up_to(value, field, u64::MAX)?;
            if 1 <= number {
                Ok(number)
            } else {
                Err(Fault::of(Code::WrongKind, field))
            }
        }
    }
}

fn stated_bounds(object: &Value) -> Result<EntryBounds, Fault>
    ensures { seen_by stated_by result ≡ stated_bounds (view object.now) }
{
    let asked = bounds_table!(read_bounds!(object));
    let at_pixel_boundary = flag_or(object, Field::RequireBytesPerRowAtPixelBoundary, false)?;
    Ok(EntryBounds {
        asked,
        at_pixel_boundary,
    })
}

/// The bounds of an entry, each with its absent value where it is missing.
pub(super) fn bounds_of(object: &Value) -> Result<EntryBounds, Fault>
    ensures { result ≡ bounds_of (view object.now) }
{
    stated_bounds(object)
}
