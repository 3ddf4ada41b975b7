//! Reads a width and a height.

ghost use Rattle.std.specs.Prelude.{◌≡◌, ◌≤◌, IfOk};
ghost use Rattle.std.specs.List.{list_all};
ghost use Rattle.serde_json.specs.View.{view, members_view};
ghost use Rattle.record_reading.specs.Reading.Bounds.{is_side, sides_of, side, size_to, any_size, some_size, multiple_size, size_or};
ghost use Rattle.record_reading.specs.Reading.Fields.{keys_of, seen_by};

use super::bounds::is_multiple;
use super::field::number_up_to;
use crate::fault::{Code, Fault};
use serde_json::{Map, Value};
use sysmem_counts::Field;
use sysmem_image::Size;

fn is_side(key: &str) -> bool
    ensures { result ≡ is_side key.now }
{
    key == "width" || key == "height"
}

fn are_sides(members: &Map<String, Value>) -> bool
    ensures { result ≡ list_all is_side (keys_of (members_view members.now.entries)) }
{
    members.keys().all(|key| is_side(key.as_str()))
}

fn expect_sides(value: &Value, field: Field) -> Result<(), Fault>
    ensures { seen_by (λ _. view value.now) result ≡ sides_of field (view value.now) }
{
    match value.as_object() {
        None => Err(Fault::of(Code::WrongKind, field)),
        Some(members) => {
            if are_sides(members) {
                Ok(())
            } else {
                Err(Fault::of(Code::UnknownField, field))
            }
        }
    }
}

fn side_of(value: &Value, key: &str, field: Field, greatest: u64) -> Result<u64, Fault>
    ensures read { result ≡ side field greatest key.now (view value.now) }
    ensures fits { IfOk result (λ n. n ≤ greatest) }
{
    match value.get(key) {
        None => Err(Fault::of(Code::WrongKind, field)),
        Some(side) => number_up_to(side, field, greatest),
    }
}

/// A width and a height, each from 0 to the greatest.
fn size_to(value: &Value, field: Field, greatest: u64) -> Result<(u64, u64), Fault>
    ensures read { seen_by (λ size. record { width = size.0; height = size.1 }) result
        ≡ size_to field greatest (view value.now) }
    ensures fits { IfOk result (λ size. (size.0 ≤ greatest) × (size.1 ≤ greatest)) }
{
    expect_sides(value, field)?;
    let width = side_of(value, "width", field, greatest)?;
    let height = side_of(value, "height", field, greatest)?;
    Ok((width, height))
}

fn any_size(value: &Value, field: Field) -> Result<Size, Fault>
    ensures { result ≡ any_size field (view value.now) }
{
    let (width, height) = size_to(value, field, u64::from(u32::MAX))?;
    Ok(Size {
        width: width as u32,
        height: height as u32,
    })
}

fn some_size(value: &Value, field: Field) -> Result<Size, Fault>
    ensures read { result ≡ some_size field (view value.now) }
    ensures some { IfOk result (λ size. (1 ≤ size.width) × (1 ≤ size.height)) }
{
    let size = any_size(value, field)?;
    Ok(Size {
        width: size.width.max(1),
        height: size.height.max(1),
    })
}

fn multiple_size(value: &Value, field: Field) -> Result<Size, Fault>
    ensures read { result ≡ multiple_size field (view value.now) }
    ensures some { IfOk result (λ size. (1 ≤ size.width) × (1 ≤ size.height)) }
{
    let (width, height) = size_to(value, field, u64::MAX)?;
    if is_multiple(width) && is_multiple(height) {
        Ok(Size {
            width: width as u32,
            height: height as u32,
        })
    } else {
        Err(Fault::of(Code::BadMultiple, field))
    }
}

/// Sides from 0 to the greatest number, or the absent value for both.
pub(super) fn any_size_or(object: &Value, field: Field, absent: u32) -> Result<Size, Fault>
    ensures { result ≡ size_or any_size field absent (view object.now) }
{
    match object.get(field.name()) {
        None => Ok(Size {
            width: absent,
            height: absent,
        }),
        Some(value) => any_size(value, field),
    }
}

/// Sides from 0 to the greatest number, where 0 is read as 1, or the absent value for both.
pub(super) fn some_size_or(object: &Value, field: Field, absent: u32) -> Result<Size, Fault>
    ensures read { result ≡ size_or some_size field absent (view object.now) }
    ensures some { 1 ≤ absent → IfOk result (λ size. (1 ≤ size.width) × (1 ≤ size.height)) }
{
    match object.get(field.name()) {
        None => Ok(Size {
            width: absent,
            height: absent,
        }),
        Some(value) => some_size(value, field),
    }
}

/// Sides from 1 to 65,536, or the absent value for both.
pub(super) fn multiple_size_or(object: &Value, field: Field, absent: u32) -> Result<Size, Fault>
    ensures read { result ≡ size_or multiple_size field absent (view object.now) }
    ensures some { 1 ≤ absent → IfOk result (λ size. (1 ≤ size.width) × (1 ≤ size.height)) }
{
    match object.get(field.name()) {
        None => Ok(Size {
            width: absent,
            height: absent,
        }),
        Some(value) => multiple_size(value, field),
    }
}
