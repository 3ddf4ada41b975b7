//! The bounds of settings.

ghost use Rattle.std.specs.Prelude.{◌≡◌, ◌≤◌, IfSome, option_map};
ghost use Rattle.serde_json.specs.View.{view};
ghost use Rattle.sysmem_counts.specs.Field.{field_name};
ghost use Rattle.sysmem_image.specs.Fields.{values_of};
ghost use Rattle.certificate_text.specs.SettingsSaid.{any_number, any_size, bounds_beside, bounds_by, bounds_len, no_bounds, product_said, size_said, some_number, some_size, values_said};
ghost use Rattle.certificate_text.specs.Bounds.{bounds_data, count_data, size_data};
ghost use Rattle.certificate_text.specs.Puts.{PutsData, PutsMember};

use crate::json_writer::Writer;
use crate::member::put_number;
use crate::reading::{expect_object, number_at, number_to};
use serde_json::Value;
use std::alloc::AllocError;
use sysmem_counts::Field;
use sysmem_formats::Offer;
use sysmem_image::{ImageBounds, Size, bounds_by_name, bounds_table};

macro_rules! read_bounds {
    (($object:ident) $($name:ident: $shape:ident $rule:ident $field:ident $absent:ident $range:ident,)*) => {{
        $(let $name = read_bound!($shape $rule $absent $object, $field);)*
        ImageBounds { $($name,)* }
    }};
}

macro_rules! count_bounds {
    (() $($name:ident: $shape:ident $rule:ident $field:ident $absent:ident $range:ident,)*) => { [$(Field::$field,)*].len() };
}

macro_rules! read_bound {
    (number multiple $absent:ident $object:ident, $field:ident) => { some_number($object, Field::$field)? };
    (number greatest one $object:ident, $field:ident) => { some_number($object, Field::$field)? };
    (number $rule:ident $absent:ident $object:ident, $field:ident) => { any_number($object, Field::$field)? };
    (size multiple $absent:ident $object:ident, $field:ident) => { some_size($object, Field::$field)? };
    (size greatest one $object:ident, $field:ident) => { some_size($object, Field::$field)? };
    (size $rule:ident $absent:ident $object:ident, $field:ident) => { any_size($object, Field::$field)? };
    (large $rule:ident $absent:ident $object:ident, $field:ident) => { product_of($object.get(Field::$field.name()))? };
}

macro_rules! put_fields {
    (($out:ident, $bounds:ident) $($name:ident: $shape:ident $field:ident,)*) => {{
        $(put_field!($shape $out, Field::$field, $bounds.$name);)*
    }};
}

macro_rules! put_field {
    (number $out:ident, $field:expr, $bound:expr) => { put_small($out, $field, $bound)? };
    (size $out:ident, $field:expr, $bound:expr) => { put_sides($out, $field, $bound)? };
    (large $out:ident, $field:expr, $bound:expr) => { put_large($out, $field, $bound)? };
}

/// Puts all fields of bounds, in the order of the bytes of their names.
pub(crate) fn put_bounds(out: &mut Writer, bounds: ImageBounds) -> Result<(), AllocError>
    ensures { PutsData result out.old out.new (bounds_data bounds) }
{
    out.begin_object()?;
    bounds_by_name!(put_fields!(out, bounds));
    out.end_object()
}

fn put_size(out: &mut Writer, key: &str, size: Size) -> Result<(), AllocError>
    ensures { PutsMember result out.old out.new key.now (size_data size.width size.height) }
{
    out.key(key)?;
    out.begin_object()?;
    put_side(out, "height", size.height)?;
    put_side(out, "width", size.width)?;
    out.end_object()
}

fn put_side(out: &mut Writer, key: &str, number: u32) -> Result<(), AllocError>
    ensures { PutsMember result out.old out.new key.now (count_data number) }
{
    put_number(out, key, u64::from(number))
}

fn put_large(out: &mut Writer, field: Field, number: u64) -> Result<(), AllocError>
    ensures { PutsMember result out.old out.new (field_name field) (count_data number) }
{
    put_number(out, field.name(), number)
}

fn put_small(out: &mut Writer, field: Field, number: u32) -> Result<(), AllocError>
    ensures { PutsMember result out.old out.new (field_name field) (count_data number) }
{
    put_number(out, field.name(), u64::from(number))
}

fn put_sides(out: &mut Writer, field: Field, size: Size) -> Result<(), AllocError>
    ensures { PutsMember result out.old out.new (field_name field)
        (size_data size.width size.height) }
{
    put_size(out, field.name(), size)
}

/// The bounds beside an offer: without an image null, which is read as those of no entry.
pub(crate) fn bounds_beside(offer: Offer, value: &Value) -> Option<ImageBounds>
    ensures { result ≡ bounds_beside offer (view value.now) }
{
    match offer {
        Offer::NoImage => {
            value.as_null()?;
            Some(no_bounds())
        }
        Offer::Image(_, _) => bounds_of(value),
    }
}

fn no_bounds() -> ImageBounds
    ensures { result ≡ no_bounds }
{
    ImageBounds::of(&Offer::NoImage)
}

fn bounds_of(value: &Value) -> Option<ImageBounds>
    ensures { result ≡ option_map bounds_by (values_said (view value.now)) }
{
    values_of(value)
}

/// All fields of bounds. One may be missing: the greatest product of width and height.
fn values_of(value: &Value) -> Option<ImageBounds>
    ensures { option_map values_of result ≡ values_said (view value.now) }
{
    expect_object(
        value,
        bounds_len(value.get(Field::MaxWidthTimesHeight.name())),
    )?;
    Some(bounds_table!(read_bounds!(value)))
}

fn bounds_len(product: Option<&Value>) -> usize
    ensures { result ≡ bounds_len (option_map (λ d. view d.now) product.entry) }
{
    let all = bounds_table!(count_bounds!());
    match product {
        None => all - 1,
        Some(_) => all,
    }
}

fn product_of(product: Option<&Value>) -> Option<u64>
    ensures { result ≡ product_said (option_map (λ d. view d.now) product.entry) }
{
    match product {
        None => Some(u64::MAX),
        Some(value) => number_to(value, u64::MAX),
    }
}

fn any_number(object: &Value, field: Field) -> Option<u32>
    ensures { result ≡ any_number field (view object.now) }
{
    let number = number_at(object, field.name(), u64::from(u32::MAX))?;
    Some(number as u32)
}

fn some_number(object: &Value, field: Field) -> Option<u32>
    ensures said { result ≡ some_number field (view object.now) }
    ensures some { IfSome result (λ n. 1 ≤ n) }
{
    let number = any_number(object, field)?;
    if 1 <= number { Some(number) } else { None }
}

fn any_size(object: &Value, field: Field) -> Option<Size>
    ensures { result ≡ any_size field (view object.now) }
{
    size_of(object.get(field.name())?)
}

fn some_size(object: &Value, field: Field) -> Option<Size>
    ensures said { result ≡ some_size field (view object.now) }
    ensures some { IfSome result (λ size. (1 ≤ size.width) × (1 ≤ size.height)) }
{
    let size = any_size(object, field)?;
    if 1 <= size.width && 1 <= size.height {
        Some(size)
    } else {
        None
    }
}

fn size_of(value: &Value) -> Option<Size>
    ensures { result ≡ size_said (view value.now) }
{
    expect_object(value, 2)?;
    let width = number_at(value, "width", u64::from(u32::MAX))?;
    let height = number_at(value, "height", u64::from(u32::MAX))?;
    Some(Size {
        width: width as u32,
        height: height as u32,
    })
}
