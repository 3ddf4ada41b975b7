//! The values of bounds, by their fields.

ghost use Rattle.std.specs.Prelude.{◌≡◌, Some, None, IfSome, IsTrue, true, is_some, option_map, if◌then◌else◌};
ghost use Rattle.sysmem_image.specs.Size.{square};
ghost use Rattle.record_reading.specs.Reading.Fields.{same_field};
ghost use Rattle.constraint_edits.specs.Drafts.{range_seen, size_of};
ghost use Rattle.constraint_edits.specs.EditedBounds.{absent_at, bound_of, is_above, is_between, lies_between, number_read, sides_read, value_at, value_given, value_stated};

use crate::amount::Amount;
use sysmem_counts::Field;
use sysmem_image::{EntryBounds, Size, absent_bound, bounds_table};

/// The greatest alignment or divisor that an entry may have.
const MOST_MULTIPLE: u64 = 65_536;

/// The value of a bound: of a number twice.
#[derive(Clone, Copy)]
pub(super) struct Extent {
    pub(super) width: u64,
    pub(super) height: u64,
}

/// Which values of a bound are read.
#[derive(Clone, Copy)]
pub(super) enum Reading {
    Any,
    Some,
    Multiple,
    FromOne,
}

/// Whether two are one field.
pub(super) fn is_same_field(one: Field, other: Field) -> bool
    ensures { result ≡ same_field one other }
{
    one.name() == other.name()
}

fn square(number: u64) -> Extent
    ensures { size_of result ≡ square number }
{
    Extent {
        width: number,
        height: number,
    }
}

fn extent_of(size: Size) -> Extent
    ensures { size_of result ≡ size }
{
    Extent {
        width: u64::from(size.width),
        height: u64::from(size.height),
    }
}

/// A number, if it may be so.
fn if_it_may(may_be: bool, number: u64) -> Option<u64>
    ensures { result ≡ (if may_be then Some number else None) }
{
    if may_be { Some(number) } else { None }
}

/// A number as it is read, if it may be so.
fn number_read(reading: Reading, number: u64) -> Option<u64>
    ensures { result ≡ number_read (range_seen reading) number }
{
    match reading {
        Reading::Any => if_it_may(number <= u64::from(u32::MAX), number),
        Reading::Some => if_it_may(number <= u64::from(u32::MAX), number.max(1)),
        Reading::Multiple => if_it_may(1 <= number && number <= MOST_MULTIPLE, number),
        Reading::FromOne => if_it_may(1 <= number, number),
    }
}

fn sides_read(reading: Reading, width: u64, height: u64) -> Option<Extent>
    ensures { option_map size_of result ≡ sides_read (range_seen reading) width height }
{
    Some(Extent {
        width: number_read(reading, width)?,
        height: number_read(reading, height)?,
    })
}

/// What a size, or a number, is that has an amount, or is absent.
fn value_stated(
    is_sized: bool,
    reading: Reading,
    absent: u64,
    amount: Option<Amount>,
) -> Option<Extent>
    ensures { option_map size_of result
        ≡ value_stated is_sized (range_seen reading) absent amount }
{
    match amount {
        None => Some(square(absent)),
        Some(Amount::Number(number)) => {
            if is_sized {
                return None;
            }
            Some(square(number_read(reading, number)?))
        }
        Some(Amount::Sides(width, height)) => {
            if is_sized {
                sides_read(reading, width, height)
            } else {
                None
            }
        }
    }
}

macro_rules! given {
    (($field:ident, $amount:ident) $($name:ident: $shape:ident $rule:ident $bound:ident $absent:ident $range:ident,)*) => {
        match $field {
            $(Field::$bound => Some(given_one!($shape $absent $range $amount)?),)*
            _ => None,
        }
    };
}

macro_rules! given_one {
    (number $absent:ident $range:ident $amount:ident) => { value_stated(false, reading!($range), u64::from(absent_of!($absent)), $amount) };
    (large $absent:ident $range:ident $amount:ident) => { value_stated(false, reading!($range), absent_bound!(large $absent), $amount) };
    (size $absent:ident $range:ident $amount:ident) => { value_stated(true, reading!($range), u64::from(absent_of!($absent)), $amount) };
}

macro_rules! absent_of {
    (zero) => { 0u32 };
    (most) => { u32::MAX };
    ($one:ident) => { 1u32 };
}

macro_rules! reading {
    (any) => { Reading::Any };
    (some) => { Reading::Some };
    (multiple) => { Reading::Multiple };
    (from_one) => { Reading::FromOne };
}

macro_rules! are {
    (($field:ident) $($name:ident: $shape:ident $rule:ident $bound:ident $absent:ident $range:ident,)*) => {
        match $field {
            $(Field::$bound => true,)*
            _ => false,
        }
    };
}

macro_rules! absents {
    (($field:ident) $($name:ident: $shape:ident $rule:ident $bound:ident $absent:ident $range:ident,)*) => {
        match $field {
            $(Field::$bound => Some(square(absent_number!($shape $absent))),)*
            _ => None,
        }
    };
}

macro_rules! absent_number {
    (large $absent:ident) => { absent_bound!(large $absent) };
    ($shape:ident $absent:ident) => { u64::from(absent_of!($absent)) };
}

macro_rules! at {
    (($field:ident, $asked:ident) $($name:ident: $shape:ident $rule:ident $bound:ident $absent:ident $range:ident,)*) => {
        match $field {
            $(Field::$bound => Some(at_one!($shape $asked.$name)),)*
            _ => None,
        }
    };
}

macro_rules! at_one {
    (number $value:expr) => { square(u64::from($value)) };
    (large $value:expr) => { square($value) };
    (size $value:expr) => { extent_of($value) };
}

/// The value of a field that has an amount, or is left out; `None` where the field is no bound, or
/// may not have it.
pub(super) fn value_given(field: Field, amount: Option<Amount>) -> Option<Extent>
    ensures { IfSome result (λ value. value_given field amount ≡ Some (size_of value)) }
{
    bounds_table!(given!(field, amount))
}

/// Whether a field is a bound; a no says nothing.
pub(super) fn is_bound(field: Field) -> bool
    ensures { IsTrue result → is_some (bound_of field) ≡ true }
{
    bounds_table!(are!(field))
}

/// Its value where it isn't stated; `None` where it is no bound.
pub(super) fn absent_at(field: Field) -> Option<Extent>
    ensures { IfSome result (λ value. size_of value ≡ absent_at field) }
{
    bounds_table!(absents!(field))
}

/// What a bound asks for where it isn't stated, as an amount like another; `None` where that has no
/// end, or the field is no bound.
pub(crate) fn absent_amount(field: Field, like: Amount) -> Option<Amount> {
    let absent = absent_at(field)?;
    match like {
        _ if absent.width >= u64::from(u32::MAX) => None,
        Amount::Number(_) => Some(Amount::Number(absent.width)),
        Amount::Sides(_, _) => Some(Amount::Sides(absent.width, absent.height)),
    }
}

/// Whether a bound that is stated asks for more than with an amount, or than where it isn't.
pub(crate) fn asks_more(field: Field, stated: Amount, amount: Option<Amount>) -> bool {
    let value = value_given(field, Some(stated));
    let other = value_given(field, amount);
    match (value, other, absent_at(field)) {
        (Some(value), Some(other), Some(absent)) => !is_between(other, absent, value),
        _ => true,
    }
}

/// The value of a field in an entry's bounds; `None` where it is no bound.
pub(super) fn value_at(field: Field, bounds: &EntryBounds) -> Option<Extent>
    ensures { IfSome result (λ value. size_of value ≡ value_at field bounds.now) }
{
    let asked = &bounds.asked;
    bounds_table!(at!(field, asked))
}

/// Whether a number is one of two others, or lies between them.
fn lies_between(a: u64, b: u64, number: u64) -> bool
    ensures { result ≡ lies_between a b number }
{
    (a <= number && number <= b) || (b <= number && number <= a)
}

/// Whether each side of a size does so.
pub(super) fn is_between(a: Extent, b: Extent, size: Extent) -> bool
    ensures { result ≡ is_between (size_of a) (size_of b) (size_of size) }
{
    lies_between(a.width, b.width, size.width) && lies_between(a.height, b.height, size.height)
}

/// Whether a size is above another in a dimension at least.
pub(super) fn is_above(a: Extent, b: Extent) -> bool
    ensures { result ≡ is_above (size_of a) (size_of b) }
{
    b.width < a.width || b.height < a.height
}
