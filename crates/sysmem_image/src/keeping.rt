//! Whether bounds keep to what an entry asks for.

ghost use Rattle.std.specs.Prelude.{◌≤◌, ◌↔◌, IsTrue, IfSome, IfNone};
ghost use Rattle.std.specs.Int.{◌∣◌};
ghost use Rattle.sysmem_image.specs.Size.{IsSizeUpTo, DividesSize};
ghost use Rattle.sysmem_image.specs.Bounds.{IsTighter, KeepsField, IsFirstFailing, Suits};
ghost use Rattle.sysmem_image.specs.Entries.{effective};

use crate::bounds::ImageBounds;
use crate::bounds_table;
use crate::effective::effective;
use crate::entry::Entry;
use crate::size::Size;
use sysmem_counts::Field;
use sysmem_formats::{Offer, own_alignment, own_row_divisor};

macro_rules! failing {
    (($a:expr, $b:expr) $($name:ident: $shape:ident $rule:ident $field:ident $absent:ident $range:ident,)*) => {{
        $(
            let $name = keeps_field!($shape $rule $a.$name, $b.$name);
            if !$name {
                return Some(Field::$field);
            }
        )*
        None
    }};
}

macro_rules! keeps_named {
    (($asked:expr, $a:expr, $b:expr) $($name:ident: $shape:ident $rule:ident $field:ident $absent:ident $range:ident,)*) => {
        match $asked {
            $(Field::$field => keeps_field!($shape $rule $a.$name, $b.$name),)*
            _ => true,
        }
    };
}

macro_rules! keeps_field {
    (number greatest $a:expr, $b:expr) => { is_up_to($b, $a) };
    (number least $a:expr, $b:expr) => { is_up_to($a, $b) };
    (number multiple $a:expr, $b:expr) => { divides($b, $a) };
    (large least $a:expr, $b:expr) => { is_large_up_to($a, $b) };
    (size greatest $a:expr, $b:expr) => { is_size_up_to($b, $a) };
    (size least $a:expr, $b:expr) => { is_size_up_to($a, $b) };
    (size multiple $a:expr, $b:expr) => { divides_size($b, $a) };
}

/// The first field, in the table's order, in which bounds of an offer don't keep to what an entry
/// for it asks for, or `None` where they keep to all of it.
pub fn first_failing(bounds: &ImageBounds, entry: &Entry, offer: &Offer) -> Option<Field>
    ensures kept { IfNone result (IsTighter bounds.now (effective offer.now entry.now)) }
    ensures failing { IfSome result
        (λ field. IsFirstFailing field bounds.now (effective offer.now entry.now)) }
{
    let asked = effective(entry, offer);
    failing_field(bounds, &asked)
}

/// Whether bounds of an offer keep to what an entry for it asks for in one field. True of
/// a field that isn't one of bounds.
pub fn keeps_field(field: Field, bounds: &ImageBounds, entry: &Entry, offer: &Offer) -> bool
    ensures { IsTrue result ↔ KeepsField field bounds.now (effective offer.now entry.now) }
{
    let asked = effective(entry, offer);
    keeps_in(field, bounds, &asked)
}

/// Whether alignments and row divisor are multiples of the offer's own.
pub fn suits(bounds: &ImageBounds, offer: &Offer) -> bool
    ensures { IsTrue result ↔ Suits offer.now bounds.now }
{
    let (width, height) = own_alignment(offer);
    let sides = divides_size(Size { width, height }, bounds.size_alignment);
    let row = divides(own_row_divisor(offer), bounds.bytes_per_row_divisor);
    sides && row
}

/// The first field in which bounds don't keep to others.
fn failing_field(a: &ImageBounds, b: &ImageBounds) -> Option<Field>
    ensures kept { IfNone result (IsTighter a.now b.now) }
    ensures failing { IfSome result (λ field. IsFirstFailing field a.now b.now) }
{
    bounds_table!(failing!(a, b))
}

/// Whether bounds keep to others in one field.
fn keeps_in(field: Field, a: &ImageBounds, b: &ImageBounds) -> bool
    ensures { IsTrue result ↔ KeepsField field a.now b.now }
{
    bounds_table!(keeps_named!(field, a, b))
}

fn is_up_to(a: u32, b: u32) -> bool
    ensures { IsTrue result ↔ (a ≤ b) }
{
    a <= b
}

fn is_large_up_to(a: u64, b: u64) -> bool
    ensures { IsTrue result ↔ (a ≤ b) }
{
    a <= b
}

fn divides(a: u32, b: u32) -> bool
    requires { 1 ≤ a }
    ensures { IsTrue result ↔ (a ∣ b) }
{
    b % a == 0
}

/// Whether both dimensions of a size are at most those of another.
pub(crate) fn is_size_up_to(a: Size, b: Size) -> bool
    ensures { IsTrue result ↔ IsSizeUpTo a b }
{
    a.width <= b.width && a.height <= b.height
}

fn divides_size(a: Size, b: Size) -> bool
    requires width { 1 ≤ a.width }
    requires height { 1 ≤ a.height }
    ensures { IsTrue result ↔ DividesSize a b }
{
    divides(a.width, b.width) && divides(a.height, b.height)
}
