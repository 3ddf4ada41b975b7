//! Whether bounds keep to others.

ghost use Rattle.std.specs.Prelude.{◌↔◌, ◌≤◌, IsTrue};
ghost use Rattle.std.specs.Int.{◌∣◌};
ghost use Rattle.sysmem_image.specs.Bounds.{IsTighter};
ghost use Rattle.sysmem_image.specs.Size.{IsSizeUpTo, DividesSize};

use sysmem_image::{ImageBounds, Size, bounds_table};

macro_rules! tighter {
    (($a:expr, $b:expr) $($name:ident: $shape:ident $rule:ident $field:ident $absent:ident $range:ident,)*) => {{
        $(
            let $name = keeps_field!($shape $rule $a.$name, $b.$name);
            if !$name {
                return false;
            }
        )*
        true
    }};
}

macro_rules! keeps_field {
    (number greatest $a:expr, $b:expr) => { is_up_to($b, $a) };
    (number least $a:expr, $b:expr) => { is_up_to($a, $b) };
    (number multiple $a:expr, $b:expr) => { divides($b, $a) };
    (large least $a:expr, $b:expr) => { is_large_up_to($a, $b) };
    (size greatest $a:expr, $b:expr) => { is_size_up_to($b, $a) };
    (size least $a:expr, $b:expr) => { is_size_up_to($a, $b) };
    (size multiple $a:expr, $b:expr) => { divides_size($b, $a) };
}

/// Whether bounds keep to others in each field.
pub(crate) fn is_tighter(a: &ImageBounds, b: &ImageBounds) -> bool
    ensures { IsTrue result → IsTighter a.now b.now }
{
    bounds_table!(tighter!(a, b))
}

fn is_up_to(a: u32, b: u32) -> bool
    ensures { IsTrue result ↔ (a ≤ b) }
{
    a <= b
}

fn is_large_up_to(a: u64, b: u64) -> bool
    ensures { IsTrue result ↔ (a ≤ b) }
{
    a <= b
}

/// Whether both dimensions of a size are at most those of another.
fn is_size_up_to(a: Size, b: Size) -> bool
    ensures { IsTrue result ↔ IsSizeUpTo a b }
{
    a.width <= b.width && a.height <= b.height
}

/// Whether a number divides another. Most are 1 or the same, which is seen without dividing.
fn divides(a: u32, b: u32) -> bool
    requires { 1 ≤ a }
    ensures { IsTrue result → a ∣ b }
{
    a == 1 || a == b || b % a == 0
}

/// Whether both dimensions of a size divide those of another.
fn divides_size(a: Size, b: Size) -> bool
    requires width { 1 ≤ a.width }
    requires height { 1 ≤ a.height }
    ensures { IsTrue result → DividesSize a b }
{
    divides(a.width, b.width) && divides(a.height, b.height)
}
