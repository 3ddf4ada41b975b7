//! Numbers that may say nothing, and bits.

ghost use Rattle.std.specs.Prelude.{◌≡◌, ◌≤◌, ◌<◌};
ghost use Rattle.flat_negotiation.specs.Stated.{has_bit, sides_stated, stated};

use crate::parts::flat::FlatSize;
use sysmem_image::Size;

/// How many bits the widest set has, that of heaps.
pub(crate) const SET_BITS: u32 = 64;

/// The number, or what is absent where it is 0.
pub(crate) fn stated(absent: u32, number: u32) -> u32
    ensures value { result ≡ stated absent number }
    ensures some { 1 ≤ absent → 1 ≤ result }
{
    if number == 0 { absent } else { number }
}

/// The same of 64 bits.
pub(crate) fn large_stated(absent: u64, number: u64) -> u64
    ensures { result ≡ stated absent number }
{
    if number == 0 { absent } else { number }
}

/// The same of both sides.
pub(crate) fn sides_stated(absent: u32, sides: FlatSize) -> Size
    ensures value { result ≡ sides_stated absent sides }
    ensures width { 1 ≤ absent → 1 ≤ result.width }
    ensures height { 1 ≤ absent → 1 ≤ result.height }
{
    Size {
        width: stated(absent, sides.width),
        height: stated(absent, sides.height),
    }
}

/// Whether a set has the bit of this index.
pub(crate) fn has_bit(bits: u64, index: u32) -> bool
    requires { index < SET_BITS }
    ensures { result ≡ has_bit bits index }
{
    (bits >> index) % 2 == 1
}
