//! The bounds of an offer on which no entry puts any.

ghost use Rattle.sysmem_image.specs.Bounds.{IsOwn, IsInRange};

use crate::bounds::ImageBounds;
use crate::size::Size;
use crate::{absent_bound, bounds_table};
use sysmem_formats::{Offer, own_alignment, own_row_divisor};

macro_rules! own {
    (($alignment:expr, $divisor:expr) $($name:ident: $shape:ident $rule:ident $field:ident $absent:ident $range:ident,)*) => {{
        $(let $name = own_value!($alignment, $divisor, $shape $absent);)*
        ImageBounds { $($name,)* }
    }};
}

macro_rules! own_value {
    ($alignment:expr, $divisor:expr, size own_alignment) => { $alignment };
    ($alignment:expr, $divisor:expr, number own_divisor) => { $divisor };
    ($alignment:expr, $divisor:expr, size $absent:ident) => {
        Size { width: absent_bound!(number $absent), height: absent_bound!(number $absent) }
    };
    ($alignment:expr, $divisor:expr, $shape:ident $absent:ident) => { absent_bound!($shape $absent) };
}

/// The absent values, with the offer's own alignments and row divisor.
pub(crate) fn own_bounds(offer: &Offer) -> ImageBounds
    ensures own { IsOwn offer.now result }
    ensures in_range { IsInRange result }
{
    let (width, height) = own_alignment(offer);
    let divisor = own_row_divisor(offer);
    bounds_table!(own!(Size { width, height }, divisor))
}
