//! Numbers and sizes that records state.

ghost use Rattle.std.specs.Prelude.{◌≡◌};
ghost use Rattle.settings_reasons.specs.Stated.{bound_at, is_above};

use explanation_text::TextBuilder;
use sysmem_counts::Field;
use sysmem_image::{ImageBounds, Size, bounds_table};

/// What a field states.
#[derive(Clone, Copy, PartialEq, Eq)]
pub(crate) enum Amount {
    Number(u64),
    Sides(Size),
}

impl Amount {
    /// Whether it is above another one of its kind: of two sizes, whether it is wider or higher.
    pub(crate) fn is_above(self, other: Amount) -> bool
        ensures { result ≡ is_above self other }
    {
        match (self, other) {
            (Amount::Number(mine), Amount::Number(most)) => mine > most,
            (Amount::Sides(mine), Amount::Sides(most)) => {
                mine.width > most.width || mine.height > most.height
            }
            _ => false,
        }
    }

    /// Whether it is above 1: of a size, whether a side is.
    pub(crate) fn is_beyond_one(self) -> bool {
        match self {
            Amount::Number(number) => number > 1,
            Amount::Sides(size) => size.width > 1 || size.height > 1,
        }
    }
}

/// Puts what a field states after the text.
pub(crate) fn put_amount(text: &mut TextBuilder, amount: Amount) {
    match amount {
        Amount::Number(number) => {
            text.put_number(number);
        }
        Amount::Sides(size) => {
            text.put_number(size.width).put("x").put_number(size.height);
        }
    }
}

macro_rules! amount_by {
    (($field:ident $bounds:ident) $($name:ident: $shape:ident $rule:ident $of:ident $absent:ident $range:ident,)*) => {
        match $field {
            $(Field::$of => amount_of!($shape $bounds.$name),)*
            _ => Amount::Number(0),
        }
    };
}

macro_rules! amount_of {
    (size $stated:expr) => { Amount::Sides($stated) };
    (number $stated:expr) => { Amount::Number(u64::from($stated)) };
    (large $stated:expr) => { Amount::Number($stated) };
}

/// What bounds state at a field; 0 where it is none of theirs.
pub(crate) fn amount_at(bounds: &ImageBounds, field: Field) -> Amount
    ensures { result ≡ bound_at bounds.now field }
{
    bounds_table!(amount_by!(field bounds))
}
