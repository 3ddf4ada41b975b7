//! The least change of a field that makes a decision possible, once leaving the field out does.

use crate::amount::{Amount, amount_in, with_amount};
use crate::edits::{Edit, EditedConstraints};
use crate::reached::Reached;
use serde_json::Value;
use std::alloc::{AllocError, Global};
use sysmem_counts::Field;
use sysmem_image::bounds_table;

/// What a greatest value has to be for a decision.
fn raised(field: Field, reached: Reached) -> Option<Amount> {
    let (width, height) = (
        u64::from(reached.corner.width),
        u64::from(reached.corner.height),
    );
    match field {
        Field::MaxBufferCount => Some(Amount::Number(u64::from(reached.count))),
        Field::MaxSizeBytes => Some(Amount::Number(reached.size_bytes)),
        Field::MaxBytesPerRow => Some(Amount::Number(u64::from(reached.corner.bytes_per_row))),
        Field::MaxSize => Some(Amount::Sides(width, height)),
        Field::MaxWidthTimesHeight => Some(Amount::Number(width.saturating_mul(height))),
        _ => None,
    }
}

/// How the least change is looked for.
#[derive(Clone, Copy, PartialEq, Eq)]
enum Way {
    /// A greatest value is raised to what a decision has.
    Raised,
    /// A least value is lowered as little as possible.
    Lowered,
    /// A value of which multiples are asked for is halved as often as needed.
    Halved,
}

macro_rules! way_by {
    (($field:ident) $($name:ident: $shape:ident $rule:ident $of:ident $absent:ident $range:ident,)*) => {
        match $field {
            $(Field::$of => way_by_rule!($rule),)*
            Field::MinBufferCount
            | Field::MinBufferCountForCamping
            | Field::MinBufferCountForDedicatedSlack
            | Field::MinBufferCountForSharedSlack
            | Field::MinSizeBytes => Some(Way::Lowered),
            _ => None,
        }
    };
}

macro_rules! way_by_rule {
    (greatest) => { Some(Way::Lowered) };
    (least) => { None };
    (multiple) => { Some(Way::Halved) };
}

/// How the least change of a field is looked for that isn't raised.
fn way_of(field: Field) -> Option<Way> {
    bounds_table!(way_by!(field))
}

/// Values of a field that are between the stated one and none, the next of which is to be tried.
#[derive(Clone, Copy)]
pub struct Halving {
    edit: Edit,
    stated: Amount,
    /// What is known to do, and what is known not to.
    good: Amount,
    bad: Amount,
    way: Way,
}

impl Halving {
    /// The values that a change leaves between, where by leaving the field out this is reached.
    pub fn of(value: &Value, edit: Edit, reached: Reached) -> Option<Halving> {
        let field = edit.left_out()?;
        let stated = amount_in(value, edit)?;
        if let Some(goal) = raised(field, reached) {
            return Some(Halving {
                edit,
                stated,
                good: stated.greatest(goal),
                bad: stated,
                way: Way::Raised,
            });
        }
        let way = way_of(field)?;
        Some(Halving {
            edit,
            stated,
            good: stated.none(),
            bad: if way == Way::Lowered {
                stated.above()
            } else {
                stated
            },
            way,
        })
    }

    /// The value that is to be tried next; `None` where none is left.
    pub fn next(&self) -> Option<Amount> {
        match self.way {
            Way::Lowered => self.good.middle(self.bad),
            _ if self.good == self.bad => None,
            Way::Raised => Some(self.good),
            Way::Halved => self.bad.half(self.stated),
        }
    }

    /// A value was tried, and does or doesn't.
    pub fn learn(&mut self, amount: Amount, does: bool) {
        match self.way {
            Way::Raised => self.bad = self.good,
            Way::Lowered if !does => self.bad = amount.ceiling(self.good, self.bad),
            Way::Halved if !does => self.bad = amount,
            Way::Lowered => self.good = amount,
            Way::Halved => {
                self.good = amount;
                self.bad = amount;
            }
        }
    }

    /// The constraints with a value that does, and in words which others do too.
    pub fn changed(
        &self,
        alloc: Global,
        value: &Value,
        amount: Amount,
    ) -> Result<EditedConstraints, AllocError> {
        let others = others_beside(self.edit, amount);
        with_amount(alloc, value, self.edit, self.stated, amount, others)
    }
}

/// Which other values of the field that an edit leaves out do where a number does. A greater
/// greatest value, or a lesser least one, refuses nothing that this one admits: what was to be
/// chosen from is there still, so something is chosen then too, maybe something else. It is so too
/// where the search for the number was cut short, and where others are changed with it. A lesser
/// divisor may refuse more, as 7 where 8 does; and of sides it would have to be said of which. A 0 in
/// the place of a 1 asks for nothing, which isn't worth a word.
pub(crate) fn others_beside(edit: Edit, amount: Amount) -> &'static str {
    let (Some(field), Amount::Number(number)) = (edit.left_out(), amount) else {
        return "";
    };
    if raised(field, Reached::NOTHING).is_some() {
        return " or more";
    }
    match way_of(field) {
        Some(Way::Lowered) if number > 1 => " or less",
        _ => "",
    }
}

/// A row of at least so many bytes may be too long to be meant.
const LONG: u32 = 1_048_576;

/// Fewer pixels than so many in a side are few.
const SMALL: u32 = 16;

/// Whether a decision that a change of constraints gives can't be meant: its row is long beyond all
/// measure of its width; or, where sizes are asked for, its image is tiny.
pub fn is_absurd(reached: Reached, is_sized: bool) -> bool {
    let image = reached.corner;
    let most = image.width.saturating_mul(64);
    if image.bytes_per_row >= LONG && image.bytes_per_row > most {
        return true;
    }
    is_sized && image.width > 0 && (image.width < SMALL || image.height < SMALL)
}
