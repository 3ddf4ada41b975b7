//! Values that may be meant in the place of one that is stated, by what is easily mistaken.

ghost use Rattle.std.specs.Prelude.{◌≡◌, Some, IfOk, IfSome};

use crate::amount::{Amount, amounts_in, edited_as, has_one_amount};
use crate::applying::asks_more;
use crate::edits::{Edit, EditedConstraints};
use serde_json::Value;
use std::alloc::{AllocError, Global};
use sysmem_counts::Field;

/// A value that may be meant in the place of one that is stated.
#[derive(Clone, Copy)]
pub struct Slip {
    /// What it changes: the field's value, or where entries state several this one alone.
    pub edit: Edit,
    pub amount: Amount,
    /// How the one may have come of the other, as it stands behind the value.
    why: &'static str,
}

impl Slip {
    /// The constraints with the value in the place of the one that is stated; `None` where none is.
    pub fn changed(
        &self,
        alloc: Global,
        value: &Value,
    ) -> Result<Option<EditedConstraints>, AllocError>
        ensures { IfOk result (λ made. IfSome made (λ changed. changed.change ≡ record
            { edit = self.now.edit; amount = Some self.now.amount; start = 0; end = 0 })) }
    {
        edited_as(alloc, value, self.edit, self.amount, self.why)
    }
}

/// A value that may be meant, and how the stated one may have come of it.
#[derive(Clone, Copy)]
struct Meant {
    amount: Amount,
    why: &'static str,
}

/// Two units of which one was taken for the other.
#[derive(Clone, Copy)]
struct Factor {
    times: u64,
    /// How often what suffices goes into what is meant, at most.
    room: u64,
    more: &'static str,
    less: &'static str,
}

/// Bits and bytes.
const EIGHT: Factor = Factor {
    times: 8,
    room: 4,
    more: " (8 times more)",
    less: " (8 times less)",
};

/// Macroblocks and pixels.
const BLOCKS: Factor = Factor {
    times: 256,
    room: 8,
    more: " (256 times more)",
    less: " (256 times less)",
};

/// Kilobytes and bytes.
const THOUSAND: Factor = Factor {
    times: 1000,
    room: 64,
    more: " (1,000 times more)",
    less: " (1,000 times less)",
};

/// Kibibytes and bytes.
const KIBI: Factor = Factor {
    times: 1024,
    room: 64,
    more: " (1,024 times more)",
    less: " (1,024 times less)",
};

/// How many pixels a side of a macroblock has.
const BLOCK_SIDE: u64 = 16;

/// How often what suffices goes at most into a number that was taken for a decimal one.
const HEXADECIMAL_ROOM: u64 = 4;

/// How many values that may be meant are tried of a field.
const MOST: usize = 8;

/// More digits than a number has.
const DIGITS: usize = 20;

/// Which way the number of a field may be mistaken.
#[derive(Clone, Copy)]
enum Unit {
    /// A greatest value, which has this limit, in another unit.
    Greatest(u64),
    /// A least value, or a divisor, in another unit.
    Least,
    /// A greatest number of something, by its digits.
    Count,
}

/// The unit of a field; `None` of those that have none.
fn unit_of(field: Field) -> Option<Unit> {
    match field {
        Field::MaxSizeBytes | Field::MaxWidthTimesHeight => Some(Unit::Greatest(u64::MAX)),
        Field::MaxBytesPerRow => Some(Unit::Greatest(u64::from(u32::MAX))),
        Field::MinSizeBytes
        | Field::MinBytesPerRow
        | Field::BytesPerRowDivisor
        | Field::StartOffsetDivisor => Some(Unit::Least),
        Field::MaxBufferCount => Some(Unit::Count),
        _ => None,
    }
}

/// The values that may be meant in the place of the one of the field that a change leaves out,
/// where this one suffices: at most eight, the likely ones of a value first; of a bound each in the
/// place of one value alone. A width and a height are exchanged. A number is taken in another unit,
/// or by hexadecimal digits, as far as it suffices then, and isn't far more than that: else about
/// every value that is too tight would seem to be mistaken. A count, and a width or a height, is
/// just what suffices by hexadecimal digits; so is a greatest size in macroblocks, but for what the
/// last of them has beside.
pub fn slips_of(
    alloc: Global,
    value: &Value,
    edit: Edit,
    enough: Option<Amount>,
) -> Result<Vec<Slip>, AllocError> {
    let mut slips = Vec::new(alloc);
    for stated in &amounts_in(alloc, value, edit)? {
        add_slips(&mut slips, value, edit, *stated, enough)?;
    }
    Ok(slips)
}

/// Adds those that may be meant in the place of one value, which they alone change, up to a number.
fn add_slips(
    slips: &mut Vec<Slip>,
    value: &Value,
    edit: Edit,
    stated: Amount,
    enough: Option<Amount>,
) -> Result<(), AllocError> {
    let alloc = *slips.allocator();
    let Some(field) = edit.left_out() else {
        return Ok(());
    };
    for Meant { amount, why } in slips_from(alloc, field, stated, enough)? {
        if slips.len() >= MOST {
            break;
        }
        if let Some(edit) = edit_of_one(alloc, value, edit, stated, amount)? {
            slips.push(Slip { edit, amount, why })?;
        }
    }
    Ok(())
}

/// The edit by which an amount comes in the place of one value alone of the field that another edit
/// leaves out: this other one, or where entries ask for more by further values one of that value;
/// `None` where that asks for no more.
fn edit_of_one(
    alloc: Global,
    value: &Value,
    edit: Edit,
    stated: Amount,
    amount: Amount,
) -> Result<Option<Edit>, AllocError> {
    if has_one_amount(alloc, value, edit, stated, amount)? {
        return Ok(Some(edit));
    }
    Ok(match edit {
        Edit::NoBound(field) if asks_more(field, stated, Some(amount)) => {
            Some(Edit::Replaces(field, stated))
        }
        _ => None,
    })
}

/// What may be meant in the place of a value that is stated.
fn slips_from(
    alloc: Global,
    field: Field,
    stated: Amount,
    enough: Option<Amount>,
) -> Result<Vec<Meant>, AllocError> {
    let mut slips = Vec::new(alloc);
    match (stated, enough) {
        (Amount::Number(number), Some(Amount::Number(enough))) => {
            add_numbers(&mut slips, field, number, enough)?;
        }
        (Amount::Sides(width, height), enough) => {
            if width != height {
                slips.push(Meant {
                    amount: Amount::Sides(height, width),
                    why: " (width and height exchanged)",
                })?;
            }
            if let (Field::MaxSize, Some(Amount::Sides(least_width, least_height))) = (
                field, enough,
            ) {
                add_sides(&mut slips, (width, least_width), (height, least_height))?;
            }
        }
        _ => {}
    }
    Ok(slips)
}

/// Adds what may be meant in the place of a number of a field, where another one suffices.
fn add_numbers(
    slips: &mut Vec<Meant>,
    field: Field,
    number: u64,
    enough: u64,
) -> Result<(), AllocError> {
    let Some(unit) = unit_of(field) else {
        return Ok(());
    };
    for factor in factors_of(field, number) {
        let slip = match unit {
            Unit::Greatest(most) => more(number, factor, enough, most),
            Unit::Least => less(number, factor, enough),
            Unit::Count => None,
        };
        if let Some(slip) = slip {
            slips.push(slip)?;
        }
    }
    let slip = match unit {
        Unit::Greatest(most) => hexadecimal(number, enough, most),
        Unit::Count => hexadecimal(number, enough, enough),
        Unit::Least => None,
    };
    if let Some(slip) = slip {
        slips.push(slip)?;
    }
    Ok(())
}

/// The factors of a field's number, the likely ones first: 1,024 before a thousand where it is
/// round by that and not in decimal. Pixels are counted in macroblocks, and have no bits.
fn factors_of(field: Field, number: u64) -> [Factor; 3] {
    let small = if field == Field::MaxWidthTimesHeight {
        BLOCKS
    } else {
        EIGHT
    };
    if number % 10 != 0 && number % 8 == 0 {
        [small, KIBI, THOUSAND]
    } else {
        [small, THOUSAND, KIBI]
    }
}

/// A number above 1 times a factor, if that suffices, and isn't far more than what does, or than
/// the most.
fn more(number: u64, factor: Factor, enough: u64, most: u64) -> Option<Meant> {
    let meant = number.checked_mul(factor.times)?;
    if number < 2 || meant < enough || meant > enough.saturating_mul(factor.room).min(most) {
        return None;
    }
    Some(Meant {
        amount: Amount::Number(meant),
        why: factor.more,
    })
}

/// A number by a factor, where it divides evenly and suffices, and isn't far less than what does.
fn less(number: u64, factor: Factor, enough: u64) -> Option<Meant> {
    if number == 0 || number.checked_rem(factor.times)? != 0 {
        return None;
    }
    let meant = number.checked_div(factor.times)?;
    if meant > enough || meant.saturating_mul(factor.room) < enough {
        return None;
    }
    Some(Meant {
        amount: Amount::Number(meant),
        why: factor.less,
    })
}

/// The number whose hexadecimal digits are the decimal ones of a round number, if it suffices, and
/// isn't far more than what does, or than the most. A number that is just what does may have any
/// digits but one alone, which is the same in both.
fn hexadecimal(number: u64, enough: u64, most: u64) -> Option<Meant> {
    let meant = read_as_hexadecimal(number)?;
    let is_round = number % 100 == 0 || meant == most;
    let room = enough.saturating_mul(HEXADECIMAL_ROOM).min(most);
    if !is_round || number == meant || meant < enough || meant > room {
        return None;
    }
    Some(as_hexadecimal(Amount::Number(meant)))
}

/// Adds the width and height that may be meant by a greatest size in the place of these, each with
/// what suffices.
fn add_sides(
    slips: &mut Vec<Meant>,
    width: (u64, u64),
    height: (u64, u64),
) -> Result<(), AllocError> {
    if let (Some(width), Some(height)) = (in_pixels(width), in_pixels(height)) {
        slips.push(Meant {
            amount: Amount::Sides(width, height),
            why: " (16 times more)",
        })?;
    }
    if let Some(slip) = hexadecimal_sides(width, height) {
        slips.push(slip)?;
    }
    Ok(())
}

/// The pixels of a side in several macroblocks, of which only the last one has more than suffices.
fn in_pixels(side: (u64, u64)) -> Option<u64> {
    let (blocks, enough) = side;
    let pixels = blocks.checked_mul(BLOCK_SIDE)?;
    if blocks < 2 || pixels < enough || pixels.saturating_sub(BLOCK_SIDE) >= enough {
        return None;
    }
    Some(pixels)
}

/// A width and a height, each with what suffices, of which one, or each, has hexadecimal digits for
/// decimal ones, and is just what suffices so; the other one suffices as it is.
fn hexadecimal_sides(width: (u64, u64), height: (u64, u64)) -> Option<Meant> {
    let meant_width = side_meant(width)?;
    let meant_height = side_meant(height)?;
    if meant_width == width.0 && meant_height == height.0 {
        return None;
    }
    Some(as_hexadecimal(Amount::Sides(meant_width, meant_height)))
}

/// A side that suffices, by its hexadecimal digits if it is just what does so.
fn side_meant(stated: (u64, u64)) -> Option<u64> {
    let (side, enough) = stated;
    if side >= enough {
        Some(side)
    } else if read_as_hexadecimal(side)? == enough {
        Some(enough)
    } else {
        None
    }
}

/// A value that was written with decimal digits.
fn as_hexadecimal(amount: Amount) -> Meant {
    Meant {
        amount,
        why: " (hexadecimal written as decimal)",
    }
}

/// The number that the decimal digits of a number are in hexadecimal; `None` where they are many.
fn read_as_hexadecimal(number: u64) -> Option<u64> {
    let mut rest = number;
    let mut unit = 1u64;
    let mut sum = 0u64;
    for _digit in 0..DIGITS {
        if rest == 0 {
            break;
        }
        sum = sum.checked_add((rest % 10).checked_mul(unit)?)?;
        unit = unit.checked_mul(16)?;
        rest /= 10;
    }
    Some(sum)
}
