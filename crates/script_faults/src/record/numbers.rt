//! The number that may be meant by one that isn't allowed.

use explanation_text::Meant;
use record_reading::FaultPlace;
use serde_json::{Number, Value};
use std::alloc::{AllocError, Global};

/// The number that is allowed at a place and nearest to one that isn't, or is written otherwise than
/// whole; none in the place of a greatest value below 0, which asks for no limit.
pub(crate) fn number_meant(
    alloc: Global,
    at: FaultPlace,
    number: &Value,
    written: &[u8],
    bounds: (u64, u64),
) -> Result<Option<Meant>, AllocError> {
    if is_below_zero(number) && at.name().starts_with("max_") {
        return Ok(None);
    }
    let (least, most) = bounds;
    let near = match whole_of(alloc, number, written)? {
        Some(whole) => Some(whole.max(least).min(most)),
        None => nearest_within(number, least, most),
    };
    Ok(match (at, near) {
        (FaultPlace::At(field), Some(near)) => Some(Meant::Value(field, near)),
        _ => None,
    })
}

/// The whole number that is written with a point or an exponent.
fn whole_of(alloc: Global, value: &Value, written: &[u8]) -> Result<Option<u64>, AllocError> {
    match value {
        Value::Number(number) if number.is_f64() => whole_number(alloc, written),
        _ => Ok(None),
    }
}

/// Whether a value is a whole number below 0.
fn is_below_zero(value: &Value) -> bool {
    match value {
        Value::Number(number) => !number.is_f64() && number.as_u64().is_none(),
        _ => false,
    }
}

/// The number in a range that is nearest to a whole one which isn't in it, or which stands in quotes.
fn nearest_within(value: &Value, least: u64, most: u64) -> Option<u64> {
    match value {
        Value::Number(number) if number.is_f64() => None,
        Value::Number(number) => match number.as_u64() {
            Some(n) if n > most => Some(most),
            Some(n) if n >= least => None,
            _ => Some(least),
        },
        Value::String(text) => match text.parse::<u64>() {
            Ok(n) => Some(n.max(least).min(most)),
            Err(_) => None,
        },
        _ => None,
    }
}

/// Zeros for the greatest exponent that a number of 64 bits may have.
const ZEROS: &str = "0000000000000000000";

/// The whole number that is written with a point or an exponent, as `1920.0` or `2e3`.
fn whole_number(alloc: Global, written: &[u8]) -> Result<Option<u64>, AllocError> {
    let Ok(text) = std::str::from_utf8(written) else {
        return Ok(None);
    };
    let (digits, exponent) = parted(text, 'e', 'E');
    let (whole, fraction) = parted(digits, '.', '.');
    let fraction = fraction.trim_end_matches("0");
    let Some(zeros) = zeros_behind(exponent, fraction.len()) else {
        return Ok(None);
    };
    let number = format!(in alloc; "{whole}{fraction}{zeros}")?;
    Ok(number.parse::<u64>().ok())
}

/// What stands before a mark or another, and what behind it.
fn parted(text: &str, mark: char, other: char) -> (&str, &str) {
    match text.split_once(mark) {
        Some(parts) => parts,
        None => match text.split_once(other) {
            Some(parts) => parts,
            None => (text, ""),
        },
    }
}

/// The zeros that an exponent puts behind a fraction of so many digits; `None` where it isn't whole.
fn zeros_behind(exponent: &str, digits: usize) -> Option<&'static str> {
    let places = if exponent.is_empty() {
        0
    } else {
        exponent.parse::<usize>().ok()?
    };
    ZEROS.get(..places.checked_sub(digits)?)
}
