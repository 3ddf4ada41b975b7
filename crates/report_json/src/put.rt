//! Numbers, names and commas, each put after the text so far.

use std::alloc::AllocError;
use std::fmt::Write;

/// The greatest number that each reader of JSON keeps whole.
const MOST_EXACT: u64 = 9_007_199_254_740_992;

/// Puts a number, as a text where a double might not have it.
pub(crate) fn put_number(out: &mut String, number: u64) -> Result<(), AllocError> {
    if number <= MOST_EXACT {
        write!(out, "{number}")
    } else {
        write!(out, "\"{number}\"")
    }
}

/// Puts a name between quotes, or null. It has letters, digits, `.`, `_` and `-` alone, so nothing
/// in it is escaped.
pub(crate) fn put_name(out: &mut String, name: Option<&str>) -> Result<(), AllocError> {
    match name {
        Some(name) => write!(out, "\"{name}\""),
        None => out.push_str("null"),
    }
}

/// Puts a comma before what isn't the first of its list.
pub(crate) fn put_comma(out: &mut String, later: bool) -> Result<(), AllocError> {
    if later { out.push_str(",") } else { Ok(()) }
}
