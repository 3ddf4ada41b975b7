//! Values of JSON for what texts say.

use crate::json::object::Object;
use explanation_text::{Said, TextBuilder};
use serde_json::Value;
use std::alloc::{AllocError, Global};

/// The greatest number that each reader of JSON keeps whole.
const MOST_EXACT: u64 = 9_007_199_254_740_992;

/// A number, as a text where a double might not have it.
pub(crate) fn number_value(alloc: Global, number: u64) -> Result<Value, AllocError> {
    if number <= MOST_EXACT {
        return Ok(Value::from(number));
    }
    let mut words = TextBuilder::new(alloc);
    words.put_number(number);
    Ok(Value::String(words.done()?))
}

/// How many, or a place in a list.
pub(crate) fn count_value(count: usize) -> Value {
    Value::from(count)
}

/// A value that a text says: a number, an object with width and height, true or false, or a text.
pub(crate) fn said_value(alloc: Global, text: &str, said: Said) -> Result<Value, AllocError> {
    match said {
        Said::Number(number) => number_value(alloc, number),
        Said::Sides(width, height) => sides_value(alloc, width, height),
        Said::Flag(is_set) => Ok(Value::Bool(is_set)),
        Said::Words(span) => Value::try_from_str(alloc, span.text_in(text)),
    }
}

fn sides_value(alloc: Global, width: u64, height: u64) -> Result<Value, AllocError> {
    let mut sides = Object::new(alloc);
    sides.put("height", number_value(alloc, height)?)?;
    sides.put("width", number_value(alloc, width)?)?;
    Ok(sides.into_value())
}
