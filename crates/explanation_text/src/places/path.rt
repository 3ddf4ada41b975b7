//! Paths that lead to values.

ghost use Rattle.std.specs.Prelude.{◌≡◌, option_map};
ghost use Rattle.serde_json.specs.View.{view};
ghost use Rattle.explanation_text.specs.Places.{stepped, value_on};

use crate::places::keys::Step;
use serde_json::Value;

/// The value in this one to which a path leads, if there is one.
pub fn value_at<'a>(value: &'a Value, path: &[Step<'_>]) -> Option<&'a Value>
    ensures { option_map (λ found. view found.now) result ≡ value_on path.now (view value.now) }
{
    let mut at = value;
    for step in path {
        at = next(at, step)?;
    }
    Some(at)
}

/// The value in this one to which a step leads, if there is one.
fn next<'a>(value: &'a Value, step: &Step<'_>) -> Option<&'a Value>
    ensures { option_map (λ found. view found.now) result ≡ stepped step.now (view value.now) }
{
    match *step {
        Step::Key(key) => value.get(key),
        Step::Item(index) => value.get(index),
    }
}
