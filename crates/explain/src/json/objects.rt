//! The objects of an explanation.

ghost use Rattle.std.specs.Prelude.{IfOk};
ghost use Rattle.std.specs.String.{string_bytes};
ghost use Rattle.explain.specs.Lines.{AreLinesOf, IsObjectLine, IsToldBy, item_texts};

use crate::explaining::Outcome;
use crate::json::object::Object;
use crate::json::scene::Scene;
use crate::json::telling::Telling;
use crate::json::values::count_value;
use explanation_text::Item;
use serde_json::Value;
use std::alloc::{AllocError, Global};

/// An explanation as objects of JSON: a line for each item, and one that ends them. `AllocError`
/// where memory is refused.
#[tactic(auto, using(crate::proofs::More::told_by))]
pub(crate) fn objects_of(
    alloc: Global,
    scene: Scene<'_, '_>,
    outcome: Outcome,
    items: &[Item],
) -> Result<String, AllocError>
    ensures { IfOk result (λ text. IsToldBy (item_texts items.now) (string_bytes text)) }
{
    let mut text = lines_of(alloc, scene, items)?;
    let end = end_line(alloc, scene, outcome, items.len())?;
    text.push_str(&end)?;
    Ok(text)
}

/// A line for each item.
#[tactic(auto, using(crate::proofs::More::line_more))]
fn lines_of(alloc: Global, scene: Scene<'_, '_>, items: &[Item]) -> Result<String, AllocError>
    ensures { IfOk result (λ text. AreLinesOf (item_texts items.now) (string_bytes text)) }
{
    let mut telling = Telling::new(scene, items);
    let mut text = String::new(alloc);
    for index in 0..items.len() {
        let line = telling.line(index, &items[index])?;
        text.push_str(&line)?;
    }
    Ok(text)
}

/// The line by which a reader knows that it has all.
fn end_line(
    alloc: Global,
    scene: Scene<'_, '_>,
    outcome: Outcome,
    items: usize,
) -> Result<String, AllocError>
    ensures { IfOk result (λ line. IsObjectLine (string_bytes line)) }
{
    let mut object = Object::new(alloc);
    object.put("calls", count_value(scene.calls()))?;
    object.put("end", Value::Bool(true))?;
    object.put("items", count_value(items))?;
    object.say("outcome", outcome_word(outcome))?;
    object.put("refused", count_value(scene.refused()))?;
    object.into_end()
}

fn outcome_word(outcome: Outcome) -> &'static str {
    match outcome {
        Outcome::Fine => "fine",
        Outcome::Faulty => "faulty",
        Outcome::Refused => "refused",
        Outcome::Untold => "untold",
    }
}
