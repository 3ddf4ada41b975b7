//! Refutations of what can't be met, item by item.

ghost use Rattle.std.specs.Prelude.{◌≡◌, ◌<◌, ◌≤◌, ◌++◌, [], ◌∷◌, length, option_map, None, IfOk, IfSome, OnOk};
ghost use Rattle.sysmem_merge.specs.declared.settings.Settings.{Settings as Settled};
ghost use Rattle.sysmem_tree.specs.declared.tree.TheConstants.{MOST_NODES};
ghost use Rattle.verdict_claims.specs.Certificate.{RefutesEarlier};
ghost use Rattle.verdict_claims.specs.Conflict.{IsConflictFor};
ghost use Rattle.verdict_claims.specs.Matter.{forest, terms};
ghost use Rattle.verdict_claims.specs.Verdict.{IsForestUnmet, IsUnmetBefore};
ghost use Rattle.sysmem_search.specs.Cut.{AreCut};
ghost use Rattle.search_questions.specs.Question.{MeetsOf, MeetsHere};
ghost use Rattle.sysmem_search.specs.Refuting.{AddsRefutation, RefutesFirst};
ghost use Rattle.sysmem_tree.specs.Forest.{choices};
ghost use Rattle.sysmem_tree.specs.Selection.{IsPrefix, after};

use search_questions::Question;
use std::alloc::{AllocError, Global};
use sysmem_tree::Prefix;
use verdict_claims::{EarlierChoices, Item, Refutation};

/// Adds a conflict of what the question's choices settle, where no settings meet it: it
/// refutes all that goes on from there.
fn refute_here(question: &mut Question<'_>, items: &mut Vec<Item>) -> Result<(), AllocError>
    requires prefix { IsPrefix (forest question.old.matter) question.old.choices }
    requires unmet { IfSome (after (forest question.old.matter) question.old.choices)
        (λ d. (t : Settled) → ¬ (MeetsHere question.old.matter d t)) }
    ensures same { question.new ≡ question.old }
    ensures refuted { OnOk result
        (IfSome (after (forest question.old.matter) question.old.choices)
        (λ d. AddsRefutation question.old.matter d items.old.items items.new.items)) }
{
    items.push(Item::Leaf(question.conflict()?))?;
    Ok(())
}

/// Adds a conflict of the selection that the question's choices and this last one are, where no
/// settings meet it.
fn refute_last(
    question: &mut Question<'_>,
    last: u8,
    items: &mut Vec<Item>,
) -> Result<(), AllocError>
    requires room { length question.old.choices < MOST_NODES }
    requires prefix { IsPrefix (forest question.old.matter) (question.old.choices ++ last ∷ []) }
    requires whole { IfSome (after (forest question.old.matter) (question.old.choices ++ last ∷ []))
        (λ d. option_map length (choices d) ≡ None) }
    requires unmet { IfSome (after (forest question.old.matter) (question.old.choices ++ last ∷ []))
        (λ d. IsForestUnmet (MeetsOf question.old.matter) d) }
    ensures same { question.new ≡ question.old }
    ensures refuted { OnOk result
        (IfSome (after (forest question.old.matter) (question.old.choices ++ last ∷ []))
        (λ d. AddsRefutation question.old.matter d items.old.items items.new.items)) }
{
    items.push(Item::Leaf(question.last_conflict(last)?))?;
    Ok(())
}

/// Adds a refutation of all that goes on from the question's choices, where no settings meet any
/// selection there: a conflict where they are a selection or what they settle can't be met, else a
/// split and a refutation of each choice for the next group. The choices are as before. So each
/// split stands where what is settled can be met.
pub(crate) fn refute_from(
    question: &mut Question<'_>,
    items: &mut Vec<Item>,
) -> Result<(), AllocError>
    requires prefix { IsPrefix (forest question.old.matter) question.old.choices }
    requires room { length question.old.choices ≤ MOST_NODES }
    requires unmet { IfSome (after (forest question.old.matter) question.old.choices)
        (λ d. IsForestUnmet (MeetsOf question.old.matter) d) }
    ensures same { OnOk result (question.new ≡ question.old) }
    ensures refuted { OnOk result
        (IfSome (after (forest question.old.matter) question.old.choices)
        (λ d. AddsRefutation question.old.matter d items.old.items items.new.items)) }
{
    let Some(children) = question.children() else {
        return refute_here(question, items);
    };
    if !question.is_met() {
        return refute_here(question, items);
    }
    items.push(Item::Split(children as u64))?;
    for choice in 0..children {
        if question.is_last(choice) {
            refute_last(question, choice, items)?;
        } else {
            question.enter(choice)?;
            refute_from(question, items)?;
            question.leave();
        }
    }
    Ok(())
}

/// Refutes each choice for the next group before this one, where no settings meet a selection that
/// makes it. The question's choices are as before.
fn refute_before(
    alloc: Global,
    question: &mut Question<'_>,
    choice: u8,
) -> Result<EarlierChoices, AllocError>
    requires room { length question.old.choices < MOST_NODES }
    requires prefix { IsPrefix (forest question.old.matter) (question.old.choices ++ choice ∷ []) }
    requires unmet { IfSome (after (forest question.old.matter) question.old.choices)
        (λ d. IsUnmetBefore (MeetsOf question.old.matter) d (choice ∷ [])) }
    ensures same { OnOk result (question.new ≡ question.old) }
    ensures refuted { IfOk result (λ earlier.
        IfSome (after (forest question.old.matter) question.old.choices)
        (λ d. RefutesFirst question.old.matter d choice earlier)) }
{
    let mut refutations = Vec::new(alloc);
    for earlier in 0..choice {
        let mut items = Vec::new(alloc);
        question.enter(earlier)?;
        refute_from(question, &mut items)?;
        question.leave();
        refutations.push(Refutation::new(items))?;
    }
    Ok(EarlierChoices::new(refutations))
}

/// Goes from no choice on to this selection, where no settings meet an earlier one, and at each
/// group on the way refutes each choice before the one that it makes.
pub(crate) fn refute_earlier(
    alloc: Global,
    question: &mut Question<'_>,
    selection: &Prefix,
) -> Result<Vec<EarlierChoices>, AllocError>
    requires start { question.old.choices ≡ [] }
    requires room { length selection.now ≤ MOST_NODES }
    requires prefix { IsPrefix (forest question.old.matter) selection.now }
    requires unmet { IsUnmetBefore (MeetsOf question.old.matter) (forest question.old.matter)
        selection.now }
    ensures refuted { IfOk result (λ earlier.
        RefutesEarlier (IsConflictFor question.old.matter.platform (terms question.old.matter))
        (forest question.old.matter) selection.now earlier.items) }
    ensures cut { IfOk result (λ earlier.
        AreCut question.old.matter (forest question.old.matter) selection.now earlier.items) }
{
    let mut earlier = Vec::new(alloc);
    for choice in selection.choices() {
        earlier.push(refute_before(alloc, question, *choice)?)?;
        question.enter(*choice)?;
    }
    Ok(earlier)
}
