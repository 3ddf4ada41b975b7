//! The search from a prefix on.

ghost use Rattle.std.specs.Prelude.{◌≡◌, ◌<◌, ◌≤◌, length, is_some, Option, IfOk, IfSome, OnOk};
ghost use Rattle.sysmem_merge.specs.declared.settings.Settings.{Settings as Settled};
ghost use Rattle.sysmem_tree.specs.declared.tree.TheConstants.{MOST_NODES};
ghost use Rattle.verdict_claims.specs.Matter.{forest};
ghost use Rattle.search_questions.specs.Searching.{IsFoundOf};
ghost use Rattle.sysmem_tree.specs.Selection.{IsPrefix, after};

use crate::gate::Gate;
use search_questions::Question;
use std::alloc::AllocError;
use verdict_claims::laws::cuts_lose_nothing;

/// Whether any settings meet a selection that begins with the question's choices, and then the
/// choices go on to the first such selection; where none do, they are as before. What is settled by
/// a prefix that can't be met isn't gone on with. The visits of prefixes are counted, at most to
/// `u64::MAX`.
pub(crate) fn search_from<G: Gate>(
    question: &mut Question<'_>,
    gate: &G,
    visits: &mut u64,
) -> Result<bool, AllocError>
    requires prefix { IsPrefix (forest question.old.matter) question.old.choices }
    requires room { length question.old.choices ≤ MOST_NODES }
    ensures matter { OnOk result (question.new.matter ≡ question.old.matter) }
    ensures found { IfOk result (λ found.
        (best : Option Settled) × (found ≡ is_some best)
        × IfSome (after (forest question.old.matter) question.old.choices)
        (λ d. IsFoundOf question.old.matter d question.old.choices question.new.choices visits.old
        visits.new best)) }
{
    gate.at_prefix(question.prefix().choices().len() as u32);
    *visits = visits.saturating_add(1);
    let Some(children) = question.children() else {
        return Ok(question.has_best());
    };
    if !question.is_met() {
        cuts_lose_nothing();
        return Ok(false);
    }
    for choice in 0..children {
        question.enter(choice)?;
        if search_from(question, gate, visits)? {
            return Ok(true);
        }
        question.leave();
    }
    Ok(false)
}
