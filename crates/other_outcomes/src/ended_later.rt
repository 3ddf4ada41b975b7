//! Room that those take who are released or closed only after a domain was decided.

ghost use Rattle.std.specs.Prelude.{List, IfOk, IfSome};
ghost use Rattle.script_reading.specs.declared.call.Call.{Call as Called};
ghost use Rattle.other_outcomes.specs.Moved.{IsMoved, IsPromisedMoved};

use crate::moved::{put_promised, step};
use domain_reasons::{accepted_before, rooms_needed};
use explanation_text::wording::{MOST_NAMES, mark_after, put_few};
use explanation_text::{Items, Label, ListBuilder, TextBuilder};
use script_reading::{Act, Call};
use script_story::{Milestone, Outcome, Scenario, Story};
use std::alloc::{AllocError, Global};
use std::slice::from_ref;
use value_sources::{NamedParticipant, held};

/// Over how many calls one is moved at most: for each of these the calls are gone through.
pub(crate) const FARTHEST: usize = 256;
/// How many who end later are looked at.
const MOST: usize = 8;

/// Somebody who is released or closed, and the number of that call.
#[derive(Clone, Copy)]
pub(crate) struct End {
    pub(crate) node: usize,
    pub(crate) call: usize,
}

/// Tells who takes room in an attached domain's decision and is released or closed only after it,
/// and what the domain at a path would be if that came before: of the first of them of whom one is
/// enough, else of the fewest who are together.
pub fn add_ended_later(
    items: &mut Items,
    scenario: &Scenario<'_>,
    story: &Story<'_>,
    index: usize,
    path: &str,
) -> Result<(), AllocError> {
    let alloc = items.alloc();
    let decided = match story.domains.get(index) {
        Some(domain) => domain.ended,
        None => None,
    };
    let Some(decided) = decided else {
        return Ok(());
    };
    if rooms_needed(alloc, story, index)?.is_empty() {
        return Ok(());
    }
    let ends = later_ends(alloc, story, index, decided)?;
    add_ends(items, scenario, story, &ends, decided, path)
}

/// Tells what the domain at a path would be if one of those ended before the call of a number; or
/// else the fewest of whom that is enough; or else that all still count.
fn add_ends(
    items: &mut Items,
    scenario: &Scenario<'_>,
    story: &Story<'_>,
    ends: &[End],
    decided: usize,
    path: &str,
) -> Result<(), AllocError> {
    if ends.is_empty() {
        return Ok(());
    }
    let enough = enough_alone(items.alloc(), scenario, ends, decided, path)?;
    let is_told = match enough.first() {
        Some(first) => {
            add_before(
                items,
                scenario,
                story,
                &enough,
                from_ref(first),
                decided,
                path,
            )?
        }
        None => {
            let fewest = fewest_before(items.alloc(), scenario, ends, decided, path)?;
            add_before(items, scenario, story, &fewest, &fewest, decided, path)?
        }
    };
    if !is_told {
        items.say(1, Label::Note, still_text(items.alloc(), story, ends));
    }
    Ok(())
}

/// Those of some ends of which each alone, before the call of a number, would be enough for the
/// domain at a path: it would be the same with each.
fn enough_alone(
    alloc: Global,
    scenario: &Scenario<'_>,
    ends: &[End],
    decided: usize,
    path: &str,
) -> Result<Vec<End>, AllocError> {
    let mut said: Option<String> = None;
    let mut enough = Vec::new(alloc);
    for end in ends {
        match outcome_before(alloc, scenario, from_ref(end), decided, path)? {
            Some(outcome) if is_as(&said, &outcome) => {
                said = Some(outcome.said.clone()?);
                enough.push(*end)?;
            }
            _ => {}
        }
    }
    Ok(enough)
}

/// Some ends without those that needn't come before the call of a number for the domain at a path to
/// be chosen, the last of them first; all where it isn't chosen with these either.
fn fewest_before(
    alloc: Global,
    scenario: &Scenario<'_>,
    ends: &[End],
    decided: usize,
    path: &str,
) -> Result<Vec<End>, AllocError> {
    let mut fewest = Vec::from_slice(alloc, ends)?;
    if outcome_before(alloc, scenario, ends, decided, path)?.is_none() {
        return Ok(fewest);
    }
    for end in ends.iter().rev() {
        let others = but_those(alloc, &fewest, from_ref(end))?;
        if outcome_before(alloc, scenario, &others, decided, path)?.is_some() {
            fewest = others;
        }
    }
    Ok(fewest)
}

/// Those of some ends that aren't among others.
pub(crate) fn but_those(
    alloc: Global,
    ends: &[End],
    those: &[End],
) -> Result<Vec<End>, AllocError> {
    let mut others = ListBuilder::new(alloc);
    for end in ends {
        if !those.iter().any(|other| other.call == end.call) {
            others.add(*end);
        }
    }
    others.done()
}

/// Whether the report says this of a domain, if it says something.
fn is_as(said: &Option<String>, outcome: &Outcome) -> bool {
    match said {
        Some(said) => said.as_str() == outcome.said.as_str(),
        None => true,
    }
}

/// Tells that those still count, and what the domain at a path would be if some of them ended
/// before the call of a number, if it would be chosen, and says whether it would.
fn add_before(
    items: &mut Items,
    scenario: &Scenario<'_>,
    story: &Story<'_>,
    ends: &[End],
    early: &[End],
    decided: usize,
    path: &str,
) -> Result<bool, AllocError> {
    let Some(outcome) = outcome_before(items.alloc(), scenario, early, decided, path)? else {
        return Ok(false);
    };
    put_head(items, story, ends, early, decided);
    put_promised(items, scenario, path, outcome);
    Ok(true)
}

/// Those who hold buffers since they were accepted before the domain of an index, and whom a call
/// ends after the one that decided it, in the order of these calls.
fn later_ends(
    alloc: Global,
    story: &Story<'_>,
    index: usize,
    decided: usize,
) -> Result<Vec<End>, AllocError> {
    let participants = holding(alloc, &accepted_before(alloc, story, index)?)?;
    let mut ends = Vec::new(alloc);
    for later in 0..FARTHEST {
        let call = decided.saturating_add(later).saturating_add(1);
        match ended_by(story, &participants, call) {
            Some(node) if ends.len() < MOST => ends.push(End { node, call })?,
            _ => {}
        }
    }
    Ok(ends)
}

/// Those of some participants who hold buffers.
pub(crate) fn holding<'a>(
    alloc: Global,
    participants: &[NamedParticipant<'a>],
) -> Result<Vec<NamedParticipant<'a>>, AllocError> {
    let mut holding = ListBuilder::new(alloc);
    for one in participants {
        if held(from_ref(one)) > 0 {
            holding.add(*one);
        }
    }
    holding.done()
}

/// The one of some participants whom the call of a number ends.
pub(crate) fn ended_by(
    story: &Story<'_>,
    participants: &[NamedParticipant<'_>],
    call: usize,
) -> Option<usize> {
    let node = story.call(call)?.node?;
    if story.milestone(node, Milestone::End) != Some(call) {
        return None;
    }
    for participant in participants {
        if participant.node == node {
            return Some(node);
        }
    }
    None
}

/// Puts what is tried: `recorder still counts here, since call 18 releases it only after call 16;
/// with call 18 before call 16 it would be:`.
fn put_head(items: &mut Items, story: &Story<'_>, ends: &[End], early: &[End], decided: usize) {
    let mut text = still_text(items.alloc(), story, ends);
    if early.len() < ends.len() {
        text.put(", of which one is enough");
    }
    put_tried(&mut text, early, decided);
    items.say(1, Label::Then, text)
}

/// Puts that those are to end before the call of a number after a text.
fn put_tried(text: &mut TextBuilder, ends: &[End], decided: usize) {
    text.put("; with ");
    put_calls(text, ends);
    text.put(" before call ").call(decided).put(" it would be:");
}

/// That those still count.
fn still_text(alloc: Global, story: &Story<'_>, ends: &[End]) -> TextBuilder {
    let mut text = TextBuilder::new(alloc);
    put_names(&mut text, story, ends);
    put_still(&mut text, story, ends);
    text
}

/// Puts the names of those after a text.
pub(crate) fn put_names(text: &mut TextBuilder, story: &Story<'_>, ends: &[End]) {
    let mut names = ListBuilder::new(text.alloc());
    for end in ends {
        names.add(story.called(end.node));
    }
    match names.done() {
        Ok(names) => put_few(text, &names, MOST_NAMES),
        Err(AllocError) => text.refuse(),
    }
}

/// Puts that those still count after their names.
fn put_still(text: &mut TextBuilder, story: &Story<'_>, ends: &[End]) {
    let (counts, is) = if ends.len() == 1 {
        ("counts", "is")
    } else {
        ("count", "are")
    };
    text.put(" still ").put(counts).put(" here, and ");
    text.put(is).put(" ").put(ending(story, ends));
    text.put(" only later, by ");
    put_calls(text, ends)
}

/// How those end: released, closed, or some so and some so.
pub(crate) fn ending(story: &Story<'_>, ends: &[End]) -> &'static str {
    let mut closes = 0usize;
    for end in ends {
        match story.call(end.call) {
            Some(call) if matches!(call.act, Act::Close) => closes = closes.saturating_add(1),
            _ => {}
        }
    }
    match closes {
        0 => "released",
        some if some == ends.len() => "closed",
        _ => "released or closed",
    }
}

/// Puts the numbers of the calls after a text: `call 18`, `calls 18 and 20`.
pub(crate) fn put_calls(text: &mut TextBuilder, ends: &[End]) {
    text.put(if ends.len() == 1 { "call " } else { "calls " });
    for (k, end) in ends.iter().enumerate() {
        text.call(end.call).put(mark_after(k, ends.len()));
    }
}

/// What the domain at a path becomes once these calls, in their order, stand before the call of a
/// number, if it is chosen then.
fn outcome_before(
    alloc: Global,
    scenario: &Scenario<'_>,
    ends: &[End],
    decided: usize,
    path: &str,
) -> Result<Option<Outcome>, AllocError>
    ensures { IfOk result (λ said. IfSome said (λ what. IsPromisedMoved
        scenario.now.platform.now scenario.now.calls.now path.now what)) }
{
    let calls = put_before(alloc, scenario.calls, ends, decided)?;
    match scenario.outcome(alloc, &calls, path)? {
        Some(outcome) if outcome.is_chosen() => Ok(Some(outcome)),
        _ => Ok(None),
    }
}

/// The calls with some of them before the call of a number.
fn put_before<'a>(
    alloc: Global,
    calls: &[Call<'a>],
    ends: &[End],
    decided: usize,
) -> Result<Vec<Call<'a>>, AllocError>
    ensures { IfOk result (λ made. IsMoved calls.now made.items) }
{
    let mut made = Vec::from_slice(alloc, calls)?;
    let mut to = decided.saturating_sub(1);
    for end in ends {
        let next = carried(alloc, &made, end.call.saturating_sub(1), to)?;
        made = next;
        to = to.saturating_add(1);
    }
    Ok(made)
}

/// The calls with the one at a place right before that at an earlier one: each of those between is
/// moved after it in turn.
pub(crate) fn carried<'a>(
    alloc: Global,
    calls: &[Call<'a>],
    from: usize,
    to: usize,
) -> Result<Vec<Call<'a>>, AllocError>
    ensures { IfOk result (λ made.
        (first : List Called) → IsMoved first calls.now → IsMoved first made.items) }
{
    let mut made = Vec::from_slice(alloc, calls)?;
    for _one in to..from {
        let next = step(alloc, &made, to, from)?;
        made = next;
    }
    Ok(made)
}
