//! What would be decided of a domain without those who are awaited.

ghost use Rattle.std.specs.Prelude.{◌≡◌, List, IfOk, IfSome, OnOk};
ghost use Rattle.script_reading.specs.declared.call.Call.{Call as Called};
ghost use Rattle.other_outcomes.specs.Ended.{IsEnded, IsPromisedEnded};

use crate::otherwise::Otherwise;
use domain_reasons::who_holds_up;
use explanation_text::wording::{MOST_NAMES, put_few};
use explanation_text::{Items, Label, ListBuilder, Text, TextBuilder};
use script_reading::{Act, Call};
use script_story::{Became, MadeCall, Outcome, Scenario, Story};
use std::alloc::{AllocError, Global};
use sysmem_tree::Refusal;

/// The names of children that are made of groups without one: each has the first that no call
/// makes.
const CHILDREN: [&str; 8] = [
    "a_child",
    "a_child_2",
    "a_child_3",
    "a_child_4",
    "a_child_5",
    "a_child_6",
    "a_child_7",
    "a_child_8",
];

/// Tells what the domain of an index would be if nobody who is awaited stated anything, and says
/// with which calls. It isn't told where a call on one of them is to be corrected first, which is
/// told of groups elsewhere if it's said so, but for groups that only want a child.
pub fn add_without<'a>(
    items: &mut Items,
    scenario: &Scenario<'a>,
    story: &Story<'a>,
    index: usize,
    path: &str,
    are_groups_told: bool,
) -> Result<Option<Otherwise<'a>>, AllocError> {
    let counts_groups = are_groups_told && is_one_mended(story);
    let awaited = who_holds_up(items.alloc(), story, index, counts_groups)?;
    if awaited.is_empty() || scenario.effort.is_spent() {
        return Ok(None);
    }
    match without(items.alloc(), scenario, story, &awaited)? {
        Some(calls) => add_with(items, scenario, story, &awaited, calls, path),
        None => Ok(None),
    }
}

/// Whether a call on a group was refused of which it may be told elsewhere how it is to be made:
/// any but one that only wants a child.
fn is_one_mended(story: &Story<'_>) -> bool {
    for call in &story.calls {
        let on_group = match call.node {
            Some(node) if story.is_group(node) => !call.is_accepted(),
            _ => false,
        };
        if on_group && !wants_child(story, call) {
            return true;
        }
    }
    false
}

/// Whether a call was refused since its group has no child, and it has none later on either.
fn wants_child(story: &Story<'_>, call: &MadeCall<'_>) -> bool {
    match call.node {
        Some(group) => call.is_refused_as(Refusal::NoChildren) && is_childless(story, group),
        None => false,
    }
}

/// Tells what the domain at a path would be with these calls, by which nobody is awaited.
fn add_with<'a>(
    items: &mut Items,
    scenario: &Scenario<'a>,
    story: &Story<'_>,
    awaited: &[usize],
    calls: Vec<Call<'a>>,
    path: &str,
) -> Result<Option<Otherwise<'a>>, AllocError>
    requires { IsEnded scenario.now.calls.now calls.items }
{
    let alloc = items.alloc();
    match scenario.outcome(alloc, &calls, path)? {
        Some(outcome) if outcome.became() != Became::Pending => {
            add_ended(items, story, awaited, " it would be:")?;
            let is_chosen = outcome.is_chosen();
            put_promised(items, scenario, &calls, path, outcome);
            Ok(Some(Otherwise {
                calls,
                order: Vec::new(alloc),
                is_chosen,
            }))
        }
        _ => {
            add_ended(items, story, awaited, " it would wait still")?;
            Ok(None)
        }
    }
}

/// Tells who would be released and what would be complete, with words after that.
fn add_ended(
    items: &mut Items,
    story: &Story<'_>,
    awaited: &[usize],
    end: &str,
) -> Result<(), AllocError> {
    let mut words = TextBuilder::of(items.alloc(), "with ");
    put_ended(&mut words, story, awaited)?;
    words.put(end);
    items.say(1, Label::Then, words);
    Ok(())
}

/// Puts who would be released and what would be complete after a text.
fn put_ended(
    text: &mut TextBuilder,
    story: &Story<'_>,
    awaited: &[usize],
) -> Result<(), AllocError> {
    let is_one_gone = put_those(text, story, awaited, false, "")?;
    let mark = if is_one_gone { " and " } else { "" };
    let _is_one_full = put_those(text, story, awaited, true, mark)?;
    Ok(())
}

/// Puts those that would be complete, or those that would be released, after a text with a mark, and
/// says whether there are some.
fn put_those(
    text: &mut TextBuilder,
    story: &Story<'_>,
    awaited: &[usize],
    are_complete: bool,
    mark: &str,
) -> Result<bool, AllocError> {
    let names = names_of(text.alloc(), story, awaited, are_complete)?;
    if names.is_empty() {
        return Ok(false);
    }
    text.put(mark);
    put_few(text, &names, MOST_NAMES);
    text.put(if are_complete {
        " complete"
    } else {
        " released"
    });
    Ok(true)
}

/// The names of those that are groups, or of the others and of the children of groups without one.
fn names_of(
    alloc: Global,
    story: &Story<'_>,
    nodes: &[usize],
    are_groups: bool,
) -> Result<Vec<Text>, AllocError> {
    let mut names = ListBuilder::new(alloc);
    for node in nodes {
        let called = story.called(*node);
        if story.is_group(*node) == are_groups {
            names.add_text(TextBuilder::of_name(alloc, called));
        } else if !are_groups && is_childless(story, *node) {
            let mut words = TextBuilder::of(alloc, "a child of ");
            words.name(called);
            names.add_text(words);
        }
    }
    names.done()
}

/// Whether a group has no child.
fn is_childless(story: &Story<'_>, group: usize) -> bool {
    for node in &story.nodes {
        if node.parent == Some(group) {
            return false;
        }
    }
    true
}

/// The script's calls with those after them that end what is awaited: tokens and collections are
/// released, groups complete, the innermost first. A group without a child gets one, which is
/// released; `None` where no name is left for it.
fn without<'a>(
    alloc: Global,
    scenario: &Scenario<'a>,
    story: &Story<'a>,
    awaited: &[usize],
) -> Result<Option<Vec<Call<'a>>>, AllocError>
    ensures { IfOk result (λ said. IfSome said (λ made.
        IsEnded scenario.now.calls.now made.items)) }
{
    let mut calls: Vec<Call<'a>> = Vec::from_slice(alloc, scenario.calls)?;
    for one in awaited {
        if !story.is_group(*one) {
            calls.push(call_on(story, *one, Act::Release))?;
        } else if is_childless(story, *one) {
            let Some(name) = free_name(&calls) else {
                return Ok(None);
            };
            add_child(&mut calls, story, *one, name)?;
        }
    }
    complete(&mut calls, story, awaited)?;
    Ok(Some(calls))
}

/// The first name of a child that no call makes.
fn free_name(calls: &[Call<'_>]) -> Option<&'static str> {
    for name in CHILDREN {
        if !is_made(calls, name) {
            return Some(name);
        }
    }
    None
}

/// Whether a call makes a name.
fn is_made(calls: &[Call<'_>], name: &str) -> bool {
    for call in calls {
        if call.act.name_made() == Some(name) {
            return true;
        }
    }
    false
}

/// Puts calls after the calls that make a child of a group, of this name, and release it.
fn add_child<'a>(
    calls: &mut Vec<Call<'a>>,
    story: &Story<'a>,
    group: usize,
    name: &'a str,
) -> Result<(), AllocError>
    ensures { OnOk result ((first : List Called) → IsEnded first calls.old.items
        → IsEnded first calls.new.items) }
{
    calls.push(call_on(story, group, Act::CreateChild(name)))?;
    let place = last_place(calls);
    calls.push(Call {
        act: Act::Release,
        on: name,
        place,
        actor: 0,
    })?;
    Ok(())
}

/// Puts a call after the calls for each group that is awaited.
fn complete<'a>(
    calls: &mut Vec<Call<'a>>,
    story: &Story<'a>,
    awaited: &[usize],
) -> Result<(), AllocError>
    ensures { OnOk result ((first : List Called) → IsEnded first calls.old.items
        → IsEnded first calls.new.items) }
{
    for one in awaited.iter().rev() {
        if story.is_group(*one) {
            calls.push(call_on(story, *one, Act::AllChildrenPresent))?;
        }
    }
    Ok(())
}

/// A call of this act on a node.
fn call_on<'a>(story: &Story<'a>, node: usize, act: Act<'a>) -> Call<'a>
    ensures { result.act ≡ act.entry }
{
    let place = match story.nodes.get(node) {
        Some(known) => place_of(story, known.made_by),
        None => 0,
    };
    Call {
        act,
        on: story.name(node),
        place,
        actor: 0,
    }
}

/// The place of the last name that calls make; the root's where they make none.
fn last_place(calls: &[Call<'_>]) -> usize {
    let mut place = 0usize;
    for call in calls {
        if call.act.name_made().is_some() {
            place = place.saturating_add(1);
        }
    }
    place
}

/// The place of the name that the call of a number makes; the root's where there is none.
pub(crate) fn place_of(story: &Story<'_>, number: Option<usize>) -> usize {
    let mut place = 0usize;
    for call in story.calls.iter().take(number.unwrap_or(0)) {
        if call.act.name_made().is_some() {
            place = place.saturating_add(1);
        }
    }
    place
}

/// Puts the decision that comes with these calls.
fn put_promised(
    items: &mut Items,
    scenario: &Scenario<'_>,
    calls: &[Call<'_>],
    path: &str,
    outcome: Outcome,
)
    requires { IsPromisedEnded scenario.now.platform.now scenario.now.calls.now calls.now
        path.now outcome }
{
    outcome.promise(items, 2)
}
