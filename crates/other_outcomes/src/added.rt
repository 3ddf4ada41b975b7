//! What a script has once calls are made that it lacks: a bind before what wants a collection, and
//! all_children_present before a group is released.

use crate::moved::is_read;
use explanation_text::{Items, Label, ListBuilder, TextBuilder};
use script_reading::Act;
use script_story::{MadeCall, Milestone, Story};
use serde_json::{Map, Value, put};
use std::alloc::{AllocError, Global};
use sysmem_tree::{ActionKind, NodeKind, Refusal};

/// How many calls may be missing.
const MOST: usize = 4;

/// A call that is missing on a node.
#[derive(Clone, Copy)]
struct MissingCall {
    kind: ActionKind,
    node: usize,
    /// The call that it is to stand right before, by number.
    before: usize,
    /// The call that was refused since it is missing, by number.
    refused: usize,
}

/// Tells which calls are missing since later ones were refused, if some are, and gives the script in
/// which they are made, if that isn't refused, with the places that its calls have now, from 0, and
/// places beyond all for those that are added.
pub fn list_added(
    items: &mut Items,
    value: &Value,
    story: &Story<'_>,
) -> Result<Option<(Value, Vec<usize>)>, AllocError> {
    let alloc = items.alloc();
    let missing = missing_in(alloc, story)?;
    if missing.is_empty() || missing.len() > MOST {
        return Ok(None);
    }
    let order = order_with(alloc, story.calls.len(), &missing)?;
    let other = with_missing(alloc, value, story, &missing, &order)?;
    if !is_read(alloc, &other)? {
        return Ok(None);
    }
    add_missing(items, story, &missing);
    Ok(Some((other, order)))
}

/// The calls that are missing, one on each node.
fn missing_in(alloc: Global, story: &Story<'_>) -> Result<Vec<MissingCall>, AllocError> {
    let mut missing: Vec<MissingCall> = Vec::new(alloc);
    for (index, call) in story.calls.iter().enumerate() {
        let number = index.saturating_add(1);
        if let Some(one) = missing_for(alloc, story, call, number)?
            && !is_on_one(&missing, one.node)
        {
            missing.push(one)?;
        }
    }
    Ok(missing)
}

/// Whether one of some calls is missing on a node.
fn is_on_one(missing: &[MissingCall], node: usize) -> bool {
    missing.iter().any(|one| one.node == node)
}

/// The call without which the call of a number was refused, if no call of the script makes it.
fn missing_for(
    alloc: Global,
    story: &Story<'_>,
    call: &MadeCall<'_>,
    number: usize,
) -> Result<Option<MissingCall>, AllocError> {
    let Some(node) = call.node else {
        return Ok(None);
    };
    let is_refused = call.is_refused_as(Refusal::WrongState)
        || call.is_refused_as(Refusal::NoChildren);
    if !is_refused || is_over(story, node, number) {
        return Ok(None);
    }
    let (kind, before) = match (call.act, story.kind_before(node, usize::MAX)) {
        (Act::SetConstraints(_) | Act::AttachToken(_), NodeKind::Token) => {
            (ActionKind::Bind, first_early(story, node))
        }
        (Act::Release | Act::AllChildrenPresent, NodeKind::Group) => {
            let last = last_child(alloc, story, node)?;
            (
                ActionKind::AllChildrenPresent,
                last.saturating_add(1).max(number),
            )
        }
        _ => return Ok(None),
    };
    let is_other = is_called(story, node, kind) || is_for_others(story, node, before);
    if is_other || before > story.calls.len() {
        return Ok(None);
    }
    Ok(Some(MissingCall {
        kind,
        node,
        before,
        refused: number,
    }))
}

/// Whether a node is gone before the call of a number, or its domain has its end by then.
fn is_over(story: &Story<'_>, node: usize, number: usize) -> bool {
    let is_gone = story
        .milestone_before(node, Milestone::End, number)
        .is_some();
    let ended = match story.domain_of(node) {
        Some(domain) => domain.ended,
        None => None,
    };
    is_gone || matches!(ended, Some(ended) if ended < number)
}

/// The first call on a token that was refused since it wants a collection, by number.
fn first_early(story: &Story<'_>, node: usize) -> usize {
    for (index, call) in story.calls.iter().enumerate() {
        let wants_collection = matches!(
            call.act,
            Act::SetConstraints(_) | Act::AttachToken(_) | Act::Check | Act::Wait
        );
        if call.node == Some(node) && wants_collection && call.is_refused_as(Refusal::WrongState) {
            return index.saturating_add(1);
        }
    }
    usize::MAX
}

/// Whether a bind is missing before the call of a number, which attaches a token, since constraints
/// were refused on the same node for that too: then the call isn't meant for another node.
pub(crate) fn lacks_bind(
    alloc: Global,
    story: &Story<'_>,
    call: &MadeCall<'_>,
    number: usize,
) -> Result<bool, AllocError> {
    match missing_for(alloc, story, call, number)? {
        Some(one) if matches!(one.kind, ActionKind::Bind) => Ok(states_early(story, one.node)),
        _ => Ok(false),
    }
}

/// Whether constraints were refused on a node since that wants a collection.
fn states_early(story: &Story<'_>, node: usize) -> bool {
    for call in &story.calls {
        let states = matches!(call.act, Act::SetConstraints(_));
        if call.node == Some(node) && states && call.is_refused_as(Refusal::WrongState) {
            return true;
        }
    }
    false
}

/// The call that makes the last child of a group, by number; beyond all where it has none.
fn last_child(alloc: Global, story: &Story<'_>, group: usize) -> Result<usize, AllocError> {
    match story.children(alloc, group)?.last() {
        Some(child) => Ok(story.maker(*child).unwrap_or(usize::MAX)),
        None => Ok(usize::MAX),
    }
}

/// Whether such a call is made on a node anywhere, and be it refused, but for one on a group that has
/// no child yet.
fn is_called(story: &Story<'_>, node: usize, kind: ActionKind) -> bool {
    for call in &story.calls {
        let is_early = call.is_refused_as(Refusal::NoChildren);
        if call.node == Some(node) && kind_of(&call.act) == Some(kind) && !is_early {
            return true;
        }
    }
    false
}

/// Whether a node is a token that is there to make others: some later than the call of a number, or
/// some at all where it is released then. It isn't meant to be bound.
fn is_for_others(story: &Story<'_>, node: usize, number: usize) -> bool {
    let ends = story.milestone(node, Milestone::End).is_some();
    for (index, call) in story.calls.iter().enumerate() {
        let is_later = index.saturating_add(1) > number;
        let makes = matches!(call.act, Act::Duplicate(_) | Act::CreateGroup(_));
        if makes && call.node == Some(node) && call.is_accepted() && (ends || is_later) {
            return true;
        }
    }
    false
}

/// Which of the calls that may be missing this is, if it is one.
fn kind_of(act: &Act<'_>) -> Option<ActionKind> {
    match act {
        Act::Bind => Some(ActionKind::Bind),
        Act::AllChildrenPresent => Some(ActionKind::AllChildrenPresent),
        _ => None,
    }
}

/// The places of so many calls, from 0, with those that were missing among them: these have the
/// places behind all.
fn order_with(
    alloc: Global,
    count: usize,
    missing: &[MissingCall],
) -> Result<Vec<usize>, AllocError> {
    let mut order = ListBuilder::new(alloc);
    for index in 0..count {
        add_before(&mut order, count, missing, index.saturating_add(1));
        order.add(index);
    }
    order.done()
}

/// Adds the places of those of the missing calls that stand right before the call of a number.
fn add_before(
    order: &mut ListBuilder<usize>,
    count: usize,
    missing: &[MissingCall],
    number: usize,
) {
    for (k, one) in missing.iter().enumerate() {
        if one.before == number {
            order.add(count.saturating_add(k));
        }
    }
}

/// The script with calls that were missing, in this order.
fn with_missing(
    alloc: Global,
    value: &Value,
    story: &Story<'_>,
    missing: &[MissingCall],
    order: &[usize],
) -> Result<Value, AllocError> {
    let mut copy = value.clone()?;
    if let Some(Value::Array(calls)) = copy.get_mut("calls") {
        let list = all_made(alloc, calls, story, missing, order)?;
        *calls = list;
    }
    Ok(copy)
}

/// Calls in this order, with those among them that were missing.
fn all_made(
    alloc: Global,
    calls: &[Value],
    story: &Story<'_>,
    missing: &[MissingCall],
    order: &[usize],
) -> Result<Vec<Value>, AllocError> {
    let mut list = ListBuilder::new(alloc);
    for place in order {
        if let Some(call) = calls.get(*place) {
            list.add(call.clone()?);
            continue;
        }
        let behind = (*place).saturating_sub(calls.len());
        if let Some(one) = missing.get(behind) {
            let made = made_of(alloc, calls, story, *one)?;
            list.add(made);
        }
    }
    list.done()
}

/// A missing call as JSON, by the actor that the refused one names, if it names one.
fn made_of(
    alloc: Global,
    calls: &[Value],
    story: &Story<'_>,
    one: MissingCall,
) -> Result<Value, AllocError> {
    let mut members = Map::new(alloc);
    let kind = Value::try_from_str(alloc, one.kind.name())?;
    put(&mut members, alloc, "call", kind)?;
    let name = Value::try_from_str(alloc, story.name(one.node))?;
    put(&mut members, alloc, "on", name)?;
    let refused = calls.get(one.refused.saturating_sub(1));
    if let Some(actor) = refused.and_then(actor_in) {
        put(&mut members, alloc, "actor", actor.clone()?)?;
    }
    Ok(Value::Object(members))
}

/// The actor that a call names.
fn actor_in(call: &Value) -> Option<&Value> {
    call.get("actor")
}

/// Tells which calls are made before which.
fn add_missing(items: &mut Items, story: &Story<'_>, missing: &[MissingCall]) {
    let mut words = TextBuilder::of(items.alloc(), "with ");
    for (k, one) in missing.iter().enumerate() {
        words.put(if k > 0 { " and " } else { "" });
        words.put(one.kind.name()).put(" ");
        words.name(story.called(one.node));
        words.put(" before call ").call(one.before);
    }
    words.put(" the script has, its calls numbered anew:");
    items.say(1, Label::Then, words)
}
