//! Two groups of which the one that stands first in the tree weighs more, and what the other order
//! chooses.

ghost use Rattle.std.specs.Prelude.{◌≡◌, map, IfOk, IfSome};
ghost use Rattle.other_outcomes.specs.Earlier.{IsEarlier, IsPromisedEarlier, in_turn};

use crate::ended_later::{FARTHEST, carried};
use crate::otherwise::Otherwise;
use crate::pending::place_of;
use explanation_text::{Items, Label, TextBuilder};
use script_reading::Call;
use script_story::{Outcome, Scenario, Story, story_of};
use serde_json::Value;
use std::alloc::{AllocError, Global};

/// How many pairs of groups are tried.
const MOST: usize = 4;

/// Two groups, neither below the other, the one first that stands first in the tree; the children of
/// the node above both that they are or hang below, and the numbers of the calls that make these.
#[derive(Clone, Copy)]
struct Groups {
    first: usize,
    second: usize,
    above_first: usize,
    above_second: usize,
    made: usize,
    later: usize,
}

/// Tells of the groups of a chosen domain which weighs more, since the other hangs below it, or since
/// it is made first or hangs below what is; and what the domain at a path would be if the other, or
/// what that hangs below, were made before it, where that chooses other children of the two. Says
/// with which calls that would be so.
pub fn add_groups_exchanged<'a>(
    items: &mut Items,
    scenario: &Scenario<'a>,
    value: &'a Value,
    story: &Story<'_>,
    index: usize,
    path: &str,
) -> Result<Option<Otherwise<'a>>, AllocError> {
    let alloc = items.alloc();
    let behind = groups_behind(alloc, story, index)?;
    let mut pairs = Vec::new(alloc);
    for group in &behind {
        put_outer(items, story, *group)?;
        add_pairs(&mut pairs, story, *group)?;
    }
    for pair in pairs.iter().take(MOST) {
        let told = list_exchanged(items, scenario, value, story, *pair, path)?;
        if told.is_some() {
            return Ok(told);
        }
    }
    Ok(None)
}

/// The selected groups of a domain that chose another than their first child.
fn groups_behind(alloc: Global, story: &Story<'_>, index: usize) -> Result<Vec<usize>, AllocError> {
    let mut groups = Vec::new(alloc);
    for (group, known) in story.nodes.iter().enumerate() {
        if known.domain == index && is_behind(alloc, story, group)? {
            groups.push(group)?;
        }
    }
    Ok(groups)
}

/// Whether a node is a selected group that chose another than its first child.
fn is_behind(alloc: Global, story: &Story<'_>, group: usize) -> Result<bool, AllocError> {
    if !story.is_group(group) || !story.is_selected(group) {
        return Ok(false);
    }
    match story.children(alloc, group)?.first() {
        Some(child) => Ok(!story.is_selected(*child)),
        None => Ok(false),
    }
}

/// Tells that a group weighs less than the one that it hangs below, where that could choose a later
/// child: `g weighs more than h, which hangs below its child a: a with a later child of h comes
/// before b`.
fn put_outer(items: &mut Items, story: &Story<'_>, inner: usize) -> Result<(), AllocError> {
    let alloc = items.alloc();
    let Some((outer, child)) = outer_of(story, inner) else {
        return Ok(());
    };
    let Some(later) = next_child(alloc, story, outer, child)? else {
        return Ok(());
    };
    let mut words = TextBuilder::of_name(alloc, story.called(outer));
    words.put(" weighs more than ").name(story.called(inner));
    words
        .put(", which hangs below its child ")
        .name(story.called(child));
    words
        .put(": ")
        .name(story.called(child))
        .put(" with a later child of ");
    words
        .name(story.called(inner))
        .put(" comes before ")
        .name(story.called(later));
    items.say(1, Label::Note, words);
    Ok(())
}

/// The child of a group that comes after one of them.
fn next_child(
    alloc: Global,
    story: &Story<'_>,
    group: usize,
    child: usize,
) -> Result<Option<usize>, AllocError> {
    let children = story.children(alloc, group)?;
    for (k, other) in children.iter().enumerate() {
        if *other == child {
            return Ok(children.get(k.saturating_add(1)).copied());
        }
    }
    Ok(None)
}

/// The nearest group of the same domain that a group hangs below, and its child above that.
fn outer_of(story: &Story<'_>, inner: usize) -> Option<(usize, usize)> {
    let domain = story.nodes.get(inner)?.domain;
    let mut below = inner;
    for _node in 0..story.nodes.len() {
        let parent = story.parent(below)?;
        if story.nodes.get(parent)?.domain != domain {
            return None;
        }
        if story.is_group(parent) {
            return Some((parent, below));
        }
        below = parent;
    }
    None
}

/// Adds a group with each selected one of its domain that stands before it in the tree, the one that
/// was made last first: so the least move that chooses others is told.
fn add_pairs(pairs: &mut Vec<Groups>, story: &Story<'_>, second: usize) -> Result<(), AllocError> {
    let ways = ways_to(*pairs.allocator(), story, second)?;
    for first in (0..story.nodes.len()).rev() {
        if story.is_group(first)
            && story.is_selected(first)
            && let Some(pair) = pair_of(story, &ways, first, second)
        {
            pairs.push(pair)?;
        }
    }
    Ok(())
}

/// For each node its child that a node is or hangs below, if it does.
fn ways_to(
    alloc: Global,
    story: &Story<'_>,
    node: usize,
) -> Result<Vec<Option<usize>>, AllocError> {
    let mut ways: Vec<Option<usize>> = vec![in alloc; None; story.nodes.len()]?;
    let mut below = node;
    for _node in 0..story.nodes.len() {
        let Some(parent) = story.parent(below) else {
            break;
        };
        if let Some(way) = ways.get_mut(parent) {
            *way = Some(below);
        }
        below = parent;
    }
    Ok(ways)
}

/// A group with another one, to which these ways lead, if it stands before that in the tree.
fn pair_of(
    story: &Story<'_>,
    ways: &[Option<usize>],
    first: usize,
    second: usize,
) -> Option<Groups> {
    let (above_first, above_second) = parted(story, ways, first)?;
    let made = story.maker(above_first)?;
    let later = story.maker(above_second)?;
    let is_own = story.nodes.get(first)?.domain == story.nodes.get(second)?.domain;
    if !is_own || !is_before(made, later) {
        return None;
    }
    Some(Groups {
        first,
        second,
        above_first,
        above_second,
        made,
        later,
    })
}

/// Where the way up from a node meets these ways: the children of one node, the first of which the
/// node is or hangs below. `None` where one of the two nodes hangs below the other.
fn parted(story: &Story<'_>, ways: &[Option<usize>], node: usize) -> Option<(usize, usize)> {
    let mut above = node;
    for _node in 0..story.nodes.len() {
        let parent = story.parent(above)?;
        match ways.get(parent) {
            Some(Some(way)) if *way == above => return None,
            Some(Some(way)) => return Some((above, *way)),
            _ => above = parent,
        }
    }
    None
}

/// Whether a call stands before another one, and not too far to be carried there.
fn is_before(made: usize, later: usize) -> bool {
    match later.checked_sub(made) {
        Some(between) => between > 0 && between <= FARTHEST,
        None => false,
    }
}

/// Tells what the domain at a path would be if the later of two groups were made before the other,
/// if other children of the two would be chosen then.
fn list_exchanged<'a>(
    items: &mut Items,
    scenario: &Scenario<'a>,
    value: &'a Value,
    story: &Story<'_>,
    pair: Groups,
    path: &str,
) -> Result<Option<Otherwise<'a>>, AllocError> {
    if scenario.effort.is_spent() {
        return Ok(None);
    }
    let alloc = items.alloc();
    let calls = earlier(alloc, scenario.calls, story, pair)?;
    if !chooses_others(alloc, scenario, value, story, &calls, pair)? {
        return Ok(None);
    }
    match outcome_earlier(alloc, scenario, story, pair, path)? {
        Some(outcome) if outcome.is_chosen() => {
            put_head(items, story, pair);
            put_promised(items, scenario, path, outcome);
            Ok(Some(Otherwise {
                calls,
                order: order_of(alloc, scenario.calls.len(), pair)?,
                is_chosen: true,
            }))
        }
        _ => Ok(None),
    }
}

/// The places of so many calls, from 0, in the order that they have once the later of two groups is
/// made before the other.
fn order_of(alloc: Global, count: usize, pair: Groups) -> Result<Vec<usize>, AllocError> {
    let from = pair.later.saturating_sub(1);
    let to = pair.made.saturating_sub(1);
    let mut order = Vec::new(alloc);
    for place in 0..count {
        if place == to {
            order.push(from)?;
        }
        if place != from {
            order.push(place)?;
        }
    }
    Ok(order)
}

/// What the domain at a path becomes once the later of two groups is made before the other.
fn outcome_earlier(
    alloc: Global,
    scenario: &Scenario<'_>,
    story: &Story<'_>,
    pair: Groups,
    path: &str,
) -> Result<Option<Outcome>, AllocError>
    ensures { IfOk result (λ said. IfSome said (λ what. IsPromisedEarlier
        scenario.now.platform.now scenario.now.calls.now path.now what)) }
{
    let calls = earlier(alloc, scenario.calls, story, pair)?;
    scenario.outcome(alloc, &calls, path)
}

/// The calls once the later of two groups is made before the other.
fn earlier<'a>(
    alloc: Global,
    calls: &[Call<'a>],
    story: &Story<'_>,
    pair: Groups,
) -> Result<Vec<Call<'a>>, AllocError>
    ensures { IfOk result (λ made. IsEarlier calls.now made.items) }
{
    let from = pair.later.saturating_sub(1);
    let moved = carried(alloc, calls, from, pair.made.saturating_sub(1))?;
    let first = place_of(story, Some(pair.made));
    let second = place_of(story, Some(pair.later));
    let made = all_in_turn(alloc, &moved, first, second)?;
    Ok(made)
}

/// The calls, on names at the places that they have once the second is made right before the first.
fn all_in_turn<'a>(
    alloc: Global,
    calls: &[Call<'a>],
    first: usize,
    second: usize,
) -> Result<Vec<Call<'a>>, AllocError>
    ensures { IfOk result (λ made. made.items ≡ map (in_turn first second) calls.now) }
{
    let mut made = Vec::new(alloc);
    for call in calls {
        made.push(in_turn(call, first, second))?;
    }
    Ok(made)
}

/// The call, on its name at the new place.
fn in_turn<'a>(call: &Call<'a>, first: usize, second: usize) -> Call<'a>
    ensures { result ≡ in_turn first second call.now }
{
    let place = if call.place == second {
        first
    } else if first <= call.place && call.place < second {
        call.place + 1
    } else {
        call.place
    };
    Call { place, ..*call }
}

/// Puts what is tried: `a, which g hangs below, is made before h, so g's choice weighs more; with call
/// 5, which makes h, before call 2 it would be:`.
fn put_head(items: &mut Items, story: &Story<'_>, pair: Groups) {
    let mut words = TextBuilder::new(items.alloc());
    let is_itself = pair.above_first == pair.first;
    put_above(&mut words, story, pair.above_first, pair.first);
    words.put(if is_itself {
        " is made before "
    } else {
        ", is made before "
    });
    put_above(&mut words, story, pair.above_second, pair.second);
    if is_itself {
        words.put(", so its");
    } else {
        words.put(", so ").name(story.called(pair.first)).put("'s");
    }
    words
        .put(" choice weighs more; with call ")
        .call(pair.later)
        .put(", which makes ");
    words
        .name(story.called(pair.above_second))
        .put(", before call ");
    words.call(pair.made).put(" it would be:");
    items.say(1, Label::Then, words)
}

/// Puts a node after a text, and that a group hangs below it, if it does.
fn put_above(text: &mut TextBuilder, story: &Story<'_>, above: usize, group: usize) {
    text.name(story.called(above));
    if above != group {
        text.put(", which ")
            .name(story.called(group))
            .put(" hangs below");
    }
}

/// Whether other children of two groups are chosen once these calls are made.
fn chooses_others<'a>(
    alloc: Global,
    scenario: &Scenario<'_>,
    value: &'a Value,
    story: &Story<'_>,
    calls: &[Call<'a>],
    pair: Groups,
) -> Result<bool, AllocError> {
    let told = scenario.tell(alloc, calls)?;
    if told.report.starved {
        return Err(AllocError);
    }
    let then = story_of(alloc, value, calls, &told)?;
    Ok(is_other(story, &then, pair.first) || is_other(story, &then, pair.second))
}

/// Whether the group at a node of a story chose another child in the other one.
fn is_other(story: &Story<'_>, then: &Story<'_>, group: usize) -> bool {
    let name = story.name(group);
    chosen_of(story, name) != chosen_of(then, name)
}

/// The name of the child that a group of a name chose; empty where there is none.
fn chosen_of<'a>(story: &Story<'a>, group: &str) -> &'a str {
    for known in &story.nodes {
        match known.parent {
            Some(parent) if known.is_selected && story.name(parent) == group => return known.name,
            _ => {}
        }
    }
    ""
}

/// Puts the decision that comes once a group is made earlier.
fn put_promised(items: &mut Items, scenario: &Scenario<'_>, path: &str, outcome: Outcome)
    requires { IsPromisedEarlier scenario.now.platform.now scenario.now.calls.now path.now
        outcome }
{
    outcome.promise(items, 2)
}
