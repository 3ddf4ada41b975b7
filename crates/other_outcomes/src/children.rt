//! Later children of groups in the place of those that were chosen.

ghost use Rattle.std.specs.Prelude.{◌≡◌, map, IfOk, IfSome};
ghost use Rattle.other_outcomes.specs.Exchanged.{IsPromisedExchanged, on_other};

use crate::pending::place_of;
use domain_reasons::Losses;
use explanation_text::{Items, Label, ListBuilder, TextBuilder};
use script_reading::{Act, Call};
use script_story::{MadeCall, Outcome, Scenario, Story};
use serde_json::Value;
use std::alloc::{AllocError, Global};

/// How many children are tried.
const MOST: usize = 2;

/// A child that a group chose and a later one, with the numbers of the calls that create them.
#[derive(Clone, Copy)]
struct Siblings {
    chosen: usize,
    later: usize,
    first: usize,
    second: usize,
}

/// Tells of the children of groups of a chosen domain that come after the chosen one what would be
/// decided if they stood in its place, where they would be chosen then, and which other domains have
/// no settings then.
pub fn add_later_children(
    items: &mut Items,
    scenario: &Scenario<'_>,
    value: &Value,
    story: &Story<'_>,
    index: usize,
    path: &str,
) -> Result<(), AllocError> {
    let pairs = siblings_in(items.alloc(), story, index)?;
    for pair in pairs.iter().take(MOST) {
        try_exchanged(items, scenario, value, story, *pair, path)?;
    }
    Ok(())
}

/// Tells what would be decided if the later of two children stood in the other's place, if it would
/// be chosen then.
fn try_exchanged(
    items: &mut Items,
    scenario: &Scenario<'_>,
    value: &Value,
    story: &Story<'_>,
    pair: Siblings,
    path: &str,
) -> Result<(), AllocError> {
    let Some(outcome) = outcome_with(items.alloc(), scenario, story, pair, path)? else {
        return Ok(());
    };
    add_exchanged(items, story, pair);
    put_promised(items, scenario, path, outcome);
    add_choice(items, story, pair);
    add_lost_then(items, scenario, value, story, pair)
}

fn add_exchanged(items: &mut Items, story: &Story<'_>, pair: Siblings) {
    let mut words = TextBuilder::of_name(items.alloc(), story.called(pair.later));
    words.put(" would do too, but is created after ");
    words.name(story.called(pair.chosen));
    words.put(", and the first child that does is chosen; with their names exchanged in calls ");
    words.call(pair.first).put(" and ");
    words.call(pair.second).put(" it would be:");
    items.say(1, Label::Then, words)
}

/// Tells which child its group chooses then: the later one.
fn add_choice(items: &mut Items, story: &Story<'_>, pair: Siblings) {
    let mut words = TextBuilder::new(items.alloc());
    if let Some(group) = story.parent(pair.later) {
        words.name(story.called(group)).put(": ");
    }
    words.name(story.called(pair.later));
    items.say(2, Label::Choice, words)
}

/// The chosen child of each group of a domain that isn't attached, with each later child.
fn siblings_in(
    alloc: Global,
    story: &Story<'_>,
    index: usize,
) -> Result<Vec<Siblings>, AllocError> {
    let mut pairs = ListBuilder::new(alloc);
    let is_first = match story.domains.get(index) {
        Some(domain) => domain.host.is_none(),
        None => false,
    };
    for (group, known) in story.nodes.iter().enumerate() {
        if is_first && known.domain == index && story.is_group(group) && known.is_selected {
            add_siblings(&mut pairs, story, group)?;
        }
    }
    pairs.done()
}

fn add_siblings(
    pairs: &mut ListBuilder<Siblings>,
    story: &Story<'_>,
    group: usize,
) -> Result<(), AllocError> {
    let mut known = None;
    for later in &story.children(pairs.alloc(), group)? {
        let later = *later;
        let Some(second) = story.maker(later) else {
            continue;
        };
        if let Some((chosen, first)) = known {
            pairs.add(Siblings {
                chosen,
                later,
                first,
                second,
            });
        }
        if story.is_selected(later) {
            known = Some((later, second));
        }
    }
    Ok(())
}

/// What the domain at a path would be if two children's names were exchanged where they are
/// created, if the later one would be chosen then.
fn outcome_with(
    alloc: Global,
    scenario: &Scenario<'_>,
    story: &Story<'_>,
    pair: Siblings,
    path: &str,
) -> Result<Option<Outcome>, AllocError>
    ensures { IfOk result (λ said. IfSome said (λ what. IsPromisedExchanged
        scenario.now.platform.now scenario.now.calls.now path.now what)) }
{
    let a = place_of(story, Some(pair.first));
    let b = place_of(story, Some(pair.second));
    let between = story.calls.get(pair.first..pair.second).unwrap_or(&[]);
    if is_called(between, a) {
        return Ok(None);
    }
    match outcome_exchanged(alloc, scenario, a, b, path)? {
        Some(outcome) if is_now(story, pair, &outcome) => Ok(Some(outcome)),
        _ => Ok(None),
    }
}

/// What would become last of the domain at a path if each call on one of two names were made on the
/// other; `None` where nothing would, and where nothing more is to be tried.
fn outcome_exchanged(
    alloc: Global,
    scenario: &Scenario<'_>,
    a: usize,
    b: usize,
    path: &str,
) -> Result<Option<Outcome>, AllocError>
    ensures { IfOk result (λ said. IfSome said (λ what. IsPromisedExchanged
        scenario.now.platform.now scenario.now.calls.now path.now what)) }
{
    let calls = exchanged(alloc, scenario.calls, a, b)?;
    scenario.outcome(alloc, &calls, path)
}

/// Whether the same children are chosen as in the domain of two, if that is chosen.
fn is_now(story: &Story<'_>, pair: Siblings, outcome: &Outcome) -> bool {
    match story.domain_of(pair.chosen) {
        Some(domain) => are_same_children(outcome, &domain.told),
        None => false,
    }
}

/// Whether the same children are chosen in two domains: none in both where neither has groups.
fn are_same_children(one: &Outcome, other: &Outcome) -> bool {
    match (one.chosen(), other.chosen()) {
        (Some(one), Some(other)) => one.selection().choices() == other.selection().choices(),
        _ => false,
    }
}

/// Whether one of some calls is made on the name at a place.
fn is_called(calls: &[MadeCall<'_>], place: usize) -> bool {
    for call in calls {
        if call.place == place {
            return true;
        }
    }
    false
}

/// The calls with those on one of two names made on the other.
fn exchanged<'a>(
    alloc: Global,
    calls: &[Call<'a>],
    a: usize,
    b: usize,
) -> Result<Vec<Call<'a>>, AllocError>
    ensures { IfOk result (λ made. made.items ≡ map (on_other a b) calls.now) }
{
    let mut made = Vec::new(alloc);
    for call in calls {
        made.push(on_other(call, a, b))?;
    }
    Ok(made)
}

/// Tells which other domains have no settings with two children's names exchanged.
fn add_lost_then(
    items: &mut Items,
    scenario: &Scenario<'_>,
    value: &Value,
    story: &Story<'_>,
    pair: Siblings,
) -> Result<(), AllocError> {
    let calls = renamed(items.alloc(), scenario.calls, story, pair)?;
    let other = Scenario {
        platform: &*scenario.platform,
        calls: &calls,
        effort: &*scenario.effort,
    };
    Losses::by(items.alloc(), &other, value, story, 2)?.put_into(items);
    Ok(())
}

/// The calls with those on one of two children's names made on the other, each of which is made by
/// the other's call.
fn renamed<'a>(
    alloc: Global,
    calls: &[Call<'a>],
    story: &Story<'_>,
    pair: Siblings,
) -> Result<Vec<Call<'a>>, AllocError> {
    let a = place_of(story, Some(pair.first));
    let b = place_of(story, Some(pair.second));
    let mut made = ListBuilder::new(alloc);
    for (place, call) in calls.iter().enumerate() {
        let number = place.saturating_add(1);
        let other = if number == pair.first {
            pair.second
        } else if number == pair.second {
            pair.first
        } else {
            number
        };
        let act = act_of(calls, other).unwrap_or(call.act);
        made.add(Call {
            act,
            ..on_other(call, a, b)
        });
    }
    made.done()
}

/// What the call of a number does.
fn act_of<'a>(calls: &[Call<'a>], number: usize) -> Option<Act<'a>> {
    let call = calls.get(number.saturating_sub(1))?;
    Some(call.act)
}

/// The call, on the other of two names where it is on one of them.
fn on_other<'a>(call: &Call<'a>, a: usize, b: usize) -> Call<'a>
    ensures { result ≡ on_other a b call.now }
{
    let place = if call.place == a {
        b
    } else if call.place == b {
        a
    } else {
        call.place
    };
    Call { place, ..*call }
}

/// Puts the decision that comes once two names are exchanged.
fn put_promised(items: &mut Items, scenario: &Scenario<'_>, path: &str, outcome: Outcome)
    requires { IsPromisedExchanged scenario.now.platform.now scenario.now.calls.now path.now
        outcome }
{
    outcome.promise(items, 2)
}
