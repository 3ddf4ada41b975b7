//! The constraints of two participants exchanged, each of whom another decision asks otherwise.

ghost use Rattle.std.specs.Prelude.{map, IfOk, IfSome};
ghost use Rattle.script_reading.specs.Seen.{call_seen};
ghost use Rattle.constraint_changes.specs.Edited.{IsPromisedExchanged};

use crate::changes::Search;
use crate::lost::losses_by;
use crate::told::{Rank, ToldChange};
use crate::trials::{
    Exchange, Group, RestatedConstraints, chosen_with, copied, exchanged_calls, leaves_none,
    put_choice, put_exchanged, reached_by,
};
use constraint_edits::is_absurd;
use domain_reasons::choices_in;
use explanation_text::{Items, Label, ListBuilder, TextBuilder};
use script_story::{Milestone, Outcome, Scenario, Story, asked_in};
use serde_json::Value;
use std::alloc::{AllocError, Global};
use value_sources::NamedParticipant;

/// How many pairs of participants are tried.
const MOST: usize = 24;
/// How many exchanges are told.
const TOLD: usize = 2;

/// Another participant, with the index of its domain.
#[derive(Clone, Copy)]
struct Partner<'a> {
    participant: NamedParticipant<'a>,
    domain: usize,
}

/// Tries to exchange the constraints of a participant of the domain of an index and of another one,
/// where that can make a difference.
pub(crate) fn try_exchanges(
    search: &mut Search<'_, '_>,
    group: Group<'_, '_>,
    index: usize,
) -> Result<(), AllocError> {
    let story = group.story;
    let partners = partners_in(search.alloc, story)?;
    let mut pairs = 0usize;
    for participant in group.participants {
        for partner in &partners {
            if pairs >= MOST || search.count >= TOLD || search.is_done(group.scenario.effort) {
                return Ok(());
            }
            if can_matter(story, *participant, *partner, index) {
                pairs = pairs.saturating_add(1);
                try_exchange(search, group, *participant, *partner)?;
            }
        }
    }
    Ok(())
}

/// All participants, by domain.
fn partners_in<'a>(alloc: Global, story: &Story<'a>) -> Result<Vec<Partner<'a>>, AllocError> {
    let mut partners = ListBuilder::new(alloc);
    for domain in 0..story.domains.len() {
        for participant in &asked_in(alloc, story, domain, false)? {
            partners.add(Partner {
                participant: *participant,
                domain,
            });
        }
    }
    partners.done()
}

/// Whether a participant of the domain of an index can gain by another's constraints: in one domain
/// only where one of them lies below a group, and each two once; and never where one of them was
/// released or closed before the decision.
fn can_matter(
    story: &Story<'_>,
    participant: NamedParticipant<'_>,
    partner: Partner<'_>,
    index: usize,
) -> bool {
    let other = partner.participant;
    if is_gone(story, participant.node, index) || is_gone(story, other.node, index) {
        return false;
    }
    partner.domain != index
        || (participant.node < other.node
            && (is_below_group(story, participant.node) || is_below_group(story, other.node)))
}

/// Whether a node was released or closed before the decision on the domain of an index.
fn is_gone(story: &Story<'_>, node: usize, index: usize) -> bool {
    let Some(domain) = story.domains.get(index) else {
        return false;
    };
    match domain.ended {
        Some(number) => story
            .milestone_before(node, Milestone::End, number)
            .is_some(),
        None => false,
    }
}

/// Whether a node lies below a group.
fn is_below_group(story: &Story<'_>, node: usize) -> bool {
    let mut at = node;
    for _level in 0..story.nodes.len() {
        let Some(parent) = story.parent(at) else {
            return false;
        };
        if story.is_group(parent) {
            return true;
        }
        at = parent;
    }
    false
}

/// Tries to exchange the constraints of two participants, of which the other one's domain is to
/// have settings too, and tells it where it helps.
fn try_exchange(
    search: &mut Search<'_, '_>,
    group: Group<'_, '_>,
    participant: NamedParticipant<'_>,
    partner: Partner<'_>,
) -> Result<(), AllocError> {
    let alloc = search.alloc;
    let Some(exchange) = exchanged(alloc, group.story, participant, partner.participant)? else {
        return Ok(());
    };
    for other in &exchange.stated {
        group.scenario.effort.change(other.place, 1);
    }
    search.tried = search.tried.saturating_add(1);
    match outcome_of(alloc, search, group, partner, &exchange)? {
        Some(outcome) => write_exchange(
            search,
            group,
            participant,
            partner.participant,
            &exchange,
            outcome,
        ),
        None => Ok(()),
    }
}

/// What the group's domain becomes by an exchange, if it is chosen then, and the other
/// participant's domain too.
fn outcome_of(
    alloc: Global,
    search: &Search<'_, '_>,
    group: Group<'_, '_>,
    partner: Partner<'_>,
    exchange: &Exchange,
) -> Result<Option<Outcome>, AllocError>
    ensures { IfOk result (λ said. IfSome said (λ what. IsPromisedExchanged
        group.entry.scenario.now.platform.now (map call_seen group.entry.scenario.now.calls.now)
        exchange.now.one exchange.now.other group.entry.path.now what)) }
{
    if leaves_none(alloc, group, search.parties, &exchange.stated)? {
        return Ok(None);
    }
    let Some(own) = outcome(alloc, group.scenario, exchange, group.path)? else {
        return Ok(None);
    };
    let path = group.story.path(group.story.root_of(partner.domain));
    match outcome(alloc, group.scenario, exchange, path)? {
        Some(_) => Ok(Some(own)),
        None => Ok(None),
    }
}

/// Tells that two participants' constraints exchanged help, and the decision that comes so.
fn write_exchange(
    search: &mut Search<'_, '_>,
    group: Group<'_, '_>,
    participant: NamedParticipant<'_>,
    other: NamedParticipant<'_>,
    exchange: &Exchange,
    outcome: Outcome,
) -> Result<(), AllocError>
    requires { IsPromisedExchanged group.scenario.now.platform.now
        (map call_seen group.scenario.now.calls.now) exchange.now.one exchange.now.other
        group.path.now outcome }
{
    if is_absurd(reached_by(&outcome), search.is_sized) {
        search.absurd = search.absurd.saturating_add(1);
        return Ok(());
    }
    let alloc = search.alloc;
    let choice = choices_in(alloc, group.story, group.root, outcome.selection())?;
    let stated = copied(alloc, &exchange.stated)?;
    let losses = losses_by(alloc, group, &stated, 3)?;
    let rank = Rank::of(group, &outcome, false, losses.count());
    let mut items = Items::new(alloc);
    put_exchange(&mut items, group, participant, other)?;
    put_exchanged(&mut items, group, 3, exchange, outcome);
    put_choice(&mut items, 3, choice);
    search.add(ToldChange::of(stated, rank, items, losses))
}

fn put_exchange(
    items: &mut Items,
    group: Group<'_, '_>,
    participant: NamedParticipant<'_>,
    other: NamedParticipant<'_>,
) -> Result<(), AllocError> {
    let alloc = items.alloc();
    let who = group.who(alloc, &participant)?;
    let whom = group.who(alloc, &other)?;
    let mut words = TextBuilder::of_text(alloc, &who);
    words
        .put(" and ")
        .put_text(&whom)
        .put(": their constraints exchanged");
    items.say(2, Label::Alone(0), words);
    Ok(())
}

/// The exchange of two participants' constraints; `None` where they are the same.
fn exchanged(
    alloc: Global,
    story: &Story<'_>,
    participant: NamedParticipant<'_>,
    other: NamedParticipant<'_>,
) -> Result<Option<Exchange>, AllocError> {
    let (Some(mine), Some(its)) = (participant.stated, other.stated) else {
        return Ok(None);
    };
    let first = story.milestone(participant.node, Milestone::SetConstraints);
    let second = story.milestone(other.node, Milestone::SetConstraints);
    let (Some(first), Some(second)) = (first, second) else {
        return Ok(None);
    };
    if participant.asked.is_same(other.asked) {
        return Ok(None);
    }
    let (one, other) = (first.saturating_sub(1), second.saturating_sub(1));
    let mut stated = Vec::new(alloc);
    add_stated(&mut stated, one, its)?;
    add_stated(&mut stated, other, mine)?;
    Ok(Some(Exchange { one, other, stated }))
}

/// Adds that the call at a place states constraints.
fn add_stated(
    stated: &mut Vec<RestatedConstraints>,
    place: usize,
    value: &Value,
) -> Result<(), AllocError> {
    let value = value.clone()?;
    stated.push(RestatedConstraints { place, value })?;
    Ok(())
}

/// What the domain at a path becomes by an exchange, if it is chosen then.
fn outcome(
    alloc: Global,
    scenario: &Scenario<'_>,
    exchange: &Exchange,
    path: &str,
) -> Result<Option<Outcome>, AllocError>
    ensures { IfOk result (λ said. IfSome said (λ what. IsPromisedExchanged
        scenario.now.platform.now (map call_seen scenario.now.calls.now) exchange.now.one
        exchange.now.other path.now what)) }
{
    match exchanged_calls(alloc, scenario.calls, exchange.one, exchange.other)? {
        Some(calls) => chosen_with(alloc, scenario, &calls, path),
        None => Ok(None),
    }
}
