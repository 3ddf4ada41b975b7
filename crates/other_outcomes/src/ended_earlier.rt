//! Room that an attached domain has since others were released or closed before.

ghost use Rattle.std.specs.Prelude.{◌≡◌, ◌<◌, List, length, IfOk, IfSome};
ghost use Rattle.script_reading.specs.declared.call.Call.{Call as Called};
ghost use Rattle.other_outcomes.specs.Shorter.{IsPromisedShorter, IsShorter, leaving_out};

use crate::ended_later::{End, but_those, ended_by, ending, holding, put_calls, put_names};
use crate::moved::{ending_of, outcome_moved, put_promised, with_moves};
use crate::otherwise::Otherwise;
use domain_reasons::{accepted_before, count_above, gone_before};
use explanation_text::{Items, Label, TextBuilder};
use script_reading::Call;
use script_story::{Became, Move, Outcome, Scenario, Story, asked_in};
use std::alloc::{AllocError, Global};
use std::slice::from_ref;
use value_sources::{NamedParticipant, needed};

/// How many who ended before are looked at.
const MOST: usize = 8;

/// Those without whose end so many buffers wouldn't do.
#[derive(Drop)]
struct NeededEnds {
    ends: Vec<End>,
    /// Whether each of them is needed by itself; else they are only together.
    are_each: bool,
}

/// Since whose ends a late domain has room.
#[derive(Clone, Copy)]
struct Since<'b> {
    ends: &'b [End],
    /// Those that come late in what is tried: all of them, or the first of several that are all
    /// needed.
    late: &'b [End],
    /// Those beside which one of them is enough, where it isn't by itself.
    beside: &'b [End],
}

/// An attached domain that is chosen.
#[derive(Clone, Copy)]
struct LateDomain<'b> {
    path: &'b str,
    /// The call after which it was decided, by number.
    decided: usize,
    /// The numbers of the children that its groups chose.
    chosen: &'b [u8],
}

/// Tells who was released or closed before an attached domain was chosen that has room, or room with
/// the children that its groups chose, only since then, and what the domain at a path would be if
/// that came after it: of the first of them without whom it has no room, else of the fewest of whom
/// one has to be gone. Says with which calls that would be so.
pub fn add_ended_earlier<'a>(
    items: &mut Items,
    scenario: &Scenario<'a>,
    story: &Story<'_>,
    index: usize,
    path: &str,
) -> Result<Option<Otherwise<'a>>, AllocError> {
    let alloc = items.alloc();
    let (Some(domain), Some(count)) = (story.domains.get(index), count_above(story, index)) else {
        return Ok(None);
    };
    let Some(decided) = domain.ended else {
        return Ok(None);
    };
    let late = LateDomain {
        path,
        decided,
        chosen: domain.told.selection(),
    };
    let needed = needed_ends(alloc, story, index, decided, u64::from(count))?;
    if !needed.are_each {
        return add_fewest(items, scenario, story, &needed.ends, late);
    }
    let ends = roomless_without(alloc, scenario, &needed.ends, late)?;
    let Some(first) = ends.first() else {
        return Ok(None);
    };
    let since = Since {
        ends: &ends,
        late: from_ref(first),
        beside: &[],
    };
    add_after(items, scenario, story, since, late)
}

/// Tells of the fewest of some ends that leave a late domain without room if all of them came after
/// it was decided: one of them is enough, where it isn't by itself beside the others.
fn add_fewest<'a>(
    items: &mut Items,
    scenario: &Scenario<'a>,
    story: &Story<'_>,
    ends: &[End],
    late: LateDomain<'_>,
) -> Result<Option<Otherwise<'a>>, AllocError> {
    let alloc = items.alloc();
    let fewest = fewest_roomless(alloc, scenario, ends, late)?;
    let others = but_those(alloc, ends, &fewest)?;
    let is_enough = others.is_empty() || is_each_enough(alloc, scenario, ends, &fewest, late)?;
    let since = Since {
        ends: &fewest,
        late: &fewest,
        beside: if is_enough { &[] } else { others.as_slice() },
    };
    add_after(items, scenario, story, since, late)
}

/// Those without whose end so many buffers wouldn't do for an attached domain: each by itself, or
/// all who held some if none is; none if they would do.
fn needed_ends(
    alloc: Global,
    story: &Story<'_>,
    index: usize,
    decided: usize,
    count: u64,
) -> Result<NeededEnds, AllocError> {
    let mut all = accepted_before(alloc, story, index)?;
    all.extend_from_slice(&asked_in(alloc, story, index, true)?)?;
    let gone = holding(alloc, &gone_before(alloc, story, index)?)?;
    let alone = needed_alone(alloc, &all, &gone, count)?;
    let are_each = !alone.is_empty();
    let ends = if are_each {
        ends_of(alloc, story, &alone, decided)?
    } else if gone.len() <= MOST && needs_with(alloc, &all, &gone)? > count {
        ends_of(alloc, story, &gone, decided)?
    } else {
        Vec::new(alloc)
    };
    Ok(NeededEnds { ends, are_each })
}

/// Those of some who are gone with each of whom alone participants need more than so many buffers.
fn needed_alone<'a>(
    alloc: Global,
    participants: &[NamedParticipant<'a>],
    gone: &[NamedParticipant<'a>],
    count: u64,
) -> Result<Vec<NamedParticipant<'a>>, AllocError> {
    let mut alone = Vec::new(alloc);
    for one in gone {
        if alone.len() < MOST && needs_with(alloc, participants, from_ref(one))? > count {
            alone.push(*one)?;
        }
    }
    Ok(alone)
}

/// How many buffers participants need with some more.
fn needs_with<'a>(
    alloc: Global,
    participants: &[NamedParticipant<'a>],
    more: &[NamedParticipant<'a>],
) -> Result<u64, AllocError> {
    let mut all = Vec::from_slice(alloc, participants)?;
    all.extend_from_slice(more)?;
    Ok(needed(&all))
}

/// The calls before that of a number that ended participants, in their order.
fn ends_of(
    alloc: Global,
    story: &Story<'_>,
    participants: &[NamedParticipant<'_>],
    decided: usize,
) -> Result<Vec<End>, AllocError> {
    let mut ends = Vec::new(alloc);
    for call in 1..decided {
        if let Some(node) = ended_by(story, participants, call) {
            ends.push(End { node, call })?;
        }
    }
    Ok(ends)
}

/// Those of some ends of which each alone, if it came after a late domain was decided, would leave
/// what it chose without room.
fn roomless_without(
    alloc: Global,
    scenario: &Scenario<'_>,
    ends: &[End],
    late: LateDomain<'_>,
) -> Result<Vec<End>, AllocError> {
    let mut roomless = Vec::new(alloc);
    for end in ends {
        if is_roomless_after(alloc, scenario, from_ref(end), late)? {
            roomless.push(*end)?;
        }
    }
    Ok(roomless)
}

/// Some ends without those that needn't come after a late domain was decided to leave it without
/// room, the last of them first.
fn fewest_roomless(
    alloc: Global,
    scenario: &Scenario<'_>,
    ends: &[End],
    late: LateDomain<'_>,
) -> Result<Vec<End>, AllocError> {
    let mut fewest = Vec::from_slice(alloc, ends)?;
    for end in ends.iter().rev() {
        let others = but_those(alloc, &fewest, from_ref(end))?;
        if is_roomless_after(alloc, scenario, &others, late)? {
            fewest = others;
        }
    }
    Ok(fewest)
}

/// Whether each of the fewest of some ends leaves a late domain room, if all the others of these
/// came after it was decided.
fn is_each_enough(
    alloc: Global,
    scenario: &Scenario<'_>,
    ends: &[End],
    fewest: &[End],
    late: LateDomain<'_>,
) -> Result<bool, AllocError> {
    for end in fewest {
        let others = but_those(alloc, ends, from_ref(end))?;
        if is_roomless_after(alloc, scenario, &others, late)? {
            return Ok(false);
        }
    }
    Ok(true)
}

/// Whether some ends, if they came after a late domain was decided, would leave what it chose without
/// room.
fn is_roomless_after(
    alloc: Global,
    scenario: &Scenario<'_>,
    ends: &[End],
    late: LateDomain<'_>,
) -> Result<bool, AllocError> {
    let moves = moves_of(alloc, ends, late.decided)?;
    match outcome_moved(alloc, scenario, &moves, late.path)? {
        Some(outcome) => Ok(is_roomless(&outcome, late)),
        None => Ok(false),
    }
}

/// Whether a late domain is decided, and nothing is chosen, or other children are than were.
fn is_roomless(outcome: &Outcome, late: LateDomain<'_>) -> bool {
    match outcome.became() {
        Became::Pending => false,
        Became::Chosen => outcome.selection() != late.chosen,
        _ => true,
    }
}

/// Tells since whose ends a late domain has room, and what it would be if some of them came after it
/// was decided, if nothing would be chosen then, or other children, and says with which calls.
fn add_after<'a>(
    items: &mut Items,
    scenario: &Scenario<'a>,
    story: &Story<'_>,
    since: Since<'_>,
    late: LateDomain<'_>,
) -> Result<Option<Otherwise<'a>>, AllocError> {
    if since.late.is_empty() {
        return Ok(None);
    }
    let alloc = items.alloc();
    let moves = moves_of(alloc, since.late, late.decided)?;
    match outcome_moved(alloc, scenario, &moves, late.path)? {
        Some(outcome) if is_roomless(&outcome, late) => {
            let then = with_moves(alloc, scenario, &moves, &outcome)?;
            let never = is_so_without(alloc, scenario, since.late, late.path, &outcome)?;
            let mut text = since_text(alloc, story, since.ends, !late.chosen.is_empty());
            put_needed(&mut text, since);
            put_tried(&mut text, since.late, late.decided, never);
            items.say(1, Label::Then, text);
            put_promised(items, scenario, late.path, outcome);
            Ok(Some(then))
        }
        _ => Ok(None),
    }
}

/// Each of those calls after that of a number.
fn moves_of(alloc: Global, ends: &[End], decided: usize) -> Result<Vec<Move>, AllocError> {
    let mut moves = Vec::new(alloc);
    for end in ends {
        moves.push(Move {
            call: end.call,
            after: decided,
        })?;
    }
    Ok(moves)
}

/// Whether the report says the same of the domain at a path without the calls that end those.
fn is_so_without(
    alloc: Global,
    scenario: &Scenario<'_>,
    ends: &[End],
    path: &str,
    outcome: &Outcome,
) -> Result<bool, AllocError> {
    match outcome_without(alloc, scenario, ends, path)? {
        Some(other) => Ok(other.said.as_str() == outcome.said.as_str()),
        None => Ok(false),
    }
}

/// Since when it has room, or room with the children of groups: `it has room only since call 11
/// released first`.
fn since_text(alloc: Global, story: &Story<'_>, ends: &[End], has_groups: bool) -> TextBuilder {
    let mut text = TextBuilder::of(alloc, "it has room");
    text.put(if has_groups {
        " with these children only since "
    } else {
        " only since "
    });
    put_calls(&mut text, ends);
    text.put(" ").put(ending(story, ends)).put(" ");
    put_names(&mut text, story, ends);
    text
}

/// Puts how many of several ends it needs after a text: `, of which one is enough beside call 12`.
fn put_needed(text: &mut TextBuilder, since: Since<'_>) {
    if since.late.len() < since.ends.len() {
        text.put(", all of which it needs");
    } else if since.ends.len() > 1 {
        text.put(", of which one is enough");
        if !since.beside.is_empty() {
            text.put(" beside ");
            put_calls(text, since.beside);
        }
    }
}

/// Puts what is tried after a text: `; with call 11 after call 12, or left out, it would be, with
/// the calls numbered anew:`.
fn put_tried(text: &mut TextBuilder, late: &[End], decided: usize, never: bool) {
    text.put("; with ");
    put_calls(text, late);
    text.put(" after call ").call(decided);
    text.put(if never { ", or left out," } else { "" });
    text.put(ending_of(false));
}

/// What the domain at a path becomes without the calls that end those.
fn outcome_without(
    alloc: Global,
    scenario: &Scenario<'_>,
    ends: &[End],
    path: &str,
) -> Result<Option<Outcome>, AllocError>
    ensures { IfOk result (λ said. IfSome said (λ what. IsPromisedShorter
        scenario.now.platform.now scenario.now.calls.now path.now what)) }
{
    let calls = without(alloc, scenario.calls, ends)?;
    scenario.outcome(alloc, &calls, path)
}

/// The calls without those that end some.
fn without<'a>(alloc: Global, calls: &[Call<'a>], ends: &[End]) -> Result<Vec<Call<'a>>, AllocError>
    ensures { IfOk result (λ made. IsShorter calls.now made.items) }
{
    let mut made = Vec::from_slice(alloc, calls)?;
    for end in ends.iter().rev() {
        let next = fewer(alloc, &made, end.call.saturating_sub(1))?;
        made = next;
    }
    Ok(made)
}

/// The calls without the one at a place, from 0, if there is one.
fn fewer<'a>(alloc: Global, calls: &[Call<'a>], place: usize) -> Result<Vec<Call<'a>>, AllocError>
    ensures { IfOk result (λ made.
        (first : List Called) → IsShorter first calls.now → IsShorter first made.items) }
{
    let is_there = place < calls.len();
    if is_there {
        let made = all_but(alloc, calls, place)?;
        return Ok(made);
    }
    let same = Vec::from_slice(alloc, calls)?;
    Ok(same)
}

/// The calls without the one at a place.
fn all_but<'a>(alloc: Global, calls: &[Call<'a>], place: usize) -> Result<Vec<Call<'a>>, AllocError>
    requires { place < length calls.now }
    ensures { IfOk result (λ made. made.items ≡ leaving_out calls.now place) }
{
    let mut made = Vec::from_slice(alloc, &calls[..place])?;
    made.extend_from_slice(&calls[place + 1..])?;
    Ok(made)
}
