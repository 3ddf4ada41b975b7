//! What the calls do once those that stand too early are moved.

ghost use Rattle.std.specs.Prelude.{◌≡◌, ◌<◌, List, length, IfOk, IfSome};
ghost use Rattle.script_reading.specs.declared.call.Call.{Call as Called};
ghost use Rattle.other_outcomes.specs.Moved.{IsMoved, IsPromisedMoved, moving};

use crate::otherwise::{Otherwise, reordered};
use explanation_text::{Items, Label, ListBuilder, TextBuilder};
use script_reading::{Call, ParseFault, read_script};
use script_story::{Became, Move, Outcome, Scenario, Story, moves_in};
use serde_json::Value;
use std::alloc::{AllocError, Global};

/// Tells which calls are to be moved since they stand too early, if some do, and gives the script in
/// which they are, if that isn't refused, with the places that its calls have now, from 0.
pub fn list_moved(
    items: &mut Items,
    value: &Value,
    story: &Story<'_>,
) -> Result<Option<(Value, Vec<usize>)>, AllocError> {
    let alloc = items.alloc();
    let moves = moves_in(alloc, story)?;
    if moves.is_empty() {
        return Ok(None);
    }
    let order = order_of(alloc, story.calls.len(), &moves)?;
    let other = reordered(alloc, value, &order)?;
    if !is_read(alloc, &other)? {
        return Ok(None);
    }
    add_moves(items, &moves, " the script has, its calls numbered anew:");
    Ok(Some((other, order)))
}

/// Whether a script isn't refused.
pub(crate) fn is_read(alloc: Global, value: &Value) -> Result<bool, AllocError> {
    match read_script(alloc, value) {
        Ok(_) => Ok(true),
        Err(ParseFault::NoMemory) => Err(AllocError),
        Err(ParseFault::Refused(_)) => Ok(false),
    }
}

/// Tells that calls are moved, with words after that.
fn add_moves(items: &mut Items, moves: &[Move], end: &str) {
    let mut words = TextBuilder::of(items.alloc(), "with ");
    put_moves(&mut words, moves);
    words.put(end);
    items.say(1, Label::Then, words)
}

/// Puts which calls are moved after a text: `call 5 moved after call 6`.
fn put_moves(text: &mut TextBuilder, moves: &[Move]) {
    for (k, one) in moves.iter().enumerate() {
        text.put(if k > 0 { " and call " } else { "call " });
        text.call(one.call).put(" moved after call ");
        text.call(one.after);
    }
}

/// The places of so many calls, from 0, in the order that they have once some are moved, from the
/// last on.
pub(crate) fn order_of(
    alloc: Global,
    count: usize,
    moves: &[Move],
) -> Result<Vec<usize>, AllocError> {
    let mut order: Vec<usize> = (0..count).collect(alloc)?;
    for one in moves.iter().rev() {
        let next = order_after(alloc, &order, *one)?;
        order = next;
    }
    Ok(order)
}

/// The places of calls after one move more.
fn order_after(alloc: Global, order: &[usize], one: Move) -> Result<Vec<usize>, AllocError> {
    let from = place_in(order, one.call);
    let to = place_in(order, one.after);
    let mut next = ListBuilder::new(alloc);
    for (k, place) in order.iter().enumerate() {
        if k != from {
            next.add(*place);
        }
        if k == to {
            next.add(one.call.saturating_sub(1));
        }
    }
    next.done()
}

/// Where the call of a number stands.
fn place_in(order: &[usize], number: usize) -> usize {
    let place = number.saturating_sub(1);
    for (k, other) in order.iter().enumerate() {
        if *other == place {
            return k;
        }
    }
    usize::MAX
}

/// The calls, of which that at a place stands right after that at a later one.
fn moved_once<'a>(
    alloc: Global,
    calls: &[Call<'a>],
    from: usize,
    to: usize,
) -> Result<Vec<Call<'a>>, AllocError>
    requires later { from < to }
    requires there { to < length calls.now }
    ensures { IfOk result (λ made. made.items ≡ moving calls.now from to) }
{
    let mut made = Vec::from_slice(alloc, &calls[..from])?;
    made.extend_from_slice(&calls[from + 1..to + 1])?;
    made.extend_from_slice(&calls[from..from + 1])?;
    made.extend_from_slice(&calls[to + 1..])?;
    Ok(made)
}

/// The calls after a move, if it is one to a later place.
pub(crate) fn step<'a>(
    alloc: Global,
    calls: &[Call<'a>],
    from: usize,
    to: usize,
) -> Result<Vec<Call<'a>>, AllocError>
    ensures { IfOk result (λ made.
        (first : List Called) → IsMoved first calls.now → IsMoved first made.items) }
{
    let is_later = from < to && to < calls.len();
    if is_later {
        let made = moved_once(alloc, calls, from, to)?;
        return Ok(made);
    }
    let same = Vec::from_slice(alloc, calls)?;
    Ok(same)
}

/// The calls once some are moved, from the last on.
pub(crate) fn moved<'a>(
    alloc: Global,
    calls: &[Call<'a>],
    moves: &[Move],
) -> Result<Vec<Call<'a>>, AllocError>
    ensures { IfOk result (λ made. IsMoved calls.now made.items) }
{
    let mut made = Vec::from_slice(alloc, calls)?;
    let mut order: Vec<usize> = (0..calls.len()).collect(alloc)?;
    for one in moves.iter().rev() {
        let from = place_in(&order, one.call);
        let to = place_in(&order, one.after);
        let next = step(alloc, &made, from, to)?;
        made = next;
        let after = order_after(alloc, &order, *one)?;
        order = after;
    }
    Ok(made)
}

/// What the domain at a path becomes once calls are moved.
pub(crate) fn outcome_moved(
    alloc: Global,
    scenario: &Scenario<'_>,
    moves: &[Move],
    path: &str,
) -> Result<Option<Outcome>, AllocError>
    ensures { IfOk result (λ said. IfSome said (λ what. IsPromisedMoved
        scenario.now.platform.now scenario.now.calls.now path.now what)) }
{
    let calls = moved(alloc, scenario.calls, moves)?;
    scenario.outcome(alloc, &calls, path)
}

/// Tells what the domain at a path would be once the calls that stand too early are moved, if that
/// is decided then and isn't now, and says with which calls.
pub fn add_then<'a>(
    items: &mut Items,
    scenario: &Scenario<'a>,
    story: &Story<'_>,
    path: &str,
) -> Result<Option<Otherwise<'a>>, AllocError> {
    let moves = moves_in(items.alloc(), story)?;
    if moves.is_empty() || make_name(story, &moves) {
        return Ok(None);
    }
    match outcome_moved(items.alloc(), scenario, &moves, path)? {
        Some(outcome) if outcome.became() != Became::Pending => {
            let then = with_moves(items.alloc(), scenario, &moves, &outcome)?;
            add_moves(items, &moves, ending_of(outcome.is_chosen()));
            put_promised(items, scenario, path, outcome);
            Ok(Some(then))
        }
        _ => Ok(None),
    }
}

/// What stands before the decision that comes once calls are moved, and before what is told of these
/// calls where nothing is chosen.
pub(crate) fn ending_of(is_chosen: bool) -> &'static str {
    if is_chosen {
        " it would be:"
    } else {
        " it would be, with the calls numbered anew:"
    }
}

/// The calls once some are moved, with which this becomes of a domain.
pub(crate) fn with_moves<'a>(
    alloc: Global,
    scenario: &Scenario<'a>,
    moves: &[Move],
    outcome: &Outcome,
) -> Result<Otherwise<'a>, AllocError> {
    Ok(Otherwise {
        calls: moved(alloc, scenario.calls, moves)?,
        order: order_of(alloc, scenario.calls.len(), moves)?,
        is_chosen: outcome.is_chosen(),
    })
}

/// Whether a call that is moved makes a name: then the names stand in another order.
fn make_name(story: &Story<'_>, moves: &[Move]) -> bool {
    for one in moves {
        match story.call(one.call) {
            Some(call) if call.act.name_made().is_some() => return true,
            _ => {}
        }
    }
    false
}

/// Puts the decision that comes once calls are moved.
pub(crate) fn put_promised(items: &mut Items, scenario: &Scenario<'_>, path: &str, outcome: Outcome)
    requires { IsPromisedMoved scenario.now.platform.now scenario.now.calls.now path.now
        outcome }
{
    outcome.promise(items, 2)
}
