//! What would be decided of a domain that failed, had the call that closed one of its nodes released
//! it.

ghost use Rattle.std.specs.Prelude.{◌≡◌, IfOk};
ghost use Rattle.other_outcomes.specs.Released.{IsPromisedReleased, releasing};

use crate::otherwise::Otherwise;
use explanation_text::{Items, Label, TextBuilder};
use script_reading::{Act, Call};
use script_story::{Outcome, Scenario, Story};
use std::alloc::{AllocError, Global};

/// Tells what the domain of an index, which failed by a close, would be with a release in its place,
/// and says with which calls.
pub fn add_released<'a>(
    items: &mut Items,
    scenario: &Scenario<'a>,
    story: &Story<'_>,
    index: usize,
    path: &str,
) -> Result<Option<Otherwise<'a>>, AllocError> {
    let Some(number) = closing(story, index) else {
        return Ok(None);
    };
    let alloc = items.alloc();
    let place = number.saturating_sub(1);
    let calls = released(alloc, scenario.calls, place)?;
    let Some(outcome) = scenario.outcome(alloc, &calls, path)? else {
        return Ok(None);
    };
    let mut words = TextBuilder::of(alloc, "with release in the place of close in call ");
    words.call(number).put(" it would be:");
    items.say(1, Label::Then, words);
    let is_chosen = outcome.is_chosen();
    put_promised(items, scenario, place, path, outcome);
    Ok(Some(Otherwise {
        calls,
        order: Vec::new(alloc),
        is_chosen,
    }))
}

/// The number of the call after which a domain failed, if it closes one of its nodes.
fn closing(story: &Story<'_>, index: usize) -> Option<usize> {
    let domain = story.domains.get(index)?;
    let number = domain.ended?;
    let call = story.call(number)?;
    let closed = story.domain_of(call.node?)?;
    if matches!(call.act, Act::Close) && closed.root == domain.root {
        Some(number)
    } else {
        None
    }
}

/// The calls, of which that at a place, from 0, releases.
fn released<'a>(
    alloc: Global,
    calls: &[Call<'a>],
    place: usize,
) -> Result<Vec<Call<'a>>, AllocError>
    ensures { IfOk result (λ made. made.items ≡ releasing calls.now place) }
{
    let mut made = Vec::from_slice(alloc, calls)?;
    if place >= calls.len() {
        return Ok(made);
    }
    made[place].act = Act::Release;
    Ok(made)
}

/// Puts the decision that comes with a release at a place.
fn put_promised(
    items: &mut Items,
    scenario: &Scenario<'_>,
    place: usize,
    path: &str,
    outcome: Outcome,
)
    requires { IsPromisedReleased scenario.now.platform.now scenario.now.calls.now place
        path.now outcome }
{
    outcome.promise(items, 2)
}
