//! What would be decided of an empty domain if a participant that uses the buffers for nothing stated
//! no constraints.

ghost use Rattle.std.specs.Prelude.{◌≡◌, IfOk};
ghost use Rattle.other_outcomes.specs.Unstated.{IsPromisedUnstated, unstating};

use explanation_text::{Items, Label, TextBuilder};
use script_reading::{Act, Call};
use script_story::{Milestone, Outcome, Scenario, Story, asked_in};
use std::alloc::{AllocError, Global};
use sysmem_counts::Usage;
use value_sources::NamedParticipant;

/// Tells with which participant of the domain of an index, which is empty, it would be chosen if that
/// stated no constraints: the first that uses the buffers for nothing, asks for none, and yet states
/// some.
pub fn add_onlooker(
    items: &mut Items,
    scenario: &Scenario<'_>,
    story: &Story<'_>,
    index: usize,
    path: &str,
) -> Result<(), AllocError> {
    let alloc = items.alloc();
    for participant in &asked_in(alloc, story, index, false)? {
        if is_onlooker(participant) && !scenario.effort.is_spent() {
            if add_unstated(items, scenario, story, participant, path)? {
                break;
            }
        }
    }
    Ok(())
}

/// Whether a participant uses the buffers for nothing, and asks for none.
fn is_onlooker(participant: &NamedParticipant<'_>) -> bool {
    let counts = participant.asked.counts();
    participant.asked.usage() == Usage::NONE
        && counts.min_buffer_count_for_camping == 0
        && counts.min_buffer_count == 0
}

/// Tells what the domain at a path would be if a participant stated no constraints, if it would be
/// chosen; and whether it would.
fn add_unstated(
    items: &mut Items,
    scenario: &Scenario<'_>,
    story: &Story<'_>,
    participant: &NamedParticipant<'_>,
    path: &str,
) -> Result<bool, AllocError> {
    let Some(number) = story.milestone(participant.node, Milestone::SetConstraints) else {
        return Ok(false);
    };
    let alloc = items.alloc();
    let place = number.saturating_sub(1);
    let calls = unstated(alloc, scenario.calls, place)?;
    let outcome = match scenario.outcome(alloc, &calls, path)? {
        Some(outcome) if outcome.is_chosen() => outcome,
        _ => return Ok(false),
    };
    let mut words = TextBuilder::of_name(alloc, participant.called());
    words
        .put(
            " uses the buffers for nothing (usage none), but states constraints; without them in call ",
        )
        .call(number)
        .put(" it would be:");
    items.say(1, Label::Then, words);
    put_promised(items, scenario, place, path, outcome);
    Ok(true)
}

/// The calls, of which that at a place, from 0, sets constraints and states none.
fn unstated<'a>(
    alloc: Global,
    calls: &[Call<'a>],
    place: usize,
) -> Result<Vec<Call<'a>>, AllocError>
    ensures { IfOk result (λ made. made.items ≡ unstating calls.now place) }
{
    let mut made = Vec::from_slice(alloc, calls)?;
    if place >= calls.len() {
        return Ok(made);
    }
    made[place].act = Act::SetConstraints(None);
    Ok(made)
}

/// Puts the decision that comes without constraints at a place.
fn put_promised(
    items: &mut Items,
    scenario: &Scenario<'_>,
    place: usize,
    path: &str,
    outcome: Outcome,
)
    requires { IsPromisedUnstated scenario.now.platform.now scenario.now.calls.now place
        path.now outcome }
{
    outcome.promise(items, 2)
}
