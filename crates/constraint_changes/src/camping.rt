//! Counts of buffers for camping that may be meant of all buffers.

ghost use Rattle.std.specs.Prelude.{map};
ghost use Rattle.script_reading.specs.Seen.{call_seen};
ghost use Rattle.constraint_changes.specs.Edited.{IsPromised, edits_of};

use crate::asked_before::add_bounds_before;
use crate::changes::Search;
use crate::lost::losses_by;
use crate::together::CombinedChange;
use crate::told::{Rank, ToldChange};
use crate::trials::{
    EditedCall, Group, Promise, RestatedConstraints, Trial, TrialResult, are_sized, put_choice,
    put_promise, reached_by,
};
use constraint_edits::{Edit, edited, is_absurd};
use domain_reasons::choices_in;
use explanation_text::{Items, Label, TextBuilder};
use script_story::Milestone;
use serde_json::Value;
use std::alloc::{AllocError, Global};
use sysmem_counts::Field;
use value_sources::NamedParticipant;

const CAMPING: Edit = Edit::NoCount(Field::MinBufferCountForCamping);

/// Tries a participant's count for camping as the least count of all buffers, where it states none
/// of these, and others need fewer once its own is left out, by which this was found, or an attached
/// domain has just so many; tells it where so many are decided then.
pub(crate) fn try_whole_count(
    search: &mut Search<'_, '_>,
    group: Group<'_, '_>,
    trial: Trial<'_, '_>,
    participant: &NamedParticipant<'_>,
    edit: Edit,
    found: &TrialResult,
) -> Result<(), AllocError> {
    let counts = participant.asked.counts();
    let count = counts.min_buffer_count_for_camping;
    let decided = reached_by(&found.outcome).count;
    let are_given = count > 1 && decided == count && is_attached(group);
    let is_enough = decided < count || are_given;
    if edit != CAMPING || counts.min_buffer_count > 0 || !is_enough {
        return Ok(());
    }
    let Some(value) = participant.stated else {
        return Ok(());
    };
    search.tried = search.tried.saturating_add(1);
    group.scenario.effort.change(trial.place, 2);
    let mut edits = Vec::new(search.alloc);
    add_edit(&mut edits, trial.place, value, count)?;
    let joint = CombinedChange {
        group,
        parties: search.parties,
    };
    match joint.promise_of(search.alloc, edits)? {
        Some(promise) => tell_whole_count(search, group, participant, count, promise),
        None => Ok(()),
    }
}

/// Whether the domain of a group was attached: its buffers were decided before.
fn is_attached(group: Group<'_, '_>) -> bool {
    for domain in &group.story.domains {
        if domain.root == group.root && domain.host.is_some() {
            return true;
        }
    }
    false
}

/// Adds the call at a place, where its record asks for so many buffers and for none for camping;
/// nothing where it does so already.
fn add_edit(
    edits: &mut Vec<EditedCall>,
    place: usize,
    value: &Value,
    count: u32,
) -> Result<(), AllocError> {
    let alloc = *edits.allocator();
    let mut changes = Vec::new(alloc);
    let Some(without) = edited(alloc, value, CAMPING, &[])? else {
        return Ok(());
    };
    changes.push(without.change)?;
    let left = without.into_value();
    if let Some(whole) = edited(alloc, &left, Edit::LeastCount(count), &[])? {
        changes.push(whole.change)?;
        let value = whole.into_value();
        edits.push(EditedCall {
            place,
            changes,
            value,
        })?;
    }
    Ok(())
}

/// Tells that a participant's count for camping helps as the count of all buffers, if so many are
/// decided then.
fn tell_whole_count(
    search: &mut Search<'_, '_>,
    group: Group<'_, '_>,
    participant: &NamedParticipant<'_>,
    count: u32,
    promise: Promise,
) -> Result<(), AllocError>
    requires { IsPromised group.scenario.now.platform.now
        (map call_seen group.scenario.now.calls.now) (edits_of promise.edits.items)
        group.path.now promise.outcome }
{
    let alloc = search.alloc;
    let reached = reached_by(&promise.outcome);
    if reached.count != count || is_absurd(reached, search.is_sized) {
        return Ok(());
    }
    let stated = promise.stated(alloc)?;
    let Some(first) = stated.first() else {
        return Ok(());
    };
    let who = group.who_changes(alloc, participant, CAMPING, &first.value)?;
    let choice = choices_in(alloc, group.story, group.root, promise.outcome.selection())?;
    let losses = losses_by(alloc, group, &stated, 3)?;
    let rank = Rank::of(group, &promise.outcome, true, losses.count());
    let mut words = TextBuilder::of_text(alloc, &who);
    put_whole_count(&mut words, count);
    let mut items = Items::new(alloc);
    items.say(2, Label::Alone(0), words);
    put_promise(&mut items, group, 3, promise);
    put_choice(&mut items, 3, choice);
    search.add(ToldChange::of(stated, rank, items, losses))
}

/// Puts that a count for camping becomes the least one of all buffers after who states it.
fn put_whole_count(text: &mut TextBuilder, count: u32) {
    text.put(": ")
        .field(Field::MinBufferCountForCamping)
        .put(" ")
        .put_number(count)
        .put(" becomes ")
        .field(Field::MinBufferCount)
        .put(" ")
        .put_number(count)
        .put(" (a count of all buffers)");
}

/// Tells that the counts for camping of several participants help together as counts of all buffers,
/// where none of them states one of these, and as many are decided then as the greatest says: of an
/// attached domain also with the bounds that it asks for late. Gives what calls state then; nothing
/// where it isn't told.
pub(crate) fn add_whole_counts(
    items: &mut Items,
    joint: CombinedChange<'_, '_>,
) -> Result<Vec<RestatedConstraints>, AllocError> {
    let alloc = items.alloc();
    let mut edits = Vec::new(alloc);
    let mut whose = Items::new(alloc);
    let mut most = 0u32;
    for participant in joint.group.participants {
        let counts = participant.asked.counts();
        let count = counts.min_buffer_count_for_camping;
        if count > 1 && counts.min_buffer_count == 0 {
            add_whole(&mut whose, &mut edits, joint.group, participant, count)?;
            most = most.max(count);
        }
    }
    if !edits.is_empty() {
        add_bounds_before(&mut whose, &mut edits, joint.group)?;
    }
    if edits.len() < 2 || joint.group.scenario.effort.is_spent() {
        return Ok(Vec::new(alloc));
    }
    match joint.promise_of(alloc, edits)? {
        Some(promise) => tell_whole_counts(items, joint.group, whose, most, promise),
        None => Ok(Vec::new(alloc)),
    }
}

/// Adds a participant whose count for camping is of all buffers, in words and as an edited call.
fn add_whole(
    whose: &mut Items,
    edits: &mut Vec<EditedCall>,
    group: Group<'_, '_>,
    participant: &NamedParticipant<'_>,
    count: u32,
) -> Result<(), AllocError> {
    let alloc = whose.alloc();
    let number = group
        .story
        .milestone(participant.node, Milestone::SetConstraints);
    let (Some(number), Some(value)) = (number, participant.stated) else {
        return Ok(());
    };
    let place = number.saturating_sub(1);
    group.scenario.effort.change(place, 2);
    add_edit(edits, place, value, count)?;
    if let Some(last) = edits.last() {
        let who = group.who_changes(alloc, participant, CAMPING, &last.value)?;
        let mut words = TextBuilder::of_text(alloc, &who);
        put_whole_count(&mut words, count);
        whose.say(2, Label::And, words);
    }
    Ok(())
}

/// Tells that these participants' counts for camping help as counts of all buffers, if so many are
/// decided then.
fn tell_whole_counts(
    items: &mut Items,
    group: Group<'_, '_>,
    whose: Items,
    most: u32,
    promise: Promise,
) -> Result<Vec<RestatedConstraints>, AllocError>
    requires { IsPromised group.scenario.now.platform.now
        (map call_seen group.scenario.now.calls.now) (edits_of promise.edits.items)
        group.path.now promise.outcome }
{
    let alloc = items.alloc();
    let reached = reached_by(&promise.outcome);
    if reached.count != most || is_absurd(reached, are_sized(group.participants)) {
        return Ok(Vec::new(alloc));
    }
    let stated = promise.stated(alloc)?;
    let choice = choices_in(alloc, group.story, group.root, promise.outcome.selection())?;
    let mut words = TextBuilder::of(alloc, "these ");
    words
        .put_number(whose.len())
        .put(" together suffice (each may be meant so):");
    items.say(1, Label::Change, words);
    items.append(whose);
    put_promise(items, group, 2, promise);
    put_choice(items, 2, choice);
    Ok(stated)
}
