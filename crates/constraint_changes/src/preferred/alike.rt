//! One edit, told of all participants of whom each alone brings what is wanted.

ghost use Rattle.std.specs.Prelude.{[], ◌∷◌, map};
ghost use Rattle.script_reading.specs.Seen.{call_seen};
ghost use Rattle.constraint_changes.specs.Edited.{IsPromised};

use crate::beyond::words_of;
use crate::preferred::telling::{Found, put_wanted, trial_of, tried};
use crate::preferred::wish::Wish;
use crate::trials::{Group, Trial, TrialResult};
use constraint_edits::{Edit, changes, edited};
use explanation_text::{ListBuilder, Text};
use std::alloc::{AllocError, Global};
use value_sources::NamedParticipant;

/// Tries an edit of each of some participants until one brings what is wanted; tells with it those
/// by whom the same comes.
pub(crate) fn try_first(
    found: &mut Found,
    wish: Wish<'_, '_>,
    selected: &[NamedParticipant<'_>],
    edit: Edit,
) -> Result<(), AllocError> {
    let before = found.count;
    let mut told: Vec<usize> = Vec::new(found.items.alloc());
    for (k, participant) in selected.iter().enumerate() {
        if found.count > before {
            break;
        }
        let others = selected.get(k.saturating_add(1)..).unwrap_or(&[]);
        try_alike(found, wish, &mut told, participant, others, edit)?;
    }
    Ok(())
}

/// Tries an edit of a participant, and tells with it those of some others by whom the same comes.
pub(crate) fn try_alike(
    found: &mut Found,
    wish: Wish<'_, '_>,
    told: &mut Vec<usize>,
    participant: &NamedParticipant<'_>,
    others: &[NamedParticipant<'_>],
    edit: Edit,
) -> Result<(), AllocError> {
    let alloc = found.items.alloc();
    let (Some(trial), Some(value)) = (trial_of(wish.group, participant), participant.stated) else {
        return Ok(());
    };
    let heaps = wish.group.scenario.platform.heaps();
    if found.is_done(wish.group.scenario.effort) || !changes(alloc, value, edit, heaps)? {
        return Ok(());
    }
    let Some(change) = edited(alloc, value, edit, heaps)? else {
        return Ok(());
    };
    let Some(one) = tried(alloc, found, wish, trial, change)? else {
        return Ok(());
    };
    let group = wish.group;
    let mut who: ListBuilder<Text> = ListBuilder::new(alloc);
    who.add(group.who_changes(alloc, participant, edit, &one.value)?);
    add_alike(found, wish, &mut who, told, others, edit, &one)?;
    let what = words_of(alloc, group, trial.place, participant, &one, None)?;
    put_wanted(found, wish, trial, &who.done()?, &what, one)
}

/// Adds those of some participants by whose edit the same comes as by one that was run.
fn add_alike(
    found: &mut Found,
    wish: Wish<'_, '_>,
    who: &mut ListBuilder<Text>,
    told: &mut Vec<usize>,
    others: &[NamedParticipant<'_>],
    edit: Edit,
    one: &TrialResult,
) -> Result<(), AllocError> {
    for other in others {
        if let Some(text) = who_alike(found, wish, other, edit, one)? {
            who.add(text);
            told.push(other.node)?;
        }
    }
    Ok(())
}

/// Who a participant is and where its constraints are to be changed, if by its edit the same comes
/// as by one that was run.
#[tactic(auto, using(crate::proofs::Promises::promised_alone))]
fn who_alike(
    found: &mut Found,
    wish: Wish<'_, '_>,
    participant: &NamedParticipant<'_>,
    edit: Edit,
    one: &TrialResult,
) -> Result<Option<Text>, AllocError> {
    let alloc = found.items.alloc();
    let (Some(trial), Some(value)) = (trial_of(wish.group, participant), participant.stated) else {
        return Ok(None);
    };
    let heaps = wish.group.scenario.platform.heaps();
    let change = match edited(alloc, value, edit, heaps)? {
        Some(change) if change.words == one.words => change,
        _ => return Ok(None),
    };
    if found.is_done(wish.group.scenario.effort) {
        return Ok(None);
    }
    let Some(other) = tried(alloc, found, wish, trial, change)? else {
        return Ok(None);
    };
    if other.outcome.said.as_str() != one.outcome.said.as_str() {
        return Ok(None);
    }
    if !trial.is_edit(alloc, &other.change, &other.value)? {
        return Ok(None);
    }
    Ok(Some(who_promised(alloc, wish.group, trial, participant, other)?))
}

/// Who a participant is of whose change a decision is promised, and where its constraints are to be
/// changed.
fn who_promised(
    alloc: Global,
    group: Group<'_, '_>,
    trial: Trial<'_, '_>,
    participant: &NamedParticipant<'_>,
    one: TrialResult,
) -> Result<Text, AllocError>
    requires { IsPromised trial.scenario.now.platform.now
        (map call_seen trial.scenario.now.calls.now) ((trial.place, one.change ∷ []) ∷ [])
        trial.path.now one.outcome }
{
    group.who_changes(alloc, participant, one.change.edit, &one.value)
}
