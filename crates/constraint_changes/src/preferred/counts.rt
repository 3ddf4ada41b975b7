//! Counts of buffers that leave an attached domain room for an earlier child.

use crate::beyond::Farthest;
use crate::preferred::telling::{Found, put_of, trial_of, tried};
use crate::preferred::wish::Wish;
use crate::trials::{MOST_HALVINGS, Trial, TrialResult, reached_by};
use constraint_edits::{Edit, EditedConstraints, Halving, changes, edited};
use serde_json::Value;
use std::alloc::{AllocError, Global};
use value_sources::NamedParticipant;

/// Tries to change each count of each of some participants.
pub(crate) fn try_counts(
    found: &mut Found,
    wish: Wish<'_, '_>,
    participants: &[NamedParticipant<'_>],
    edits: &[Edit],
) -> Result<(), AllocError> {
    for edit in edits {
        if matches!(edit, Edit::NoCount(_)) {
            try_count(found, wish, participants, *edit)?;
        }
    }
    Ok(())
}

/// Tries to change a count of each of some participants.
fn try_count(
    found: &mut Found,
    wish: Wish<'_, '_>,
    participants: &[NamedParticipant<'_>],
    edit: Edit,
) -> Result<(), AllocError> {
    for participant in participants {
        if found.is_done(wish.group.scenario.effort) {
            break;
        }
        try_one(found, wish, participant, edit)?;
    }
    Ok(())
}

/// Tries to leave a count of a participant out, and tells the least change of it by which comes
/// what is wanted.
fn try_one(
    found: &mut Found,
    wish: Wish<'_, '_>,
    participant: &NamedParticipant<'_>,
    edit: Edit,
) -> Result<(), AllocError> {
    let alloc = found.items.alloc();
    let (Some(trial), Some(value)) = (trial_of(wish.group, participant), participant.stated) else {
        return Ok(());
    };
    let heaps = wish.group.scenario.platform.heaps();
    if !changes(alloc, value, edit, heaps)? {
        return Ok(());
    }
    let Some(change) = edited(alloc, value, edit, heaps)? else {
        return Ok(());
    };
    let Some(one) = tried(alloc, found, wish, trial, change)? else {
        return Ok(());
    };
    let Some(least) = least_of(alloc, found, wish, trial, value, edit, &one)? else {
        return put_of(found, wish, trial, participant, None, one);
    };
    let far = Farthest::by(alloc, trial.place, &one)?;
    match tried(alloc, found, wish, trial, least)? {
        Some(best) => put_of(found, wish, trial, participant, Some(&far), best),
        None => Ok(()),
    }
}

/// The least change of the count that an edit leaves out by which comes what is wanted; `None`
/// where leaving it out is the least.
fn least_of(
    alloc: Global,
    found: &mut Found,
    wish: Wish<'_, '_>,
    trial: Trial<'_, '_>,
    value: &Value,
    edit: Edit,
    one: &TrialResult,
) -> Result<Option<EditedConstraints>, AllocError> {
    let mut best = None;
    let Some(mut halving) = Halving::of(value, edit, reached_by(&one.outcome)) else {
        return Ok(None);
    };
    for _halving in 0..MOST_HALVINGS {
        let Some(amount) = halving.next() else {
            break;
        };
        if wish.group.scenario.effort.is_spent() {
            break;
        }
        let change = halving.changed(alloc, value, amount)?;
        let does = tried(alloc, found, wish, trial, change)?.is_some();
        halving.learn(amount, does);
        if does {
            best = Some(amount);
        }
    }
    match best {
        Some(amount) => Ok(Some(halving.changed(alloc, value, amount)?)),
        None => Ok(None),
    }
}
