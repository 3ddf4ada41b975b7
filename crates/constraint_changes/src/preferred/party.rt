//! Participants who are asked together and leave no settings, where each change of one is tried.

use crate::beyond::Farthest;
use crate::preferred::counts::try_counts;
use crate::preferred::telling::{Found, put_of, trial_of, tried};
use crate::preferred::wish::{Goal, Wish};
use crate::trials::{
    Group, Party, RestatedConstraints, Trial, change_leaves_none, hindering, is_worth, leaves_none,
};
use constraint_edits::{Amount, Change, Edit, EditedConstraints, changes, edited, slips_of};
use std::alloc::{AllocError, Global};
use std::slice::from_ref;
use value_sources::NamedParticipant;

/// Tries edits of participants who are asked together, on the platform of a group on which they
/// leave no settings. Where they leave some, an attached domain may have too few buffers for them;
/// else nothing is tried then.
pub(crate) fn try_party<'a>(
    found: &mut Found,
    wish: Wish<'_, '_>,
    scope: Group<'_, '_>,
    participants: Vec<NamedParticipant<'a>>,
    edits: &[Edit],
) -> Result<(), AllocError> {
    let Some(needed) = hindering(found.items.alloc(), scope, &participants)? else {
        return match wish.goal {
            Goal::LateChild => try_counts(found, wish, &participants, edits),
            _ => Ok(()),
        };
    };
    let party = Party {
        participants,
        needed,
    };
    for edit in edits {
        if wish.may_mean(*edit) {
            try_edit(found, wish, scope, &party, *edit)?;
        }
    }
    Ok(())
}

/// Tries an edit of each of a party who is in the way.
fn try_edit(
    found: &mut Found,
    wish: Wish<'_, '_>,
    scope: Group<'_, '_>,
    party: &Party<'_>,
    edit: Edit,
) -> Result<(), AllocError> {
    for participant in &party.participants {
        if found.is_done(wish.group.scenario.effort) {
            break;
        }
        let others = &party.participants;
        if party.needs(participant.node) && is_worth(edit, participant, others, scope.scenario, 1) {
            try_one(found, wish, scope, party, participant, edit)?;
        }
    }
    Ok(())
}

/// Tries an edit of one of a party, and tells the least change by which comes what is wanted.
fn try_one(
    found: &mut Found,
    wish: Wish<'_, '_>,
    scope: Group<'_, '_>,
    party: &Party<'_>,
    participant: &NamedParticipant<'_>,
    edit: Edit,
) -> Result<(), AllocError> {
    let alloc = found.items.alloc();
    let (Some(trial), Some(value)) = (trial_of(wish.group, participant), participant.stated) else {
        return Ok(());
    };
    let heaps = wish.group.scenario.platform.heaps();
    if !changes(alloc, value, edit, heaps)? {
        return Ok(());
    }
    let Some(change) = edited(alloc, value, edit, heaps)? else {
        return Ok(());
    };
    let place = trial.place;
    if is_unmet_with(alloc, scope, party, participant, place, &change)? {
        return Ok(());
    }
    let Some(one) = tried(alloc, found, wish, trial, change)? else {
        return Ok(());
    };
    let far = Farthest::by(alloc, place, &one)?;
    let least = trial.least(alloc, scope, from_ref(party), value, edit, one)?;
    if !wish.is_met(&least.outcome) {
        return Ok(());
    }
    try_slips(found, wish, trial, participant, edit, least.change.amount)?;
    put_of(found, wish, trial, participant, Some(&far), least)
}

/// Tries the values that may be meant in the place of the one of the field that an edit leaves out,
/// where this one suffices, until what is wanted comes by one, and tells that.
fn try_slips(
    found: &mut Found,
    wish: Wish<'_, '_>,
    trial: Trial<'_, '_>,
    participant: &NamedParticipant<'_>,
    edit: Edit,
    enough: Option<Amount>,
) -> Result<(), AllocError> {
    let alloc = found.items.alloc();
    let Some(value) = participant.stated else {
        return Ok(());
    };
    let before = found.count;
    for slip in &slips_of(alloc, value, edit, enough)? {
        if found.count > before || found.is_done(wish.group.scenario.effort) {
            break;
        }
        let Some(made) = slip.changed(alloc, value)? else {
            continue;
        };
        if let Some(one) = tried(alloc, found, wish, trial, made)? {
            put_of(found, wish, trial, participant, None, one)?;
        }
    }
    Ok(())
}

/// Whether a party is known to leave no settings after a change of one of them.
fn is_unmet_with(
    alloc: Global,
    scope: Group<'_, '_>,
    party: &Party<'_>,
    participant: &NamedParticipant<'_>,
    place: usize,
    change: &EditedConstraints,
) -> Result<bool, AllocError> {
    let plain = Change::plain(change.change.edit, None);
    if let Some(is) = change_leaves_none(alloc, scope, from_ref(party), participant, plain)? {
        return Ok(is);
    }
    let value = change.value.clone()?;
    let stated = RestatedConstraints { place, value };
    leaves_none(alloc, scope, from_ref(party), from_ref(&stated))
}
