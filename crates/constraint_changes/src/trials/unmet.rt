//! Other constraints of participants that leave no settings, as is seen without a run.

use crate::trials::drafting::asked_after;
use crate::trials::group::Group;
use crate::trials::need::{need_too_many, together_need_too_many};
use crate::trials::parties::Party;
use crate::trials::restating::RestatedConstraints;
use crate::trials::trying::MOST_HALVINGS;
use constraint_edits::{Amount, Change, Edit, EditedConstraints, Halving, Reached, read_asked};
use explanation_text::ListBuilder;
use negotiation_inputs::Constraints;
use script_story::Story;
use serde_json::Value;
use settings_reasons::is_unmet;
use std::alloc::{AllocError, Global};
use std::slice::from_ref;
use value_sources::NamedParticipant;

/// What a participant asks in the place of what it states.
#[derive(Clone, Copy)]
pub struct ReadRecord<'a> {
    /// Its number among all.
    pub node: usize,
    pub asked: &'a Constraints,
}

/// Whether the script has groups of tokens.
pub fn has_groups(story: &Story<'_>) -> bool {
    for node in 0..story.nodes.len() {
        if story.is_group(node) {
            return true;
        }
    }
    false
}

/// Whether those of a group, whose parties these are, have no settings where calls state these
/// constraints, so that no run is needed to tell that their domain isn't chosen then. Only a yes
/// says something: there is none where such constraints have a fault.
pub fn leaves_none(
    alloc: Global,
    group: Group<'_, '_>,
    parties: &[Party<'_>],
    stated: &[RestatedConstraints],
) -> Result<bool, AllocError> {
    let mut asked = Vec::new(alloc);
    for one in stated {
        if group.scenario.effort.is_spent() {
            return Ok(false);
        }
        match read_asked(alloc, &one.value)? {
            Some(constraints) => asked.push(constraints)?,
            None => return Ok(false),
        }
    }
    let mut read = ListBuilder::new(alloc);
    for (one, constraints) in stated.iter().zip(&asked) {
        if let Some(node) = group.stating(one.place) {
            read.add(ReadRecord {
                node,
                asked: constraints,
            });
        }
    }
    let read = read.done()?;
    leave_none(alloc, group, parties, &read)
}

/// Whether those of a group, whose parties these are, have no settings, of whom some ask what was
/// read: whatever is selected one party of them is asked, each of which leaves none, or, where
/// there are no parties, they need too many buffers in each place. Only a yes says something: there
/// is none where nothing more is to be tried.
pub fn leave_none(
    alloc: Global,
    group: Group<'_, '_>,
    parties: &[Party<'_>],
    read: &[ReadRecord<'_>],
) -> Result<bool, AllocError> {
    if group.scenario.effort.is_spent() {
        return Ok(false);
    }
    if parties.is_empty() && has_groups(group.story) {
        let participants = all_with(alloc, group.participants, read)?;
        group.scenario.effort.ask(participants.len());
        if need_too_many(alloc, group, &participants)? {
            return Ok(true);
        }
    }
    for party in parties {
        if party.is_changed(read) && !leaves_none_with(alloc, group, party, read)? {
            return Ok(false);
        }
    }
    Ok(!parties.is_empty())
}

/// Whether a party has no settings, of which some ask what was read: often it is those alone who
/// had none before that have none still.
fn leaves_none_with(
    alloc: Global,
    group: Group<'_, '_>,
    party: &Party<'_>,
    read: &[ReadRecord<'_>],
) -> Result<bool, AllocError> {
    let platform = group.scenario.platform;
    let effort = group.scenario.effort;
    effort.ask(party.needed.len());
    let few = all_with(alloc, &party.needed, read)?;
    if together_need_too_many(&few) || is_unmet(alloc, platform, &few)? {
        return Ok(true);
    }
    effort.ask(party.participants.len());
    let participants = all_with(alloc, &party.participants, read)?;
    is_unmet(alloc, platform, &participants)
}

/// Participants, of whom some ask what was read.
fn all_with<'a>(
    alloc: Global,
    participants: &[NamedParticipant<'a>],
    read: &[ReadRecord<'a>],
) -> Result<Vec<NamedParticipant<'a>>, AllocError> {
    let mut others = Vec::new(alloc);
    for participant in participants {
        let mut other = *participant;
        for known in read {
            if known.node == participant.node {
                other.asked = known.asked;
            }
        }
        others.push(other)?;
    }
    Ok(others)
}

/// Whether those of a group, whose parties these are, have no settings after a change of one of
/// them; `None` where that isn't told without the record that would state it.
pub fn change_leaves_none(
    alloc: Global,
    group: Group<'_, '_>,
    parties: &[Party<'_>],
    participant: &NamedParticipant<'_>,
    change: Change,
) -> Result<Option<bool>, AllocError> {
    match asked_after(alloc, participant, &[change])? {
        Some(asked) => {
            let read = ReadRecord {
                node: participant.node,
                asked: &asked,
            };
            Ok(Some(leave_none(alloc, group, parties, &[read])?))
        }
        None => Ok(None),
    }
}

/// The least change of the field that an edit of the constraints of the call at a place, from 0,
/// leaves out with which those of a group have settings; `None` where leaving it out is the least,
/// or isn't lessened. By leaving it out this is reached.
pub(crate) fn least_met(
    alloc: Global,
    group: Group<'_, '_>,
    parties: &[Party<'_>],
    place: usize,
    value: &Value,
    edit: Edit,
    reached: Reached,
) -> Result<Option<EditedConstraints>, AllocError> {
    let mut best = None;
    let Some(mut halving) = Halving::of(value, edit, reached) else {
        return Ok(None);
    };
    for _halving in 0..MOST_HALVINGS {
        let Some(amount) = halving.next() else {
            break;
        };
        if group.scenario.effort.is_spent() {
            break;
        }
        let tried = TriedAmount {
            place,
            value,
            edit,
            amount,
        };
        let does = tried.does(alloc, group, parties, halving)?;
        halving.learn(amount, does);
        if does {
            best = Some(amount);
        }
    }
    match best {
        Some(amount) => Ok(Some(halving.changed(alloc, value, amount)?)),
        None => Ok(None),
    }
}

/// An amount in the place of what the call at a place states.
#[derive(Clone, Copy)]
struct TriedAmount<'a> {
    place: usize,
    value: &'a Value,
    edit: Edit,
    amount: Amount,
}

impl TriedAmount<'_> {
    /// Whether those of a group aren't known to have no settings then.
    fn does(
        &self,
        alloc: Global,
        group: Group<'_, '_>,
        parties: &[Party<'_>],
        halving: Halving,
    ) -> Result<bool, AllocError> {
        let change = Change::plain(self.edit, Some(self.amount));
        if let Some(one) = group.one_stating(self.place) {
            if let Some(none) = change_leaves_none(alloc, group, parties, one, change)? {
                return Ok(!none);
            }
        }
        group.scenario.effort.change(self.place, 1);
        let stated = RestatedConstraints {
            place: self.place,
            value: halving
                .changed(alloc, self.value, self.amount)?
                .into_value(),
        };
        Ok(!leaves_none(alloc, group, parties, from_ref(&stated))?)
    }
}
