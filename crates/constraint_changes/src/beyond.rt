//! Whether values beyond the one that a change is told with do the same.

use crate::lost::losses_by;
use crate::trials::{Group, RestatedConstraints, TrialResult};
use constraint_edits::edited_alone;
use explanation_text::{Text, TextBuilder};
use script_story::Outcome;
use std::alloc::{AllocError, Global};
use std::slice::from_ref;
use sysmem_formats::Offer;
use sysmem_memory::Place;
use value_sources::NamedParticipant;

/// What comes where a field is left out, which is beyond all of its values that do.
#[derive(Drop)]
pub(crate) struct Farthest {
    stated: Vec<RestatedConstraints>,
    /// The children that groups choose then.
    children: Vec<u8>,
    offer: Option<Offer>,
    place: Option<Place>,
}

impl Farthest {
    /// What comes where calls state this.
    pub(crate) fn of(
        alloc: Global,
        stated: Vec<RestatedConstraints>,
        outcome: &Outcome,
    ) -> Result<Farthest, AllocError> {
        Ok(Farthest {
            stated,
            children: Vec::from_slice(alloc, outcome.selection())?,
            offer: offer_of(outcome),
            place: place_of(outcome),
        })
    }

    /// What comes by a change of the call at a place that was tried.
    pub(crate) fn by(
        alloc: Global,
        place: usize,
        found: &TrialResult,
    ) -> Result<Farthest, AllocError> {
        let value = found.value.clone()?;
        let stated = vec![in alloc; RestatedConstraints { place, value }]?;
        Farthest::of(alloc, stated, &found.outcome)
    }

    /// Whether the same children, image and place come where calls state other constraints, by
    /// which this comes, and no other domain loses its settings that doesn't lose them then. It is
    /// so of all values between, since the one that is nearer to none admits what others do.
    pub(crate) fn is_as(
        &self,
        alloc: Global,
        group: Group<'_, '_>,
        stated: &[RestatedConstraints],
        outcome: &Outcome,
    ) -> Result<bool, AllocError> {
        let is_alike = self.children.as_slice() == outcome.selection()
            && self.offer == offer_of(outcome)
            && self.place == place_of(outcome);
        if !is_alike {
            return Ok(false);
        }
        let lost = losses_by(alloc, group, &self.stated, 3)?;
        if lost.count() == 0 {
            return Ok(true);
        }
        Ok(lost.are_as(&losses_by(alloc, group, stated, 3)?))
    }
}

/// The words of a change of a participant whose call is at a place; where it is known what comes
/// farthest beyond it, without other values if those don't do the same.
pub(crate) fn words_of(
    alloc: Global,
    group: Group<'_, '_>,
    place: usize,
    participant: &NamedParticipant<'_>,
    found: &TrialResult,
    far: Option<&Farthest>,
) -> Result<Text, AllocError> {
    let all = TextBuilder::of_text(alloc, &found.words).into_text()?;
    let (Some(far), Some(amount), Some(value)) = (far, found.change.amount, participant.stated)
    else {
        return Ok(all);
    };
    group.scenario.effort.change(place, 1);
    let Some(alone) = edited_alone(alloc, value, found.change.edit, amount)? else {
        return Ok(all);
    };
    let (value, words) = alone.into_parts();
    let stated = RestatedConstraints { place, value };
    if words == all || far.is_as(alloc, group, from_ref(&stated), &found.outcome)? {
        return Ok(all);
    }
    Ok(words)
}

/// The offer of a decision, if it chooses.
fn offer_of(outcome: &Outcome) -> Option<Offer> {
    Some(outcome.chosen()?.settings().offer)
}

/// The place of a decision, if it chooses.
fn place_of(outcome: &Outcome) -> Option<Place> {
    Some(outcome.chosen()?.settings().place)
}
