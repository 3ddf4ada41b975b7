//! What participants ask after changes.

use crate::parts::PartyChange;
use negotiation_inputs::Constraints;
use std::alloc::{AllocError, Global};

/// What a participant asks after some changes of its own.
#[derive(Drop)]
struct CachedRecord {
    person: usize,
    parts: Vec<PartyChange>,
    asked: Constraints,
}

/// What participants ask after changes, each read once.
#[derive(Drop)]
pub(crate) struct RecordCache {
    rows: Vec<CachedRecord>,
}

impl RecordCache {
    /// One on which nothing is kept.
    pub(crate) fn new(alloc: Global) -> RecordCache {
        RecordCache {
            rows: Vec::new(alloc),
        }
    }

    /// Where it is kept what the participant of an index asks after these changes, if it is.
    pub(crate) fn place_of(&self, person: usize, parts: &[PartyChange]) -> Option<usize> {
        for (place, row) in self.rows.iter().enumerate() {
            if row.person == person && row.parts.as_slice() == parts {
                return Some(place);
            }
        }
        None
    }

    /// Keeps what the participant of an index asks after these changes, and says where.
    pub(crate) fn keep(
        &mut self,
        person: usize,
        parts: Vec<PartyChange>,
        asked: Constraints,
    ) -> Result<usize, AllocError> {
        let place = self.rows.len();
        self.rows.push(CachedRecord {
            person,
            parts,
            asked,
        })?;
        Ok(place)
    }

    /// What is kept at a place, if one is given.
    pub(crate) fn asked(&self, place: Option<usize>) -> Option<&Constraints> {
        let row = self.rows.get(place?)?;
        Some(&row.asked)
    }
}

/// Where it is kept what participants ask in the place of what they state, by index; nothing of
/// those who ask what they state.
#[derive(Drop)]
pub(crate) struct RestatedParticipants {
    participants: Vec<Option<usize>>,
}

impl RestatedParticipants {
    /// What nobody asks.
    pub(crate) fn new(alloc: Global) -> RestatedParticipants {
        RestatedParticipants {
            participants: Vec::new(alloc),
        }
    }

    /// Adds one more participant.
    pub(crate) fn push(&mut self, place: Option<usize>) -> Result<(), AllocError> {
        self.participants.push(place)?;
        Ok(())
    }

    /// Where it is kept what the participant of an index asks, if that isn't what it states.
    pub(crate) fn place(&self, person: usize) -> Option<usize> {
        match self.participants.get(person) {
            Some(place) => *place,
            None => None,
        }
    }

    /// Learns what some participants ask by now.
    pub(crate) fn learn(&mut self, others: &RestatedParticipants) {
        for (person, place) in others.participants.iter().enumerate() {
            match self.participants.get_mut(person) {
                Some(one) if place.is_some() => *one = *place,
                _ => {}
            }
        }
    }
}
