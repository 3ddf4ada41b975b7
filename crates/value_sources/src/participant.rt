//! Participants with what they ask, and lists of them in words.

use explanation_text::wording::{MOST_NAMES, put_few};
use explanation_text::{ListBuilder, Name, TextBuilder};
use negotiation_inputs::Constraints;
use serde_json::Value;
use std::alloc::AllocError;

/// A participant that has constraints.
#[derive(Clone, Copy)]
pub struct NamedParticipant<'a> {
    /// Its number among all.
    pub node: usize,
    pub name: &'a str,
    pub asked: &'a Constraints,
    /// The record that states them.
    pub stated: Option<&'a Value>,
}

impl<'a> NamedParticipant<'a> {
    /// Its name, as that of its node.
    pub fn called(&self) -> Name<'a> {
        Name {
            node: self.node,
            text: self.name,
        }
    }
}

/// Puts the names of participants with a word after a text: `camera takes`,
/// `camera and encoder take`.
pub fn put_has(
    text: &mut TextBuilder,
    participants: &[NamedParticipant<'_>],
    one: &str,
    many: &str,
) {
    put_participants(text, participants);
    let word = if participants.len() == 1 { one } else { many };
    text.put(" ").put(word);
}

/// Puts the names of participants after a text.
pub fn put_participants(text: &mut TextBuilder, participants: &[NamedParticipant<'_>]) {
    let mut names: ListBuilder<Name<'_>> = ListBuilder::new(text.alloc());
    for participant in participants {
        names.add(participant.called());
    }
    match names.done() {
        Ok(names) => put_few(text, &names, MOST_NAMES),
        Err(AllocError) => text.refuse(),
    }
}
