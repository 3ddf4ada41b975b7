//! Participants whose constraints are changed, and where they stand.

use crate::trials::changed_lines::{changed_lines, entry_lines};
use constraint_edits::Edit;
use explanation_text::wording::put_few;
use explanation_text::{Fact, ListBuilder, Step, Text, TextBuilder, line_of};
use script_faults::{Document, RecordPart};
use script_story::{Milestone, Scenario, Story};
use serde_json::Value;
use std::alloc::{AllocError, Global};
use value_sources::NamedParticipant;

/// How long a text may be, in bytes, of which lines are told: for each line it is gone through.
const LONGEST: usize = 262_144;

/// Those whose constraints are changed, for the domain at a path.
#[derive(Clone, Copy)]
pub struct Group<'a, 'b> {
    pub document: &'b Document<'a>,
    pub scenario: &'b Scenario<'a>,
    pub story: &'b Story<'a>,
    pub path: &'b str,
    /// The root of the domain, by number.
    pub root: usize,
    pub participants: &'b [NamedParticipant<'a>],
}

impl Group<'_, '_> {
    /// Whether a node is in the domain.
    pub(crate) fn is_inside(&self, node: usize) -> bool {
        let nodes = &self.story.nodes;
        match (nodes.get(node), nodes.get(self.root)) {
            (Some(known), Some(root)) => known.domain == root.domain,
            _ => false,
        }
    }

    /// The number among all of the participant whose constraints the call at a place, from 0,
    /// states, if it is one of them.
    pub(crate) fn stating(&self, place: usize) -> Option<usize> {
        Some(self.one_stating(place)?.node)
    }

    /// The same participant.
    pub(crate) fn one_stating(&self, place: usize) -> Option<&NamedParticipant<'_>> {
        let number = Some(place.saturating_add(1));
        for participant in self.participants {
            if self
                .story
                .milestone(participant.node, Milestone::SetConstraints)
                == number
            {
                return Some(participant);
            }
        }
        None
    }

    /// A participant, with the call that states its constraints and its line: `camera (call 5, line
    /// 14)`.
    pub fn who(
        &self,
        alloc: Global,
        participant: &NamedParticipant<'_>,
    ) -> Result<Text, AllocError> {
        let number = self
            .story
            .milestone(participant.node, Milestone::SetConstraints)
            .unwrap_or(0);
        let path = [
            Step::Key("calls"),
            Step::Item(number.saturating_sub(1)),
            Step::Key("constraints"),
        ];
        let line = line_at(alloc, self.document, &path, RecordPart::Key)?;
        let mut words = TextBuilder::of_name(alloc, participant.called());
        words.put(" (call ").call(number);
        if let Some(line) = line {
            words.put(", line ").put_number(line);
        }
        words.put(")");
        words.into_text()
    }

    /// A participant, with the call that states its constraints and the lines in which they are to
    /// be changed: `camera (call 5, line 14)`.
    pub fn who_changes(
        &self,
        alloc: Global,
        participant: &NamedParticipant<'_>,
        edit: Edit,
        changed: &Value,
    ) -> Result<Text, AllocError> {
        let number = self
            .story
            .milestone(participant.node, Milestone::SetConstraints)
            .unwrap_or(0);
        let place = number.saturating_sub(1);
        let lines = match (edit, participant.stated) {
            (Edit::EntryFirst(index), _) => entry_lines(alloc, self.document, place, index)?,
            (_, Some(stated)) => changed_lines(alloc, self.document, place, stated, changed)?,
            _ => Vec::new(alloc),
        };
        let mut words = TextBuilder::of_name(alloc, participant.called());
        words.put(" (call ").call(number);
        put_lines(&mut words, &lines);
        if !lines.is_empty() {
            words.tell(Fact::Lined(number));
        }
        words.put(")");
        words.into_text()
    }
}

/// Puts lines after a text: `, line 14`, `, lines 14 and 19`.
fn put_lines(text: &mut TextBuilder, lines: &[usize]) {
    if lines.is_empty() {
        return;
    }
    text.put(if lines.len() == 1 {
        ", line "
    } else {
        ", lines "
    });
    let mut texts: ListBuilder<Text> = ListBuilder::new(text.alloc());
    for line in lines {
        let mut words = TextBuilder::new(text.alloc());
        words.put_number(*line);
        texts.add_text(words);
    }
    match texts.done() {
        Ok(texts) => put_few(text, &texts, 4),
        Err(AllocError) => text.refuse(),
    }
}

/// The line of the part at a path; `None` where the text has one line, or is long.
pub fn line_at(
    alloc: Global,
    document: &Document<'_>,
    path: &[Step<'_>],
    part: RecordPart,
) -> Result<Option<usize>, AllocError> {
    let bytes = document.bytes;
    if bytes.len() > LONGEST || line_of(bytes, bytes.len().saturating_sub(1)) < 2 {
        return Ok(None);
    }
    match document.span(alloc, path, part)? {
        Some(span) => Ok(Some(line_of(bytes, span.start.min(bytes.len())))),
        None => Ok(None),
    }
}
