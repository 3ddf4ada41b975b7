//! Entries of participants that are never used, which hold in their place, and what would be chosen
//! with them first.

ghost use Rattle.std.specs.Prelude.{[], ◌∷◌, map};
ghost use Rattle.script_reading.specs.Seen.{call_seen};
ghost use Rattle.constraint_changes.specs.Edited.{IsPromised};

use constraint_changes::{RestatedConstraints, Trial, entry_place, line_at, put_choice, restated};
use constraint_edits::{Change, Edit, EditedConstraints, edited};
use domain_reasons::{Losses, choices_in};
use explanation_text::{Items, Label, Step, TextBuilder};
use script_faults::{Document, RecordPart};
use script_story::{Became, Milestone, Outcome, Scenario, Story, asked_in};
use settings_reasons::{holder_of, is_taken, unused_entries};
use std::alloc::{AllocError, Global};
use std::slice::from_ref;
use sysmem_formats::{Modifier, Pair, PixelFormat};
use value_sources::NamedParticipant;

/// How many are told of one participant.
const MOST: usize = 3;

const ENTRIES: &str = "image_format_constraints";

/// Tells which entries of the participants of a domain are never used since earlier ones hold for
/// all that they take; of one that is chosen of those who are selected, and what would be chosen
/// with such an entry first.
pub(crate) fn add_unused(
    items: &mut Items,
    document: &Document<'_>,
    scenario: &Scenario<'_>,
    story: &Story<'_>,
    index: usize,
) -> Result<(), AllocError> {
    let is_chosen = match became_at(story, index) {
        Some(Became::Chosen) => true,
        Some(Became::Empty) => false,
        _ => return Ok(()),
    };
    let participants = asked_in(items.alloc(), story, index, is_chosen)?;
    for participant in &participants {
        add_of(items, &*document, &*scenario, &*story, index, participant)?;
    }
    Ok(())
}

/// Tells which entries of a participant are never used.
fn add_of<'a, 'b>(
    items: &mut Items,
    document: &'b Document<'a>,
    scenario: &'b Scenario<'a>,
    story: &'b Story<'a>,
    index: usize,
    participant: &'b NamedParticipant<'a>,
) -> Result<(), AllocError> {
    let teller = Teller {
        document,
        scenario,
        story,
        index,
        participant,
        number: story
            .milestone(participant.node, Milestone::SetConstraints)
            .unwrap_or(0),
    };
    teller.tell(items)
}

/// What became of a domain, by index.
fn became_at(story: &Story<'_>, index: usize) -> Option<Became> {
    match story.domains.get(index) {
        Some(domain) => Some(domain.became),
        None => None,
    }
}

/// What the report's line says of a domain, by index.
fn told_of<'b>(story: &'b Story<'_>, index: usize) -> &'b str {
    match story.domains.get(index) {
        Some(domain) => &domain.told.said,
        None => "",
    }
}

/// A participant of the domain of an index, with the number of the call that states its
/// constraints.
#[derive(Clone, Copy)]
struct Teller<'a, 'b> {
    document: &'b Document<'a>,
    scenario: &'b Scenario<'a>,
    story: &'b Story<'a>,
    index: usize,
    participant: &'b NamedParticipant<'a>,
    number: usize,
}

/// A pair that an entry takes, and the entry that holds for it, by index.
#[derive(Clone, Copy)]
struct Holder {
    index: usize,
    pair: Pair,
}

impl Teller<'_, '_> {
    fn tell(&self, items: &mut Items) -> Result<(), AllocError> {
        let alloc = items.alloc();
        let entries = self.participant.asked.entries();
        let mut tried: Vec<usize> = Vec::new(alloc);
        let mut told = 0usize;
        for index in &unused_entries(alloc, self.scenario.platform, entries)? {
            let Some(holder) = self.holder_of(*index) else {
                continue;
            };
            if told < MOST {
                self.write_one(items, &mut tried, *index, holder)?;
            }
            told = told.saturating_add(1);
        }
        Ok(())
    }

    /// Tells that the entry of an index is never used, and what would be with the record's entry
    /// first to which it belongs, where that is another one than the holder's and wasn't tried.
    fn write_one(
        &self,
        items: &mut Items,
        tried: &mut Vec<usize>,
        index: usize,
        holder: Holder,
    ) -> Result<(), AllocError> {
        items.say(1, Label::Note, self.sentence(items.alloc(), index, holder));
        let item = entry_place(self.participant.stated, index).item;
        let is_own = item == entry_place(self.participant.stated, holder.index).item;
        let is_chosen = became_at(self.story, self.index) == Some(Became::Chosen);
        let is_spent = self.scenario.effort.is_spent();
        if is_own || !is_chosen || is_spent || tried.contains(&item) {
            return Ok(());
        }
        tried.push(item)?;
        self.try_entry_first(items, item)
    }

    /// Tells what would be decided with an entry of the record, from 0, before the others.
    fn try_entry_first(&self, items: &mut Items, item: usize) -> Result<(), AllocError> {
        let Some(value) = self.participant.stated else {
            return Ok(());
        };
        let heaps = self.scenario.platform.heaps();
        let place = self.number.saturating_sub(1);
        self.scenario.effort.change(place, 1);
        match edited(items.alloc(), value, Edit::EntryFirst(item), heaps)? {
            Some(changed) => self.add_then(items, item, &changed),
            None => Ok(()),
        }
    }

    /// Tells what would be decided with these constraints, in which an entry of the record stands
    /// first, if their record is read so.
    #[tactic(auto, using(constraint_changes::proofs::Promises::promised_alone))]
    fn add_then(
        &self,
        items: &mut Items,
        item: usize,
        changed: &EditedConstraints,
    ) -> Result<(), AllocError> {
        let root = self.story.root_of(self.index);
        let trial = Trial {
            scenario: self.scenario,
            path: self.story.path(root),
            place: self.number.saturating_sub(1),
        };
        let Some(outcome) = trial.outcome(items.alloc(), &changed.value)? else {
            self.write_first(items, item, "nothing would be chosen");
            return Ok(());
        };
        if outcome.said.as_str() == told_of(self.story, self.index) {
            self.write_first(items, item, "the decision would be the same");
            return Ok(());
        }
        if !trial.is_edit(items.alloc(), &changed.change, &changed.value)? {
            return Ok(());
        }
        self.write_first(items, item, "it would be:");
        let choice = choices_in(items.alloc(), self.story, root, outcome.selection())?;
        put_promised(items, trial, changed.change, outcome);
        put_choice(items, 2, choice);
        self.add_lost_then(items, changed)
    }

    /// Tells which other domains have no settings with these constraints.
    fn add_lost_then(
        &self,
        items: &mut Items,
        changed: &EditedConstraints,
    ) -> Result<(), AllocError> {
        let stated = RestatedConstraints {
            place: self.number.saturating_sub(1),
            value: changed.value.clone()?,
        };
        let calls = restated(items.alloc(), self.scenario.calls, from_ref(&stated))?;
        let other = Scenario {
            platform: &*self.scenario.platform,
            calls: &calls,
            effort: &*self.scenario.effort,
        };
        let value = self.document.value;
        Losses::by(items.alloc(), &other, value, self.story, 2)?.put_into(items);
        Ok(())
    }

    fn write_first(&self, items: &mut Items, item: usize, end: &str) {
        let mut words = TextBuilder::of(items.alloc(), "with entry ");
        words
            .put_number(item.saturating_add(1))
            .put(" of ")
            .name(self.participant.called());
        words
            .put(" (call ")
            .call(self.number)
            .put(") put first ")
            .put(end);
        items.say(1, Label::Then, words)
    }

    /// The first pair of the platform that the entry of an index takes, and which entry holds for
    /// it.
    fn holder_of(&self, index: usize) -> Option<Holder> {
        let entry = self.participant.asked.entries().get(index)?;
        for pair in self.scenario.platform.pairs() {
            if is_taken(entry, *pair) {
                let index = holder_of(self.participant.asked.entries(), *pair)?;
                return Some(Holder { index, pair: *pair });
            }
        }
        None
    }

    /// `camera (call 5): entry 2 (NV12 LINEAR, line 18) is never used: entry 1 (any format
    /// DO_NOT_CARE, line 17) comes before it and holds for ..`.
    fn sentence(&self, alloc: Global, index: usize, holder: Holder) -> TextBuilder {
        let mut words = TextBuilder::of_name(alloc, self.participant.called());
        words.put(" (call ").call(self.number).put("): ");
        self.put_entry(&mut words, index);
        words.put(" is never used: ");
        self.put_entry(&mut words, holder.index);
        words.put(" comes before it and holds for ");
        let pair = holder.pair;
        put_pair(&mut words, Some(pair.format), Some(pair.modifier));
        words
    }

    /// Puts which entry of the record that of an index is after a text, with what it takes and its
    /// line.
    fn put_entry(&self, text: &mut TextBuilder, index: usize) {
        let Some(entry) = self.participant.asked.entries().get(index) else {
            return;
        };
        let place = entry_place(self.participant.stated, index);
        let part = if place.pairs > 1 { "a pair of " } else { "" };
        let shown = place.item.saturating_add(1);
        text.put(part).put("entry ").put_number(shown).put(" (");
        put_pair(text, entry.format, entry.modifier);
        let path = [
            Step::Key("calls"),
            Step::Item(self.number.saturating_sub(1)),
            Step::Key("constraints"),
            Step::Key(ENTRIES),
            Step::Item(place.item),
        ];
        match line_at(text.alloc(), self.document, &path, RecordPart::Value) {
            Ok(Some(line)) => {
                text.put(", line ").put_number(line).put(")");
            }
            Ok(None) => {
                text.put(")");
            }
            Err(AllocError) => text.refuse(),
        }
    }
}

/// Puts the decision that comes with a change of entries.
pub(crate) fn put_promised(
    items: &mut Items,
    trial: Trial<'_, '_>,
    change: Change,
    outcome: Outcome,
)
    requires { IsPromised trial.scenario.now.platform.now
        (map call_seen trial.scenario.now.calls.now) ((trial.place, change ∷ []) ∷ [])
        trial.path.now outcome }
{
    outcome.promise(items, 2)
}

/// Puts a format and a modifier after a text.
fn put_pair(text: &mut TextBuilder, format: Option<PixelFormat>, modifier: Option<Modifier>) {
    match format {
        Some(format) => text.format(format),
        None => text.put("any format"),
    };
    text.put(" ");
    match modifier {
        Some(modifier) => text.modifier(modifier),
        None => text.put("DO_NOT_CARE"),
    };
}
