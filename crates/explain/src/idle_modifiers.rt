//! Modifiers of entries that have no effect, and what would do too if they had the one that is meant.

use crate::domains::{Part, add_of, group_of};
use crate::entries::put_promised;
use constraint_changes::{Group, RestatedConstraints, Trial, entry_place, line_at};
use constraint_edits::{Edit, EditedConstraints, edited};
use explanation_text::{Item, Items, Label, Step, TextBuilder, Thing};
use script_faults::{Document, RecordPart};
use script_story::{Became, Milestone, Scenario, Story, asked_in};
use serde_json::Value;
use settings_reasons::is_taken;
use std::alloc::{AllocError, Global};
use std::slice::from_ref;
use sysmem_counts::Field;
use sysmem_formats::{Modifier, Pair, PixelFormat};
use sysmem_image::Entry;
use value_sources::NamedParticipant;

/// What a pair has that states no modifier.
const ABSENT: Modifier = Modifier::Linear;

/// Tells, so deep, which entries of those who have constraints in the domain of an index state a
/// modifier that has no effect, since they have further pairs and no format of their own.
pub(crate) fn add_idle_modifiers(
    items: &mut Items,
    document: &Document<'_>,
    story: &Story<'_>,
    index: usize,
    depth: usize,
) -> Result<(), AllocError> {
    for participant in &asked_in(items.alloc(), story, index, false)? {
        let number = story
            .milestone(participant.node, Milestone::SetConstraints)
            .unwrap_or(0);
        add_idle_of(items, document, participant, number, depth);
    }
    Ok(())
}

/// The same of one of them, whose constraints the call of this number states.
fn add_idle_of(
    items: &mut Items,
    document: &Document<'_>,
    participant: &NamedParticipant<'_>,
    number: usize,
    depth: usize,
) {
    let Some(entries) = entries_of(participant) else {
        return;
    };
    for (item, entry) in entries.iter().enumerate() {
        if is_idle(entry) {
            let words = sentence(items.alloc(), document, participant, number, item);
            items.say(depth, Label::Note, words);
        }
    }
}

/// The entries that a participant's record states.
fn entries_of<'a>(participant: &NamedParticipant<'a>) -> Option<&'a [Value]> {
    let entries = participant
        .stated?
        .get(Field::ImageFormatConstraints.name())?
        .as_array()?;
    Some(entries.as_slice())
}

/// Whether an entry has a modifier and no format of its own, and the modifier isn't what its pairs
/// have anyway.
fn is_idle(entry: &Value) -> bool {
    let modifier = entry
        .get(Field::PixelFormatModifier.name())
        .and_then(Value::as_str);
    match modifier {
        Some(modifier) => modifier != ABSENT.name()
            && entry.get(Field::PixelFormat.name()).is_none(),
        None => false,
    }
}

/// `game (call 6): pixel_format_modifier of entry 1 (line 27) has no effect, since ..`.
fn sentence(
    alloc: Global,
    document: &Document<'_>,
    participant: &NamedParticipant<'_>,
    number: usize,
    item: usize,
) -> TextBuilder {
    let mut words = TextBuilder::of_name(alloc, participant.called());
    words.put(" (call ").call(number).put("): ");
    words
        .field(Field::PixelFormatModifier)
        .put(" of entry ")
        .put_number(item.saturating_add(1));
    let path = [
        Step::Key("calls"),
        Step::Item(number.saturating_sub(1)),
        Step::Key("constraints"),
        Step::Key(Field::ImageFormatConstraints.name()),
        Step::Item(item),
        Step::Key(Field::PixelFormatModifier.name()),
    ];
    match line_at(alloc, document, &path, RecordPart::Value) {
        Ok(Some(line)) => {
            words.put(" (line ").put_number(line).put(")");
        }
        Ok(None) => {}
        Err(AllocError) => words.refuse(),
    }
    words
        .put(" has no effect, since the entry has no ")
        .field(Field::PixelFormat)
        .put(" of its own; its pairs have their own modifiers, ")
        .modifier(ABSENT)
        .put(" where none is stated");
    words
}

/// Tells of a domain that is chosen what would be if such a modifier were that of the format of the
/// entry's first pair, where the pair that they make stands after the chosen one on the platform and
/// nobody else refuses it: that would do too then. A pair before the chosen one is told as a change.
pub(crate) fn add_meant_pairs(
    items: &mut Items,
    document: &Document<'_>,
    scenario: &Scenario<'_>,
    story: &Story<'_>,
    index: usize,
) -> Result<(), AllocError> {
    match story.domains.get(index) {
        Some(domain) if domain.became == Became::Chosen => {}
        _ => return Ok(()),
    }
    let selected = asked_in(items.alloc(), story, index, true)?;
    let group = group_of(document, scenario, story, index, &selected);
    for participant in &selected {
        for (item, entry) in entries_of(participant).unwrap_or(&[]).iter().enumerate() {
            match pair_meant(entry) {
                Some(pair) if is_lacked_alone(&selected, participant.node, pair) => {
                    try_pair(items, group, participant, item, pair)?;
                }
                _ => {}
            }
        }
    }
    Ok(())
}

/// The pair of an entry's modifier, where that has no effect, and the format of its first pair.
fn pair_meant(entry: &Value) -> Option<Pair> {
    if !is_idle(entry) {
        return None;
    }
    let pairs = entry.get(Field::PixelFormatAndModifiers.name())?;
    let format = pairs.as_array()?.first()?.get(Field::PixelFormat.name())?;
    let modifier = entry.get(Field::PixelFormatModifier.name())?;
    Some(Pair {
        format: PixelFormat::from_name(format.as_str()?)?,
        modifier: Modifier::from_name(modifier.as_str()?)?,
    })
}

/// Whether of some participants that of a node alone doesn't take a pair.
fn is_lacked_alone(participants: &[NamedParticipant<'_>], node: usize, pair: Pair) -> bool {
    for participant in participants {
        if is_taken_by(participant.asked.entries(), pair) == (participant.node == node) {
            return false;
        }
    }
    true
}

/// Whether a pair is taken with these entries: without any all are.
fn is_taken_by(entries: &[Entry], pair: Pair) -> bool {
    entries.is_empty() || entries.iter().any(|entry| is_taken(entry, pair))
}

/// Tells what would be if a participant took a pair in an entry more, if that is else like the
/// record's entry of an index.
fn try_pair(
    items: &mut Items,
    group: Group<'_, '_>,
    participant: &NamedParticipant<'_>,
    index: usize,
    pair: Pair,
) -> Result<(), AllocError> {
    let (Some(value), Some(number)) = (
        participant.stated,
        group
            .story
            .milestone(participant.node, Milestone::SetConstraints),
    ) else {
        return Ok(());
    };
    let trial = Trial {
        scenario: group.scenario,
        path: group.path,
        place: number.saturating_sub(1),
    };
    trial.scenario.effort.change(trial.place, 1);
    let heaps = trial.scenario.platform.heaps();
    match edited(items.alloc(), value, Edit::TakesPair(pair), heaps)? {
        Some(changed) if entry_place(Some(value), changed.change.start).item == index => {
            add_then(items, group, trial, participant, &changed, pair)
        }
        _ => Ok(()),
    }
}

/// Tells what would be decided with these constraints, and below it what would be with the pair that
/// they take, if that would do too.
#[tactic(auto, using(constraint_changes::proofs::Promises::promised_alone))]
fn add_then(
    items: &mut Items,
    group: Group<'_, '_>,
    trial: Trial<'_, '_>,
    participant: &NamedParticipant<'_>,
    changed: &EditedConstraints,
    pair: Pair,
) -> Result<(), AllocError> {
    let alloc = items.alloc();
    let Some(outcome) = trial.outcome(alloc, &changed.value)? else {
        return Ok(());
    };
    if !trial.is_edit(alloc, &changed.change, &changed.value)? {
        return Ok(());
    }
    let below = on_pair(alloc, group, trial.place, &changed.value, pair)?;
    if below.is_empty() {
        return Ok(());
    }
    let mut words = TextBuilder::of(alloc, "if ");
    words.name(participant.called()).put(" (call ");
    words.call(trial.place.saturating_add(1)).put(") took ");
    words.put_text(&changed.words).put(", it would be:");
    items.say(1, Label::Then, words);
    put_promised(items, trial, changed.change, outcome);
    for item in below {
        items.add(item);
    }
    Ok(())
}

/// What is told below a decision of a pair that would do too, where the call at a place states this.
fn on_pair(
    alloc: Global,
    group: Group<'_, '_>,
    place: usize,
    value: &Value,
    pair: Pair,
) -> Result<Vec<Item>, AllocError> {
    let stated = RestatedConstraints {
        place,
        value: value.clone()?,
    };
    let mut told = Items::new(alloc);
    add_of(&mut told, group, from_ref(&stated), Part::All, 2)?;
    let mut kept = Vec::new(alloc);
    let mut is_kept = false;
    for item in told.into_list()? {
        if item.depth <= 2 {
            is_kept = item.label == Label::Then && names_first(&item, pair);
        }
        if is_kept {
            kept.push(item)?;
        }
    }
    Ok(kept)
}

/// Whether an item names a pair first.
fn names_first(item: &Item, pair: Pair) -> bool {
    let (format, modifier) = (Thing::Format(pair.format), Thing::Modifier(pair.modifier));
    match item.mentions.as_slice() {
        [first, second, ..] => first.thing == format && second.thing == modifier,
        _ => false,
    }
}
