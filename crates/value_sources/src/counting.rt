//! How many buffers participants need, and where the number comes from.

ghost use Rattle.std.specs.Prelude.{◌≡◌, ◌↔◌, ◌≤◌, ◌<◌, ◌*◌, ◌^◌, All, IfOk, IfSome, IfNone, IsTrue, filter, length, sum_by};
ghost use Rattle.sysmem_counts.specs.Bounds.{IsTallyOf};
ghost use Rattle.sysmem_counts.specs.Counts.{IsCountLine, greatest as greatest_of, held_together, needed};
ghost use Rattle.value_sources.specs.Sources.{IsNumberOf, counts_of, part_of, takes_fewer};

use crate::participant::{NamedParticipant, put_has};
use explanation_text::wording::put_few;
use explanation_text::{ListBuilder, Text, TextBuilder};
use std::alloc::{AllocError, Global};
use sysmem_counts::{BUFFER_COUNT_LIMIT, CountBounds, Field};

/// How many participants are counted at most: as many as a tree may have nodes.
pub const MOST_COUNTED: usize = 128;

/// How many parts of a sum are shown.
const MOST_PARTS: usize = 5;

/// A part of a count.
#[derive(Clone, Copy)]
enum CountPart {
    Camping,
    Dedicated,
    Shared,
    Minimum,
}

fn value_of(participant: &NamedParticipant<'_>, part: CountPart) -> u32
    ensures { result ≡ part_of part participant.now }
{
    let counts = participant.asked.counts();
    match part {
        CountPart::Camping => counts.min_buffer_count_for_camping,
        CountPart::Dedicated => counts.min_buffer_count_for_dedicated_slack,
        CountPart::Shared => counts.min_buffer_count_for_shared_slack,
        CountPart::Minimum => counts.min_buffer_count,
    }
}

/// The bounds of the counts of participants, of the first `MOST_COUNTED` where there are more.
fn bounds_of(participants: &[NamedParticipant<'_>]) -> CountBounds
    ensures { length participants.now ≤ MOST_COUNTED
        → IsTallyOf result (counts_of participants.now) }
{
    let mut bounds = CountBounds::new();
    let some = &participants[..participants.len().min(MOST_COUNTED)];
    for one in some {
        bounds.add(one.asked.counts());
    }
    bounds
}

/// How many of a part participants ask for together.
fn total(participants: &[NamedParticipant<'_>], part: CountPart) -> u64
    ensures is { length participants.now ≤ MOST_COUNTED
        → result ≡ sum_by (part_of part) participants.now }
    ensures few { length participants.now ≤ MOST_COUNTED → result ≤ MOST_COUNTED * 2 ^ 32 }
{
    let mut sum = 0u64;
    for participant in participants {
        sum = sum.saturating_add(u64::from(value_of(participant, part)));
    }
    sum
}

/// The first who asks for the most, with that, if anybody asks for some.
fn greatest<'a>(
    participants: &[NamedParticipant<'a>],
    part: CountPart,
) -> Option<(NamedParticipant<'a>, u32)>
    ensures from { IfSome result (λ r.
        IsNumberOf (part_of part) participants.now r.0.name.now r.1) }
    ensures most { IfSome result (λ r. All (λ one. part_of part one ≤ r.1) participants.now) }
    ensures some { IfSome result (λ r. 0 < r.1) }
    ensures none { IfNone result (All (λ one. part_of part one ≡ 0) participants.now) }
{
    let participant = participants
        .iter()
        .rev()
        .max_by_key(|participant| value_of(participant, part))?;
    let most = value_of(participant, part);
    if most == 0 {
        return None;
    }
    Some((*participant, most))
}

/// The most that one of participants asks for of a part; 0 where nobody asks for some.
#[tactic(auto, using(crate::proofs::Counts::greatest_none))]
fn most(participants: &[NamedParticipant<'_>], part: CountPart) -> u64
    ensures is { result ≡ greatest_of (part_of part) participants.now }
    ensures few { result < 2 ^ 32 }
{
    match greatest(participants, part) {
        Some((_, value)) => u64::from(value),
        None => 0,
    }
}

/// How many buffers participants hold together, with the greatest shared slack.
pub fn held(participants: &[NamedParticipant<'_>]) -> u64
    ensures { length participants.now ≤ MOST_COUNTED
        → result ≡ held_together (counts_of participants.now) }
{
    total(participants, CountPart::Camping)
        .saturating_add(total(participants, CountPart::Dedicated))
        .saturating_add(most(participants, CountPart::Shared))
}

/// Who holds them, as a sum of named parts.
pub fn why_held(alloc: Global, participants: &[NamedParticipant<'_>]) -> TextBuilder {
    let mut words = TextBuilder::new(alloc);
    if held(participants) == 0 {
        words.put("nobody asks to hold one");
    }
    put_held(&mut words, participants);
    words
}

/// Puts what participants hold together after a text, as a sum of named parts.
fn put_held(text: &mut TextBuilder, participants: &[NamedParticipant<'_>]) {
    let camping = total(participants, CountPart::Camping);
    let both = camping.saturating_add(total(participants, CountPart::Dedicated));
    put_part(text, "", participants, CountPart::Camping, "camping");
    put_part(
        text,
        mark_after(camping),
        participants,
        CountPart::Dedicated,
        "dedicated slack",
    );
    if let Some((one, value)) = greatest(participants, CountPart::Shared) {
        text.put(mark_after(both)).name(one.called()).put(" ");
        text.put_number(value).put(" (shared slack, the greatest)");
    }
}

/// What stands before a part of a sum, after those that come to this.
fn mark_after(sum: u64) -> &'static str {
    if sum > 0 { " + " } else { "" }
}

fn put_part(
    text: &mut TextBuilder,
    mark: &str,
    participants: &[NamedParticipant<'_>],
    part: CountPart,
    word: &str,
) {
    match parts_of(text.alloc(), participants, part) {
        Ok(parts) if parts.is_empty() => {}
        Ok(parts) if parts.len() > MOST_PARTS => {
            put_many(text, mark, &parts, word, total(participants, part))
        }
        Ok(parts) => put_sum(text, mark, &parts, word),
        Err(AllocError) => text.refuse(),
    }
}

/// Who asks for some of a part, each with how many: `camera 2`.
fn parts_of(
    alloc: Global,
    participants: &[NamedParticipant<'_>],
    part: CountPart,
) -> Result<Vec<Text>, AllocError> {
    let mut parts: ListBuilder<Text> = ListBuilder::new(alloc);
    for participant in participants {
        let value = value_of(participant, part);
        if value > 0 {
            let mut words = TextBuilder::of_name(alloc, participant.called());
            words.put(" ").put_number(value);
            parts.add_text(words);
        }
    }
    parts.done()
}

fn put_many(text: &mut TextBuilder, mark: &str, parts: &[Text], word: &str, sum: u64) {
    text.put(mark).put_number(sum).put(" (").put(word);
    text.put(" of ").put_number(parts.len()).put(": ");
    put_few(text, parts, MOST_PARTS.saturating_sub(1));
    text.put(")");
}

fn put_sum(text: &mut TextBuilder, mark: &str, parts: &[Text], word: &str) {
    let mut before = mark;
    for one in parts {
        text.put(before).put_text(one);
        before = " + ";
    }
    text.put(" (").put(word).put(")");
}

/// The least count that the participants need: what they hold, and no fewer than any of them asks
/// for.
pub fn needed(participants: &[NamedParticipant<'_>]) -> u64
    ensures { length participants.now ≤ MOST_COUNTED
        → result ≡ needed (counts_of participants.now) }
{
    held(participants)
        .max(most(participants, CountPart::Minimum))
        .max(1)
}

/// Puts where that count comes from after a text.
pub(crate) fn put_why(text: &mut TextBuilder, participants: &[NamedParticipant<'_>]) {
    let sum = held(participants);
    if sum >= needed(participants) {
        return put_held(text, participants);
    }
    let Some((one, _)) = greatest(participants, CountPart::Minimum) else {
        text.put("nobody asks for more than one");
        return;
    };
    text.name(one.called())
        .put(" ")
        .field(Field::MinBufferCount);
    if sum > 0 {
        text.put("; held are ").put_number(sum).put(": ");
        put_held(text, participants);
    }
}

/// Whether a line on the count is true of participants; of more than `MOST_COUNTED` only the first
/// are asked.
pub fn is_count_line(field: Field, participants: &[NamedParticipant<'_>]) -> bool
    ensures { length participants.now ≤ MOST_COUNTED
        → IsTrue result ↔ IsCountLine field (counts_of participants.now) }
{
    bounds_of(participants).is_line(field)
}

/// The sentence of a line on the count that is true of participants.
pub fn count_text(
    alloc: Global,
    field: Field,
    participants: &[NamedParticipant<'_>],
) -> TextBuilder {
    let mut words = TextBuilder::new(alloc);
    put_has(&mut words, participants, "needs", "need");
    put_needed(&mut words, participants);
    put_limit(&mut words, field, participants);
    words
}

fn put_needed(text: &mut TextBuilder, participants: &[NamedParticipant<'_>]) {
    text.put(" ")
        .put_number(needed(participants))
        .put(" buffers: ");
    put_why(text, participants)
}

/// Puts the number that the count is above after a text.
fn put_limit(text: &mut TextBuilder, field: Field, participants: &[NamedParticipant<'_>]) {
    if field == Field::BufferCountLimit {
        text.put("; there are at most ")
            .put_number(BUFFER_COUNT_LIMIT);
        return;
    }
    match taking_fewer(text.alloc(), participants, needed(participants)) {
        Ok(those) => put_fewer(text, &those),
        Err(AllocError) => text.refuse(),
    }
}

/// Those who take fewer buffers than so many.
fn taking_fewer<'a>(
    alloc: Global,
    participants: &[NamedParticipant<'a>],
    count: u64,
) -> Result<Vec<NamedParticipant<'a>>, AllocError>
    ensures { IfOk result
        (λ those. those.items ≡ filter (takes_fewer count) participants.now) }
{
    participants
        .iter()
        .copied()
        .filter(|one| u64::from(one.asked.counts().max_buffer_count) < count)
        .collect(alloc)
}

/// Puts how many buffers participants take at most after a text, if they are some.
fn put_fewer(text: &mut TextBuilder, participants: &[NamedParticipant<'_>]) {
    let Some(first) = participants.first() else {
        return;
    };
    let most = first.asked.counts().max_buffer_count;
    text.put("; ");
    if participants
        .iter()
        .all(|one| one.asked.counts().max_buffer_count == most)
    {
        put_has(text, participants, "takes at most", "take at most");
        text.put(" ").put_number(most);
    } else {
        put_each_most(text, participants);
    }
    text.put(" (").field(Field::MaxBufferCount).put(")");
}

/// Puts how many buffers each of participants takes at most after a text.
fn put_each_most(text: &mut TextBuilder, participants: &[NamedParticipant<'_>]) {
    let mut texts: ListBuilder<Text> = ListBuilder::new(text.alloc());
    let mut verb = " takes at most ";
    for one in participants {
        let mut words = TextBuilder::of_name(text.alloc(), one.called());
        words
            .put(verb)
            .put_number(one.asked.counts().max_buffer_count);
        texts.add_text(words);
        verb = " ";
    }
    match texts.done() {
        Ok(texts) => put_few(text, &texts, MOST_PARTS),
        Err(AllocError) => text.refuse(),
    }
}
