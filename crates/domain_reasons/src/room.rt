//! Room in the buffers that were decided, for those who come to them late.

use crate::combinations::{Combination, Taken, combined, own_of};
use explanation_text::wording::put_joined;
use explanation_text::{Items, Label, ListBuilder, Text, TextBuilder};
use script_reading::Act;
use script_story::{Became, Domain, Milestone, Story, asked_in};
use std::alloc::{AllocError, Global};
use sysmem_merge::Settings;
use value_sources::{LeastCount, NamedParticipant, held, why_held};

/// How many who hold nothing any more are told.
const MOST_GONE: usize = 4;

/// The settings of the domain to which one was attached.
pub(crate) fn settings_above<'b>(story: &'b Story<'_>, domain: &Domain) -> Option<&'b Settings> {
    story.domain_of(domain.host?)?.settings.as_ref()
}

/// How many buffers were decided for the domain to which that of an index was attached.
pub fn count_above(story: &Story<'_>, index: usize) -> Option<u32> {
    let settings = settings_above(story, story.domains.get(index)?)?;
    Some(settings.count)
}

/// How many buffers all need together who share those of the domain of an index, where that is more
/// than were decided before it: with the first child of each of its groups, with the children that
/// need the fewest, and with those who come before it and have no room either; each number once.
pub fn rooms_needed(
    alloc: Global,
    story: &Story<'_>,
    index: usize,
) -> Result<Vec<u32>, AllocError> {
    let Some(count) = count_above(story, index) else {
        return Ok(Vec::new(alloc));
    };
    let all = accepted_before(alloc, story, index)?;
    let mut rooms = Vec::new(alloc);
    for which in [Taken::First, Taken::Fewest] {
        add_room(&mut rooms, story, index, which, &all, count)?;
    }
    let all = with_roomless(alloc, story, index, all)?;
    add_room(&mut rooms, story, index, Taken::First, &all, count)?;
    Ok(rooms)
}

/// Adds how many buffers others need together with those of the domain of an index, if such a child
/// is taken of each group, where that is more than this and isn't there.
fn add_room<'a>(
    rooms: &mut Vec<u32>,
    story: &Story<'a>,
    index: usize,
    which: Taken,
    others: &[NamedParticipant<'a>],
    count: u32,
) -> Result<(), AllocError> {
    let alloc = *rooms.allocator();
    let mut all = Vec::from_slice(alloc, others)?;
    all.extend_from_slice(&combined(alloc, story, index, which)?.participants)?;
    let Some(least) = LeastCount::of(&all) else {
        return Ok(());
    };
    match u32::try_from(least.number()) {
        Ok(room) if room > count && !rooms.contains(&room) => {
            rooms.push(room)?;
            Ok(())
        }
        _ => Ok(()),
    }
}

/// Participants, with those of the attached domains before that of an index that are empty.
fn with_roomless<'a>(
    alloc: Global,
    story: &Story<'a>,
    index: usize,
    participants: Vec<NamedParticipant<'a>>,
) -> Result<Vec<NamedParticipant<'a>>, AllocError> {
    let mut all = participants;
    for earlier in &story.order {
        if *earlier == index {
            break;
        }
        if is_empty(story, *earlier) {
            all.extend_from_slice(&combined(alloc, story, *earlier, Taken::First)?.participants)?;
        }
    }
    Ok(all)
}

/// Whether the domain of an index was attached, and has no settings.
fn is_empty(story: &Story<'_>, index: usize) -> bool {
    match story.domains.get(index) {
        Some(domain) => domain.host.is_some() && domain.became == Became::Empty,
        None => false,
    }
}

/// The participants of the collection that were accepted before the domain of an index was decided,
/// and not released or closed before that.
pub fn accepted_before<'a>(
    alloc: Global,
    story: &Story<'a>,
    index: usize,
) -> Result<Vec<NamedParticipant<'a>>, AllocError> {
    accepted(alloc, story, index, true)
}

/// Those who were accepted, and released or closed before the domain of an index was decided: they
/// hold nothing any more.
pub fn gone_before<'a>(
    alloc: Global,
    story: &Story<'a>,
    index: usize,
) -> Result<Vec<NamedParticipant<'a>>, AllocError> {
    accepted(alloc, story, index, false)
}

/// Those who were accepted before the domain of an index was decided: who is there still, or who
/// isn't.
fn accepted<'a>(
    alloc: Global,
    story: &Story<'a>,
    index: usize,
    are_there: bool,
) -> Result<Vec<NamedParticipant<'a>>, AllocError> {
    let decided = match story.domains.get(index) {
        Some(domain) => domain.ended.unwrap_or(usize::MAX),
        None => usize::MAX,
    };
    let mut accepted: ListBuilder<NamedParticipant<'a>> = ListBuilder::new(alloc);
    for earlier in &story.order {
        if *earlier == index {
            break;
        }
        if is_chosen(story, *earlier) {
            add_those(&mut accepted, story, *earlier, decided, are_there)?;
        }
    }
    accepted.done()
}

/// Whether settings were chosen in the domain of an index.
fn is_chosen(story: &Story<'_>, index: usize) -> bool {
    match story.domains.get(index) {
        Some(domain) => domain.became == Became::Chosen,
        None => false,
    }
}

/// Adds those of a domain who are there still before the call of a number, or those who aren't.
fn add_those<'a>(
    accepted: &mut ListBuilder<NamedParticipant<'a>>,
    story: &Story<'a>,
    index: usize,
    number: usize,
    are_there: bool,
) -> Result<(), AllocError> {
    for one in &asked_in(accepted.alloc(), story, index, true)? {
        let end = story.milestone_before(one.node, Milestone::End, number);
        if end.is_none() == are_there {
            accepted.add(*one);
        }
    }
    Ok(())
}

/// Tells how many buffers all need together, those before and those of the domain of an index, where
/// more than were decided: with the first child of each group, and with the children that need the
/// fewest; and who hold none any more.
pub(crate) fn add_lacking(
    items: &mut Items,
    story: &Story<'_>,
    index: usize,
    count: u32,
) -> Result<(), AllocError> {
    let alloc = items.alloc();
    let first = combined(alloc, story, index, Taken::First)?;
    let is_lacking = add_lacking_with(items, story, index, &first, count)?;
    let fewest = combined(alloc, story, index, Taken::Fewest)?;
    if fewest.children != first.children {
        let _is_told = add_lacking_with(items, story, index, &fewest, count)?;
    }
    if is_lacking {
        add_gone(items, story, index)
    } else {
        Ok(())
    }
}

/// Tells the same of those who come together; whether more are needed than were decided.
pub(crate) fn add_lacking_with<'a>(
    items: &mut Items,
    story: &Story<'a>,
    index: usize,
    those: &Combination<'a>,
    count: u32,
) -> Result<bool, AllocError> {
    let alloc = items.alloc();
    let mut all = accepted_before(alloc, story, index)?;
    all.extend_from_slice(&those.participants)?;
    let Some(least) = LeastCount::of(&all) else {
        return Ok(false);
    };
    if least.number() <= u64::from(count) {
        return Ok(false);
    }
    let with = names_of(alloc, story, &those.children)?;
    items.say(1, Label::Count, lacking_text(alloc, &least, &with, count));
    Ok(true)
}

/// The names of nodes.
fn names_of(alloc: Global, story: &Story<'_>, nodes: &[usize]) -> Result<Vec<Text>, AllocError> {
    let mut names = ListBuilder::new(alloc);
    for node in nodes {
        names.add_text(TextBuilder::of_name(alloc, story.called(*node)));
    }
    names.done()
}

/// That so many buffers are too few: `8 buffers are needed, 7 were decided, 1 too few: ..`; with
/// these children, if some are.
fn lacking_text(
    alloc: Global,
    least: &LeastCount<'_, '_>,
    with: &[Text],
    count: u32,
) -> TextBuilder {
    let were = if count == 1 { "was" } else { "were" };
    let lacking = least.number().saturating_sub(u64::from(count));
    let mut words = TextBuilder::new(alloc);
    words
        .value(u128::from(least.number()))
        .put(" buffers are needed");
    if !with.is_empty() {
        words.put(" with ");
        put_joined(&mut words, with, "and");
    }
    words
        .put(", ")
        .put_number(count)
        .put(" ")
        .put(were)
        .put(" decided, ")
        .put_number(lacking)
        .put(" too few: ")
        .put_words(&least.why(alloc));
    words
}

/// Tells how many of the buffers are held with those of an attached domain that is chosen, how many
/// are left, and who hold none any more.
pub(crate) fn add_left(
    items: &mut Items,
    story: &Story<'_>,
    index: usize,
) -> Result<(), AllocError> {
    let Some(count) = count_above(story, index) else {
        return Ok(());
    };
    let alloc = items.alloc();
    let mut all = accepted_before(alloc, story, index)?;
    all.extend_from_slice(&asked_in(alloc, story, index, true)?)?;
    items.say(1, Label::Count, left_text(alloc, &all, count));
    add_gone(items, story, index)
}

/// How many buffers are held of so many, and how many are left:
/// `6 of 7 buffers are held, 1 is left: root 2 + screen 2 + first 2 (camping)`.
fn left_text(alloc: Global, all: &[NamedParticipant<'_>], count: u32) -> TextBuilder {
    let taken = held(all);
    let mut words = TextBuilder::new(alloc);
    words.value(u128::from(taken)).put(" of ").put_number(count);
    words.put(if count == 1 { " buffer " } else { " buffers " });
    words.put(if taken == 1 || count == 1 {
        "is held, "
    } else {
        "are held, "
    });
    match u64::from(count).saturating_sub(taken) {
        0 => words.put("none is left: "),
        1 => words.put("1 is left: "),
        left => words.put_number(left).put(" are left: "),
    };
    words.put_words(&why_held(alloc, all));
    words
}

/// Tells who held some of the buffers and was released or closed before the domain of an index was
/// decided.
fn add_gone(items: &mut Items, story: &Story<'_>, index: usize) -> Result<(), AllocError> {
    let alloc = items.alloc();
    let mut count = 0usize;
    for one in &gone_before(alloc, story, index)? {
        let own = own_of(one);
        if own == 0 {
            continue;
        }
        if count < MOST_GONE {
            items.say(2, Label::Plain, gone_text(alloc, story, *one, own));
        }
        count = count.saturating_add(1);
    }
    add_more(items, count.saturating_sub(MOST_GONE));
    Ok(())
}

/// Tells how many more hold nothing any more, if there are any.
fn add_more(items: &mut Items, more: usize) {
    if more == 0 {
        return;
    }
    let mut words = TextBuilder::new(items.alloc());
    words
        .put_number(more)
        .put(" more held some, and are gone too");
    items.say(2, Label::Plain, words)
}

/// Until when somebody held so many: `first held 2 until call 11 released it`.
fn gone_text(alloc: Global, story: &Story<'_>, one: NamedParticipant<'_>, own: u64) -> TextBuilder {
    let number = story.milestone(one.node, Milestone::End).unwrap_or(0);
    let mut words = TextBuilder::of_name(alloc, one.called());
    words.put(" held ").put_number(own).put(" until call ");
    words.call(number).put(how_ended(story, number));
    words
}

/// What the call of a number did to the participant that it ended.
fn how_ended(story: &Story<'_>, number: usize) -> &'static str {
    match story.call(number) {
        Some(call) if matches!(call.act, Act::Close) => " closed it",
        _ => " released it",
    }
}
