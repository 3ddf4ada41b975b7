//! Why a domain has no decision that chooses: it failed, has too many selections, or has no
//! settings.

use crate::choosing::groups_in;
use crate::room::{accepted_before, add_lacking, settings_above};
use crate::selecting::{DomainView, MOST_TOLD, add_empty};
use explanation_text::wording::{MOST_NAMES, put_few};
use explanation_text::{Items, Label, ListBuilder, Name, Text, TextBuilder};
use negotiation_inputs::Platform;
use script_reading::Act;
use script_story::{Became, Domain, MadeCall, Story, asked_in, left_out};
use settings_reasons::{failing, list_misfits};
use std::alloc::{AllocError, Global};
use sysmem_counts::Field;
use sysmem_merge::Settings;
use value_sources::NamedParticipant;

/// Tells why a domain failed.
pub(crate) fn add_failed(items: &mut Items, story: &Story<'_>, domain: &Domain) {
    let alloc = items.alloc();
    let words = match closing(story, domain) {
        Some(call) => why_of_close(alloc, story, domain, call),
        None => match domain.host {
            Some(host) => why_of_host(alloc, story, host),
            None => return,
        },
    };
    items.say(1, Label::Why, words)
}

/// Why a domain failed that a call closed.
fn why_of_close(
    alloc: Global,
    story: &Story<'_>,
    domain: &Domain,
    call: &MadeCall<'_>,
) -> TextBuilder {
    let mut words = TextBuilder::of(alloc, call.actor);
    words.put(" closed ");
    call.put_on(&mut words);
    words.put(" while ");
    put_awaited(&mut words, story, domain);
    words.put(" still awaited: a close then fails its domain, a release doesn't");
    words
}

/// Puts for whom a domain waited when the call was made after which it failed after a text: `camera
/// and encoder were`.
fn put_awaited(text: &mut TextBuilder, story: &Story<'_>, domain: &Domain) {
    match awaited_names(text.alloc(), story, domain) {
        Ok(names) => put_waiting(text, &names),
        Err(AllocError) => text.refuse(),
    }
}

/// The names of those for whom a domain waited then.
fn awaited_names<'a>(
    alloc: Global,
    story: &Story<'a>,
    domain: &Domain,
) -> Result<Vec<Name<'a>>, AllocError> {
    let number = domain.ended.unwrap_or(0);
    let index = match story.nodes.get(domain.root) {
        Some(root) => root.domain,
        None => 0,
    };
    let awaited = story.awaited(alloc, index, number)?;
    story.names(alloc, &awaited)
}

/// Puts who were awaited after a text; nobody but the domain above where there are no names.
fn put_waiting(text: &mut TextBuilder, names: &[Name<'_>]) {
    if names.is_empty() {
        text.put("the domain that it was attached to was");
        return;
    }
    put_few(text, names, MOST_NAMES);
    text.put(if names.len() == 1 { " was" } else { " were" });
}

/// The call after which a domain failed, if it closes one of its nodes.
fn closing<'b, 'a>(story: &'b Story<'a>, domain: &Domain) -> Option<&'b MadeCall<'a>> {
    let call = story.call(domain.ended?)?;
    let closed = story.domain_of(call.node?)?;
    if matches!(call.act, Act::Close) && closed.root == domain.root {
        Some(call)
    } else {
        None
    }
}

/// Why a domain failed that was attached to a node.
fn why_of_host(alloc: Global, story: &Story<'_>, host: usize) -> TextBuilder {
    let mut words = TextBuilder::of(alloc, "it was attached to ");
    words.name(story.called(host));
    let Some(above) = story.domain_of(host) else {
        return words;
    };
    match above.became {
        Became::Failed => words.put(", whose domain failed"),
        Became::Chosen => words.put(": ").put_words(&left_out(alloc, story, host)),
        other => words.put(", whose domain is ").put(other.word()),
    };
    words
}

/// Tells how many selections there are, and the groups' children that make them.
pub(crate) fn add_too_many(items: &mut Items, story: &Story<'_>, index: usize) {
    let alloc = items.alloc();
    items.list_text(
        1,
        Label::Why,
        "the groups' children make more selections than the 4096 that are tried",
    );
    items.say(1, Label::Groups, groups_text(alloc, story, index))
}

/// A domain's groups, and how many children each has.
fn groups_text(alloc: Global, story: &Story<'_>, index: usize) -> TextBuilder {
    let mut words = TextBuilder::of(alloc, "children: ");
    match groups_of(alloc, story, index) {
        Ok(parts) => put_few(&mut words, &parts, 12),
        Err(AllocError) => words.refuse(),
    }
    words
}

/// Each of a domain's groups, with how many children it has.
fn groups_of(alloc: Global, story: &Story<'_>, index: usize) -> Result<Vec<Text>, AllocError> {
    let mut parts: ListBuilder<Text> = ListBuilder::new(alloc);
    for group in &groups_in(alloc, story, index)? {
        parts.add_text(children_of(alloc, story, *group));
    }
    parts.done()
}

/// How many children a group has: `layouts 2`.
fn children_of(alloc: Global, story: &Story<'_>, group: usize) -> TextBuilder {
    let mut words = TextBuilder::of_name(alloc, story.called(group));
    match story.children(alloc, group) {
        Ok(children) => {
            words.put(" ").put_number(children.len());
        }
        Err(AllocError) => words.refuse(),
    }
    words
}

/// Tells why a domain has no settings.
pub(crate) fn add_none(
    items: &mut Items,
    platform: &Platform,
    story: &Story<'_>,
    index: usize,
    domain: &Domain,
) -> Result<(), AllocError> {
    if domain.host.is_some() {
        return add_late(items, platform, story, index, domain);
    }
    let empty = DomainView {
        platform,
        story,
        root: domain.root,
        late: None,
    };
    let mut told = 0usize;
    add_empty(items, 1, empty, &[], &mut told, story.nodes.len())?;
    if told >= MOST_TOLD {
        items.list_text(1, Label::Plain, "further selections fail too");
    }
    Ok(())
}

/// Tells why settings that were decided before don't suit those of an attached domain.
fn add_late(
    items: &mut Items,
    platform: &Platform,
    story: &Story<'_>,
    index: usize,
    domain: &Domain,
) -> Result<(), AllocError> {
    let Some(settings) = settings_above(story, domain) else {
        return Ok(());
    };
    let participants = asked_in(items.alloc(), story, index, false)?;
    let before = accepted_before(items.alloc(), story, index)?;
    add_lacking(items, story, index, settings.count)?;
    add_fewer(items, &participants, settings.count);
    add_unsuited(items, platform, &participants, &before, settings)
}

/// Tells in which fields settings fail participants, where they fail one.
pub(crate) fn add_unsuited(
    items: &mut Items,
    platform: &Platform,
    participants: &[NamedParticipant<'_>],
    before: &[NamedParticipant<'_>],
    settings: &Settings,
) -> Result<(), AllocError> {
    let alloc = items.alloc();
    for participant in participants {
        if !failing(alloc, platform, settings, participant.asked)?.is_empty() {
            return list_misfits(items, platform, participants, before, settings);
        }
    }
    Ok(())
}

/// Tells who takes fewer buffers than were decided.
pub(crate) fn add_fewer(items: &mut Items, participants: &[NamedParticipant<'_>], count: u32) {
    for participant in participants {
        let most = participant.asked.counts().max_buffer_count;
        if most < count {
            let mut words = TextBuilder::of_name(items.alloc(), participant.called());
            words.put(" takes at most ").put_number(most);
            words
                .put(" buffers (")
                .field(Field::MaxBufferCount)
                .put("), ");
            words.put_number(count).put(" were decided");
            items.say(1, Label::Count, words);
        }
    }
}
