//! What became of each domain, and why.

use crate::awaiting::add_pending;
use crate::choosing::add_choice;
use crate::failing::{add_failed, add_none, add_too_many};
use explanation_text::wording::put_few;
use explanation_text::{Fact, Items, Kind, Label, ListBuilder, Text, TextBuilder};
use negotiation_inputs::Platform;
use script_reading::Act;
use script_story::{Became, Domain, Milestone, Story, asked_in, left_out, put_domain};
use serde_json::Value;
use std::alloc::{AllocError, Global};
use value_sources::NamedParticipant;

/// How many participants are named.
const MOST_WHO: usize = 8;

/// How many are named who take no part.
const MOST_PARTLESS: usize = 4;

/// Tells what became of the domain of an index, and why.
pub fn add_domain(
    items: &mut Items,
    platform: &Platform,
    story: &Story<'_>,
    index: usize,
) -> Result<(), AllocError> {
    let Some(domain) = story.domains.get(index) else {
        return Ok(());
    };
    put_title(items, story, domain);
    match domain.became {
        Became::Pending => add_pending(items, story, index, domain),
        Became::Failed => {
            add_failed(items, story, domain);
            Ok(())
        }
        Became::TooMany => {
            add_too_many(items, story, index);
            Ok(())
        }
        Became::Chosen => add_chosen(items, platform, story, index, domain),
        Became::Empty | Became::NoMemory => {
            add_who(items, story, index, false)?;
            add_none(items, platform, story, index, domain)
        }
    }
}

fn add_chosen(
    items: &mut Items,
    platform: &Platform,
    story: &Story<'_>,
    index: usize,
    domain: &Domain,
) -> Result<(), AllocError> {
    add_who(items, story, index, true)?;
    domain.told.tell(items, 1);
    add_choice(items, platform, story, index, domain)?;
    add_partless(items, story, index)
}

/// Tells who has constraints in a domain that is chosen and takes no part, since it stands below a
/// child that isn't chosen.
fn add_partless(items: &mut Items, story: &Story<'_>, index: usize) -> Result<(), AllocError> {
    let alloc = items.alloc();
    let mut left = MOST_PARTLESS;
    for participant in &asked_in(alloc, story, index, false)? {
        let node = participant.node;
        if left == 0 || story.is_selected(node) || is_child(story, node) {
            continue;
        }
        left = left.saturating_sub(1);
        let mut words = left_out(alloc, story, node);
        words.put(": it takes no part");
        items.say(1, Label::Note, words);
    }
    Ok(())
}

/// Whether a node is the child of a group.
fn is_child(story: &Story<'_>, node: usize) -> bool {
    match story.parent(node) {
        Some(parent) => story.is_group(parent),
        None => false,
    }
}

/// The title of a domain's section:
/// `domain / (root): chosen, after call 7 (set_constraints encoder)`.
fn put_title(items: &mut Items, story: &Story<'_>, domain: &Domain) {
    let mut words = TextBuilder::new(items.alloc());
    put_domain(&mut words, story, domain.root);
    words.put(": ").put(domain.became.word());
    if let Some(number) = domain.ended {
        put_ended(&mut words, story, number);
    }
    words.tell(Fact::Domain(domain.became.standing()));
    items.push(Kind::Title, 0, Label::Plain, words)
}

/// Puts after which call a verdict came after a text.
fn put_ended(text: &mut TextBuilder, story: &Story<'_>, number: usize) {
    text.put(", after call ").call(number);
    if let Some(call) = story.call(number) {
        text.put(" (").put(call.name()).put(" ");
        call.put_on(text);
        text.put(")");
    }
}

/// Tells who has constraints in a domain, of one that is chosen those who are selected.
fn add_who(
    items: &mut Items,
    story: &Story<'_>,
    index: usize,
    are_selected: bool,
) -> Result<(), AllocError> {
    let alloc = items.alloc();
    let participants = asked_in(alloc, story, index, are_selected)?;
    items.say(1, Label::Who, who_text(alloc, story, &participants));
    Ok(())
}

/// Participants in words.
fn who_text(
    alloc: Global,
    story: &Story<'_>,
    participants: &[NamedParticipant<'_>],
) -> TextBuilder {
    if participants.is_empty() {
        return TextBuilder::of(alloc, "nobody has constraints");
    }
    let mut names: ListBuilder<Text> = ListBuilder::new(alloc);
    for participant in participants {
        names.add_text(who(alloc, story, participant.node));
    }
    let mut words = TextBuilder::new(alloc);
    match names.done() {
        Ok(names) => put_few(&mut words, &names, MOST_WHO),
        Err(AllocError) => words.refuse(),
    }
    words
}

/// A participant with its path, its actor and what it uses the buffers for:
/// `camera /0 (actor camera, usage video)`.
fn who(alloc: Global, story: &Story<'_>, node: usize) -> TextBuilder {
    let mut words = TextBuilder::of_name(alloc, story.called(node));
    words.put(" ").put(story.path(node));
    if let Some(number) = story.milestone(node, Milestone::SetConstraints) {
        put_setter(&mut words, story, node, number);
        put_usage(&mut words, story, number);
        words.put(")");
    }
    words
}

/// Puts who set a node's constraints after a text, and who bound it where that is somebody else.
fn put_setter(text: &mut TextBuilder, story: &Story<'_>, node: usize, number: usize) {
    let setter = story.actor(number);
    match story.milestone(node, Milestone::Bind) {
        Some(bound) if story.actor(bound) != setter => {
            let binder = story.actor(bound);
            text.put(" (bound by ")
                .put(binder)
                .put(", set by ")
                .put(setter)
        }
        _ => text.put(" (actor ").put(setter),
    };
}

/// Puts the usage that a call states after a text.
fn put_usage(text: &mut TextBuilder, story: &Story<'_>, number: usize) {
    let Some(usages) = usages_of(story, number) else {
        return;
    };
    text.put(", usage");
    for usage in usages.iter().take(5) {
        text.put(" ").put(usage.as_str().unwrap_or(""));
    }
}

/// The usages that a call states, if it states a list of them.
fn usages_of<'a>(story: &Story<'a>, number: usize) -> Option<&'a [Value]> {
    match story.call(number)?.act {
        Act::SetConstraints(Some(stated)) => Some(
            stated.value().get("usage")?.as_array()?.as_slice(),
        ),
        _ => None,
    }
}
