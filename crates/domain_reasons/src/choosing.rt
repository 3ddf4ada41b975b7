//! What was chosen in a domain, and what decided it.

use crate::late_choices::add_late_left_out;
use crate::passed_over::add_passed_over;
use crate::room::add_left;
use crate::selecting::{Choice, DomainView, add_left_out, choices_of};
use explanation_text::wording::put_few;
use explanation_text::{Items, Label, ListBuilder, Text, TextBuilder};
use negotiation_inputs::Platform;
use script_story::{Domain, Story, asked_in, put_domain};
use settings_reasons::add_settings;
use std::alloc::{AllocError, Global};

/// How many choices are named.
pub(crate) const MOST_CHOICES: usize = 6;

/// Tells what was chosen in a domain, and why: of an attached one as far as it isn't the initial
/// one's.
pub(crate) fn add_choice(
    items: &mut Items,
    platform: &Platform,
    story: &Story<'_>,
    index: usize,
    domain: &Domain,
) -> Result<(), AllocError> {
    add_children(items, story, domain)?;
    let selections = DomainView {
        platform,
        story,
        root: domain.root,
        late: None,
    };
    if let Some(host) = domain.host {
        add_late_left_out(items, selections, index, domain)?;
        add_from(items, story, host);
        return add_left(items, story, index);
    }
    add_left_out(items, selections)?;
    add_passed_over(items, selections)?;
    let participants = asked_in(items.alloc(), story, index, true)?;
    match &domain.settings {
        Some(settings) => add_settings(items, platform, &participants, settings),
        None => Ok(()),
    }
}

/// Tells from which domain an attached one has its settings.
fn add_from(items: &mut Items, story: &Story<'_>, host: usize) {
    let mut words = TextBuilder::new(items.alloc());
    if let Some(above) = story.domain_of(host) {
        put_domain(&mut words, story, above.root);
    }
    words.put(", unchanged: these accept its settings");
    items.say(1, Label::From, words)
}

/// Tells which child was chosen of each group that is selected.
fn add_children(items: &mut Items, story: &Story<'_>, domain: &Domain) -> Result<(), AllocError> {
    let alloc = items.alloc();
    let texts = children_of(alloc, story, domain)?;
    if texts.is_empty() {
        return Ok(());
    }
    let mut words = TextBuilder::new(alloc);
    put_few(&mut words, &texts, MOST_CHOICES);
    items.say(1, Label::Choice, words);
    Ok(())
}

/// The child that was chosen of each group of a domain that is selected, in the order of the
/// report's line.
fn children_of(alloc: Global, story: &Story<'_>, domain: &Domain) -> Result<Vec<Text>, AllocError> {
    let mut texts: ListBuilder<Text> = ListBuilder::new(alloc);
    for choice in &choices_of(alloc, story, domain.root, domain.told.selection())? {
        texts.add_text(choice_text(alloc, story, *choice)?);
    }
    texts.done()
}

/// The groups of a domain.
pub(crate) fn groups_in(
    alloc: Global,
    story: &Story<'_>,
    index: usize,
) -> Result<Vec<usize>, AllocError> {
    let mut groups = Vec::new(alloc);
    for (number, node) in story.nodes.iter().enumerate() {
        if node.domain == index && story.is_group(number) {
            groups.push(number)?;
        }
    }
    Ok(groups)
}

/// A group with its chosen child: `layouts: tiled (first of 2)`.
fn choice_text(
    alloc: Global,
    story: &Story<'_>,
    choice: Choice,
) -> Result<TextBuilder, AllocError> {
    let children = story.children(alloc, choice.group)?;
    let is_first = children.first().copied() == Some(choice.child);
    let mut words = TextBuilder::of_name(alloc, story.called(choice.group));
    words.put(": ").name(story.called(choice.child));
    if is_first && children.len() > 1 {
        words.put(" (first of ").put_number(children.len()).put(")");
    }
    Ok(words)
}
