//! What a node is and what its participant asks, in short, and how it stands with its domain's
//! decision.

use bitflags::Flags;
use explanation_text::wording::{put_count, put_few};
use explanation_text::{Standing, TextBuilder};
use negotiation_inputs::Constraints;
use script_reading::Act;
use script_story::{Became, Milestone, Story};
use std::alloc::{AllocError, Global};
use sysmem_counts::Usage;
use sysmem_image::Entry;
use sysmem_tree::NodeKind;

/// How many formats are named.
const MOST_FORMATS: usize = 3;

/// How a node stands with its domain's decision, with a word for it.
pub(crate) fn standing_of<'b>(
    story: &'b Story<'_>,
    node: usize,
    is_in_the_way: bool,
) -> (Standing, &'b str) {
    let Some(domain) = story.domain_of(node) else {
        return (Standing::Plain, "");
    };
    match domain.became {
        Became::Pending if story.is_awaited(node, usize::MAX) => (Standing::Open, "awaited"),
        Became::Pending => (Standing::Plain, ""),
        Became::Chosen if story.is_selected(node) => (Standing::Chosen, "selected"),
        Became::Chosen => (Standing::Plain, "not selected"),
        Became::Empty if is_in_the_way => (Standing::Bad, "in the way"),
        other if domain.root == node => (Standing::Bad, other.word()),
        _ => (Standing::Plain, ""),
    }
}

/// What a node is, and what its participant asks.
pub(crate) fn state_of(alloc: Global, story: &Story<'_>, node: usize) -> TextBuilder {
    let mut words = TextBuilder::new(alloc);
    match story.kind_before(node, usize::MAX) {
        NodeKind::Token => {
            words.put("token");
        }
        NodeKind::Group => {
            words.put("group of ");
            match story.children(alloc, node) {
                Ok(children) => put_count(&mut words, children.len(), "child", "children"),
                Err(AllocError) => words.refuse(),
            }
            if story.milestone(node, Milestone::Complete).is_none() {
                words.put(", not complete");
            }
        }
        NodeKind::Collection => put_asked(&mut words, story, node),
    }
    put_end(&mut words, story, node);
    words
}

/// Puts by which call a node ended after a text.
fn put_end(text: &mut TextBuilder, story: &Story<'_>, node: usize) {
    let Some(number) = story.milestone(node, Milestone::End) else {
        return;
    };
    let how = match story.call(number) {
        Some(call) if matches!(call.act, Act::Close) => "closed",
        _ => "released",
    };
    text.put(", ").put(how).put(" by call ").put_number(number);
}

/// Puts what the participant of a collection asks after a text.
fn put_asked(text: &mut TextBuilder, story: &Story<'_>, node: usize) {
    text.put("collection");
    let Some(number) = story.milestone(node, Milestone::SetConstraints) else {
        text.put(", nothing set");
        return;
    };
    let asked = match story.nodes.get(node) {
        Some(known) => known.constraints,
        None => None,
    };
    match asked {
        Some(asked) => {
            text.put(" (call ").put_number(number).put("):");
            put_usage(text, asked.usage());
            put_counts(text, asked);
            put_formats(text, asked.entries())
        }
        None => {
            text.put(", no constraints (call ")
                .put_number(number)
                .put(")");
        }
    }
}

/// Puts how many buffers a participant holds after a text.
fn put_counts(text: &mut TextBuilder, asked: &Constraints) {
    let counts = asked.counts();
    let held = (counts.min_buffer_count_for_camping as usize).saturating_add(
        counts.min_buffer_count_for_dedicated_slack as usize,
    );
    if held == 0 {
        return;
    }
    text.put("; ");
    put_count(text, held, "buffer", "buffers")
}

/// Puts what a participant uses the buffers for after a text.
fn put_usage(text: &mut TextBuilder, usage: Usage) {
    for (name, _) in usage.iter_names() {
        text.put(" ").put(name);
    }
}

/// Puts which formats a participant takes after a text.
fn put_formats(text: &mut TextBuilder, entries: &[Entry]) {
    match formats_in(text.alloc(), entries) {
        Ok(names) if names.is_empty() => {}
        Ok(names) => {
            text.put("; ");
            put_few(text, &names, MOST_FORMATS)
        }
        Err(AllocError) => text.refuse(),
    }
}

/// The names of the formats that entries take, each once.
fn formats_in(alloc: Global, entries: &[Entry]) -> Result<Vec<&'static str>, AllocError> {
    let mut names: Vec<&'static str> = Vec::new(alloc);
    for entry in entries {
        let name = match entry.format {
            Some(format) => format.name(),
            None => "any format",
        };
        if !names.contains(&name) {
            names.push(name)?;
        }
    }
    Ok(names)
}
