//! The calls by actor, and the decisions where they came.

use crate::page::drawing::joints::add_joints;
use explanation_text::{Drawing, Line, Standing, TextBuilder};
use negotiation_inputs::Platform;
use script_story::{Became, Domain, MadeCall, Story};
use std::alloc::{AllocError, Global};

/// What a page shows of a story, but for what proves its decisions.
pub(crate) fn drawing_of<'b>(
    alloc: Global,
    platform: &Platform,
    story: &'b Story<'_>,
) -> Result<Drawing<'b>, AllocError> {
    let mut drawing = Drawing::new(alloc);
    add_joints(alloc, &mut drawing, platform, story)?;
    for (index, call) in story.calls.iter().enumerate() {
        let number = index.saturating_add(1);
        add_call(alloc, &mut drawing, call, number)?;
        add_decisions(alloc, &mut drawing, story, Some(number))?;
    }
    add_decisions(alloc, &mut drawing, story, None)?;
    Ok(drawing)
}

/// Adds a line for a call.
fn add_call<'b>(
    alloc: Global,
    drawing: &mut Drawing<'b>,
    call: &MadeCall<'b>,
    number: usize,
) -> Result<(), AllocError> {
    let actor = drawing.column(call.actor)?;
    drawing.lines.push(Line {
        number: Some(number),
        actor,
        words: words_of(alloc, call).done()?,
        standing: if call.is_accepted() || call.asks() {
            Standing::Plain
        } else {
            Standing::Bad
        },
    })?;
    Ok(())
}

/// Adds the domains that ended after this call, or those that have no verdict, in the order of the
/// report.
fn add_decisions(
    alloc: Global,
    drawing: &mut Drawing<'_>,
    story: &Story<'_>,
    after: Option<usize>,
) -> Result<(), AllocError> {
    for (k, index) in story.order.iter().enumerate() {
        let is_again = story.order.get(..k).unwrap_or(&[]).contains(index);
        let Some(domain) = story.domains.get(*index) else {
            continue;
        };
        if domain.ended == after && !is_again {
            drawing.lines.push(line_of(alloc, story, domain)?)?;
        }
    }
    Ok(())
}

/// The report's line on a domain.
fn line_of(alloc: Global, story: &Story<'_>, domain: &Domain) -> Result<Line, AllocError> {
    let mut words = TextBuilder::of(alloc, "domain ");
    words
        .put(story.path(domain.root))
        .put(" ")
        .put(&domain.told.said);
    Ok(Line {
        number: None,
        actor: 0,
        words: words.done()?,
        standing: domain.became.standing(),
    })
}

/// A call in words, with its reply where that isn't `ok`.
fn words_of(alloc: Global, call: &MadeCall<'_>) -> TextBuilder {
    let mut words = TextBuilder::of(alloc, call.name());
    words.put(" ").put(call.on);
    if let Some(made) = call.act.name_made() {
        words.put(" ").put(made);
    }
    if !call.is_accepted() {
        words.put(": ");
        call.put_reply(&mut words);
    }
    words
}
