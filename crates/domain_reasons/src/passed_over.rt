//! Children of groups after the chosen one that couldn't have been chosen.

use crate::selecting::{Choice, DomainView, SelectedNodes, open_group, reach, with_choice};
use explanation_text::{Items, Label, TextBuilder};
use settings_reasons::{add_conflict, is_unmet};
use std::alloc::{AllocError, Global};

/// How many of them are told.
const MOST: usize = 3;

/// Tells of the children after the chosen one of each group in a chosen selection why those
/// couldn't have been chosen that nothing meets.
pub(crate) fn add_passed_over(
    items: &mut Items,
    empty: DomainView<'_, '_>,
) -> Result<(), AllocError> {
    let alloc = items.alloc();
    let mut choices: Vec<Choice> = Vec::new(alloc);
    let mut told = 0usize;
    for _group in 0..empty.story.nodes.len() {
        let Some(chosen) = next_chosen(alloc, empty, &choices)? else {
            break;
        };
        add_later(items, empty, &choices, &mut told, chosen)?;
        choices.push(chosen)?;
    }
    Ok(())
}

/// The choice that was made of the first group of which these choose no child.
pub(crate) fn next_chosen(
    alloc: Global,
    empty: DomainView<'_, '_>,
    choices: &[Choice],
) -> Result<Option<Choice>, AllocError> {
    match open_group(alloc, empty, choices)? {
        Some(group) => chosen_of(alloc, empty, group),
        None => Ok(None),
    }
}

/// The child that a group chose.
fn chosen_of(
    alloc: Global,
    empty: DomainView<'_, '_>,
    group: usize,
) -> Result<Option<Choice>, AllocError> {
    for child in &empty.story.children(alloc, group)? {
        if empty.story.is_selected(*child) {
            let child = *child;
            return Ok(Some(Choice { group, child }));
        }
    }
    Ok(None)
}

/// Tells why the children of a group after the chosen one can't be met, of those that can't.
fn add_later(
    items: &mut Items,
    empty: DomainView<'_, '_>,
    choices: &[Choice],
    told: &mut usize,
    chosen: Choice,
) -> Result<(), AllocError> {
    let children = empty.story.children(items.alloc(), chosen.group)?;
    let mut is_later = false;
    for child in &children {
        if is_later && *told < MOST {
            add_unmet(items, empty, choices, told, chosen, *child)?;
        }
        is_later = is_later || *child == chosen.child;
    }
    Ok(())
}

/// Tells why a child can't be met in the place of the chosen one, if nothing meets it.
fn add_unmet(
    items: &mut Items,
    empty: DomainView<'_, '_>,
    choices: &[Choice],
    told: &mut usize,
    chosen: Choice,
    child: usize,
) -> Result<(), AllocError> {
    let alloc = items.alloc();
    let longer = with_choice(alloc, choices, chosen.group, child)?;
    let reached = reach(alloc, empty, &longer)?;
    if !is_unmet(alloc, empty.platform, &reached.participants)? {
        return Ok(());
    }
    *told = told.saturating_add(1);
    add_why(items, empty, chosen, child, &reached)
}

/// Tells why a child can't be met in the place of the chosen one, which leaves these.
fn add_why(
    items: &mut Items,
    empty: DomainView<'_, '_>,
    chosen: Choice,
    child: usize,
    reached: &SelectedNodes<'_>,
) -> Result<(), AllocError> {
    let (later, before) = (empty.story.called(child), empty.story.called(chosen.child));
    let mut words = TextBuilder::of_name(items.alloc(), later);
    words
        .put(", which comes after ")
        .name(before)
        .put(", can't be met")
        .head();
    items.say(2, Label::Plain, words);
    add_conflict(
        items,
        3,
        empty.platform,
        &reached.participants,
        reached.open.is_none(),
    )
}
