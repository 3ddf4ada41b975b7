//! Single changes by which a chosen domain would have what is preferred to what it has, or memory
//! of a kind that would do too, each found by trying it.

mod alike;
mod children;
mod colours;
mod counts;
mod heaps;
mod kinds;
mod pairs;
mod party;
mod places;
mod telling;
mod wish;

use crate::preferred::children::{try_groups, try_late_groups};
use crate::preferred::colours::try_colours;
use crate::preferred::heaps::try_later_heaps;
use crate::preferred::kinds::try_kinds;
use crate::preferred::pairs::try_pairs;
use crate::preferred::places::{try_other_domain, try_places};
pub use crate::preferred::telling::ToldChange;
use crate::preferred::telling::{Found, Untried};
use crate::preferred::wish::{Goal, Wish};
use crate::trials::Group;
use constraint_edits::Edit;
use explanation_text::wording::{put_count, put_joined};
use explanation_text::{Items, Label, ListBuilder, Text, TextBuilder};
use script_story::asked_in;
use std::alloc::AllocError;

/// Tells of a domain that is chosen the changes of one field of one participant by which another
/// would come: a child, a pair, its colour space or a place that comes before the chosen one, or a
/// place that would do too and is contiguous, secure, of another coherency domain, or of a later
/// heap; of an attached domain, which has the initial one's image and place, a child alone. Each
/// with the decision that would come: the line of the report of the changed script. A note counts
/// what wasn't tried, since enough was. Gives the changes.
pub fn list_preferred(
    items: &mut Items,
    group: Group<'_, '_>,
    index: usize,
    edits: &[Edit],
) -> Result<Vec<ToldChange>, AllocError> {
    let alloc = items.alloc();
    let Some(domain) = group.story.domains.get(index) else {
        return Ok(Vec::new(alloc));
    };
    if !domain.told.is_chosen() {
        return Ok(Vec::new(alloc));
    }
    let mut found = Found::new(alloc);
    let is_late = domain.host.is_some();
    let wish = Wish {
        group,
        now: &domain.told,
        goal: if is_late {
            Goal::LateChild
        } else {
            Goal::Child
        },
    };
    if is_late {
        try_late_groups(&mut found, wish, edits)?;
    } else {
        try_groups(&mut found, wish, group, edits)?;
        try_settings(&mut found, wish, index, edits)?;
    }
    put_head(items, &found);
    let Found {
        items: list,
        told,
        made: _,
        count: _,
        runs: _,
        untried,
    } = found;
    items.append(list);
    put_untried(items, untried)?;
    Ok(told)
}

/// Puts how many children, images and places weren't tried, if some weren't.
fn put_untried(items: &mut Items, untried: Untried) -> Result<(), AllocError> {
    let alloc = items.alloc();
    let mut kinds: ListBuilder<Text> = ListBuilder::new(alloc);
    add_kind(
        &mut kinds,
        untried.children,
        "other child",
        "other children",
    );
    add_kind(&mut kinds, untried.images, "other image", "other images");
    add_kind(&mut kinds, untried.places, "other place", "other places");
    let kinds = kinds.done()?;
    if kinds.is_empty() {
        return Ok(());
    }
    let mut words = TextBuilder::new(alloc);
    put_joined(&mut words, &kinds, "and");
    words.put(if untried.sum() == 1 {
        " wasn't tried"
    } else {
        " weren't tried"
    });
    items.say(1, Label::Note, words);
    Ok(())
}

/// Adds how many of a kind weren't tried, if some weren't.
fn add_kind(kinds: &mut ListBuilder<Text>, count: usize, one: &str, many: &str) {
    if count > 0 {
        let mut words = TextBuilder::new(kinds.alloc());
        put_count(&mut words, count, one, many);
        kinds.add_text(words);
    }
}

/// Tries what would let another pair or place be chosen in an initial domain.
fn try_settings(
    found: &mut Found,
    wish: Wish<'_, '_>,
    index: usize,
    edits: &[Edit],
) -> Result<(), AllocError> {
    let selected = asked_in(found.items.alloc(), wish.group.story, index, true)?;
    try_kinds(found, wish, &selected)?;
    try_pairs(found, wish, &selected, edits)?;
    try_colours(found, wish, &selected)?;
    try_places(found, wish, &selected)?;
    try_later_heaps(found, wish, &selected)?;
    try_other_domain(found, wish, &selected)
}

fn put_head(items: &mut Items, found: &Found) {
    let words = match found.count {
        0 => return,
        1 => "by this another would be chosen:",
        _ => "by one of these another would be chosen:",
    };
    items.list_text(1, Label::Change, words)
}
