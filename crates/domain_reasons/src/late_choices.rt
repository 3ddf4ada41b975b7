//! Children of groups before the chosen one, where an attached domain has the settings of another.

use crate::combinations::Combination;
use crate::failing::{add_fewer, add_unsuited};
use crate::passed_over::next_chosen;
use crate::room::{accepted_before, add_lacking_with, settings_above};
use crate::selecting::{Choice, DomainView, add_empty, with_choice};
use explanation_text::{Items, Label, TextBuilder};
use script_story::{Domain, Story};
use std::alloc::AllocError;
use sysmem_merge::Settings;
use value_sources::NamedParticipant;

/// How many lines are told of a child.
const MOST: usize = 12;

/// How many of them are told of those who come together.
const MOST_TOGETHER: usize = 4;

/// The index of a domain that was attached, and the settings that it has.
#[derive(Clone, Copy)]
struct LateDomain<'b> {
    index: usize,
    settings: &'b Settings,
}

/// Tells of each group in the selection of an attached domain why its children before the chosen one
/// aren't chosen.
pub(crate) fn add_late_left_out<'a, 'b>(
    items: &mut Items,
    view: DomainView<'a, 'b>,
    index: usize,
    domain: &Domain,
) -> Result<(), AllocError> {
    if settings_above(view.story, domain).is_none() {
        return Ok(());
    }
    let late = DomainView {
        platform: view.platform,
        story: view.story,
        root: view.root,
        late: Some(index),
    };
    let alloc = items.alloc();
    let mut choices: Vec<Choice> = Vec::new(alloc);
    for _group in 0..view.story.nodes.len() {
        let Some(chosen) = next_chosen(alloc, view, &choices)? else {
            break;
        };
        add_earlier(items, late, &choices, chosen)?;
        choices.push(chosen)?;
    }
    Ok(())
}

/// Tells why the children before a chosen one don't do beside these choices.
fn add_earlier(
    items: &mut Items,
    late: DomainView<'_, '_>,
    choices: &[Choice],
    chosen: Choice,
) -> Result<(), AllocError> {
    for child in &late.story.children(items.alloc(), chosen.group)? {
        if *child == chosen.child {
            break;
        }
        let group = chosen.group;
        let child = *child;
        add_not(items, late, choices, Choice { group, child })?;
    }
    Ok(())
}

/// Tells why a child doesn't do beside these choices, whatever is chosen of the groups that are left.
fn add_not(
    items: &mut Items,
    late: DomainView<'_, '_>,
    choices: &[Choice],
    other: Choice,
) -> Result<(), AllocError> {
    let alloc = items.alloc();
    let longer = with_choice(alloc, choices, other.group, other.child)?;
    let mut below = Items::new(alloc);
    let mut told = 0usize;
    let levels = late.story.nodes.len();
    add_empty(&mut below, 3, late, &longer, &mut told, levels)?;
    if !below.is_empty() {
        let mut words = TextBuilder::of(alloc, "not ");
        words.name(late.story.called(other.child)).head();
        items.say(2, Label::Plain, words);
    }
    items.append_section(below, 0, MOST)
}

/// Tells so deep why the settings that were decided don't do for these who come late, if they don't;
/// and whether that is so.
pub(crate) fn add_unfit<'a>(
    items: &mut Items,
    depth: usize,
    view: DomainView<'a, '_>,
    index: usize,
    participants: Vec<NamedParticipant<'a>>,
) -> Result<bool, AllocError> {
    let alloc = items.alloc();
    let Some(late) = late_domain(view.story, index) else {
        return Ok(false);
    };
    let those = Combination {
        participants,
        children: Vec::new(alloc),
    };
    let mut why = Items::new(alloc);
    add_why(&mut why, view, late, &those)?;
    let is_unfit = !why.is_empty();
    items.append_section(why, depth.saturating_sub(1), MOST_TOGETHER)?;
    Ok(is_unfit)
}

/// The domain of an index, with the settings that it has from the one that it was attached to.
fn late_domain<'b>(story: &'b Story<'_>, index: usize) -> Option<LateDomain<'b>> {
    let settings = settings_above(story, story.domains.get(index)?)?;
    Some(LateDomain { index, settings })
}

/// Tells why the settings that were decided don't do for these who come late.
fn add_why<'a>(
    items: &mut Items,
    view: DomainView<'a, '_>,
    late: LateDomain<'_>,
    those: &Combination<'a>,
) -> Result<(), AllocError> {
    let story = view.story;
    let count = late.settings.count;
    let _is_told = add_lacking_with(items, story, late.index, those, count)?;
    add_fewer(items, &those.participants, count);
    let before = accepted_before(items.alloc(), story, late.index)?;
    add_unsuited(
        items,
        view.platform,
        &those.participants,
        &before,
        late.settings,
    )
}
