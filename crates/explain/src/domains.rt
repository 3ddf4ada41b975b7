//! What became of each domain, why, and what would help.

use crate::drafts::spelled;
use crate::entries::add_unused;
use crate::helping::{LEVELS, index_at, list_help};
use crate::idle_modifiers::{add_idle_modifiers, add_meant_pairs};
use crate::not_chosen::{add_not_chosen, add_numbers};
use constraint_changes::{
    Group, RestatedConstraints, ToldChange, add_together, list_changes, list_preferred, restated,
};
use constraint_edits::edits_on;
use domain_reasons::{add_domain, add_gone, add_lost};
use explanation_text::{Item, Items, Kind, Label};
use other_outcomes::{add_ended_later, add_heaps, add_platform};
use script_faults::Document;
use script_reading::Call;
use script_story::{Scenario, Story, asked_in, story_of};
use std::alloc::AllocError;
use std::slice::from_ref;
use value_sources::NamedParticipant;

/// How deep decisions by changes stand.
const DEPTH: usize = 3;

/// What is told of a decision by a change.
#[derive(Clone, Copy)]
pub(crate) enum Part {
    /// Which other domains lose theirs by it.
    Lost,
    /// That, and how many buffers there are, and how large an image is.
    Numbers,
    /// These numbers, and what isn't chosen.
    All,
}

/// Tells each domain, in the order of the report.
pub(crate) fn add_domains(
    items: &mut Items,
    document: &Document<'_>,
    scenario: &Scenario<'_>,
    story: &Story<'_>,
) -> Result<(), AllocError> {
    for (k, index) in story.order.iter().enumerate() {
        if !story.order.get(..k).unwrap_or(&[]).contains(index) {
            add_domain(items, scenario.platform, story, *index)?;
            add_unused(items, document, scenario, story, *index)?;
            add_idle_modifiers(items, document, story, *index, 1)?;
            add_meant_pairs(items, document, scenario, story, *index)?;
            list_help(items, &spelled(*document), scenario, story, *index, LEVELS)?;
            add_preferred(items, document, scenario, story, *index)?;
        }
    }
    Ok(())
}

/// Tells by which changes of a participant a domain that is chosen would have another child, image
/// or place; and below each the numbers that it would have then, if they are others, and which other
/// domains have no settings then.
fn add_preferred(
    items: &mut Items,
    document: &Document<'_>,
    scenario: &Scenario<'_>,
    story: &Story<'_>,
    index: usize,
) -> Result<(), AllocError> {
    let alloc = items.alloc();
    let platform = scenario.platform;
    let participants = asked_in(alloc, story, index, false)?;
    let edits = edits_on(
        alloc,
        platform.heaps().len(),
        platform.pairs(),
        platform.colours(),
    )?;
    let group = group_of(document, scenario, story, index, &participants);
    let mut changes = Items::new(alloc);
    let told = list_preferred(&mut changes, group, index, &edits)?;
    let mut count = 0usize;
    for item in changes.into_list()? {
        items.add(item);
        count = count.saturating_add(1);
        add_below(items, group, &told, count)?;
    }
    Ok(())
}

/// Tells what comes with that change which ends after so many items, if one does.
fn add_below(
    items: &mut Items,
    group: Group<'_, '_>,
    told: &[ToldChange],
    count: usize,
) -> Result<(), AllocError> {
    let is_alone = group.story.domains.len() < 2;
    for change in told {
        let part = if change.is_sized_otherwise {
            Part::Numbers
        } else {
            Part::Lost
        };
        if change.end == count && (change.is_sized_otherwise || !is_alone) {
            add_of(items, group, from_ref(&change.stated), part, DEPTH)?;
        }
    }
    Ok(())
}

/// Those whose constraints are changed, in the domain of this index.
pub(crate) fn group_of<'a, 'b>(
    document: &'b Document<'a>,
    scenario: &'b Scenario<'a>,
    story: &'b Story<'a>,
    index: usize,
    participants: &'b [NamedParticipant<'a>],
) -> Group<'a, 'b> {
    let root = story.root_of(index);
    Group {
        document,
        scenario,
        story,
        path: story.path(root),
        root,
        participants,
    }
}

/// Tells what would help an empty domain: calls that end somebody earlier, one change of a
/// participant or else some together, and a pair that the platform lacks. Gives what calls state by
/// the first change, if there is one.
pub(crate) fn add_edits(
    items: &mut Items,
    document: &Document<'_>,
    scenario: &Scenario<'_>,
    story: &Story<'_>,
    index: usize,
) -> Result<Vec<RestatedConstraints>, AllocError> {
    let alloc = items.alloc();
    let platform = scenario.platform;
    let participants = asked_in(alloc, story, index, false)?;
    let edits = edits_on(
        alloc,
        platform.heaps().len(),
        platform.pairs(),
        platform.colours(),
    )?;
    let group = group_of(document, scenario, story, index, &participants);
    add_ended_later(items, scenario, story, index, group.path)?;
    let mut changes = Items::new(alloc);
    let mut first = list_changes(&mut changes, group, index, &edits)?;
    if first.is_empty() {
        first = add_together(&mut changes, group, &edits)?;
    }
    add_changes(items, group, changes.into_list()?, &first)?;
    add_platform(items, scenario, group.path, &participants)?;
    add_heaps(items, scenario, group.path, &participants)?;
    Ok(first)
}

/// Tells changes, and below the first decision that would come what isn't chosen in it, where calls
/// state this by that change.
fn add_changes(
    items: &mut Items,
    group: Group<'_, '_>,
    changes: Vec<Item>,
    stated: &[RestatedConstraints],
) -> Result<(), AllocError> {
    let end = end_of_first(&changes);
    let mut count = 0usize;
    for item in changes {
        let depth = item.depth;
        items.add(item);
        count = count.saturating_add(1);
        if count == end && !stated.is_empty() {
            add_of(items, group, stated, Part::All, depth)?;
        }
    }
    Ok(())
}

/// How many items there are up to the first decision that would come by changes, and the children
/// that it chooses; 0 where none would come.
fn end_of_first(changes: &[Item]) -> usize {
    for (k, item) in changes.iter().enumerate() {
        if item.kind == Kind::Decision {
            let next = k.saturating_add(1);
            return match changes.get(next) {
                Some(below) if below.label == Label::Choice => next.saturating_add(1),
                _ => next,
            };
        }
    }
    0
}

/// Tells at this depth a part of what is chosen where calls state this, and isn't, if nodes are
/// numbered there as they are.
pub(crate) fn add_of(
    items: &mut Items,
    group: Group<'_, '_>,
    stated: &[RestatedConstraints],
    part: Part,
    depth: usize,
) -> Result<(), AllocError> {
    if group.scenario.effort.is_spent() {
        return Ok(());
    }
    let calls = restated(items.alloc(), group.scenario.calls, stated)?;
    add_with(items, group, &calls, part, depth)
}

/// The same of these calls.
fn add_with(
    items: &mut Items,
    group: Group<'_, '_>,
    calls: &Vec<Call<'_>>,
    part: Part,
    depth: usize,
) -> Result<(), AllocError> {
    let alloc = items.alloc();
    let other = Scenario {
        platform: &*group.scenario.platform,
        calls: &*calls,
        effort: &*group.scenario.effort,
    };
    let told = other.tell(alloc, calls)?;
    if told.report.starved {
        return Err(AllocError);
    }
    let story = story_of(alloc, group.document.value, calls, &told)?;
    match index_at(&story, group.path) {
        Some(index) if story.nodes.len() == group.story.nodes.len() => {
            match part {
                Part::Lost => {}
                Part::Numbers => add_numbers(items, &other, &story, index, depth)?,
                Part::All => {
                    let value = group.document.value;
                    return add_not_chosen(items, &other, value, &story, index, depth);
                }
            }
        }
        _ if matches!(part, Part::All) => {
            add_gone(items, &story, group.story, depth);
            return Ok(());
        }
        _ => {}
    }
    add_lost(items, &other, &story, group.story, depth)
}
