//! Why no selection of groups' children has settings.

use crate::choosing::MOST_CHOICES;
use crate::late_choices::add_unfit;
use explanation_text::wording::{put_few, put_joined};
use explanation_text::{Items, Label, ListBuilder, Name, Text, TextBuilder, are_same};
use negotiation_inputs::Platform;
use script_story::{Story, asked_by};
use settings_reasons::{add_conflict, is_unmet};
use std::alloc::{AllocError, Global};
use value_sources::NamedParticipant;

/// How many failing selections are told.
pub(crate) const MOST_TOLD: usize = 12;

/// How often a participant is asked of an offer for what counts as one failing selection more.
const ASKED: usize = 1_000_000;

/// A group, and the child that is chosen of it.
#[derive(Clone, Copy)]
pub(crate) struct Choice {
    pub(crate) group: usize,
    pub(crate) child: usize,
}

/// What choices settle.
#[derive(Drop)]
pub(crate) struct SettledChoices {
    /// The nodes, in pre-order.
    pub(crate) nodes: Vec<usize>,
    /// The first group of which no child is chosen.
    pub(crate) open: Option<usize>,
}

/// What choices settle in a domain.
pub(crate) fn walk(
    alloc: Global,
    story: &Story<'_>,
    root: usize,
    choices: &[Choice],
) -> Result<SettledChoices, AllocError> {
    let mut nodes = Vec::new(alloc);
    let mut open = None;
    let mut left: Vec<usize> = vec![in alloc; root]?;
    for _node in 0..story.nodes.len() {
        let Some(node) = left.pop() else {
            break;
        };
        nodes.push(node)?;
        if !put_below(&mut left, story, node, choices)? && open.is_none() {
            open = Some(node);
        }
    }
    Ok(SettledChoices { nodes, open })
}

/// Puts the nodes below a node that are selected, the last first, and says whether that is settled:
/// of a group a child is chosen.
fn put_below(
    left: &mut Vec<usize>,
    story: &Story<'_>,
    node: usize,
    choices: &[Choice],
) -> Result<bool, AllocError> {
    if story.is_group(node) {
        return put_chosen(left, node, choices);
    }
    let children = story.children(*left.allocator(), node)?;
    for child in children.iter().rev() {
        left.push(*child)?;
    }
    Ok(true)
}

/// Puts the child that is chosen of a group, and says whether one is.
fn put_chosen(left: &mut Vec<usize>, group: usize, choices: &[Choice]) -> Result<bool, AllocError> {
    for choice in choices {
        if choice.group == group {
            left.push(choice.child)?;
            return Ok(true);
        }
    }
    Ok(false)
}

/// Choices, and that of one more group's child.
pub(crate) fn with_choice(
    alloc: Global,
    choices: &[Choice],
    group: usize,
    child: usize,
) -> Result<Vec<Choice>, AllocError> {
    let mut longer = Vec::from_slice(alloc, choices)?;
    longer.push(Choice { group, child })?;
    Ok(longer)
}

/// A domain whose selections have no settings.
#[derive(Clone, Copy)]
pub(crate) struct DomainView<'a, 'b> {
    pub(crate) platform: &'b Platform,
    pub(crate) story: &'b Story<'a>,
    pub(crate) root: usize,
    /// Of one that was attached, whose children were chosen for settings that it has from another:
    /// its index.
    pub(crate) late: Option<usize>,
}

/// Whom choices select.
#[derive(Drop)]
pub(crate) struct SelectedNodes<'a> {
    pub(crate) participants: Vec<NamedParticipant<'a>>,
    /// The first group of which no child is chosen.
    pub(crate) open: Option<usize>,
}

/// Whom choices select in a domain.
pub(crate) fn reach<'a>(
    alloc: Global,
    empty: DomainView<'a, '_>,
    choices: &[Choice],
) -> Result<SelectedNodes<'a>, AllocError> {
    let settled = walk(alloc, empty.story, empty.root, choices)?;
    let participants = asked_by(alloc, empty.story, &settled.nodes)?;
    let open = settled.open;
    Ok(SelectedNodes { participants, open })
}

/// The first group of which choices choose no child.
pub(crate) fn open_group(
    alloc: Global,
    empty: DomainView<'_, '_>,
    choices: &[Choice],
) -> Result<Option<usize>, AllocError> {
    Ok(walk(alloc, empty.story, empty.root, choices)?.open)
}

/// Tells why no selection that goes on from these choices has settings; `levels` is more than the
/// groups that may be left, and `told` counts the failing selections, those of many participants for
/// several.
#[cycle(add_empty)]
pub(crate) fn add_empty(
    items: &mut Items,
    depth: usize,
    empty: DomainView<'_, '_>,
    choices: &[Choice],
    told: &mut usize,
    levels: usize,
) -> Result<(), AllocError> {
    let alloc = items.alloc();
    let SelectedNodes { participants, open } = reach(alloc, empty, choices)?;
    let weight = weight_of(empty.platform, participants.len());
    if add_failing(items, depth, empty, participants, open.is_none())? {
        *told = told.saturating_add(weight);
        return Ok(());
    }
    let (Some(group), Some(fewer)) = (open, levels.checked_sub(1)) else {
        return Ok(());
    };
    add_group(items, depth, empty, choices, told, fewer, group)
}

/// Tells why these have no settings whatever is chosen of the groups that are left, none if they are
/// the `whole`; and whether that is so.
fn add_failing<'a>(
    items: &mut Items,
    depth: usize,
    empty: DomainView<'a, '_>,
    participants: Vec<NamedParticipant<'a>>,
    whole: bool,
) -> Result<bool, AllocError> {
    if let Some(late) = empty.late {
        return add_unfit(items, depth, empty, late, participants);
    }
    if !whole && !is_unmet(items.alloc(), empty.platform, &participants)? {
        return Ok(false);
    }
    add_conflict(items, depth, empty.platform, &participants, whole)?;
    Ok(true)
}

/// For how many failing selections one of so many participants counts: to find out who is in the way
/// each is asked with all others, for each offer.
fn weight_of(platform: &Platform, participants: usize) -> usize {
    let offers = platform
        .pairs()
        .len()
        .saturating_mul(platform.colours().len());
    let asked = participants
        .saturating_mul(participants)
        .saturating_mul(offers);
    (asked / ASKED).saturating_add(1)
}

/// Tells the same for each child of the next group, those with the same reasons together.
#[cycle(add_empty)]
fn add_group(
    items: &mut Items,
    depth: usize,
    empty: DomainView<'_, '_>,
    choices: &[Choice],
    told: &mut usize,
    levels: usize,
    group: usize,
) -> Result<(), AllocError> {
    let alloc = items.alloc();
    let mut cases: Vec<Case<'_>> = Vec::new(alloc);
    for child in empty.story.children(alloc, group)? {
        if *told >= MOST_TOLD {
            break;
        }
        let longer = with_choice(alloc, choices, group, child)?;
        let mut below = Items::new(alloc);
        add_empty(
            &mut below,
            depth.saturating_add(1),
            empty,
            &longer,
            told,
            levels,
        )?;
        add_case(&mut cases, empty.story.called(child), below)?;
    }
    put_cases(items, depth, empty.story.called(group), cases);
    Ok(())
}

/// Children of a group of which the same is told.
#[derive(Drop)]
struct Case<'a> {
    names: Vec<Name<'a>>,
    below: Items,
}

/// Adds what is told of a child, to the last case where it is the same.
fn add_case<'a>(cases: &mut Vec<Case<'a>>, name: Name<'a>, below: Items) -> Result<(), AllocError> {
    if let Some(last) = cases.last_mut() {
        if are_same(&last.below, &below) {
            last.names.push(name)?;
            return Ok(());
        }
    }
    let names = vec![in below.alloc(); name]?;
    cases.push(Case { names, below })?;
    Ok(())
}

/// Puts what holds for each child of a group after the items.
fn put_cases(items: &mut Items, depth: usize, group: Name<'_>, cases: Vec<Case<'_>>) {
    for case in cases {
        put_case(items, depth, group, case);
    }
}

/// Puts what holds for some children of a group after the items.
fn put_case(items: &mut Items, depth: usize, group: Name<'_>, case: Case<'_>) {
    if !case.below.is_empty() {
        let head = head_of(items.alloc(), group, &case.names);
        items.say(depth, Label::Plain, head);
    }
    items.append(case.below)
}

/// What stands above what is told of some children of a group.
fn head_of(alloc: Global, group: Name<'_>, names: &[Name<'_>]) -> TextBuilder {
    let mut words = TextBuilder::of_name(alloc, group);
    words.put(" as ");
    put_joined(&mut words, names, "or");
    words.head();
    words
}

/// Tells of each group in a chosen selection why its children before the chosen one aren't chosen.
pub(crate) fn add_left_out(items: &mut Items, empty: DomainView<'_, '_>) -> Result<(), AllocError> {
    let alloc = items.alloc();
    let mut choices: Vec<Choice> = Vec::new(alloc);
    let mut told = 0usize;
    for _group in 0..empty.story.nodes.len() {
        let Some(group) = open_group(alloc, empty, &choices)? else {
            break;
        };
        let Some(child) = add_before(items, empty, &choices, &mut told, group)? else {
            break;
        };
        choices.push(Choice { group, child })?;
    }
    Ok(())
}

/// Tells why the children of a group before the chosen one aren't, and says which that is.
fn add_before(
    items: &mut Items,
    empty: DomainView<'_, '_>,
    choices: &[Choice],
    told: &mut usize,
    group: usize,
) -> Result<Option<usize>, AllocError> {
    for child in &empty.story.children(items.alloc(), group)? {
        let child = *child;
        if empty.story.is_selected(child) {
            return Ok(Some(child));
        }
        if *told < MOST_TOLD {
            add_not(items, empty, choices, told, Choice { group, child })?;
        }
    }
    Ok(None)
}

/// Tells why a child isn't chosen beside these choices.
fn add_not(
    items: &mut Items,
    empty: DomainView<'_, '_>,
    choices: &[Choice],
    told: &mut usize,
    other: Choice,
) -> Result<(), AllocError> {
    let mut words = TextBuilder::of(items.alloc(), "not ");
    words.name(empty.story.called(other.child)).head();
    items.say(2, Label::Plain, words);
    let longer = with_choice(items.alloc(), choices, other.group, other.child)?;
    add_empty(items, 3, empty, &longer, told, empty.story.nodes.len())
}

/// The children that a selection chooses in the domain of a root, as `layouts: tiled`; empty where
/// it chooses none.
pub fn choices_in(
    alloc: Global,
    story: &Story<'_>,
    root: usize,
    selection: &[u8],
) -> Result<Text, AllocError> {
    let mut texts: ListBuilder<Text> = ListBuilder::new(alloc);
    for choice in &choices_of(alloc, story, root, selection)? {
        let mut words = TextBuilder::of_name(alloc, story.called(choice.group));
        words.put(": ").name(story.called(choice.child));
        texts.add_text(words);
    }
    let texts = texts.done()?;
    let mut words = TextBuilder::new(alloc);
    put_few(&mut words, &texts, MOST_CHOICES);
    words.into_text()
}

/// The children that a selection chooses in the domain of a root.
pub(crate) fn choices_of(
    alloc: Global,
    story: &Story<'_>,
    root: usize,
    selection: &[u8],
) -> Result<Vec<Choice>, AllocError> {
    let mut choices: Vec<Choice> = Vec::new(alloc);
    for number in selection {
        match choice_at(alloc, story, root, &choices, usize::from(*number))? {
            Some(choice) => choices.push(choice)?,
            None => break,
        }
    }
    Ok(choices)
}

/// The child of a number, from 0, of the first group of which these choices choose none.
fn choice_at(
    alloc: Global,
    story: &Story<'_>,
    root: usize,
    choices: &[Choice],
    number: usize,
) -> Result<Option<Choice>, AllocError> {
    let Some(group) = walk(alloc, story, root, choices)?.open else {
        return Ok(None);
    };
    match story.children(alloc, group)?.get(number) {
        Some(child) => {
            let child = *child;
            Ok(Some(Choice { group, child }))
        }
        None => Ok(None),
    }
}
