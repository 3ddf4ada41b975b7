//! Children of groups that come before the chosen ones.

use crate::preferred::pairs::with_pair;
use crate::preferred::party::try_party;
use crate::preferred::telling::{Found, Wanted};
use crate::preferred::wish::{Settled, Wish, settled_by};
use crate::trials::{Group, asked_with, first_open};
use constraint_edits::Edit;
use negotiation_inputs::Platform;
use script_story::Scenario;
use std::alloc::{AllocError, Global};
use sysmem_formats::Offer;

/// How many selections of children below an earlier one are looked at, those among them that lack
/// some children counted too.
const STEPS: usize = 16;

/// Tries the earlier children of each group that is selected, where an attached domain has the
/// initial one's image.
pub(crate) fn try_late_groups(
    found: &mut Found,
    wish: Wish<'_, '_>,
    edits: &[Edit],
) -> Result<(), AllocError> {
    let group = wish.group;
    let Some(platform) = with_settled(found.items.alloc(), wish)? else {
        return Ok(());
    };
    let scenario = Scenario {
        platform: &platform,
        calls: group.scenario.calls,
        effort: group.scenario.effort,
    };
    let scope = Group {
        document: group.document,
        scenario: &scenario,
        story: group.story,
        path: group.path,
        root: group.root,
        participants: group.participants,
    };
    try_groups(found, wish, scope, edits)
}

/// The platform with the pair alone that was decided, if one was.
fn with_settled(alloc: Global, wish: Wish<'_, '_>) -> Result<Option<Platform>, AllocError> {
    let platform = wish.group.scenario.platform;
    match settled_by(wish.now) {
        Some(
            Settled {
                offer: Offer::Image(pair, _),
                ..
            },
        ) => with_pair(alloc, platform, pair),
        _ => Ok(None),
    }
}

/// Tries the earlier children of each group that is selected, on the platform of a group of
/// participants.
pub(crate) fn try_groups(
    found: &mut Found,
    wish: Wish<'_, '_>,
    scope: Group<'_, '_>,
    edits: &[Edit],
) -> Result<(), AllocError> {
    let story = wish.group.story;
    for node in 0..story.nodes.len() {
        if story.is_group(node) && story.is_selected(node) && wish.group.is_inside(node) {
            try_children(found, wish, scope, edits, node)?;
        }
    }
    Ok(())
}

/// Tries the children of a group before the chosen one.
fn try_children(
    found: &mut Found,
    wish: Wish<'_, '_>,
    scope: Group<'_, '_>,
    edits: &[Edit],
    above: usize,
) -> Result<(), AllocError> {
    let story = wish.group.story;
    for child in &story.children(found.items.alloc(), above)? {
        if story.is_selected(*child) {
            break;
        }
        if !found.leaves(Wanted::Child, wish.group.scenario.effort) {
            try_child(found, wish, scope, edits, above, *child)?;
        }
    }
    Ok(())
}

/// Tries what would let a child of a group be chosen, beside the children of other groups that are
/// chosen.
fn try_child(
    found: &mut Found,
    wish: Wish<'_, '_>,
    scope: Group<'_, '_>,
    edits: &[Edit],
    above: usize,
    child: usize,
) -> Result<(), AllocError> {
    let alloc = found.items.alloc();
    let chosen = chosen_with(alloc, wish.group, above, child)?;
    for selection in &selections_of(alloc, wish.group, chosen)? {
        let participants = asked_with(alloc, wish.group, selection)?;
        try_party(found, wish, scope, participants, edits)?;
    }
    Ok(())
}

/// Children of groups that are chosen, each time with one of each further group that has its place
/// then, as one below an earlier child has: those first that are made first, as far as they are few.
fn selections_of(
    alloc: Global,
    group: Group<'_, '_>,
    chosen: Vec<usize>,
) -> Result<Vec<Vec<usize>>, AllocError> {
    let mut settled: Vec<Vec<usize>> = Vec::new(alloc);
    let mut left: Vec<Vec<usize>> = vec![in alloc; chosen]?;
    for _step in 0..STEPS {
        let Some(selection) = left.pop() else {
            break;
        };
        match first_open(alloc, group, &selection)? {
            Some(open) => add_longer(&mut left, group, &selection, open)?,
            None => settled.push(selection)?,
        }
    }
    Ok(settled)
}

/// Adds a selection with each child of a group, the first child's last.
fn add_longer(
    left: &mut Vec<Vec<usize>>,
    group: Group<'_, '_>,
    selection: &[usize],
    open: usize,
) -> Result<(), AllocError> {
    let alloc = *left.allocator();
    for child in group.story.children(alloc, open)?.iter().rev() {
        let mut longer = Vec::from_slice(alloc, selection)?;
        longer.push(*child)?;
        left.push(longer)?;
    }
    Ok(())
}

/// The children of groups that are chosen, of one group another child.
fn chosen_with(
    alloc: Global,
    group: Group<'_, '_>,
    above: usize,
    child: usize,
) -> Result<Vec<usize>, AllocError> {
    let story = group.story;
    let mut chosen = vec![in alloc; child]?;
    for (node, known) in story.nodes.iter().enumerate() {
        match known.parent {
            Some(parent) if parent != above && known.is_selected && story.is_group(parent) => {
                chosen.push(node)?;
            }
            _ => {}
        }
    }
    Ok(chosen)
}
