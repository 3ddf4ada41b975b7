//! What those of the initial domain may ask for, where what was decided doesn't do for a domain
//! that was attached to one of them.

use crate::known::RecordCache;
use crate::together::CombinedChange;
use crate::trials::{EditedCall, Group, RestatedConstraints};
use constraint_edits::{Amount, Edit, amounts_in};
use domain_reasons::rooms_needed;
use explanation_text::Items;
use script_story::{Story, asked_in};
use settings_reasons::failing;
use std::alloc::{AllocError, Global};
use std::slice::from_ref;
use sysmem_counts::Field;
use sysmem_image::Size;
use sysmem_memory::CoherencyDomain;
use sysmem_merge::Settings;
use value_sources::NamedParticipant;

/// The bounds by which a late one may ask for what nobody asked before, and somebody might have.
const ASKED_LATE: [Field; 8] = [
    Field::SizeAlignment,
    Field::BytesPerRowDivisor,
    Field::StartOffsetDivisor,
    Field::DisplayRectAlignment,
    Field::MinSize,
    Field::MinBytesPerRow,
    Field::RequiredMaxSize,
    Field::RequiredMinSize,
];

/// The initial domain, by index: in it the number of buffers is decided.
pub(crate) fn initial_of(story: &Story<'_>) -> usize {
    for (index, domain) in story.domains.iter().enumerate() {
        if domain.host.is_none() {
            return index;
        }
    }
    0
}

/// The node to which the domain of an index was attached.
pub(crate) fn host_of(story: &Story<'_>, index: usize) -> Option<usize> {
    story.domains.get(index)?.host
}

/// What was decided before the domain of a group, which was attached.
fn decided_before<'b>(group: Group<'_, 'b>) -> Option<&'b Settings> {
    let host = host_of(group.story, index_of(group)?)?;
    group.story.domain_of(host)?.settings.as_ref()
}

/// The multiple that was decided of a bound before the domain of a group, which was attached; `None`
/// of other bounds, and where any number does.
pub(crate) fn multiple_before(group: Group<'_, '_>, field: Field) -> Option<Amount> {
    let bounds = &decided_before(group)?.bounds;
    let amount = match field {
        Field::SizeAlignment => sides_of(bounds.size_alignment),
        Field::DisplayRectAlignment => sides_of(bounds.display_rect_alignment),
        Field::BytesPerRowDivisor => Amount::Number(u64::from(bounds.bytes_per_row_divisor)),
        Field::StartOffsetDivisor => Amount::Number(u64::from(bounds.start_offset_divisor)),
        _ => return None,
    };
    match amount {
        Amount::Number(1) | Amount::Sides(1, 1) => None,
        _ => Some(amount),
    }
}

fn sides_of(size: Size) -> Amount {
    Amount::Sides(u64::from(size.width), u64::from(size.height))
}

/// Whether what was decided before the domain of a group, which was attached, lies where no CPU
/// reaches it.
pub(crate) fn is_out_of_reach(group: Group<'_, '_>) -> bool {
    match decided_before(group) {
        Some(settings) => settings.place.coherency == CoherencyDomain::Inaccessible,
        None => false,
    }
}

/// That a bound is stated which those of a group ask for, and which what was decided before the
/// domain of an index, which is theirs, doesn't meet.
pub(crate) fn bounds_asked(
    alloc: Global,
    group: Group<'_, '_>,
    index: usize,
) -> Result<Vec<Edit>, AllocError> {
    let mut edits = Vec::new(alloc);
    let Some(before) = host_of(group.story, index).and_then(|host| group.story.domain_of(host))
    else {
        return Ok(edits);
    };
    let Some(settings) = &before.settings else {
        return Ok(edits);
    };
    let platform = group.scenario.platform;
    for participant in group.participants {
        for field in &failing(alloc, platform, settings, participant.asked)? {
            add_bounds(&mut edits, participant, *field)?;
        }
    }
    Ok(edits)
}

/// Adds that a bound is stated with each amount that a participant states, each once.
fn add_bounds(
    edits: &mut Vec<Edit>,
    participant: &NamedParticipant<'_>,
    field: Field,
) -> Result<(), AllocError> {
    let Some(value) = participant.stated else {
        return Ok(());
    };
    if !ASKED_LATE.contains(&field) {
        return Ok(());
    }
    for amount in amounts_in(*edits.allocator(), value, Edit::NoBound(field))? {
        let edit = Edit::States(field, amount);
        if !edits.contains(&edit) {
            edits.push(edit)?;
        }
    }
    Ok(())
}

/// Those of the initial domain, first the one of a node.
fn asked_first<'a>(
    alloc: Global,
    story: &Story<'a>,
    host: usize,
) -> Result<Vec<NamedParticipant<'a>>, AllocError> {
    let mut participants = Vec::new(alloc);
    for participant in &asked_in(alloc, story, initial_of(story), true)? {
        if participant.node == host {
            participants.insert(0, *participant)?;
        } else {
            participants.push(*participant)?;
        }
    }
    Ok(participants)
}

/// The domain of a group, by index.
fn index_of(group: Group<'_, '_>) -> Option<usize> {
    let domains = &group.story.domains;
    domains.iter().position(|domain| domain.root == group.root)
}

/// Tells several things that one of the initial domain may ask for, so that together they let the
/// domain of a group be chosen that was attached: first the one to whom it was. Gives what calls
/// state then; nothing where nothing is told.
pub(crate) fn add_asked_before(
    items: &mut Items,
    group: Group<'_, '_>,
    before: &str,
) -> Result<Vec<RestatedConstraints>, AllocError> {
    let alloc = items.alloc();
    let Some(index) = index_of(group) else {
        return Ok(Vec::new(alloc));
    };
    let bounds = bounds_asked(alloc, group, index)?;
    if bounds.is_empty() {
        return Ok(Vec::new(alloc));
    }
    let rooms = rooms_needed(alloc, group.story, index)?;
    if rooms.is_empty() {
        return add_needs(items, group, index, &bounds, before);
    }
    for room in &rooms {
        let mut needs = vec![in alloc; Edit::LeastCount(*room)]?;
        needs.extend_from_slice(&bounds)?;
        let told = add_needs(items, group, index, &needs, before)?;
        if !told.is_empty() {
            return Ok(told);
        }
    }
    Ok(Vec::new(alloc))
}

/// Tells the same of these edits, until those of one participant help.
fn add_needs(
    items: &mut Items,
    group: Group<'_, '_>,
    index: usize,
    needs: &[Edit],
    before: &str,
) -> Result<Vec<RestatedConstraints>, AllocError> {
    let alloc = items.alloc();
    let Some(host) = host_of(group.story, index) else {
        return Ok(Vec::new(alloc));
    };
    for one in &asked_first(alloc, group.story, host)? {
        let joint = asking(group, one);
        let all = joint.parts(alloc, needs)?;
        let told = joint.put_plain(items, &mut RecordCache::new(alloc), &all, before)?;
        if !told.is_empty() {
            return Ok(told);
        }
    }
    Ok(Vec::new(alloc))
}

/// Changes of one participant for those of a group.
fn asking<'a, 'b>(group: Group<'a, 'b>, one: &'b NamedParticipant<'a>) -> CombinedChange<'a, 'b> {
    CombinedChange {
        group: Group {
            document: group.document,
            scenario: group.scenario,
            story: group.story,
            path: group.path,
            root: group.root,
            participants: from_ref(one),
        },
        parties: &[],
    }
}

/// Adds that the one to whom the domain of a group was attached states the bounds that are asked
/// for late, in words and as an edited call; nothing where there are none.
pub(crate) fn add_bounds_before(
    whose: &mut Items,
    edits: &mut Vec<EditedCall>,
    group: Group<'_, '_>,
) -> Result<(), AllocError> {
    let alloc = whose.alloc();
    let Some(index) = index_of(group) else {
        return Ok(());
    };
    let Some(host) = host_of(group.story, index) else {
        return Ok(());
    };
    let bounds = bounds_asked(alloc, group, index)?;
    let participants = asked_first(alloc, group.story, host)?;
    let Some(one) = participants.first() else {
        return Ok(());
    };
    let joint = asking(group, one);
    let parts = joint.parts(alloc, &bounds)?;
    for edit in joint.edits(alloc, &parts)? {
        edits.push(edit)?;
    }
    joint.put_each(whose, &parts, false)
}
