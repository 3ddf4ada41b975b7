//! Who is in the way of the domains that are empty.

use explanation_text::ListBuilder;
use negotiation_inputs::Platform;
use script_story::{Became, Domain, Story, asked_in};
use settings_reasons::{failing, in_the_way};
use std::alloc::{AllocError, Global};
use sysmem_merge::Settings;
use sysmem_tree::NodeKind;
use value_sources::NamedParticipant;

/// The numbers of those who are in the way of an empty domain; of one with groups, where each
/// selection has others, of none.
pub(crate) fn in_the_way_of(
    alloc: Global,
    platform: &Platform,
    story: &Story<'_>,
) -> Result<Vec<usize>, AllocError> {
    let mut nodes = ListBuilder::new(alloc);
    for (index, domain) in story.domains.iter().enumerate() {
        if domain.became != Became::Empty || has_groups(story, index) {
            continue;
        }
        let participants = asked_in(alloc, story, index, false)?;
        match settings_above(story, domain) {
            Some(settings) => add_misfits(&mut nodes, platform, &participants, &settings)?,
            None => add_unmet(&mut nodes, platform, &participants)?,
        }
    }
    nodes.done()
}

fn has_groups(story: &Story<'_>, index: usize) -> bool {
    for node in &story.nodes {
        if node.domain == index && node.state.kind == NodeKind::Group {
            return true;
        }
    }
    false
}

/// The settings that were decided before, of a domain that was attached.
fn settings_above(story: &Story<'_>, domain: &Domain) -> Option<Settings> {
    story.domain_of(domain.host?)?.settings
}

fn add_misfits(
    nodes: &mut ListBuilder<usize>,
    platform: &Platform,
    participants: &[NamedParticipant<'_>],
    settings: &Settings,
) -> Result<(), AllocError> {
    let alloc = nodes.alloc();
    for participant in participants {
        if !failing(alloc, platform, settings, participant.asked)?.is_empty() {
            nodes.add(participant.node);
        }
    }
    Ok(())
}

fn add_unmet(
    nodes: &mut ListBuilder<usize>,
    platform: &Platform,
    participants: &[NamedParticipant<'_>],
) -> Result<(), AllocError> {
    if let Some(some) = in_the_way(nodes.alloc(), platform, participants)? {
        for one in &some {
            nodes.add(one.node);
        }
    }
    Ok(())
}
