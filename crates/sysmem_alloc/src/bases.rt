//! What an attached domain is decided on, read off a book.

ghost use Rattle.std.specs.Prelude.{◌≡◌, ◌≤◌, ◌+◌, ◌++◌, All, IfOk, length, map, option_map};
ghost use Rattle.std.specs.Arc.{arc_value};
ghost use Rattle.std.specs.List.{filter_map};
ghost use Rattle.std.specs.Vec.{vec_capacity};
ghost use Rattle.sysmem_alloc.specs.Accepted.{IsChosenIn, marked_of};
ghost use Rattle.sysmem_alloc.specs.Decision.{settings_for, settings_of, verdict_in};
ghost use Rattle.sysmem_alloc.specs.Entry.{decision_in};
ghost use Rattle.sysmem_alloc.specs.Sound.{AreDistinct};
ghost use Rattle.sysmem_alloc.specs.State.{chosen_by};
ghost use Rattle.sysmem_tree.specs.Nodes.{HasNode};

use crate::verdicts::{choices_of, entered_for};
use book_events::Entry;
use std::alloc::{AllocError, Global};
use std::sync::Arc;
use sysmem_merge::Settings;
use sysmem_tree::{DomainId, MOST_NODES, NodeId, Tree};
use verdict_claims::{Claim, Verdict};

/// The settings of a verdict that chose.
fn settings_of(claim: &Option<Arc<Claim>>) -> Option<Settings>
    ensures { result
        ≡ settings_of (verdict_in (option_map (λ shared. arc_value shared) claim.now)) }
{
    match claim {
        Some(shared) => match &shared.verdict {
            Verdict::Chosen(chosen) => Some(chosen.settings()),
            _ => None,
        },
        None => None,
    }
}

/// The settings that were chosen for a domain.
pub(crate) fn settings_for(history: &[Entry], domain: DomainId) -> Option<Settings>
    requires { AreDistinct (map (λ d. d.domain) (filter_map decision_in history.now)) }
    ensures { result ≡ settings_for (filter_map decision_in history.now) domain }
{
    settings_of(entered_for(history, domain)?)
}

/// Adds the participants that a decision chooses, if it chooses any,
/// in pre-order. It takes no memory.
pub(crate) fn add_chosen(
    tree: &Tree,
    domain: DomainId,
    claim: &Option<Arc<Claim>>,
    chosen: &mut Vec<NodeId>,
)
    requires chosen { IsChosenIn tree.now.nodes (record {
      domain = domain;
      verdict = verdict_in (option_map (λ shared. arc_value shared) claim.now);
    }) }
    requires room { length chosen.old.items + length (chosen_by tree.now.nodes (record {
      domain = domain;
      verdict = verdict_in (option_map (λ shared. arc_value shared) claim.now);
    })) ≤ vec_capacity chosen.old }
    ensures nodes { chosen.new.items ≡ chosen.old.items ++ chosen_by tree.now.nodes (record {
      domain = domain;
      verdict = verdict_in (option_map (λ shared. arc_value shared) claim.now);
    }) }
    ensures reserved { vec_capacity chosen.new ≡ vec_capacity chosen.old }
{
    if let Some(choices) = choices_of(claim) {
        tree.add_participants(domain, choices, chosen);
    }
}

/// Those of these nodes of the tree that are marked.
pub(crate) fn accepted_in(
    alloc: Global,
    tree: &Tree,
    chosen: &[NodeId],
    marks: &[bool; MOST_NODES],
) -> Result<Vec<NodeId>, AllocError>
    requires { All (HasNode tree.now.nodes) chosen.now }
    ensures { IfOk result (λ kept. kept.items ≡ marked_of marks.now chosen.now) }
{
    let mut kept = Vec::new(alloc);
    for node in chosen {
        if marks[tree.number_of(*node) as usize] {
            kept.push(*node)?;
        }
    }
    Ok(kept)
}
