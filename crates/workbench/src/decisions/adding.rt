//! What is repeated of one aggregate: adding the participants of a selection to it, and asking it
//! for their best settings.

ghost use Rattle.std.specs.Prelude.{◌≤◌, [], All, IfOk, IfSome};
ghost use Rattle.sysmem_tree.specs.Domain.{HasDomain};
ghost use Rattle.sysmem_tree.specs.Nodes.{HasNode};
ghost use Rattle.sysmem_tree.specs.Selection.{IsPrefix};
ghost use Rattle.sysmem_tree.specs.Shape.{by_number, forest_of};

use super::deciding::found_in;
use crate::failure::Failure;
use negotiation_inputs::Platform;
use std::alloc::Global;
use sysmem_merge::Aggregate;
use sysmem_tree::{DomainId, MOST_NODES, NodeId, Prefix, Tree};
use verdict_claims::Verdict;

/// Adds the participants of the initial domain's selection to a fresh aggregate, so many times.
pub(crate) fn add_again(
    alloc: Global,
    platform: &Platform,
    tree: &Tree,
    times: u32,
) -> Result<(), Failure> {
    let nodes = participants(alloc, platform, tree)?;
    for _ in 0..times {
        together(alloc, platform, tree, &nodes)?;
    }
    Ok(())
}

/// Asks an aggregate of the participants of the initial domain's selection for their best settings,
/// so many times.
pub(crate) fn settle_again(
    alloc: Global,
    platform: &Platform,
    tree: &Tree,
    times: u32,
) -> Result<(), Failure> {
    let nodes = participants(alloc, platform, tree)?;
    let aggregate = together(alloc, platform, tree, &nodes)?;
    let settings = aggregate.best_settings(true);
    for _ in 0..times {
        if aggregate.best_settings(true) != settings {
            return Err(Failure::OtherSettings);
        }
    }
    Ok(())
}

/// What these participants ask for together; of more than 128 the first ones.
fn together<'p>(
    alloc: Global,
    platform: &'p Platform,
    tree: &Tree,
    nodes: &[NodeId],
) -> Result<Aggregate<'p>, Failure>
    requires { All (HasNode tree.now.nodes) nodes.now }
{
    let mut aggregate = Aggregate::new(alloc, platform)?;
    for number in 0..MOST_NODES {
        let Some(node) = nodes.get(number) else {
            break;
        };
        if let Some(asked) = tree.constraints_of(*node) {
            aggregate.add(asked)?;
        }
    }
    Ok(aggregate)
}

/// The participants of the initial domain's selection: of the one that is found, and where none can
/// be met, of that of the first child of each group.
fn participants(alloc: Global, platform: &Platform, tree: &Tree) -> Result<Vec<NodeId>, Failure>
    ensures { IfOk result (λ nodes. All (HasNode tree.now.nodes) nodes.items) }
{
    let domain = tree.domain_of(tree.root());
    let found = found_in(alloc, platform, tree, domain)?;
    let prefix = match &found.verdict {
        Verdict::Chosen(chosen) => selection_by(tree, domain, chosen.selection().choices()),
        _ => selection_by(tree, domain, &[]),
    };
    Ok(tree.participants(domain, prefix.choices())?)
}

/// The selection of these children, of the groups after them the first ones.
fn selection_by(tree: &Tree, domain: DomainId, choices: &[u8]) -> Prefix
    requires { HasDomain tree.now.nodes domain }
    ensures { IsPrefix (forest_of by_number tree.now.nodes domain []) result }
{
    let mut prefix = Prefix::new();
    for number in 0..MOST_NODES {
        let choice = match choices.get(number) {
            Some(choice) => *choice,
            None => 0,
        };
        if !choose(tree, domain, &mut prefix, choice) {
            break;
        }
    }
    prefix
}

/// Takes a child of the next group; `false` where no group is left or it has no such child.
pub(crate) fn choose(tree: &Tree, domain: DomainId, prefix: &mut Prefix, choice: u8) -> bool
    requires domain { HasDomain tree.now.nodes domain }
    requires prefix { IsPrefix (forest_of by_number tree.now.nodes domain []) prefix.old }
    ensures { IsPrefix (forest_of by_number tree.now.nodes domain []) prefix.new }
{
    let Some((_, children)) = tree.next_group(domain, prefix) else {
        return false;
    };
    if u32::from(choice) >= children || prefix.is_full() {
        return false;
    }
    prefix.push(choice);
    true
}
