//! Participants who ask something of offers, who alone are read for them.

ghost use Rattle.std.specs.Prelude.{◌≡◌, All, IfOk, option_map, false};
ghost use Rattle.std.specs.Option.{option_map_or};
ghost use Rattle.conflict_finding.specs.Askers.{AreAskers, is_asker};
ghost use Rattle.sysmem_tree.specs.Nodes.{HasNode};

use negotiation_inputs::Constraints;
use std::alloc::{AllocError, Global};
use sysmem_tree::{NodeId, Tree};

/// Whether a participant has entries, or wants other sizes of buffers than any.
fn asks_something(asked: &Constraints) -> bool
    ensures { result ≡ is_asker asked.now }
{
    let memory = asked.memory();
    !asked.entries().is_empty() || memory.min_size_bytes != 0 || memory.max_size_bytes != u64::MAX
}

/// The same of one, if there is one.
fn is_one(asked: Option<&Constraints>) -> bool
    ensures { result ≡ option_map_or is_asker (option_map (λ one. one.now) asked.entry) false }
{
    match asked {
        Some(one) => asks_something(one),
        None => false,
    }
}

/// Those of these nodes whose participants ask something of offers: what the
/// others ask is nothing.
pub(crate) fn those_asking(
    alloc: Global,
    tree: &Tree,
    nodes: &[NodeId],
) -> Result<Vec<NodeId>, AllocError>
    requires { All (HasNode tree.now.nodes) nodes.now }
    ensures { IfOk result (λ some. AreAskers tree.now.nodes nodes.now some.items) }
{
    let mut some = Vec::with_capacity(alloc, nodes.len())?;
    for node in nodes {
        if is_one(tree.constraints_of(*node)) {
            some.push(*node)?;
        }
    }
    Ok(some)
}
