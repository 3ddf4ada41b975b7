//! Copies of nodes and domains, in memory of their own.

ghost use Rattle.std.specs.Prelude.{◌≡◌, ◌≤◌, length, option_map, IfOk};
ghost use Rattle.std.specs.Arc.{arc_value};
ghost use Rattle.std.specs.Vec.{vec_capacity};

use crate::domain::Domain;
use crate::node::Node;
use crate::tree::MOST_NODES;
use negotiation_inputs::Constraints;
use std::alloc::{AllocError, Global};
use std::sync::Arc;

/// One more owner of the constraints, if there are any.
fn shared(constraints: &Option<Arc<Constraints>>) -> Result<Option<Arc<Constraints>>, AllocError>
    ensures { IfOk result
        (λ copy. option_map (λ one. arc_value one) copy ≡ option_map
        (λ one. arc_value one) constraints.now) }
{
    match constraints {
        Some(one) => Ok(Some(Arc::try_clone(one)?)),
        None => Ok(None),
    }
}

fn copied_node(node: &Node) -> Result<Node, AllocError>
    ensures { IfOk result (λ copy. copy ≡ node.now) }
{
    Ok(Node {
        birth: node.birth,
        domain: node.domain,
        state: node.state,
        constraints: shared(&node.constraints)?,
        is_left_out: node.is_left_out,
    })
}

/// A copy of nodes, with room for as many as there may be.
pub(crate) fn copied_nodes(alloc: Global, nodes: &[Node]) -> Result<Vec<Node>, AllocError>
    requires { length nodes.now ≤ MOST_NODES }
    ensures items { IfOk result (λ copy. copy.items ≡ nodes.now) }
    ensures reserved { IfOk result (λ copy. MOST_NODES ≤ vec_capacity copy) }
{
    let mut copy = Vec::with_capacity(alloc, MOST_NODES)?;
    for node in nodes {
        copy.push_reserved(copied_node(node)?);
    }
    Ok(copy)
}

/// A copy of domains, with room for as many as there may be.
pub(crate) fn copied_domains(alloc: Global, domains: &[Domain]) -> Result<Vec<Domain>, AllocError>
    requires { length domains.now ≤ MOST_NODES }
    ensures items { IfOk result (λ copy. copy.items ≡ domains.now) }
    ensures reserved { IfOk result (λ copy. MOST_NODES ≤ vec_capacity copy) }
{
    let mut copy = Vec::with_capacity(alloc, MOST_NODES)?;
    for domain in domains {
        copy.push_reserved(*domain);
    }
    Ok(copy)
}
