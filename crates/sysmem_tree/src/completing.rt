//! Which domain an action can make ready.

ghost use Rattle.std.specs.Prelude.{◌≡◌, IfSome, option_and_then, slice_get};
ghost use Rattle.sysmem_tree.specs.Completing.{can_make_ready, ends_wait, unready_of};
ghost use Rattle.sysmem_tree.specs.Domain.{AreDomains, HasDomain};
ghost use Rattle.sysmem_tree.specs.Nodes.{IsTree};

use crate::action::ActionKind;
use crate::domain::Domain;
use crate::id::{DomainId, NodeId};
use crate::node::Node;
use crate::standing::is_ready;
use crate::tree::Tree;

/// Whether an action of this kind can leave its node no longer awaited.
fn ends_wait(kind: ActionKind) -> bool
    ensures { result ≡ ends_wait kind }
{
    match kind {
        ActionKind::AllChildrenPresent
        | ActionKind::SetConstraints
        | ActionKind::Release
        | ActionKind::Close => true,
        ActionKind::Duplicate
        | ActionKind::CreateGroup
        | ActionKind::Bind
        | ActionKind::CreateChild
        | ActionKind::AttachToken => false,
    }
}

/// The root of the domain of this node, unless it is ready.
fn unready_of(nodes: &[Node], domains: &[Domain], number: usize) -> Option<usize>
    requires tree { IsTree nodes.now }
    requires rising { AreDomains (record { nodes = nodes.now; domains = domains.now }) }
    ensures { result ≡ option_and_then
        (unready_of (record { nodes = nodes.now; domains = domains.now }))
        (slice_get nodes.now number) }
{
    let root = nodes.get(number)?.domain();
    if is_ready(nodes, domains, root) {
        return None;
    }
    Some(root)
}

impl Tree {
    /// The domain that an action of this kind on what is this node can make ready: its node's,
    /// unless it is ready; `None` where such an action makes none ready, or the tree has no such
    /// node.
    pub fn can_make_ready(&self, node: NodeId, kind: ActionKind) -> Option<DomainId>
        ensures domain { result ≡ can_make_ready self.now node kind }
        ensures there { IfSome result (HasDomain self.now.nodes) }
    {
        if !ends_wait(kind) {
            return None;
        }
        let root = unready_of(&self.nodes, &self.domains, node.0)?;
        Some(DomainId(root))
    }
}
