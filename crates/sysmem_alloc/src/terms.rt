//! Whether a domain is decided on the same terms in two trees.

ghost use Rattle.std.specs.Prelude.{◌≡◌, ◌↔◌, All, IsTrue};
ghost use Rattle.sysmem_alloc.specs.Accepted.{marked_of};
ghost use Rattle.verdict_claims.specs.Members.{members_at};
ghost use Rattle.sysmem_tree.specs.Nodes.{HasNode};

use sysmem_merge::Settings;
use sysmem_tree::{MOST_NODES, NodeId, Tree};

/// Whether settings are the same.
pub(crate) fn are_same_settings(settings: &Settings, other: &Settings) -> bool
    ensures { IsTrue result ↔ (settings.now ≡ other.now) }
{
    settings == other
}

/// Whether those of the chosen nodes that are marked and the nodes of another tree that were
/// accepted show the same, each by its tree, in their order.
pub(crate) fn accept_same(
    tree: &Tree,
    chosen: &[NodeId],
    marks: &[bool; MOST_NODES],
    others: &Tree,
    accepted: &[NodeId],
) -> bool
    requires own_there { All (HasNode tree.now.nodes) chosen.now }
    requires other_there { All (HasNode others.now.nodes) accepted.now }
    ensures { IsTrue result ↔ (members_at tree.now.nodes (marked_of marks.now chosen.now)
        ≡ members_at others.now.nodes accepted.now) }
{
    let mut at = 0;
    for node in chosen {
        if !marks[tree.number_of(*node) as usize] {
            continue;
        }
        if at >= accepted.len() || !tree.shows_same(*node, others, accepted[at]) {
            return false;
        }
        at += 1;
    }
    at == accepted.len()
}
