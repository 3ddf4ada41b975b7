//! What a collection with limits counts.

ghost use Rattle.std.specs.Prelude.{◌≡◌, ◌<◌, IfSome, None, Some, get_or, length, option_map, replicate};
ghost use Rattle.node_limits.specs.Limits.{is_spent};
ghost use Rattle.sysmem_tree.specs.Nodes.{HasNode};
ghost use Rattle.sysmem_tree.specs.Path.{path_of};
ghost use Rattle.sysmem_tree.specs.Tree.{first_tree};
ghost use Rattle.sysmem_tree.specs.declared.tree.TheConstants.{MOST_NODES};
ghost use Rattle.live_book.specs.Quota.{HasPlace, IsQuotaOf, limits_of, noted};

use node_limits::{Limits, Offspring};
use sysmem_alloc::Book;
use sysmem_tree::laws::one_path;
use sysmem_tree::{ActionKind, MOST_NODES, NodeId};

/// How many nodes a host lets there be below each child of the root, and how many there are.
#[derive(Drop)]
pub(crate) struct Quota {
    pub(crate) most: u32,
    pub(crate) offspring: Offspring,
    /// Of each node which child of the root it is, or is below.
    pub(crate) tops: [u32; MOST_NODES],
}

impl Quota {
    /// Of a root alone.
    fn new(most: u32) -> Quota
        ensures most { result.most ≡ most }
        ensures offspring { result.offspring.counts ≡ replicate MOST_NODES 0 }
        ensures tops { length result.tops ≡ MOST_NODES }
    {
        Quota {
            most,
            offspring: Offspring::new(),
            tops: [0; MOST_NODES],
        }
    }

    /// Which child of the root a node is, or is below.
    fn top_of(&self, node: u32) -> u32
        requires { node < MOST_NODES }
        ensures { result ≡ get_or self.now.tops node 0 }
    {
        self.tops[node as usize]
    }

    /// Counts what an accepted action on a node made, as this child of it.
    fn note(&mut self, kind: ActionKind, node: u32, child: u32, made: u32)
        requires node { node < MOST_NODES }
        requires made { made < MOST_NODES }
        requires place { HasPlace node self.old }
        ensures { self.new ≡ noted kind node child made self.old }
    {
        if kind.makes().is_none() {
            return;
        }
        if node == 0 {
            self.tops[made as usize] = child;
            return;
        }
        let top = self.top_of(node);
        self.tops[made as usize] = top;
        self.offspring.add(&[top], kind);
    }
}

/// What is counted of a new collection, if there are limits.
pub(crate) fn quota_for(limits: Limits) -> Option<Quota>
    ensures limits { limits_of result ≡ limits }
    ensures right { IfSome result (IsQuotaOf first_tree.nodes) }
{
    match limits.offspring {
        Some(most) => Some(Quota::new(most)),
        None => None,
    }
}

/// Counts what an accepted action made, if there are limits.
pub(crate) fn note(quota: &mut Option<Quota>, kind: ActionKind, node: u32, child: u32, made: u32)
    requires node { node < MOST_NODES }
    requires made { made < MOST_NODES }
    requires place { IfSome quota.old (HasPlace node) }
    ensures { quota.new ≡ option_map (noted kind node child made) quota.old }
{
    if let Some(quota) = quota {
        quota.note(kind, node, child, made);
    }
}

/// Whether an action of this kind on a node would make one more below a child of the root than a
/// quota allows.
pub(crate) fn is_spent(book: &Book, quota: &Quota, node: NodeId, kind: ActionKind) -> bool
    requires there { HasNode book.now.state.tree.nodes node }
    requires quota { IsQuotaOf book.now.state.tree.nodes quota.now }
    ensures { result ≡ is_spent (limits_of (Some quota.now)) book.now.state.tree.nodes
        (path_of book.now.state.tree.nodes node) kind }
{
    one_path();
    let tree = book.tree();
    tree.recall_sound();
    if kind.makes().is_none() {
        return false;
    }
    let number = tree.number_of(node);
    if number == 0 {
        return false;
    }
    quota.offspring.below(quota.top_of(number)) >= quota.most
}
