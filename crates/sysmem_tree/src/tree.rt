//! The tree of a collection.

ghost use Rattle.std.specs.Prelude.{◌≡◌, ℕ, List, ◌<◌, ◌≤◌, true, Some, None, Ok, Err, length, option_map, slice_get, IfOk, IfErr, IfSome, OnErr};
ghost use Rattle.std.specs.Result.{result_err};
ghost use Rattle.std.specs.Vec.{vec_capacity};
ghost use Rattle.sysmem_tree.specs.ActionKind.{deed_of, kind_of};
ghost use Rattle.sysmem_tree.specs.Domain.{AreDomains, HasDomain, IsSoundTree, decision_of, fate_of, host_number, is_ready, is_selected};
ghost use Rattle.sysmem_tree.specs.Nodes.{HasNode, IsTree};
ghost use Rattle.sysmem_tree.specs.Path.{node_at, path_of};
ghost use Rattle.sysmem_tree.specs.Table.{makes_root};
ghost use Rattle.sysmem_tree.specs.Tree.{applied, domains_after, first_tree, has_room, is_barred, nodes_after, number_after};

use crate::action::{Action, ActionKind, Event};
use crate::copying::{copied_domains, copied_nodes};
use crate::domain::{Decision, Domain};
use crate::fate::Fate;
use crate::id::{DomainId, NodeId};
use crate::node::Node;
use crate::path::Path;
use crate::paths::{node_at, path_to};
use crate::refusal::Refusal;
use crate::standing::{close_early, decision_of, has_failed, is_ready, is_selected};
use crate::state::{NodeKind, NodeState};
use negotiation_inputs::Constraints;
use std::alloc::{AllocError, Global};
use std::marker::Model;

/// The greatest number of nodes of one collection, those that are gone included.
pub const MOST_NODES: usize = 128;

/// The nodes of a collection, at most 128, and how it stands with its domains.
#[derive(Debug)]
pub struct Tree {
    pub(crate) nodes: Vec<Node>,
    pub(crate) domains: Vec<Domain>,
}

impl Drop for Tree {
    fn drop(self) {
        let Tree {
            nodes: _,
            domains: _,
        } = self;
    }
}

impl Model for Tree {
    ghost use Rattle.std.specs.Prelude.{◌≤◌};
    ghost use Rattle.std.specs.Vec.{vec_capacity};
    ghost use Rattle.sysmem_tree.specs.Domain.{IsSoundTree, TreeFacts};
    ghost use Rattle.sysmem_tree.specs.declared.tree.TheConstants.{MOST_NODES};

    ghost Value = { TreeFacts };

    ghost view = { λ t. record { nodes = t.nodes.items; domains = t.domains.items } };

    ghost invariant = { λ t.
        IsSoundTree (record { nodes = t.nodes.items; domains = t.domains.items })
        × (MOST_NODES ≤ vec_capacity t.nodes) × (MOST_NODES ≤ vec_capacity t.domains) };
}

impl Tree {
    /// The tree of an open root token, undecided. It reserves room for 128 nodes and domains, so
    /// that no action takes memory. Where memory is refused it answers `AllocError`.
    pub fn new(alloc: Global) -> Result<Tree, AllocError>
        ensures { IfOk result (λ tree. tree ≡ first_tree) }
    {
        let mut nodes = Vec::with_capacity(alloc, MOST_NODES)?;
        let mut domains = Vec::with_capacity(alloc, MOST_NODES)?;
        nodes.push_reserved(Node::root());
        domains.push_reserved(Domain::new(0));
        Ok(Tree { nodes, domains })
    }

    /// A copy that is equal to this tree, in memory of the same allocator, with room for 128 nodes
    /// and domains; it shares the constraints. `AllocError` where memory is refused.
    pub fn copy(&self) -> Result<Tree, AllocError>
        ensures { IfOk result (λ copy. copy ≡ self.now) }
    {
        let nodes = copied_nodes(*self.nodes.allocator(), &self.nodes)?;
        let domains = copied_domains(*self.domains.allocator(), &self.domains)?;
        Ok(Tree { nodes, domains })
    }

    /// The root.
    pub fn root(&self) -> NodeId
        ensures number { result ≡ 0 }
        ensures there { HasNode self.now.nodes result }
    {
        let _ = &self.nodes;
        NodeId(0)
    }

    /// How many nodes were made, those that are gone included: 1 to 128.
    pub fn node_count(&self) -> u32
        ensures number { result ≡ length self.now.nodes }
        ensures some { 1 ≤ result }
        ensures few { result ≤ MOST_NODES }
        ensures sound { IsSoundTree self.now }
    {
        self.nodes.len() as u32
    }

    /// Recalls, for a proof, that this tree is sound, as each is. It does nothing.
    pub fn recall_sound(&self)
        ensures { IsSoundTree self.now }
    {
        let _ = &self.nodes;
    }

    /// The node to which these ordinals lead from the root; `None` where the tree has none there.
    pub fn node_at(&self, path: &[u32]) -> Option<NodeId>
        ensures node { result ≡ node_at self.now.nodes path.now }
        ensures there { IfSome result (HasNode self.now.nodes) }
    {
        let number = node_at(&self.nodes, path)?;
        Some(NodeId(number))
    }

    /// The path of a node of the tree, in memory of the tree's allocator; `AllocError` where that
    /// is refused.
    pub fn path_of(&self, node: NodeId) -> Result<Path, AllocError>
        requires { HasNode self.now.nodes node }
        ensures path { IfOk result (λ path. path ≡ path_of self.now.nodes node) }
        ensures leads { IfOk result (λ path. node_at self.now.nodes path ≡ Some node) }
        ensures only { IfOk result
            (λ path. (other : List ℕ) → node_at self.now.nodes other ≡ Some node → other ≡ path) }
    {
        let ordinals = path_to(*self.nodes.allocator(), &self.nodes, node.0)?;
        Ok(Path::new(ordinals))
    }

    /// What a node of the tree is.
    pub fn kind(&self, node: NodeId) -> NodeKind
        requires { HasNode self.now.nodes node }
        ensures { IfSome (slice_get self.now.nodes node) (λ n. result ≡ n.state.kind) }
    {
        self.nodes[node.0].state().kind
    }

    /// What its own actions made of a node of the tree, but for its constraints.
    pub fn state(&self, node: NodeId) -> NodeState
        requires { HasNode self.now.nodes node }
        ensures { IfSome (slice_get self.now.nodes node) (λ n. result ≡ n.state) }
    {
        self.nodes[node.0].state()
    }

    /// Whether a node of the tree is open, that is, not gone.
    pub fn is_open(&self, node: NodeId) -> bool
        requires { HasNode self.now.nodes node }
        ensures { IfSome (slice_get self.now.nodes node) (λ n. result ≡ n.state.is_open) }
    {
        self.nodes[node.0].state().is_open
    }

    /// The constraints that a node of the tree set; `None` where it set none or isn't set. A node
    /// that is gone keeps them.
    pub fn constraints_of(&self, node: NodeId) -> Option<&Constraints>
        requires { HasNode self.now.nodes node }
        ensures { IfSome (slice_get self.now.nodes node)
            (λ n. option_map (λ asked. asked.now) result ≡ n.constraints) }
    {
        match &self.nodes[node.0].constraints {
            Some(shared) => Some(shared),
            None => None,
        }
    }

    /// The domain of a node of the tree.
    pub fn domain_of(&self, node: NodeId) -> DomainId
        requires { HasNode self.now.nodes node }
        ensures domain { IfSome (slice_get self.now.nodes node) (λ n. result ≡ n.domain) }
        ensures there { HasDomain self.now.nodes result }
    {
        DomainId(self.nodes[node.0].domain())
    }

    /// Whether the domain of a node of the tree was decided, settings were chosen, and the node is
    /// a member of the selection.
    pub fn is_selected(&self, node: NodeId) -> bool
        requires { HasNode self.now.nodes node }
        ensures { IfSome (slice_get self.now.nodes node)
            (λ n. result ≡ is_selected self.now.domains n) }
    {
        is_selected(&self.domains, &self.nodes[node.0])
    }

    /// How many domains there are: 1 to 128.
    pub fn domain_count(&self) -> u32
        ensures number { result ≡ length self.now.domains }
        ensures some { 1 ≤ result }
        ensures few { result ≤ MOST_NODES }
    {
        self.domains.len() as u32
    }

    /// The domain of this index, in the order in which their roots were made; `None` from
    /// `domains()` on.
    pub fn domain_at(&self, index: u32) -> Option<DomainId>
        ensures domain { result ≡ option_map (λ one. one.root) (slice_get self.now.domains index) }
        ensures there { IfSome result (HasDomain self.now.nodes) }
    {
        let domain = self.domains.get(index as usize)?;
        Some(DomainId(domain.root))
    }

    /// The root of a domain of the tree.
    pub fn root_of(&self, domain: DomainId) -> NodeId
        requires { HasDomain self.now.nodes domain }
        ensures node { result ≡ domain }
        ensures there { HasNode self.now.nodes result }
    {
        let _ = &self.nodes;
        NodeId(domain.0)
    }

    /// The host of a domain of the tree: the collection to which its root was attached. The initial
    /// domain has none.
    pub fn host_of(&self, domain: DomainId) -> Option<NodeId>
        requires { HasDomain self.now.nodes domain }
        ensures node { result ≡ host_number self.now.nodes domain }
        ensures there { IfSome result (HasNode self.now.nodes) }
    {
        let birth = self.nodes[domain.0].birth()?;
        Some(NodeId(birth.parent))
    }

    /// Whether a domain of the tree is ready for a decision: nothing more waits on any of its
    /// nodes, it hasn't failed, and, where its root was attached, the collection to which it was is
    /// selected. A domain that is ready stays so, whatever is decided.
    pub fn is_ready(&self, domain: DomainId) -> bool
        requires { HasDomain self.now.nodes domain }
        ensures { result ≡ is_ready self.now domain }
    {
        is_ready(&self.nodes, &self.domains, domain.0)
    }

    /// What became of a domain of the tree.
    pub fn fate(&self, domain: DomainId) -> Fate
        requires { HasDomain self.now.nodes domain }
        ensures { result ≡ fate_of self.now domain }
    {
        if has_failed(&self.nodes, &self.domains, domain.0) {
            return Fate::Failed;
        }
        match decision_of(&self.domains, domain.0) {
            Decision::Undecided => Fate::Undecided,
            Decision::Chosen => Fate::Chosen,
            Decision::NoneChosen => Fate::NoneChosen,
        }
    }

    /// Makes an action on a node, and answers the node that was made, or else the node itself; or
    /// the first refusal, in the order of `DomainFailed`, `NotSelected`, `WrongState`,
    /// `NoChildren`, `TooManyNodes`, and then nothing has changed. It takes no memory.
    pub fn apply(&mut self, event: Event) -> Result<NodeId, Refusal>
        ensures accepted { IfOk result (λ node. applied self.old event.node (deed_of event.action)
            ≡ Ok (record { tree = self.new; node = node })) }
        ensures refused { IfErr result
            (λ refusal. applied self.old event.node (deed_of event.action) ≡ Err refusal) }
        ensures unchanged { OnErr result (self.new ≡ self.old) }
        ensures there { IfOk result (HasNode self.new.nodes) }
        ensures grows { length self.old.nodes ≤ length self.new.nodes }
    {
        let number = event.node.0;
        if let Some(refusal) = self.refusal_of(number, &event.action) {
            return Err(refusal);
        }
        Ok(self.enter(number, event.action))
    }

    /// The first refusal of an action on what is this node, if there is one.
    fn refusal_of(&self, number: usize, action: &Action) -> Option<Refusal>
        ensures { result ≡ result_err (applied self.now number (deed_of action.now)) }
    {
        let kind = action.kind();
        let Some(node) = self.nodes.get(number) else {
            return Some(Refusal::WrongState);
        };
        if self.is_barred(node.domain()) && !kind.ends_node() {
            return Some(Refusal::DomainFailed);
        }
        if node.is_left_out() && !kind.ends_node() {
            return Some(Refusal::NotSelected);
        }
        if !node.state().allows(kind) {
            return Some(Refusal::WrongState);
        }
        if node.state().wants_child(kind) {
            return Some(Refusal::NoChildren);
        }
        if kind.makes().is_some() && self.nodes.len() >= MOST_NODES {
            return Some(Refusal::TooManyNodes);
        }
        None
    }

    /// Whether a domain refuses the actions on its nodes, but for those that end one.
    fn is_barred(&self, root: usize) -> bool
        ensures { result ≡ is_barred self.now root }
    {
        has_failed(&self.nodes, &self.domains, root)
            || decision_of(&self.domains, root).is_none_chosen()
    }

    /// Makes an action that is not refused.
    fn enter(&mut self, number: usize, action: Action) -> NodeId
        requires { result_err (applied self.old number (deed_of action)) ≡ None }
        ensures { applied self.old number (deed_of action)
            ≡ Ok (record { tree = self.new; node = result }) }
    {
        note(&self.nodes, &mut self.domains, number, action.kind());
        NodeId(act(&mut self.nodes, number, action))
    }
}

/// Notes an action on one of the nodes with the domains: an attached token has one of its own, and
/// a close fails one that isn't ready.
fn note(nodes: &[Node], domains: &mut Vec<Domain>, number: usize, kind: ActionKind)
    requires tree { IsTree nodes.now }
    requires rising { AreDomains (record { nodes = nodes.now; domains = domains.old.items }) }
    requires there { number < length nodes.now }
    requires reserved { MOST_NODES ≤ vec_capacity domains.old }
    requires room { makes_root kind ≡ true → length domains.old.items < MOST_NODES }
    ensures domains { IfSome (slice_get nodes.now number)
        (λ n. domains.new.items
        ≡ domains_after (record { nodes = nodes.now; domains = domains.old.items }) n kind) }
    ensures reserved { MOST_NODES ≤ vec_capacity domains.new }
{
    let root = nodes[number].domain();
    match kind {
        ActionKind::AttachToken => domains.push_reserved(Domain::new(nodes.len())),
        ActionKind::Close if !is_ready(nodes, domains, root) => close_early(domains, root),
        _ => {}
    }
}

/// Makes an action that one of the nodes allows, and answers which node was made, or else the node
/// itself.
fn act(nodes: &mut Vec<Node>, number: usize, action: Action) -> usize
    requires tree { IsTree nodes.old.items }
    requires reserved { MOST_NODES ≤ vec_capacity nodes.old }
    requires there { number < length nodes.old.items }
    requires room { has_room nodes.old.items (kind_of (deed_of action)) ≡ true }
    ensures nodes { IfSome (slice_get nodes.old.items number)
        (λ n. nodes.new.items ≡ nodes_after nodes.old.items number n (deed_of action)) }
    ensures node { result ≡ number_after nodes.old.items number (kind_of (deed_of action)) }
    ensures reserved { MOST_NODES ≤ vec_capacity nodes.new }
{
    let kind = action.kind();
    let made = nodes.len();
    let child = nodes[number].next_child(number, made, kind);
    nodes[number].act(action);
    let Some(node) = child else {
        return number;
    };
    nodes.push_reserved(node);
    made
}
