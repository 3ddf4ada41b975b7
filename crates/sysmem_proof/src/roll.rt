//! Whom a line may name.

ghost use Rattle.std.specs.Prelude.{◌≡◌, ◌≤◌, ◌<◌, ◌==◌, ◌||◌, ◌++◌, ℕ, List, [], false, None, All, IfSome, get_or, is_some, length, option_and_then, option_map, slice_get, if◌then◌else◌};
ghost use Rattle.std.specs.List.{filter_map, list_any};
ghost use Rattle.verdict_claims.specs.Fault.{AreNamed};
ghost use Rattle.verdict_claims.specs.Members.{participants};
ghost use Rattle.verdict_claims.specs.Naming.{asked_at};
ghost use Rattle.verdict_claims.specs.Roll.{asked_on, listed, numbers_on};
ghost use Rattle.sysmem_tree.specs.Domain.{HasDomain};
ghost use Rattle.sysmem_tree.specs.Laws.{IsOnlyPath};
ghost use Rattle.sysmem_tree.specs.Layout.{IsLayout};
ghost use Rattle.sysmem_tree.specs.Nodes.{HasNode};
ghost use Rattle.sysmem_tree.specs.OpenGroups.{HoldsNodes};
ghost use Rattle.sysmem_tree.specs.Selection.{IsPrefix};
ghost use Rattle.sysmem_tree.specs.Shape.{by_number, forest_of, shape_of};

use negotiation_inputs::Constraints;
use std::marker::Model;
use sysmem_tree::laws::{one_forest, one_path};
use sysmem_tree::layout_laws::choices_leave_one_forest;
use sysmem_tree::{DomainId, Layout, MOST_NODES, NodeId, Prefix, Tree};

/// The participants that choices settle in a domain of a tree, and those that were accepted
/// before where they may be named too.
#[derive(Drop)]
pub(crate) struct Roll<'a> {
    tree: &'a Tree,
    domain: DomainId,
    prefix: &'a Prefix,
    accepted: &'a [NodeId],
    /// Which nodes are on it, by their numbers.
    marks: [bool; MOST_NODES],
}

impl<'a> Model for Roll<'a> {
    ghost use Rattle.std.specs.Prelude.{◌≡◌, ◌==◌, ◌++◌, ℕ, false, All, get_or};
    ghost use Rattle.std.specs.List.{list_any};
    ghost use Rattle.verdict_claims.specs.Roll.{RollFacts};
    ghost use Rattle.sysmem_tree.specs.Domain.{HasDomain, IsSoundTree};
    ghost use Rattle.sysmem_tree.specs.Nodes.{HasNode};
    ghost use Rattle.sysmem_tree.specs.Shape.{members_of};

    ghost Value = { RollFacts };

    ghost view = { λ r. record {
      nodes = r.tree.now.nodes;
      domain = r.domain;
      choices = r.prefix.now;
      accepted = r.accepted.now;
    } };

    ghost invariant = { λ r. HasDomain r.tree.now.nodes r.domain × IsSoundTree r.tree.now
        × All (HasNode r.tree.now.nodes) r.accepted.now
        × ((k : ℕ) → get_or r.marks k false ≡ list_any (λ i. i == k)
        (r.accepted.now ++ members_of r.tree.now.nodes r.domain r.prefix.now)) };
}

impl<'a> Roll<'a> {
    /// Of what these choices settle in the domain that is laid out so, and these nodes.
    pub(crate) fn new(
        tree: &'a Tree,
        domain: DomainId,
        layout: &Layout,
        prefix: &'a Prefix,
        accepted: &'a [NodeId],
    ) -> Roll<'a>
        requires domain { HasDomain tree.now.nodes domain }
        requires lays { IsLayout layout.now (forest_of by_number tree.now.nodes domain []) }
        requires nodes { HoldsNodes layout.now tree.now.nodes }
        requires prefix { IsPrefix (shape_of tree.now.nodes domain) prefix.now }
        requires there { All (HasNode tree.now.nodes) accepted.now }
        ensures { result ≡ record {
          nodes = tree.now.nodes;
          domain = domain;
          choices = prefix.now;
          accepted = accepted.now;
        } }
    {
        tree.recall_sound();
        choices_leave_one_forest();
        let mut marks = layout.settled_marks(prefix);
        mark_all(tree, accepted, &mut marks);
        Roll {
            tree,
            domain,
            prefix,
            accepted,
            marks,
        }
    }

    /// What the participant at the path asks, if it is one of them.
    pub(crate) fn at(&self, path: &[u32]) -> Option<&'a Constraints>
        ensures { option_map (λ asked. asked.now) result ≡ asked_at (listed self.now) path.now }
    {
        one_path();
        one_forest();
        let node = self.tree.node_at(path)?;
        marked(self.tree, &self.marks, node)
    }

    /// What the node of this number asks, if it is one of them.
    pub(crate) fn at_number(&self, number: u32) -> Option<&'a Constraints>
        ensures { option_map (λ asked. asked.now) result ≡ asked_on self.now number }
    {
        let node = self.tree.node(number)?;
        marked(self.tree, &self.marks, node)
    }

    /// The number of the participant at the path, if it is one of them.
    pub(crate) fn number_of(&self, path: &[u32]) -> Option<usize>
        ensures named { is_some result ≡ is_some (asked_at (listed self.now) path.now) }
        ensures at { IfSome result (λ n. IsOnlyPath self.now.nodes n path.now) }
        ensures few { IfSome result (λ n. n < MOST_NODES) }
    {
        one_path();
        one_forest();
        let node = self.tree.node_at(path)?;
        marked(self.tree, &self.marks, node)?;
        Some(self.tree.number_of(node) as usize)
    }

    /// The number of the participant at the path, and what it asks, if it is one of them.
    pub(crate) fn named_at(&self, path: &[u32]) -> Option<(usize, &'a Constraints)>
        ensures asks { option_map (λ one. one.1.now) result
            ≡ asked_at (listed self.now) path.now }
        ensures at { IfSome result (λ one. IsOnlyPath self.now.nodes one.0 path.now) }
        ensures few { IfSome result (λ one. one.0 < MOST_NODES) }
    {
        one_path();
        one_forest();
        let node = self.tree.node_at(path)?;
        let asked = marked(self.tree, &self.marks, node)?;
        Some((self.tree.number_of(node) as usize, asked))
    }

    /// What all of them ask is what the nodes of their numbers ask.
    pub(crate) fn by_numbers(&self)
        ensures { participants (listed self.now)
            ≡ filter_map (λ i. option_and_then (λ n. n.constraints) (slice_get self.now.nodes i))
            (numbers_on self.now) }
    {
        one_path();
        one_forest();
        self.tree.recall_sound();
    }

    /// How many nodes the tree has.
    pub(crate) fn node_count(&self) -> u32
        ensures { result ≡ length self.now.nodes }
    {
        self.tree.node_count()
    }

    /// Participants that are named, each once, are at most as many as a tree has nodes.
    pub(crate) fn few_named(&self)
        ensures { (paths : List (List ℕ)) → AreNamed (listed self.now) paths
            → length paths ≤ MOST_NODES }
    {
        few_paths(self.tree, self.domain, self.prefix, self.accepted);
    }

    /// Whether the path is that of one of them.
    pub(crate) fn has(&self, path: &[u32]) -> bool
        ensures { result ≡ is_some (asked_at (listed self.now) path.now) }
    {
        is_there(self.at(path))
    }
}

/// Marks these nodes too.
fn mark_all(tree: &Tree, nodes: &[NodeId], marks: &mut [bool; MOST_NODES])
    requires { All (HasNode tree.now.nodes) nodes.now }
    ensures { (k : ℕ) → get_or marks.new k false
        ≡ (list_any (λ i. i == k) nodes.now || get_or marks.old k false) }
{
    for node in nodes {
        marks[tree.number_of(*node) as usize] = true;
    }
}

/// What a node asks, if it is marked and has constraints.
fn marked<'a>(tree: &'a Tree, marks: &[bool; MOST_NODES], node: NodeId) -> Option<&'a Constraints>
    requires { HasNode tree.now.nodes node }
    ensures { option_map (λ asked. asked.now) result ≡ (if get_or marks.now node false
        then option_and_then (λ n. n.constraints) (slice_get tree.now.nodes node) else None) }
{
    if !marks[tree.number_of(node) as usize] {
        return None;
    }
    tree.constraints_of(node)
}

/// Paths that name participants, each once, are at most as many as a tree has nodes.
fn few_paths(tree: &Tree, domain: DomainId, prefix: &Prefix, accepted: &[NodeId])
    requires domain { HasDomain tree.now.nodes domain }
    requires there { All (HasNode tree.now.nodes) accepted.now }
    ensures { (paths : List (List ℕ)) → AreNamed (listed (record {
      nodes = tree.now.nodes;
      domain = domain;
      choices = prefix.now;
      accepted = accepted.now;
    })) paths → length paths ≤ MOST_NODES }
{
    one_path();
    one_forest();
    tree.recall_sound();
}

/// Whether a participant is there.
fn is_there(asked: Option<&Constraints>) -> bool
    ensures { result ≡ is_some (option_map (λ one. one.now) asked.entry) }
{
    asked.is_some()
}
