//! How it stands with domains: which have failed, and which are ready.

ghost use Rattle.std.specs.Prelude.{◌≡◌, ◌≤◌, ◌==◌, ℕ, List, false, ◌||◌, ◌&&◌, length, map, option_map, get_or};
ghost use Rattle.std.specs.List.{list_any};
ghost use Rattle.sysmem_tree.specs.Domain as domain;
ghost use Rattle.sysmem_tree.specs.Nodes.{IsTree};
ghost use Rattle.sysmem_tree.specs.Tree.{closed_early, decided_domain, left_out_but};

use crate::domain::{Decision, Domain};
use crate::node::Node;
use crate::tree::MOST_NODES;

/// Whether a node of the domain of this root was closed before it was ready.
fn was_closed_early(domains: &[Domain], root: usize) -> bool
    ensures { result ≡ domain.was_closed_early domains.now root }
{
    domains
        .iter()
        .any(|one| one.root == root && one.is_closed_early)
}

/// The decision of the domain of this root.
pub(crate) fn decision_of(domains: &[Domain], root: usize) -> Decision
    ensures { result ≡ domain.decision_of domains.now root }
{
    for one in domains {
        if one.root == root {
            return one.decision;
        }
    }
    Decision::Undecided
}

/// The host of a domain: the collection to which its root was attached.
pub(crate) fn host_of(nodes: &[Node], root: usize) -> Option<&Node>
    ensures { option_map (λ host. host.now) result ≡ domain.host_node nodes.now root }
{
    let birth = nodes.get(root)?.birth()?;
    nodes.get(birth.parent)
}

/// Whether the node's domain was decided with it among the members.
pub(crate) fn is_selected(domains: &[Domain], node: &Node) -> bool
    ensures { result ≡ domain.is_selected domains.now node.now }
{
    decision_of(domains, node.domain()).is_chosen() && !node.is_left_out()
}

/// Whether this decision of the node's domain is one without the node.
pub(crate) fn is_lost_by(decision: Decision, node: &Node) -> bool
    ensures { result
        ≡ domain.is_none_chosen decision || (domain.is_chosen decision && node.now.is_left_out) }
{
    match decision {
        Decision::Undecided => false,
        Decision::Chosen => node.is_left_out(),
        Decision::NoneChosen => true,
    }
}

/// Whether a domain, or one above it, fails by itself. The domain of a host stands before those
/// that hang on it, so that one pass from the last domain to the first meets all above this one.
pub(crate) fn has_failed(nodes: &[Node], domains: &[Domain], root: usize) -> bool
    requires tree { IsTree nodes.now }
    requires rising { domain.AreDomains (record { nodes = nodes.now; domains = domains.now }) }
    ensures { result
        ≡ domain.has_failed (record { nodes = nodes.now; domains = domains.now }) root }
{
    if was_closed_early(domains, root) {
        return true;
    }
    let Some(mut host) = host_of(nodes, root) else {
        return false;
    };
    for index in (0..domains.len()).rev() {
        let one = domains[index];
        if one.root == host.domain() {
            if one.is_closed_early || is_lost_by(one.decision, host) {
                return true;
            }
            let Some(above) = host_of(nodes, one.root) else {
                return false;
            };
            host = above;
        }
    }
    false
}

/// Whether no node of the domain is awaited. Those made last are asked first, since they are mostly
/// awaited the longest.
fn is_complete(nodes: &[Node], root: usize) -> bool
    ensures { result ≡ domain.is_complete nodes.now root }
{
    for number in (0..nodes.len()).rev() {
        let node = &nodes[number];
        if node.domain() == root && node.state().is_awaited() {
            return false;
        }
    }
    true
}

/// Whether the host of a domain, where it has one, is selected.
pub(crate) fn is_host_selected(nodes: &[Node], domains: &[Domain], root: usize) -> bool
    ensures { result ≡ domain.is_host_selected domains.now (domain.host_node nodes.now root) }
{
    match host_of(nodes, root) {
        Some(host) => is_selected(domains, host),
        None => true,
    }
}

/// Whether a domain is ready: its nodes are complete, it hasn't failed, and its host, where it has
/// one, is selected.
pub(crate) fn is_ready(nodes: &[Node], domains: &[Domain], root: usize) -> bool
    requires tree { IsTree nodes.now }
    requires rising { domain.AreDomains (record { nodes = nodes.now; domains = domains.now }) }
    ensures { result ≡ domain.is_ready (record { nodes = nodes.now; domains = domains.now }) root }
{
    is_complete(nodes, root)
        && !has_failed(nodes, domains, root)
        && is_host_selected(nodes, domains, root)
}

/// Marks the domain of this root as closed early.
pub(crate) fn close_early(domains: &mut [Domain], root: usize)
    ensures { domains.new ≡ map (closed_early root) domains.old }
{
    for domain in domains.iter_mut() {
        domain.close_early(root);
    }
}

/// Enters the decision of the domain of this root.
pub(crate) fn decide(domains: &mut [Domain], root: usize, decision: Decision)
    ensures { domains.new ≡ map (decided_domain root decision) domains.old }
{
    for domain in domains.iter_mut() {
        domain.decide(root, decision);
    }
}

/// Leaves all nodes of the domain of this root out, but its members; each node is marked by its
/// number.
pub(crate) fn leave_out(nodes: &mut [Node], root: usize, members: &[bool; MOST_NODES])
    requires { length nodes.old ≤ MOST_NODES }
    ensures { (numbers : List ℕ)
        → ((k : ℕ) → get_or members.now k false ≡ list_any (λ m. m == k) numbers)
        → nodes.new ≡ left_out_but numbers root 0 nodes.old }
{
    for (number, node) in nodes.iter_mut().enumerate() {
        node.leave_out(root, members[number]);
    }
}
