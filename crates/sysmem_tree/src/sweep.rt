//! All domains at once: which have failed, and which are ready.

ghost use Rattle.std.specs.Prelude.{◌≡◌, ◌<◌, ◌&&◌, ◌||◌, ℕ, not, false, get_or, option_map, IfSome};
ghost use Rattle.sysmem_tree.specs.Domain.{AreDomains, host_node, is_complete, is_host_selected};
ghost use Rattle.sysmem_tree.specs.Nodes.{IsTree};
ghost use Rattle.sysmem_tree.specs.Sweep.{fails_with, failed_at, ready_at};

use crate::domain::{Decision, Domain};
use crate::node::Node;
use crate::standing::{host_of, is_host_selected, is_lost_by};
use crate::tree::{MOST_NODES, Tree};

/// Whether a domain with this host fails with it, where it is known of the domains made before
/// which have failed and what was decided for them, by the numbers of their roots.
fn fails_with(
    host: Option<&Node>,
    failed: &[bool; MOST_NODES],
    decisions: &[Decision; MOST_NODES],
) -> bool
    requires { IfSome host (λ one. one.now.domain < MOST_NODES) }
    ensures { result
        ≡ fails_with failed.now decisions.now (option_map (λ one. one.now) host.entry) }
{
    match host {
        Some(node) => {
            let domain = node.domain();
            failed[domain] || is_lost_by(decisions[domain], node)
        }
        None => false,
    }
}

/// Whether this domain has failed, where that is known of the domains made before it.
fn has_failed(
    nodes: &[Node],
    one: Domain,
    failed: &[bool; MOST_NODES],
    decisions: &[Decision; MOST_NODES],
) -> bool
    requires { IsTree nodes.now }
    ensures { result ≡ (one.is_closed_early
        || fails_with failed.now decisions.now (host_node nodes.now one.root)) }
{
    one.is_closed_early || fails_with(host_of(nodes, one.root), failed, decisions)
}

/// The domains that have failed, marked in order of creation of their roots. The domain of a host
/// stands before those that hang on it, so one pass is enough.
fn failed_domains(nodes: &[Node], domains: &[Domain]) -> [bool; MOST_NODES]
    requires tree { IsTree nodes.now }
    requires rising { AreDomains (record { nodes = nodes.now; domains = domains.now }) }
    ensures { (k : ℕ) → get_or result k false
        ≡ failed_at (record { nodes = nodes.now; domains = domains.now }) k }
{
    let mut marks = [false; MOST_NODES];
    let mut failed = [false; MOST_NODES];
    let mut decisions = [Decision::Undecided; MOST_NODES];
    for index in 0..domains.len() {
        let one = domains[index];
        let has_failed = has_failed(nodes, one, &failed, &decisions);
        marks[index] = has_failed;
        failed[one.root] = has_failed;
        decisions[one.root] = one.decision;
    }
    marks
}

/// The domains of which a node is awaited, marked by the numbers of their roots.
fn awaiting(nodes: &[Node]) -> [bool; MOST_NODES]
    requires { IsTree nodes.now }
    ensures { (r : ℕ) → get_or result r false ≡ not (is_complete nodes.now r) }
{
    let mut marks = [false; MOST_NODES];
    for number in 0..nodes.len() {
        let node = &nodes[number];
        if node.state().is_awaited() {
            marks[node.domain()] = true;
        }
    }
    marks
}

/// Whether a domain is ready, where it is known whether a node of it is awaited and whether it has
/// failed.
fn is_ready(awaits: bool, failed: bool, nodes: &[Node], domains: &[Domain], root: usize) -> bool
    ensures { result
        ≡ (not awaits && (not failed && is_host_selected domains.now (host_node nodes.now root))) }
{
    !awaits && !failed && is_host_selected(nodes, domains, root)
}

/// The domains that are ready, marked in order of creation of their roots.
fn ready_domains(nodes: &[Node], domains: &[Domain]) -> [bool; MOST_NODES]
    requires tree { IsTree nodes.now }
    requires rising { AreDomains (record { nodes = nodes.now; domains = domains.now }) }
    ensures { (k : ℕ) → get_or result k false
        ≡ ready_at (record { nodes = nodes.now; domains = domains.now }) k }
{
    let awaiting = awaiting(nodes);
    let failed = failed_domains(nodes, domains);
    let mut marks = [false; MOST_NODES];
    for index in 0..domains.len() {
        let root = domains[index].root;
        marks[index] = is_ready(awaiting[root], failed[index], nodes, domains, root);
    }
    marks
}

impl Tree {
    /// The domains that have failed, marked in order of creation of their roots.
    pub fn failed_domains(&self) -> [bool; MOST_NODES]
        ensures { (k : ℕ) → get_or result k false ≡ failed_at self.now k }
    {
        failed_domains(&self.nodes, &self.domains)
    }

    /// The domains that are ready, marked in order of creation of their roots.
    pub fn ready_domains(&self) -> [bool; MOST_NODES]
        ensures { (k : ℕ) → get_or result k false ≡ ready_at self.now k }
    {
        ready_domains(&self.nodes, &self.domains)
    }
}
