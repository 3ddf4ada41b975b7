//! Which domains an event made ready.

ghost use Rattle.std.specs.Prelude.{◌≡◌, ◌≤◌, ◌<◌, ◌+◌, ◌++◌, ℕ, false, length, get_or, IfSome};
ghost use Rattle.std.specs.Vec.{vec_capacity};
ghost use Rattle.sysmem_alloc.specs.Marks.{if_ready, ready_at, ready_unmarked, unmarked_at};
ghost use Rattle.sysmem_alloc.specs.Sound.{roots_of};
ghost use Rattle.sysmem_tree.specs.Domain.{HasDomain};

use sysmem_tree::{DomainId, MOST_NODES, Tree};

/// Whether the domain of this index is ready.
fn is_ready_at(tree: &Tree, index: u32) -> bool
    ensures { result ≡ ready_at tree.now index }
{
    match tree.domain_at(index) {
        Some(domain) => tree.is_ready(domain),
        None => false,
    }
}

/// The domains that are ready, marked in order of creation of their roots. Whether a single one is
/// ends at the first of its nodes that is awaited; several are asked for at once.
pub(crate) fn ready_domains(tree: &Tree) -> [bool; MOST_NODES]
    ensures { (k : ℕ) → get_or result k false ≡ ready_at tree.now k }
{
    if tree.domain_count() > 1 {
        return tree.ready_domains();
    }
    let mut marks = [false; MOST_NODES];
    marks[0] = is_ready_at(tree, 0);
    marks
}

/// The domain of this index, if it is ready and wasn't, both by marks.
fn newly_ready_at(
    tree: &Tree,
    are_ready: &[bool; MOST_NODES],
    were_ready: &[bool; MOST_NODES],
    index: u32,
) -> Option<DomainId>
    requires small { index < MOST_NODES }
    requires marks { (k : ℕ) → get_or are_ready.now k false ≡ ready_at tree.now k }
    ensures { result ≡ unmarked_at tree.now were_ready.now index }
{
    let is_new = are_ready[index as usize] && !were_ready[index as usize];
    if is_new { tree.domain_at(index) } else { None }
}

/// Adds the domains that are ready and aren't marked, in order of creation of their roots.
pub(crate) fn add_ready(tree: &Tree, marks: &[bool; MOST_NODES], waiting: &mut Vec<DomainId>)
    requires { length waiting.old.items
        + length (ready_unmarked tree.now marks.now 0 (roots_of tree.now))
        ≤ vec_capacity waiting.old }
    ensures items { waiting.new.items
        ≡ waiting.old.items ++ ready_unmarked tree.now marks.now 0 (roots_of tree.now) }
    ensures reserved { vec_capacity waiting.new ≡ vec_capacity waiting.old }
{
    let are_ready = ready_domains(tree);
    for index in 0..tree.domain_count() {
        let Some(domain) = newly_ready_at(tree, &are_ready, marks, index) else {
            continue;
        };
        waiting.push_reserved(domain);
    }
}

/// Adds a domain, if there is one and it is ready.
pub(crate) fn add_if_ready(tree: &Tree, domain: Option<DomainId>, waiting: &mut Vec<DomainId>)
    requires there { IfSome domain (HasDomain tree.now.nodes) }
    requires room { length waiting.old.items + length (if_ready tree.now domain)
        ≤ vec_capacity waiting.old }
    ensures items { waiting.new.items ≡ waiting.old.items ++ if_ready tree.now domain }
    ensures reserved { vec_capacity waiting.new ≡ vec_capacity waiting.old }
{
    if let Some(one) = domain {
        if tree.is_ready(one) {
            waiting.push_reserved(one);
        }
    }
}
