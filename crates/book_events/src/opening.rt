//! Which nodes are open, and when their marks are taken anew.

ghost use Rattle.std.specs.Prelude.{◌≡◌, ◌≢◌, ℕ, [], false, true, get_or};
ghost use Rattle.book_events.specs.Open.{is_open};

use sysmem_tree::{DomainId, MOST_NODES, Tree};

/// Whether the node of this number is open.
fn is_open_at(tree: &Tree, number: u32) -> bool
    ensures { result ≡ is_open tree.now.nodes number }
{
    match tree.node(number) {
        Some(node) => tree.is_open(node),
        None => false,
    }
}

/// The nodes that are open, marked by their numbers.
pub fn open_nodes(tree: &Tree) -> [bool; MOST_NODES]
    ensures { (k : ℕ) → get_or result k false ≡ is_open tree.now.nodes k }
{
    let mut marks = [false; MOST_NODES];
    for number in 0..tree.node_count() {
        marks[number as usize] = is_open_at(tree, number);
    }
    marks
}

/// Marks anew the nodes that are open where domains are `waiting` and `none_waited` before; else
/// the marks stay.
pub fn mark_for_first(
    tree: &Tree,
    none_waited: bool,
    waiting: &[DomainId],
    were_open: &mut [bool; MOST_NODES],
)
    ensures open { none_waited ≡ true → waiting.now ≢ []
        → (k : ℕ) → get_or were_open.new k false ≡ is_open tree.now.nodes k }
    ensures kept { none_waited ≡ false → were_open.new ≡ were_open.old }
    ensures idle { waiting.now ≡ [] → were_open.new ≡ were_open.old }
{
    if none_waited && !waiting.is_empty() {
        *were_open = open_nodes(tree);
    }
}
