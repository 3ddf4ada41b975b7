//! What a book enters.

ghost use Rattle.std.specs.Prelude.{◌≡◌, ◌<◌, [], ◌∷◌, ◌++◌};
ghost use Rattle.std.specs.Vec.{vec_capacity, vec_len};
ghost use Rattle.book_events.specs.declared.entry.Entry.TheVariants as entries;

use std::sync::Arc;
use sysmem_tree::{ActionKind, DomainId, NodeId};
use verdict_claims::Claim;

/// An entry of a book's history.
#[derive(Debug, Drop)]
pub enum Entry {
    /// An accepted action on a node; the constraints that it set stand in the tree.
    Acted(NodeId, ActionKind),
    /// The decision of a domain, with its verdict and what proves it, if anything does; `None`
    /// where memory was refused to it.
    Decided(DomainId, Option<Arc<Claim>>),
}

/// Adds an accepted action on a node behind a history's entries. The history has room for one more,
/// so this takes no memory.
pub fn enter_action(history: &mut Vec<Entry>, node: NodeId, kind: ActionKind)
    requires { vec_len history.old < vec_capacity history.old }
    ensures items { history.new.items ≡ history.old.items ++ entries.Acted node kind ∷ [] }
    ensures capacity { vec_capacity history.new ≡ vec_capacity history.old }
{
    history.push_reserved(Entry::Acted(node, kind));
}
