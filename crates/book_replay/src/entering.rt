//! An entry of a book's history, entered in another book.

ghost use Rattle.std.specs.Prelude.{◌≡◌, ◌≤◌, ◌↔◌, IfNone, IfOk, IfSome, IsTrue, length, option_map};
ghost use Rattle.std.specs.Arc.{arc_value};
ghost use Rattle.live_book.specs.Eager.{IsPrompt};
ghost use Rattle.sysmem_alloc.specs.Book.{entered};
ghost use Rattle.sysmem_alloc.specs.Entry.{Acted, deed_with, entry_in};
ghost use Rattle.sysmem_alloc.specs.History.{Allows};
ghost use Rattle.sysmem_tree.specs.ActionKind.{deed_of};
ghost use Rattle.sysmem_tree.specs.Nodes.{HasNode};
ghost use Rattle.verdict_claims.specs.Asked.{asks_at};

use book_events::Entry;
use negotiation_inputs::Constraints;
use record_writing::copy_constraints;
use std::alloc::{AllocError, Global};
use std::sync::Arc;
use sysmem_alloc::Book;
use sysmem_tree::{Action, ActionKind, Event, NodeId, Tree};
use verdict_claims::Claim;

/// A node, where it is one of the tree's.
fn node_in(tree: &Tree, node: NodeId) -> Option<NodeId>
    ensures same { IfSome result (λ there. there ≡ node) }
    ensures there { IfSome result (HasNode tree.now.nodes) }
    ensures none { IfNone result (length tree.now.nodes ≤ node) }
{
    for number in 0..tree.node_count() {
        let Some(there) = tree.node(number) else {
            return None;
        };
        if there == node {
            return Some(there);
        }
    }
    None
}

/// A copy of the constraints that a node of a tree has, if it has some.
fn asked_at(
    alloc: Global,
    tree: &Tree,
    node: NodeId,
) -> Result<Option<Arc<Constraints>>, AllocError>
    ensures { IfOk result (λ asked.
        option_map (λ one. arc_value one) asked ≡ asks_at tree.now.nodes node) }
{
    let Some(there) = node_in(tree, node) else {
        return Ok(None);
    };
    match tree.constraints_of(there) {
        Some(asked) => Ok(Some(Arc::new(alloc, copy_constraints(alloc, asked)?)?)),
        None => Ok(None),
    }
}

/// The action of this kind on a node of a tree, with the constraints that the node has.
fn action_of(
    alloc: Global,
    tree: &Tree,
    node: NodeId,
    kind: ActionKind,
) -> Result<Action, AllocError>
    ensures { IfOk result (λ action.
        deed_of action ≡ deed_with (asks_at tree.now.nodes node) kind) }
{
    match kind {
        ActionKind::Duplicate => Ok(Action::Duplicate),
        ActionKind::CreateGroup => Ok(Action::CreateGroup),
        ActionKind::Bind => Ok(Action::Bind),
        ActionKind::CreateChild => Ok(Action::CreateChild),
        ActionKind::AllChildrenPresent => Ok(Action::AllChildrenPresent),
        ActionKind::SetConstraints => {
            let asked = asked_at(alloc, tree, node)?;
            Ok(Action::SetConstraints(asked))
        }
        ActionKind::AttachToken => Ok(Action::AttachToken),
        ActionKind::Release => Ok(Action::Release),
        ActionKind::Close => Ok(Action::Close),
    }
}

/// One more owner of a claim, if there is one.
fn shared(claim: &Option<Arc<Claim>>) -> Result<Option<Arc<Claim>>, AllocError>
    ensures { IfOk result (λ copy. option_map (λ one. arc_value one) copy
        ≡ option_map (λ one. arc_value one) claim.now) }
{
    match claim {
        Some(one) => Ok(Some(Arc::try_clone(one)?)),
        None => Ok(None),
    }
}

/// Enters an action of this kind, with the constraints that its node has in a tree; `false` where a
/// domain waits for a decision.
fn act(
    alloc: Global,
    tree: &Tree,
    node: NodeId,
    kind: ActionKind,
    book: &mut Book,
) -> Result<bool, AllocError>
    requires { Allows book.old.platform book.old.state
        (Acted node (deed_with (asks_at tree.now.nodes node) kind)) }
    ensures prompt { IfOk result (λ was. IsTrue was ↔ IsPrompt book.old.state
        (Acted node (deed_with (asks_at tree.now.nodes node) kind))) }
    ensures entered { IfOk result (λ was. IsTrue was → book.new ≡ entered book.old
        (Acted node (deed_with (asks_at tree.now.nodes node) kind))) }
{
    if book.next_ready().is_some() {
        return Ok(false);
    }
    let action = action_of(alloc, tree, node, kind)?;
    let done = book.apply(Event { node, action });
    Ok(done.is_ok())
}

/// Enters an entry that stands in the history of a book with this tree, and that this book allows;
/// `false` where it is an action, and a domain waits for a decision.
pub(crate) fn enter(
    alloc: Global,
    tree: &Tree,
    entry: &Entry,
    book: &mut Book,
) -> Result<bool, AllocError>
    requires { Allows book.old.platform book.old.state (entry_in tree.now.nodes entry.now) }
    ensures prompt { IfOk result (λ was.
        IsTrue was ↔ IsPrompt book.old.state (entry_in tree.now.nodes entry.now)) }
    ensures entered { IfOk result (λ was.
        IsTrue was → book.new ≡ entered book.old (entry_in tree.now.nodes entry.now)) }
{
    match entry {
        Entry::Acted(node, kind) => act(alloc, tree, *node, *kind, book),
        Entry::Decided(domain, claim) => {
            let claim = shared(claim)?;
            book.decide(*domain, claim);
            Ok(true)
        }
    }
}
