//! Whether a history has the actions of a log.

ghost use Rattle.std.specs.Prelude.{◌≡◌, ◌≢◌, ◌<◌, ◌≤◌, ◌++◌, ◌↔◌, List, [], ◌∷◌, IfSome, IsTrue, None, drop, length, map, option_map, take};
ghost use Rattle.std.specs.Arc.{arc_value};
ghost use Rattle.sysmem_alloc.specs.Entry.{entry_in, deed_with};
ghost use Rattle.sysmem_room.specs.Agreeing.{book_log, own_deeds};
ghost use Rattle.sysmem_room.specs.Places.{ArePlaces};
ghost use Rattle.verdict_claims.specs.Asked.{asks_at};
ghost use Rattle.sysmem_tree.specs.ActionKind.{Deed, deed_of};
ghost use Rattle.sysmem_tree.specs.Nodes.{HasNode};

use crate::places::Places;
use book_events::Entry;
use negotiation_inputs::Constraints;
use std::sync::Arc;
use sysmem_alloc::Book;
use sysmem_tree::{Action, ActionKind, NodeId, Tree};

/// What an action sets.
pub(crate) fn lent(asked: &Option<Arc<Constraints>>) -> Option<&Constraints>
    ensures { option_map (λ one. one.now) result ≡ option_map (λ one. arc_value one) asked.now }
{
    match asked {
        Some(shared) => Some(shared),
        None => None,
    }
}

/// Whether a node set just these constraints, or none.
#[inline(never)]
pub(crate) fn has_set(tree: &Tree, node: NodeId, asked: Option<&Constraints>) -> bool
    requires { HasNode tree.now.nodes node }
    ensures { IsTrue result ↔ (asks_at tree.now.nodes node
        ≡ option_map (λ one. one.now) asked.entry) }
{
    match (tree.constraints_of(node), asked) {
        (None, None) => true,
        (Some(had), Some(own)) => had.is_same(own),
        _ => false,
    }
}

/// Whether an action that was entered is this one.
#[inline(always)]
fn is_same_action(tree: &Tree, node: NodeId, kind: ActionKind, action: &Action) -> bool
    requires { HasNode tree.now.nodes node }
    ensures { IsTrue result ↔ (deed_with (asks_at tree.now.nodes node) kind ≡ deed_of action.now) }
{
    if kind != action.kind() {
        return false;
    }
    match action {
        Action::SetConstraints(asked) => has_set(tree, node, lent(asked)),
        _ => true,
    }
}

/// Reads an entry: where the next action on the node is found among the actions, if this one
/// agrees.
fn read_on(tree: &Tree, node: NodeId, entry: &Entry, actions: &[Action], at: usize) -> Option<usize>
    requires node { HasNode tree.now.nodes node }
    requires within { at ≤ length actions.now }
    ensures within { IfSome result (λ next. next ≤ length actions.now) }
    ensures read { IfSome result (λ next. drop at (map deed_of actions.now)
        ≡ own_deeds node (entry_in tree.now.nodes entry.now)
        ++ drop next (map deed_of actions.now)) }
    ensures unread { result ≡ None → (rest : List Deed) → drop at (map deed_of actions.now)
        ≢ own_deeds node (entry_in tree.now.nodes entry.now) ++ rest }
{
    let Entry::Acted(acted, kind) = entry else {
        return Some(at);
    };
    if *acted != node {
        return Some(at);
    }
    let action = actions.get(at)?;
    if is_same_action(tree, node, *kind, action) {
        Some(at + 1)
    } else {
        None
    }
}

/// Whether a book's history has just these actions on a node.
pub fn has_actions(book: &Book, node: NodeId, actions: &[Action]) -> bool
    requires { HasNode book.now.state.tree.nodes node }
    ensures { IsTrue result ↔ (book_log book.now.history node ≡ map deed_of actions.now) }
{
    let tree = book.tree();
    let entries = book.history();
    let mut at = 0;
    for entry in entries {
        let Some(next) = read_on(tree, node, entry, actions, at) else {
            return false;
        };
        at = next;
    }
    at == actions.len()
}

/// Whether the entry at a place is this action on the node: then the place of the action before it
/// on the same node.
fn step_back(
    book: &Book,
    places: &Places,
    node: NodeId,
    place: usize,
    action: &Action,
) -> Option<usize>
    requires there { HasNode book.now.state.tree.nodes node }
    requires places { ArePlaces book.now.history places.now }
    requires some { 0 < place }
    ensures { IfSome result (λ before. book_log (take place book.now.history) node
        ≡ book_log (take before book.now.history) node ++ deed_of action.now ∷ []) }
{
    let tree = book.tree();
    let entry = book.history().get(place - 1)?;
    let Entry::Acted(acted, kind) = entry else {
        return None;
    };
    if *acted != node {
        return None;
    }
    if is_same_action(tree, node, *kind, action) {
        places.earlier(place - 1)
    } else {
        None
    }
}

/// Whether a book's history has just these actions on a node up to the place of one of them, by the
/// places of those before it: it reads no more entries than there are actions.
pub(crate) fn has_placed(
    book: &Book,
    places: &Places,
    node: NodeId,
    last: usize,
    actions: &[Action],
) -> bool
    requires there { HasNode book.now.state.tree.nodes node }
    requires places { ArePlaces book.now.history places.now }
    ensures { IsTrue result
        → book_log (take last book.now.history) node ≡ map deed_of actions.now }
{
    let mut place = last;
    for index in (0..actions.len()).rev() {
        if place == 0 {
            return false;
        }
        let Some(before) = step_back(book, places, node, place, &actions[index]) else {
            return false;
        };
        place = before;
    }
    place == 0
}
