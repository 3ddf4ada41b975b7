//! What a tree refuses an action for, before it is made.

ghost use Rattle.std.specs.Prelude.{◌≡◌, IfSome, slice_get};
ghost use Rattle.std.specs.Result.{result_err};
ghost use Rattle.node_limits.specs.TreeRefusals.{fate_refusal, first_of, room_refusal, state_refusal};
ghost use Rattle.sysmem_tree.specs.ActionKind.{deed_of};
ghost use Rattle.sysmem_tree.specs.Nodes.{HasNode};
ghost use Rattle.sysmem_tree.specs.Tree.{applied};

use sysmem_tree::{Action, ActionKind, Fate, MOST_NODES, NodeId, NodeState, Refusal, Tree};

/// By what became of a node's domain.
fn fate_refusal(tree: &Tree, node: NodeId, kind: ActionKind) -> Option<Refusal>
    requires { HasNode tree.now.nodes node }
    ensures { IfSome (slice_get tree.now.nodes node)
        (λ n. result ≡ fate_refusal tree.now n kind) }
{
    tree.recall_sound();
    if kind.ends_node() {
        return None;
    }
    match tree.fate(tree.domain_of(node)) {
        Fate::Undecided => None,
        Fate::Chosen => {
            if tree.is_selected(node) {
                None
            } else {
                Some(Refusal::NotSelected)
            }
        }
        Fate::Failed | Fate::NoneChosen => Some(Refusal::DomainFailed),
    }
}

/// By the state of a node, as a tree has it or a log makes it.
pub fn state_refusal(state: NodeState, kind: ActionKind) -> Option<Refusal>
    ensures { result ≡ state_refusal state kind }
{
    if !state.allows(kind) {
        return Some(Refusal::WrongState);
    }
    if state.wants_child(kind) {
        return Some(Refusal::NoChildren);
    }
    None
}

/// By the number of nodes.
fn room_refusal(tree: &Tree, kind: ActionKind) -> Option<Refusal>
    ensures { result ≡ room_refusal tree.now.nodes kind }
{
    if kind.makes().is_none() {
        return None;
    }
    if tree.node_count() as usize >= MOST_NODES {
        Some(Refusal::TooManyNodes)
    } else {
        None
    }
}

/// The first of two refusals.
fn first_of(one: Option<Refusal>, other: Option<Refusal>) -> Option<Refusal>
    ensures { result ≡ first_of one other }
{
    match one {
        Some(refusal) => Some(refusal),
        None => other,
    }
}

/// The first refusal of an action on one of a tree's nodes, if there is one: what `Tree::apply`
/// answers.
pub fn tree_refusal(tree: &Tree, node: NodeId, action: &Action) -> Option<Refusal>
    requires { HasNode tree.now.nodes node }
    ensures { result ≡ result_err (applied tree.now node (deed_of action.now)) }
{
    let kind = action.kind();
    let fate = fate_refusal(tree, node, kind);
    let own = state_refusal(tree.state(node), kind);
    first_of(fate, first_of(own, room_refusal(tree, kind)))
}
