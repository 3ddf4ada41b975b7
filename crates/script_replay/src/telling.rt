//! What a node is told of its domain's verdict.

ghost use Rattle.std.specs.Prelude.{◌≡◌, ◌&&◌, option_map, IfSome, slice_get};
ghost use Rattle.script_replay.specs.Answer.{is_collection, told, told_by};
ghost use Rattle.sysmem_tree.specs.Nodes.{HasNode};

use crate::reply::Reply;
use sysmem_alloc::Book;
use sysmem_tree::{NodeId, NodeKind, Refusal, Tree};
use verdict_claims::Verdict;

/// The answer to a check of a node, and to a wait.
pub(crate) fn told(book: &Book, node: NodeId) -> Reply
    requires { HasNode book.now.state.tree.nodes node }
    ensures { result ≡ told book.now.state node }
{
    let tree = book.tree();
    if !is_open_collection(tree, node) {
        return Reply::Refused(Refusal::WrongState);
    }
    told_by(
        tree.is_selected(node),
        book.verdict_of(tree.domain_of(node)),
    )
}

/// Whether a node of the tree is an open collection.
fn is_open_collection(tree: &Tree, node: NodeId) -> bool
    requires { HasNode tree.now.nodes node }
    ensures { IfSome (slice_get tree.now.nodes node)
        (λ n. result ≡ (is_collection n.state.kind && n.state.is_open)) }
{
    let state = tree.state(node);
    matches!(state.kind, NodeKind::Collection) && state.is_open
}

/// The answer by the verdict of a node's domain, where settings were chosen for the node or
/// weren't.
fn told_by(is_selected: bool, verdict: Option<&Verdict>) -> Reply
    ensures { result ≡ told_by is_selected (option_map (λ v. v.now) verdict.entry) }
{
    let Some(verdict) = verdict else {
        return Reply::Refused(Refusal::Pending);
    };
    match verdict {
        Verdict::Chosen(_) if is_selected => Reply::Accepted,
        Verdict::Chosen(_) => Reply::Refused(Refusal::NotSelected),
        Verdict::IntersectionEmpty => Reply::Refused(Refusal::ConstraintsIntersectionEmpty),
        Verdict::TooMany => Reply::Refused(Refusal::TooManyGroupChildCombinations),
        Verdict::Failed => Reply::Refused(Refusal::DomainFailed),
        Verdict::NoMemory => Reply::Refused(Refusal::NoMemory),
    }
}
