//! What a node is told of its domain's verdict.

ghost use Rattle.std.specs.Prelude.{◌≡◌, ◌&&◌, option_map, Ok, Err, IfErr, IfOk, IfSome, slice_get};
ghost use Rattle.live_book.specs.Checked.{is_collection, selection_at_node, selection_by, settings_at_node, settings_by};
ghost use Rattle.sysmem_tree.specs.Nodes.{HasNode};

use crate::collection::Collection;
use sysmem_alloc::Book;
use sysmem_merge::Settings;
use sysmem_tree::{NodeId, NodeKind, Refusal, Tree};
use verdict_claims::Verdict;

/// The settings of the node of a number, or why it is given none.
pub fn check(collection: &Collection, number: u32) -> Result<Settings, Refusal>
    ensures { result ≡ settings_at_node collection.now.book.state number }
{
    check_in(collection.book(), number)
}

fn check_in(book: &Book, number: u32) -> Result<Settings, Refusal>
    ensures { result ≡ settings_at_node book.now.state number }
{
    let tree = book.tree();
    let Some(node) = tree.node(number) else {
        return Err(Refusal::WrongState);
    };
    if !is_open_collection(tree, node) {
        return Err(Refusal::WrongState);
    }
    answer_by(
        tree.is_selected(node),
        book.verdict_of(tree.domain_of(node)),
    )
}

/// Whether a node of the tree is an open collection.
fn is_open_collection(tree: &Tree, node: NodeId) -> bool
    requires { HasNode tree.now.nodes node }
    ensures { IfSome (slice_get tree.now.nodes node)
        (λ n. result ≡ (is_collection n.state.kind && n.state.is_open)) }
{
    let state = tree.state(node);
    matches!(state.kind, NodeKind::Collection) && state.is_open
}

/// The answer by the verdict of a node's domain.
fn answer_by(is_selected: bool, verdict: Option<&Verdict>) -> Result<Settings, Refusal>
    ensures { result ≡ settings_by is_selected (option_map (λ v. v.now) verdict.entry) }
{
    let Some(verdict) = verdict else {
        return Err(Refusal::Pending);
    };
    match verdict {
        Verdict::Chosen(chosen) if is_selected => Ok(chosen.settings()),
        Verdict::Chosen(_) => Err(Refusal::NotSelected),
        Verdict::IntersectionEmpty => Err(Refusal::ConstraintsIntersectionEmpty),
        Verdict::TooMany => Err(Refusal::TooManyGroupChildCombinations),
        Verdict::Failed => Err(Refusal::DomainFailed),
        Verdict::NoMemory => Err(Refusal::NoMemory),
    }
}

/// The choices of the selection that was chosen for the domain of the node of a number, groups in
/// pre-order; or why there is none.
pub fn selection(collection: &Collection, number: u32) -> Result<&[u8], Refusal>
    ensures chosen { IfOk result (λ choices.
        selection_at_node collection.now.book.state number ≡ Ok choices.now) }
    ensures none { IfErr result (λ refusal.
        selection_at_node collection.now.book.state number ≡ Err refusal) }
{
    selection_in(collection.book(), number)
}

fn selection_in(book: &Book, number: u32) -> Result<&[u8], Refusal>
    ensures chosen { IfOk result (λ choices.
        selection_at_node book.now.state number ≡ Ok choices.now) }
    ensures none { IfErr result (λ refusal.
        selection_at_node book.now.state number ≡ Err refusal) }
{
    let tree = book.tree();
    let Some(node) = tree.node(number) else {
        return Err(Refusal::WrongState);
    };
    selection_by(book.verdict_of(tree.domain_of(node)))
}

/// The choices of a verdict.
fn selection_by(verdict: Option<&Verdict>) -> Result<&[u8], Refusal>
    ensures chosen { IfOk result (λ choices.
        selection_by (option_map (λ v. v.now) verdict.entry) ≡ Ok choices.now) }
    ensures none { IfErr result (λ refusal.
        selection_by (option_map (λ v. v.now) verdict.entry) ≡ Err refusal) }
{
    let Some(verdict) = verdict else {
        return Err(Refusal::Pending);
    };
    match verdict {
        Verdict::Chosen(chosen) => Ok(chosen.selection().choices()),
        Verdict::IntersectionEmpty => Err(Refusal::ConstraintsIntersectionEmpty),
        Verdict::TooMany => Err(Refusal::TooManyGroupChildCombinations),
        Verdict::Failed => Err(Refusal::DomainFailed),
        Verdict::NoMemory => Err(Refusal::NoMemory),
    }
}
