//! What a handle's action is refused for, by what the handle knows.

ghost use Rattle.std.specs.Prelude.{◌≡◌, ◌≢◌, None, option_map};
ghost use Rattle.sysmem_room.specs.Refusals.{IsAnswer, IsUnforeseen, due, is_member, known_refusal, outcome_refusal};

use crate::outcome::Outcome;
use node_limits::state_refusal;
use sysmem_alloc::Frozen;
use sysmem_tree::{ActionKind, NodeState, Prefix, Refusal};
use verdict_claims::Verdict;

/// Whether the tree that was frozen has a node at the path, and it is a member of the selection.
pub fn is_member(frozen: &Frozen, selection: &Prefix, path: &[u32]) -> bool
    ensures { result ≡ is_member frozen.now selection.now path.now }
{
    let tree = frozen.tree();
    let domain = frozen.domain();
    match tree.node_at(path) {
        Some(node) => tree.is_member(domain, selection, node),
        None => false,
    }
}

/// What became of a domain refuses the actions on its nodes for.
fn outcome_refusal(outcome: &Outcome, path: &[u32]) -> Option<Refusal>
    ensures { result ≡ outcome_refusal outcome.now path.now }
{
    let Outcome::Decided(ruling) = outcome else {
        return Some(Refusal::DomainFailed);
    };
    match &ruling.claim().verdict {
        Verdict::Chosen(chosen) => {
            if is_member(ruling.frozen(), chosen.selection(), path) {
                None
            } else {
                Some(Refusal::NotSelected)
            }
        }
        _ => Some(Refusal::DomainFailed),
    }
}

/// By the verdict that is known, if one is.
fn known_refusal(known: Option<&Outcome>, path: &[u32], kind: ActionKind) -> Option<Refusal>
    ensures { result ≡ known_refusal (option_map (λ o. o.now) known.entry) path.now kind }
{
    let outcome = known?;
    if kind.ends_node() {
        return None;
    }
    outcome_refusal(outcome, path)
}

/// The refusal that is due by what a handle knows: by the verdict, if it knows one, and then by
/// what its log makes of its node.
pub fn due(
    known: Option<&Outcome>,
    path: &[u32],
    state: NodeState,
    kind: ActionKind,
) -> Option<Refusal>
    ensures { result ≡ due (option_map (λ o. o.now) known.entry) path.now state kind }
{
    match known_refusal(known, path, kind) {
        Some(refusal) => Some(refusal),
        None => state_refusal(state, kind),
    }
}

/// The book's refusal of an action of this kind as a handle answers it that foresaw none: what it
/// can't foresee, or `Strange`, since the two disagree.
pub(crate) fn unforeseen(known: Option<&Outcome>, kind: ActionKind, refusal: Refusal) -> Refusal
    ensures answers { result ≢ Refusal.Strange
        → IsAnswer None (option_map (λ o. o.now) known.entry) kind result }
    ensures same { IsUnforeseen (option_map (λ o. o.now) known.entry) kind refusal
        → result ≡ refusal }
    ensures told { result ≢ Refusal.Strange → result ≡ refusal }
{
    match (refusal, known) {
        (Refusal::TooManyNodes, _) if kind.makes().is_some() => Refusal::TooManyNodes,
        (Refusal::DomainFailed, None) if !kind.ends_node() => Refusal::DomainFailed,
        (Refusal::NotSelected, None) if !kind.ends_node() => Refusal::NotSelected,
        _ => Refusal::Strange,
    }
}
