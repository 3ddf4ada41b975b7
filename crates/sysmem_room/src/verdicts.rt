//! Whether a book has the verdict that a handle knows.

ghost use Rattle.std.specs.Prelude.{◌≡◌, ◌↔◌, IsTrue, Some, option_map};
ghost use Rattle.sysmem_room.specs.Agreeing.{IsKnown, verdict_by};
ghost use Rattle.sysmem_tree.specs.Nodes.{HasNode};

use crate::outcome::Outcome;
use sysmem_alloc::Book;
use sysmem_tree::NodeId;
use verdict_claims::Verdict;

/// Whether this is the verdict of what became of a domain.
fn is_verdict(verdict: &Verdict, outcome: &Outcome) -> bool
    ensures { IsTrue result ↔ (verdict.now ≡ verdict_by outcome.now) }
{
    match outcome {
        Outcome::Decided(ruling) => verdict.is_same(&ruling.claim().verdict),
        Outcome::Failed => verdict.is_same(&Verdict::Failed),
        Outcome::NoMemory => verdict.is_same(&Verdict::NoMemory),
    }
}

/// Whether the domain of a node has the verdict that is known of it, if one is.
pub fn has_verdict(book: &Book, node: NodeId, known: Option<&Outcome>) -> bool
    requires { HasNode book.now.state.tree.nodes node }
    ensures { IsTrue result ↔ IsKnown book.now node (option_map (λ o. o.now) known.entry) }
{
    let Some(outcome) = known else {
        return true;
    };
    match book.verdict_of(book.tree().domain_of(node)) {
        Some(verdict) => is_verdict(verdict, outcome),
        None => false,
    }
}
