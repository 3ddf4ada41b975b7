//! What participants of a tree ask of the number of buffers, and why a number doesn't suit them.

ghost use Rattle.std.specs.Prelude.{◌≤◌, List, [], ◌∷◌, All, IfSome, IfNone, length};
ghost use Rattle.sysmem_counts.specs.Bounds.{IsTallyOf};
ghost use Rattle.sysmem_counts.specs.Counts.{IsCounted, IsFixedCountLine};
ghost use Rattle.sysmem_counts.specs.declared.bounds.TheConstants.{BUFFER_COUNT_LIMIT};
ghost use Rattle.sysmem_counts.specs.declared.constraints.CountConstraints.{CountConstraints as Counted};
ghost use Rattle.sysmem_counts.specs.declared.field.Field.TheVariants.{MinBufferCount, MaxBufferCount};
ghost use Rattle.offer_fits.specs.Demands.{counts_asked};
ghost use Rattle.sysmem_merge.specs.First.{IsFirstOf};
ghost use Rattle.sysmem_tree.specs.declared.tree.TheConstants.{MOST_NODES};
ghost use Rattle.verdict_claims.specs.Members.{members_at, participants};
ghost use Rattle.sysmem_tree.specs.Nodes.{HasNode};

use sysmem_counts::laws::fixed_count_lines;
use sysmem_counts::{CountBounds, Field};
use sysmem_tree::{NodeId, Tree};
use verdict_claims::add_count;

/// What the participants at these nodes ask of the number of buffers.
pub(crate) fn counts_at(tree: &Tree, nodes: &[NodeId]) -> CountBounds
    requires there { All (HasNode tree.now.nodes) nodes.now }
    requires few { length nodes.now ≤ MOST_NODES }
    ensures { IsTallyOf result
        (counts_asked (participants (members_at tree.now.nodes nodes.now))) }
{
    let mut counts = CountBounds::new();
    for node in nodes {
        add_count(&mut counts, tree.constraints_of(*node));
    }
    counts
}

/// The first line of a fixed count, up to 128, that is true of the participants: they need more
/// than it, or a maximum of theirs is below it. `None` where it suits them.
pub(crate) fn fixed_line(counts: &CountBounds, count: u32) -> Option<Field>
    requires { count ≤ BUFFER_COUNT_LIMIT }
    ensures line { (ps : List Counted) → IsTallyOf counts.now ps
        → IfSome result (λ field. IsFixedCountLine count field ps) }
    ensures first { (ps : List Counted) → IsTallyOf counts.now ps
        → IfSome result (IsFirstOf (λ field. IsFixedCountLine count field ps)
        (MinBufferCount ∷ MaxBufferCount ∷ [])) }
    ensures suits { (ps : List Counted) → IsTallyOf counts.now ps
        → IfNone result (IsCounted ps count) }
{
    fixed_count_lines();
    if counts.suits(count) {
        return None;
    }
    if counts.is_fixed_line(count, Field::MinBufferCount) {
        Some(Field::MinBufferCount)
    } else {
        Some(Field::MaxBufferCount)
    }
}
