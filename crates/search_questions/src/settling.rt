//! What the nodes that a choice settles ask.

ghost use Rattle.std.specs.Prelude.{◌≤◌, ◌++◌, ℕ, List, [], length, option_map};
ghost use Rattle.std.specs.List.{cons_option};
ghost use Rattle.negotiation_inputs.specs.Participant.{Participant};
ghost use Rattle.search_questions.specs.Kept.{HasRoom, IsPartFor};
ghost use Rattle.verdict_claims.specs.Asked.{asked_in};
ghost use Rattle.sysmem_tree.specs.OpenGroups.{HasLeft, HoldsNodes};

use crate::kept::ChoiceShare;
use conflict_finding::Subject;
use negotiation_inputs::Constraints;
use sysmem_tree::{Layout, MOST_NODES, SettledNodes};

/// Adds what is asked, if anything is.
fn add_asked(part: &mut ChoiceShare, subject: &Subject<'_>, asked: Option<&Constraints>)
    requires { HasRoom part.old }
    ensures { (ps : List Participant) → IsPartFor subject.now part.old ps
        → IsPartFor subject.now part.new
        (ps ++ cons_option (option_map (λ one. one.now) asked.entry) []) }
{
    if let Some(one) = asked {
        part.add(subject, one);
    }
}

/// Adds what the nodes ask that a walk over the layout gives, to what is kept of no participant.
pub(crate) fn add_settled(
    part: &mut ChoiceShare,
    subject: &Subject<'_>,
    layout: &Layout,
    walk: SettledNodes,
)
    requires none { IsPartFor subject.now part.old [] }
    requires few { (ns : List ℕ) × HasLeft layout.now walk ns × (length ns ≤ MOST_NODES) }
    requires there { HoldsNodes layout.now subject.now.nodes }
    ensures { (ns : List ℕ) → HasLeft layout.now walk ns
        → IsPartFor subject.now part.new (asked_in subject.now.nodes ns) }
{
    let tree = subject.tree();
    let mut left = walk;
    for _step in 0..MOST_NODES {
        let Some(node) = layout.next_settled(&mut left) else {
            return;
        };
        add_asked(part, subject, tree.constraints_of(node));
    }
}
