//! What is true of the scripts of collections, as the contract of a function that does nothing.

ghost use Rattle.live_script.specs.Laws.{SettledCallsRecur, ToldAreUnmet};

use sysmem_alloc::laws::{headline, legal_is_sound, numbers_stay};
use sysmem_tree::laws::{one_forest, one_path};
use verdict_claims::laws::one_answer;

/// The actions of a settled history, replayed as the calls of a script where memory isn't refused,
/// are accepted each, and leave the nodes and the verdicts that the history leaves.
pub fn settled_calls_recur()
    ensures { SettledCallsRecur }
{
    one_answer();
}

/// No settings meet the list of what is asked in a domain of which it is told who is in the way: it
/// is decided as the list is, since without a group all of its nodes are in each selection.
pub fn told_are_unmet()
    ensures { ToldAreUnmet }
{
    headline();
    numbers_stay();
    legal_is_sound();
    one_path();
    one_forest();
}
