//! What is written is read back, each law as the contract of a function that does nothing.

ghost use Rattle.certificate_text.specs.Laws.{ClaimsReadBack, NodePathsCanBeRead, PathsReadBack, TextsReadBack, TrueClaimsCanBeRead};

use sysmem_tree::layout_laws::{choices_leave_one_forest, few_children, few_choices};

/// The text of a path whose ordinals are of 32 bits is read as the path.
pub fn paths_read_back()
    ensures { PathsReadBack }
{}

/// What is written of a claim is read as the claim and its domain's path, where each number in it
/// is within its range, there are at most 128 choices, the settings are the platform's, and the
/// proof is of the verdict's kind.
pub fn claims_read_back()
    ensures { ClaimsReadBack }
{}

/// The path of each node of a tree can be read: its ordinals are below 128.
pub fn node_paths_can_be_read()
    ensures { NodePathsCanBeRead }
{}

/// Each claim that is true of a domain of a tree can be read: its numbers are within their ranges,
/// its settings are the platform's, and its proof is of the verdict's kind. Of an attached domain
/// that holds where the settings that it is decided on can be read, as those of a true claim can.
pub fn true_claims_can_be_read()
    ensures { TrueClaimsCanBeRead }
{
    choices_leave_one_forest();
    few_children();
    few_choices();
}

/// The whole text of a certificate whose decisions can be read is JSON, and is read as the list of
/// their objects.
pub fn texts_read_back()
    ensures { TextsReadBack }
{}
