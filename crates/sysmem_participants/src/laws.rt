//! What follows from audits that said yes.

ghost use Rattle.sysmem_participants.specs.Laws.{AuditsAgree, KnownAreNegotiated, NoneClosed, TwoAuditsAgree};

use sysmem_alloc::laws::{confluence, legal_is_sound, numbers_stay, verdicts_are_negotiated};
use sysmem_tree::laws::one_path;

/// Two collections with the same calls at each path, by audits that said yes, got one verdict for
/// the initial domain, where both decided it, no node was closed before its decision and memory was
/// not refused to it.
pub fn audits_agree()
    ensures { AuditsAgree }
{
    confluence();
    legal_is_sound();
    one_path();
}

/// Where none of the stubs of an audit that said yes was closed, no node of the collection was
/// closed before its initial domain's decision.
pub fn none_closed()
    ensures { NoneClosed }
{
    numbers_stay();
}

/// Two calls of `audit` that said yes, of collections of one platform with the same calls at each
/// path: the books that they saw got one verdict for the initial domain, where both decided it, no
/// node was closed before its decision and memory was not refused to it.
pub fn two_audits_agree()
    ensures { TwoAuditsAgree }
{
    audits_agree();
    legal_is_sound();
}

/// What a collection was shown or told of its domain's verdict, as its stub knows it, is a decision
/// of the book that an audit saw which said yes, and `headline` of `sysmem_alloc` speaks of it:
/// unless the domain failed, or memory was wanted.
pub fn known_are_negotiated()
    ensures { KnownAreNegotiated }
{
    verdicts_are_negotiated();
}
