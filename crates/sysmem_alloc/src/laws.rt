//! What is true of the histories of books, whoever keeps them.

ghost use Rattle.sysmem_alloc.specs.Headline.{Headline, VerdictsAreNegotiated};
ghost use Rattle.sysmem_alloc.specs.Laws.{LegalIsSound, LegalAgrees, BaseIsGiven, FewEntries, ReadyWaits, NumbersStay, VerdictStays, NextStays, FitStays, FitIsRight, InitialShape, Confluence, ProvedClaimsAreTrue, DecisionsHaveProofs};

use sysmem_tree::laws;
use sysmem_tree::laws::{
    failed_stays, forest_stays, maps_of_logs, members_stand_once, members_stay, one_forest,
    ready_stays, sound_stays,
};
use verdict_claims::laws::{one_answer, optimal_has_proof, tests_are_exact};

/// The state of each legal history: its tree is sound, each domain that waits is ready, undecided
/// and there once, and what was decided is ready.
pub fn legal_is_sound()
    ensures { LegalIsSound }
{
    sound_stays();
    ready_stays();
    one_forest();
    maps_of_logs();
}

/// The decisions of each legal history agree with its tree: each domain
/// has there what was entered for it.
pub fn legal_agrees()
    ensures { LegalAgrees }
{
    legal_is_sound();
    forest_stays();
    one_forest();
}

/// In each legal history's state, each domain that is ready and undecided waits for a decision.
pub fn ready_waits()
    ensures { ReadyWaits }
{
    legal_is_sound();
    legal_agrees();
}

/// What the domain that is to be decided next is decided on is a base for it, as a search
/// wants one: given exactly for an attached domain, with settings that fit and accepted
/// nodes of other domains, each once.
pub fn base_is_given()
    ensures { BaseIsGiven }
{
    legal_is_sound();
    legal_agrees();
    members_stand_once();
}

/// A legal history has at most 639 entries.
pub fn few_entries()
    ensures { FewEntries }
{
    legal_is_sound();
}

/// The initial domain's shape, and whether its nodes are complete, depend on nothing
/// but the actions at its own paths.
pub fn initial_shape()
    ensures { InitialShape }
{
    sound_stays();
    ready_stays();
    forest_stays();
    one_forest();
    maps_of_logs();
    laws::initial_shape();
}

/// Histories with the same actions at each path, in which no node is closed before the initial
/// domain's decision, leave it ready both or neither, and of one shape; and where both decide it,
/// with memory, they give it one answer.
pub fn confluence()
    ensures { Confluence }
{
    sound_stays();
    ready_stays();
    forest_stays();
    one_forest();
    maps_of_logs();
    laws::confluence();
    one_answer();
}

/// Each node keeps its number, its path, its parent and its domain, and each
/// domain its root, whatever is entered.
pub fn numbers_stay()
    ensures { NumbersStay }
{
    legal_is_sound();
    laws::numbers_stay();
    one_forest();
}

/// A domain that has a verdict keeps it, whatever is entered after it.
pub fn verdict_stays()
    ensures { VerdictStays }
{
    legal_is_sound();
    ready_stays();
    failed_stays();
    one_forest();
}

/// The domain that is to be decided next stays so until it is: actions, however many, change
/// neither its forest nor the settings and the accepted nodes that it is decided on; so a verdict
/// that is optimal for it stays so, and what proves it goes on proving it.
pub fn next_stays()
    ensures { NextStays }
{
    legal_is_sound();
    legal_agrees();
    forest_stays();
    members_stay();
}

/// What was frozen and still is what a book has for the decision of the domain that is next stays
/// so until that decision, however many actions come.
pub fn fit_stays()
    ensures { FitStays }
{
    next_stays();
}

/// A claim that is true of what was frozen is true for each book that `fits` tells to have it
/// still, and one that is right is right.
pub fn fit_is_right()
    ensures { FitIsRight }
{}

/// A claim is true exactly where it is right, as a book takes it, and has its proof. So what was
/// entered with its proof is a claim to which `check` of `sysmem_proof` says yes.
pub fn proved_claims_are_true()
    ensures { ProvedClaimsAreTrue }
{}

/// Each verdict that a legal history decided has a certificate: with some proof it is a true
/// claim of its domain as it stood then, one to which `check` of `sysmem_proof` says yes, whether
/// or not it was entered with a proof.
pub fn decisions_have_proofs()
    ensures { DecisionsHaveProofs }
{
    legal_is_sound();
    base_is_given();
    optimal_has_proof();
}

/// Each decision of a legal history is as its verdict says: the first selection that any settings
/// meet, each of its participants' own constraints met, the best settings for them; its proof
/// passes what `check` of `sysmem_proof` tests, and what passes it is this answer; it stays; and
/// other histories with the same calls give it too.
pub fn headline()
    ensures { Headline }
{
    legal_is_sound();
    legal_agrees();
    forest_stays();
    ready_stays();
    one_forest();
    base_is_given();
    decisions_have_proofs();
    tests_are_exact();
    one_answer();
    confluence();
}

/// Each verdict that a domain has at the end of a legal history, unless it failed or memory was
/// wanted, is of a decision of that history, of which `headline` speaks, and optimal for the domain
/// as the tree has it then.
pub fn verdicts_are_negotiated()
    ensures { VerdictsAreNegotiated }
{
    headline();
}
