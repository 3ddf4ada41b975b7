//! Whether a verdict is proved by what comes with it.

ghost use Rattle.std.specs.Prelude.{IfOk, IsOk, MatchResult, option_map};
ghost use Rattle.verdict_claims.specs.Base.{IsGivenBase, terms_of};
ghost use Rattle.verdict_claims.specs.Check.{RefutationPasses, VerdictPasses};
ghost use Rattle.verdict_claims.specs.Matter.{forest, terms};
ghost use Rattle.verdict_claims.specs.Claim.{IsTrueClaim};
ghost use Rattle.verdict_claims.specs.Fault.{AreMany, EmptyFaults, Fails, VerdictFaults};
ghost use Rattle.verdict_claims.specs.declared.no.No.TheVariants.{WrongShape as Misshapen};
ghost use Rattle.sysmem_tree.specs.Domain.{HasDomain};
ghost use Rattle.sysmem_tree.specs.Shape.{shape_of};

use crate::checking::{Checker, choice_fault, refutation_fault};
use negotiation_inputs::Platform;
use sysmem_tree::{DomainId, Prefix, Tree};
use verdict_claims::laws::{faults_are_first, tests_are_exact};
use verdict_claims::{Base, Claim, No, Proof, Refutation, Verdict};

/// Of items that are to show that nothing is met.
fn empty_fault(checker: &Checker<'_>, refutation: &Refutation) -> Result<(), No>
    ensures { MatchResult result
        (λ _. RefutationPasses checker.now.platform (terms checker.now) (forest checker.now)
        refutation.now)
        (EmptyFaults checker.now.platform (terms checker.now) (forest checker.now)
        refutation.now) }
{
    if !checker.are_few() {
        return Err(No::WrongShape);
    }
    refutation_fault(checker, &mut Prefix::new(), refutation.items())
}

/// Of a verdict that there are too many selections.
fn many_fault(checker: &Checker<'_>) -> Result<(), No>
    ensures { MatchResult result (λ _. AreMany (forest checker.now))
        (Fails (AreMany (forest checker.now)) Misshapen) }
{
    if checker.are_few() {
        return Err(No::WrongShape);
    }
    Ok(())
}

/// The first test that a claim fails.
fn claim_fault(checker: &Checker<'_>, claim: &Claim) -> Result<(), No>
    ensures { MatchResult result
        (λ _. VerdictPasses checker.now.platform (terms checker.now) (forest checker.now)
        claim.now.verdict claim.now.proof)
        (VerdictFaults checker.now.platform (terms checker.now) (forest checker.now)
        claim.now.verdict claim.now.proof) }
{
    match &claim.verdict {
        Verdict::Chosen(chosen) => match &claim.proof {
            Proof::Choice(certificate) => choice_fault(checker, chosen, certificate),
            Proof::Empty(_) | Proof::Nothing => Err(No::WrongShape),
        },
        Verdict::IntersectionEmpty => match &claim.proof {
            Proof::Empty(refutation) => empty_fault(checker, refutation),
            Proof::Choice(_) | Proof::Nothing => Err(No::WrongShape),
        },
        Verdict::TooMany => match &claim.proof {
            Proof::Nothing => many_fault(checker),
            Proof::Choice(_) | Proof::Empty(_) => Err(No::WrongShape),
        },
        Verdict::Failed | Verdict::NoMemory => Err(No::WrongShape),
    }
}

/// Whether a claim is true of a domain of the tree, for an attached one on the base that is given:
/// whether its verdict is the one that a decision of the domain gives, and its proof shows so.
/// Nothing is searched for, and no memory is taken. A claim may come from anybody: `Ok` exactly
/// where the verdict is optimal and its proof proves it, else the first test that fails: the form
/// (N1), of what was chosen the settings (N4, then N6), then the items, the offers and the places
/// as they are listed, at each N5, N1, N2, N3.
///
/// ```
/// let claim = Claim { verdict, proof };
/// match check(&platform, &tree, domain, None, &claim) {
///     Ok(()) => accept(claim.verdict),
///     Err(No::NotLeast) => report("smaller settings would do"),
///     Err(why) => report_unproved(why),
/// }
/// ```
pub fn check(
    platform: &Platform,
    tree: &Tree,
    domain: DomainId,
    base: Option<&Base>,
    claim: &Claim,
) -> Result<(), No>
    requires domain { HasDomain tree.now.nodes domain }
    requires base { IsGivenBase platform.now tree.now.nodes domain
        (option_map (λ b. b.now) base) }
    ensures cases { MatchResult result
        (λ _. VerdictPasses platform.now
        (option_map (terms_of tree.now.nodes) (option_map (λ b. b.now) base.entry))
        (shape_of tree.now.nodes domain) claim.now.verdict claim.now.proof)
        (VerdictFaults platform.now
        (option_map (terms_of tree.now.nodes) (option_map (λ b. b.now) base.entry))
        (shape_of tree.now.nodes domain) claim.now.verdict claim.now.proof) }
    ensures optimal { IfOk result (λ _. IsTrueClaim platform.now tree.now.nodes domain
        (option_map (λ b. b.now) base.entry) claim.now) }
    ensures accepted { IsTrueClaim platform.now tree.now.nodes domain
        (option_map (λ b. b.now) base.entry) claim.now → IsOk result }
{
    tests_are_exact();
    faults_are_first();
    let checker = Checker::new(platform, tree, domain, base);
    claim_fault(&checker, claim)
}
