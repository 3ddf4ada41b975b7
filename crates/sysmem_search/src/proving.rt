//! What proves a verdict that is optimal, made where it is asked for.

ghost use Rattle.std.specs.Prelude.{option_map, IfOk};
ghost use Rattle.verdict_claims.specs.Base.{IsGivenBase};
ghost use Rattle.verdict_claims.specs.Claim.{IsProofIn};
ghost use Rattle.verdict_claims.specs.Verdict.{IsOptimalIn};
ghost use Rattle.verdict_claims.specs.declared.certificate.Proof.TheVariants as proves;
ghost use Rattle.verdict_claims.specs.declared.verdict.Verdict.TheVariants as verdicts;
ghost use Rattle.sysmem_search.specs.Cut.{IsCutProof};
ghost use Rattle.search_questions.specs.Question.{IsOptimalOf, IsProofOf};
ghost use Rattle.sysmem_tree.specs.Domain.{HasDomain};

use crate::refuting::{refute_earlier, refute_from};
use conflict_finding::{Subject, lines_before};
use negotiation_inputs::Platform;
use search_questions::Question;
use std::alloc::{AllocError, Global};
use sysmem_tree::layout_laws::few_choices;
use sysmem_tree::{DomainId, Tree};
use verdict_claims::{Base, Certificate, Chosen, Proof, Refutation, Verdict};

/// What proves a verdict that is optimal for a domain, for an attached one on the base that is
/// given: of a choice refutations of each choice before those of its selection, and lines that
/// refuse each offer and each place before those of its settings; where no settings meet any
/// selection a refutation of the whole domain; of more than 4,096 selections nothing. A refutation
/// is no longer than it needs to be: it splits a group only where settings meet what was chosen
/// before. `AllocError` where memory is refused.
pub fn prove(
    alloc: Global,
    platform: &Platform,
    tree: &Tree,
    domain: DomainId,
    base: Option<&Base>,
    verdict: &Verdict,
) -> Result<Proof, AllocError>
    requires domain { HasDomain tree.now.nodes domain }
    requires base { IsGivenBase platform.now tree.now.nodes domain
        (option_map (λ b. b.now) base) }
    requires optimal { IsOptimalIn platform.now tree.now.nodes domain
        (option_map (λ b. b.now) base) verdict.now }
    ensures proved { IfOk result (λ proof.
        IsProofIn platform.now tree.now.nodes domain (option_map (λ b. b.now) base.entry)
        verdict.now proof) }
    ensures cut { IfOk result (λ proof. IsCutProof (record {
      platform = platform.now;
      nodes = tree.now.nodes;
      domain = domain;
      base = option_map (λ b. b.now) base.entry;
    }) verdict.now proof) }
{
    let subject = Subject::new(alloc, platform, tree, domain, base);
    match verdict {
        Verdict::Chosen(chosen) => Ok(Proof::Choice(certify(&subject, chosen)?)),
        Verdict::IntersectionEmpty => Ok(Proof::Empty(refute(&subject)?)),
        Verdict::TooMany | Verdict::Failed | Verdict::NoMemory => Ok(Proof::Nothing),
    }
}

/// What shows that a choice is the first that can be met, and its settings the best.
fn certify(subject: &Subject<'_>, chosen: &Chosen) -> Result<Certificate, AllocError>
    requires { IsOptimalOf subject.now (verdicts.Chosen chosen.now) }
    ensures proved { IfOk result (λ certificate.
        IsProofOf subject.now (verdicts.Chosen chosen.now) (proves.Choice certificate)) }
    ensures cut { IfOk result (λ certificate.
        IsCutProof subject.now (verdicts.Chosen chosen.now) (proves.Choice certificate)) }
{
    few_choices();
    subject.recall();
    let mut question = Question::new(subject)?;
    let selection = chosen.selection();
    let settings = chosen.settings();
    let earlier = refute_earlier(subject.alloc(), &mut question, selection)?;
    let (alloc, platform, tree) = (subject.alloc(), subject.platform(), subject.tree());
    let (domain, base) = (subject.domain(), subject.base());
    let lines = lines_before(alloc, platform, tree, domain, base, selection, &settings)?;
    Ok(Certificate::new(earlier, lines.offers, lines.places))
}

/// What shows that no settings meet any selection of a domain.
fn refute(subject: &Subject<'_>) -> Result<Refutation, AllocError>
    requires { IsOptimalOf subject.now verdicts.IntersectionEmpty }
    ensures proved { IfOk result (λ refutation.
        IsProofOf subject.now verdicts.IntersectionEmpty (proves.Empty refutation)) }
    ensures cut { IfOk result (λ refutation.
        IsCutProof subject.now verdicts.IntersectionEmpty (proves.Empty refutation)) }
{
    let mut question = Question::new(subject)?;
    let mut items = Vec::new(subject.alloc());
    refute_from(&mut question, &mut items)?;
    Ok(Refutation::new(items))
}
