//! The decision of a domain.

ghost use Rattle.std.specs.Prelude.{◌≡◌, true, option_map, IfOk};
ghost use Rattle.verdict_claims.specs.Base.{IsGivenBase};
ghost use Rattle.verdict_claims.specs.Verdict.{IsOptimalIn};
ghost use Rattle.search_questions.specs.Visits.{AreVisitsIn};
ghost use Rattle.sysmem_tree.specs.Domain.{HasDomain, is_ready};

use crate::gate::Gate;
use crate::searching::search_from;
use conflict_finding::Subject;
use negotiation_inputs::Platform;
use search_questions::Question;
use std::alloc::{AllocError, Global};
use sysmem_tree::{DomainId, Tree};
use verdict_claims::{Base, Chosen, MOST_SELECTIONS, Verdict};

/// What a search found.
#[derive(Debug, Drop)]
pub struct SearchResult {
    /// `Chosen`, `IntersectionEmpty` or `TooMany`.
    pub verdict: Verdict,
    /// How many prefixes were visited, the empty one included; at most `u64::MAX`.
    pub visits: u64,
}

/// Decides a domain of the tree that is ready, for an attached one on the base that is given: the
/// first selection that any settings meet, with the best settings for it. Where there are more than
/// 4,096 selections it answers `TooMany`, and visits none. It goes through prefixes of choices, the
/// first child first, and not beyond one of which nothing meets the settled participants; that
/// nobody names an image's format, modifier or colour space is asked of whole selections alone. The
/// gate is told of each visit. A visit takes memory only where what it reads is read for the first
/// time. `AllocError` where memory is refused.
pub fn search<G: Gate>(
    alloc: Global,
    platform: &Platform,
    tree: &Tree,
    domain: DomainId,
    base: Option<&Base>,
    gate: &G,
) -> Result<SearchResult, AllocError>
    requires domain { HasDomain tree.now.nodes domain }
    requires ready { is_ready tree.now domain ≡ true }
    requires base { IsGivenBase platform.now tree.now.nodes domain
        (option_map (λ b. b.now) base) }
    ensures optimal { IfOk result (λ found.
        IsOptimalIn platform.now tree.now.nodes domain (option_map (λ b. b.now) base.entry)
        found.verdict) }
    ensures visits { IfOk result (λ found.
        AreVisitsIn platform.now tree.now.nodes domain (option_map (λ b. b.now) base.entry)
        found.verdict found.visits) }
{
    if tree.count_selections(domain) > MOST_SELECTIONS {
        return Ok(SearchResult {
            verdict: Verdict::TooMany,
            visits: 0,
        });
    }
    let subject = Subject::new(alloc, platform, tree, domain, base);
    let mut question = Question::new(&subject)?;
    let mut visits = 0;
    if !search_from(&mut question, gate, &mut visits)? {
        return Ok(SearchResult {
            verdict: Verdict::IntersectionEmpty,
            visits,
        });
    }
    let Some(settings) = question.best() else {
        unreachable!();
    };
    Ok(SearchResult {
        verdict: Verdict::Chosen(Chosen::new(question.into_prefix(), settings)),
        visits,
    })
}
