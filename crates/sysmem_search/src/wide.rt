//! The decision of a domain by several workers, each of whom has a share of the choices for the
//! first group.

ghost use Rattle.std.specs.Prelude.{◌≡◌, ◌<◌, ◌≤◌, ◌+◌, [], ◌∷◌, ℕ, true, vec_len, option_map, Option, Some, IfOk, IfSome, MatchOption};
ghost use Rattle.verdict_claims.specs.Base.{IsGivenBase};
ghost use Rattle.verdict_claims.specs.Matter.{Matter, forest};
ghost use Rattle.verdict_claims.specs.Verdict.{IsOptimalIn, IsSameAnswer};
ghost use Rattle.sysmem_search.specs.Wide.{IsUnmetAt, IsFirstAt, IsFirstIn, AreFirstIn, IsFirstOfAll, share_start, verdict_of};
ghost use Rattle.sysmem_tree.specs.Domain.{HasDomain, is_ready};
ghost use Rattle.sysmem_tree.specs.Selection.{IsPrefix};

use crate::deciding::{SearchResult, search};
use crate::gate::Gate;
use crate::searching::search_from;
use conflict_finding::Subject;
use negotiation_inputs::Platform;
use search_questions::Question;
use std::alloc::{AllocError, Global};
use std::thread;
use std::thread::Threads;
use sysmem_merge::Settings;
use sysmem_tree::{DomainId, Tree};
use verdict_claims::laws::{cuts_lose_nothing, one_answer};
use verdict_claims::{Base, Chosen, MOST_SELECTIONS, Verdict};

/// How many workers share a search at most.
pub const MOST_WORKERS: usize = 64;

/// What was found among some choices for the first group.
#[derive(Drop)]
struct Share {
    /// The first selection that any settings meet, with the best settings for it.
    chosen: Option<Chosen>,
    /// How many prefixes were visited, at most `u64::MAX`.
    visits: u64,
}

impl Share {
    /// With what was found among the choices that come next.
    fn then(self, next: Share) -> Share
        ensures { (m : Matter) (from between to : ℕ)
            → IsFirstIn m from between self.chosen → IsFirstIn m between to next.chosen
            → IsFirstIn m from to result.chosen }
    {
        Share {
            chosen: self.chosen.or(next.chosen),
            visits: self.visits.saturating_add(next.visits),
        }
    }

    /// As the answer of a search of all choices.
    fn into_found(self) -> SearchResult
        ensures { result.verdict ≡ verdict_of self.chosen }
    {
        let Share { chosen, visits } = self;
        let verdict = match chosen {
            Some(chosen) => Verdict::Chosen(chosen),
            None => Verdict::IntersectionEmpty,
        };
        SearchResult { verdict, visits }
    }
}

/// The best settings for the first selection that begins with this choice and that any settings
/// meet, and then the question's choices are that selection; where there is none, they are none as
/// before.
fn search_choice<G: Gate>(
    question: &mut Question<'_>,
    gate: &G,
    visits: &mut u64,
    choice: u8,
) -> Result<Option<Settings>, AllocError>
    requires start { question.old.choices ≡ [] }
    requires prefix { IsPrefix (forest question.old.matter) (choice ∷ []) }
    ensures { IfOk result (λ best. MatchOption best
        ((question.new ≡ question.old) × IsUnmetAt question.old.matter choice)
        (λ s. IsFirstAt question.old.matter choice
        (record { selection = question.new.choices; settings = s }))) }
{
    question.enter(choice)?;
    if !search_from(question, gate, visits)? {
        question.leave();
        return Ok(None);
    }
    let Some(settings) = question.best() else {
        unreachable!();
    };
    Ok(Some(settings))
}

/// The choice with which the share of this worker begins; that of the worker after the last is how
/// many choices there are.
fn first_choice(workers: usize, many: u8, worker: usize) -> u8
    requires some { 0 < workers }
    requires few { workers ≤ MOST_WORKERS }
    requires worker { worker ≤ workers }
    ensures start { result ≡ share_start workers many worker }
    ensures within { result ≤ many }
{
    (worker * usize::from(many) / workers) as u8
}

/// What a worker finds in its share of so many choices.
fn search_share<G: Gate>(
    subject: &Subject<'_>,
    gate: &G,
    workers: usize,
    many: u8,
    worker: usize,
) -> Result<Share, AllocError>
    requires few { workers ≤ MOST_WORKERS }
    requires worker { worker < workers }
    requires prefixes { (c : ℕ) → c < many → IsPrefix (forest subject.now) (c ∷ []) }
    ensures { IfOk result (λ share. IsFirstIn subject.now
        (share_start workers many worker) (share_start workers many (worker + 1)) share.chosen) }
{
    let from = first_choice(workers, many, worker);
    let to = first_choice(workers, many, worker + 1);
    let mut question = Question::new(subject)?;
    let mut visits = 0;
    for choice in from..to {
        if let Some(settings) = search_choice(&mut question, gate, &mut visits, choice)? {
            let chosen = Chosen::new(question.into_prefix(), settings);
            return Ok(Share {
                chosen: Some(chosen),
                visits,
            });
        }
    }
    Ok(Share {
        chosen: None,
        visits,
    })
}

/// What each worker finds in its share of so many choices.
fn search_shares<G: Gate + Sync, R: Threads + Sync>(
    rt: &R,
    subject: &Subject<'_>,
    gate: &G,
    workers: usize,
    many: u8,
) -> Result<Vec<Result<Share, AllocError>>, AllocError>
    requires few { workers ≤ MOST_WORKERS }
    requires prefixes { (c : ℕ) → c < many → IsPrefix (forest subject.now) (c ∷ []) }
    ensures len { IfOk result (λ shares. vec_len shares ≡ workers) }
    ensures each { IfOk result (λ shares.
        AreFirstIn subject.now (share_start workers many) shares.items) }
{
    let work = |worker: usize| -> Result<Share, AllocError>
        requires { (workers ≤ MOST_WORKERS) × (worker < workers)
            × ((c : ℕ) → c < many → IsPrefix (forest subject.now) (c ∷ [])) }
        ensures { IfOk result (λ share. IsFirstIn subject.entry.now
            (share_start workers many worker) (share_start workers many (worker + 1))
            share.chosen) }
    { search_share(subject, gate, workers, many, worker) };
    thread::map_indices(rt, subject.alloc(), workers, &work)
}

/// What was found in all shares, one behind another.
fn join_shares(shares: Vec<Result<Share, AllocError>>) -> Result<Share, AllocError>
    ensures { IfOk result (λ all. (m : Matter) (start : ℕ → ℕ) → AreFirstIn m start shares.items
        → IsFirstIn m (start 0) (start (vec_len shares)) all.chosen) }
{
    let mut all = Share {
        chosen: None,
        visits: 0,
    };
    for share in shares {
        all = all.then(share?);
    }
    Ok(all)
}

/// What workers find together, and how many prefixes they and the caller visited, who visits that
/// of no choice; `None`, with no visit, where there is no group.
fn search_together<G: Gate + Sync, R: Threads + Sync>(
    rt: &R,
    subject: &Subject<'_>,
    gate: &G,
    workers: usize,
) -> Result<Option<Share>, AllocError>
    requires some { 0 < workers }
    requires few { workers ≤ MOST_WORKERS }
    ensures { IfOk result (λ found. IfSome found (λ all. IsFirstOfAll subject.now all.chosen)) }
{
    let mut question = Question::new(subject)?;
    let Some(many) = question.children() else {
        return Ok(None);
    };
    gate.at_prefix(0);
    if !question.is_met() {
        cuts_lose_nothing();
        return Ok(Some(Share {
            chosen: None,
            visits: 1,
        }));
    }
    let busy = workers.min(usize::from(many)).max(1);
    let all = join_shares(search_shares(rt, subject, gate, busy, many)?)?;
    Ok(Some(Share {
        chosen: all.chosen,
        visits: all.visits.saturating_add(1),
    }))
}

/// Decides a domain as `search` does, with the same verdict for each number of workers. The choices
/// for the first group are shared out among the workers, 1 to 64, each in a thread of its own where
/// one can be made; the gate is told of visits in all of them. A worker goes through its share even
/// where an earlier one has found an answer, so there can be more visits than those of `search`.
/// One worker, and a domain without groups, is `search` itself. `AllocError` where any worker is
/// refused memory.
pub fn search_wide<'a, G: Gate + Sync, R: Threads + Sync>(
    rt: &R,
    alloc: Global,
    platform: &'a Platform,
    tree: &'a Tree,
    domain: DomainId,
    base: Option<&'a Base>,
    gate: &G,
    workers: u32,
) -> Result<SearchResult, AllocError>
    requires domain { HasDomain tree.now.nodes domain }
    requires ready { is_ready tree.now domain ≡ true }
    requires base { IsGivenBase platform.now tree.now.nodes domain
        (option_map (λ b. b.now) base) }
    requires some { 1 ≤ workers }
    requires few { workers ≤ MOST_WORKERS }
    ensures optimal { IfOk result (λ found.
        IsOptimalIn platform.now tree.now.nodes domain (option_map (λ b. b.now) base.entry)
        found.verdict) }
    ensures same { IfOk result (λ found. (v : Verdict)
        → IsOptimalIn platform.now tree.now.nodes domain (option_map (λ b. b.now) base.entry) v
        → IsSameAnswer found.verdict v) }
{
    one_answer();
    if workers == 1 || tree.count_selections(domain) > MOST_SELECTIONS {
        return search(alloc, platform, tree, domain, base, gate);
    }
    let subject = Subject::new(alloc, platform, tree, domain, base);
    let Some(all) = search_together(rt, &subject, gate, workers as usize)? else {
        return search(alloc, platform, tree, domain, base, gate);
    };
    Ok(all.into_found())
}
