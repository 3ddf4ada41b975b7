//! What is repeated of a decision: the search for a verdict, the making of its proof, and the check
//! of both.

ghost use Rattle.std.specs.Prelude.{None, IfOk, OnOk};
ghost use Rattle.verdict_claims.specs.Base.{IsGivenBase};
ghost use Rattle.verdict_claims.specs.Verdict.{IsOptimalIn};
ghost use Rattle.sysmem_tree.specs.Domain.{HasDomain};

use crate::failure::Failure;
use negotiation_inputs::Platform;
use std::alloc::Global;
use std::thread::Threads;
use sysmem_proof::check;
use sysmem_search::{NoGate, SearchResult, prove, search, search_wide};
use sysmem_tree::{DomainId, Tree};
use verdict_claims::Claim;

/// The verdict of the initial domain with what proves it.
pub(crate) fn claim_of(alloc: Global, platform: &Platform, tree: &Tree) -> Result<Claim, Failure> {
    let domain = tree.domain_of(tree.root());
    let found = found_in(alloc, platform, tree, domain)?;
    let proof = prove(alloc, platform, tree, domain, None, &found.verdict)?;
    Ok(Claim {
        verdict: found.verdict,
        proof,
    })
}

/// Searches for the initial domain's verdict so many times.
pub(crate) fn search_again(
    alloc: Global,
    platform: &Platform,
    tree: &Tree,
    times: u32,
) -> Result<(), Failure> {
    let domain = tree.domain_of(tree.root());
    for _ in 0..times {
        found_in(alloc, platform, tree, domain)?;
    }
    Ok(())
}

/// Has two workers search for the initial domain's verdict so many times.
pub(crate) fn search_together_again<R: Threads + Sync>(
    rt: &R,
    alloc: Global,
    platform: &Platform,
    tree: &Tree,
    times: u32,
) -> Result<(), Failure> {
    let domain = tree.domain_of(tree.root());
    if !tree.is_ready(domain) || tree.host_of(domain).is_some() {
        return Err(Failure::NotReady);
    }
    for _ in 0..times {
        search_wide(rt, alloc, platform, tree, domain, None, &NoGate, 2)?;
    }
    Ok(())
}

/// Makes what proves the initial domain's verdict so many times.
pub(crate) fn prove_again(
    alloc: Global,
    platform: &Platform,
    tree: &Tree,
    times: u32,
) -> Result<(), Failure> {
    let domain = tree.domain_of(tree.root());
    let found = found_in(alloc, platform, tree, domain)?;
    for _ in 0..times {
        prove(alloc, platform, tree, domain, None, &found.verdict)?;
    }
    Ok(())
}

/// Checks the initial domain's verdict with what proves it so many times.
pub(crate) fn check_again(
    alloc: Global,
    platform: &Platform,
    tree: &Tree,
    times: u32,
) -> Result<(), Failure> {
    let claim = claim_of(alloc, platform, tree)?;
    let domain = tree.domain_of(tree.root());
    if tree.host_of(domain).is_some() {
        return Err(Failure::NotReady);
    }
    for _ in 0..times {
        if check(platform, tree, domain, None, &claim).is_err() {
            return Err(Failure::FalseClaim);
        }
    }
    Ok(())
}

/// What a search finds for a domain, which is to be an initial one.
pub(crate) fn found_in(
    alloc: Global,
    platform: &Platform,
    tree: &Tree,
    domain: DomainId,
) -> Result<SearchResult, Failure>
    requires { HasDomain tree.now.nodes domain }
    ensures initial { OnOk result (IsGivenBase platform.now tree.now.nodes domain None) }
    ensures optimal { IfOk result
        (λ found. IsOptimalIn platform.now tree.now.nodes domain None found.verdict) }
{
    if !tree.is_ready(domain) || tree.host_of(domain).is_some() {
        return Err(Failure::NotReady);
    }
    Ok(search(alloc, platform, tree, domain, None, &NoGate)?)
}
