//! Measures of the bench: a script's calls on a book that is also decided, without handles, locks
//! and copies.

ghost use Rattle.std.specs.Prelude.{◌≡◌, IfOk, Some};
ghost use Rattle.sysmem_alloc.specs.Claims.{IsRightClaim};
ghost use Rattle.sysmem_alloc.specs.Sound.{MayWait};
ghost use Rattle.sysmem_alloc.specs.State.{base_of, next_ready};

use super::repeating::apply;
use super::script::AskedConstraints;
use crate::failure::Failure;
use negotiation_inputs::Platform;
use script_reading::{Act, Call};
use std::alloc::{AllocError, Global};
use std::sync::Arc;
use sysmem_alloc::Book;
use sysmem_merge::Settings;
use sysmem_search::{NoGate, prove, search};
use sysmem_tree::{DomainId, MOST_NODES};
use verdict_claims::{Claim, Verdict};

/// Plays the calls on so many books, one after the other, and decides each domain that waits. A
/// `check` or a `wait` asks what the root is told.
pub(crate) fn repeat_decided(
    alloc: Global,
    platform: &Platform,
    calls: &[Call<'_>],
    asked: &[AskedConstraints],
    times: u32,
) -> Result<(), Failure> {
    for _ in 0..times {
        decide_once(alloc, platform.copy()?, calls, asked)?;
    }
    Ok(())
}

fn decide_once(
    alloc: Global,
    platform: Platform,
    calls: &[Call<'_>],
    asked: &[AskedConstraints],
) -> Result<(), Failure> {
    let mut book = Book::new(alloc, platform)?;
    let mut names = vec![in alloc; Some(book.tree().root())]?;
    for (call, asked) in calls.iter().zip(asked) {
        if matches!(call.act, Act::Check | Act::Wait) {
            let _settings = tell(&book)?;
            continue;
        }
        let made = apply(&mut book, &names, call, asked)?;
        if call.act.name_made().is_some() {
            names.push(made)?;
        }
        decide_all(alloc, &mut book)?;
    }
    Ok(())
}

/// What the root is told of its domain, which is to have settings.
fn tell(book: &Book) -> Result<Settings, Failure> {
    let tree = book.tree();
    match book.verdict_of(tree.domain_of(tree.root())) {
        Some(Verdict::Chosen(chosen)) => Ok(chosen.settings()),
        _ => Err(Failure::NotReady),
    }
}

/// Decides the domains that wait.
fn decide_all(alloc: Global, book: &mut Book) -> Result<(), AllocError> {
    for _ in 0..MOST_NODES {
        let Some(domain) = book.next_ready() else {
            break;
        };
        let claim = claim_on(alloc, book, domain)?;
        book.decide(domain, Some(Arc::new(alloc, claim)?));
    }
    Ok(())
}

/// What a search finds for the domain that is to be decided next, with what proves it.
fn claim_on(alloc: Global, book: &Book, domain: DomainId) -> Result<Claim, AllocError>
    requires next { next_ready book.now.state ≡ Some domain }
    requires waits { MayWait book.now.state.tree domain }
    ensures { IfOk result (IsRightClaim book.now.platform book.now.state.tree.nodes domain
        (base_of book.now.state domain)) }
{
    let base = book.base(domain)?;
    let given = base.as_ref();
    let (platform, tree) = (book.platform(), book.tree());
    let found = search(alloc, platform, tree, domain, given, &NoGate)?;
    let proof = prove(alloc, platform, tree, domain, given, &found.verdict)?;
    Ok(Claim {
        verdict: found.verdict,
        proof,
    })
}
