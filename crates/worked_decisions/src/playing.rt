//! Scripts played on a book.

ghost use Rattle.std.specs.Prelude.{◌≡◌, Some, IfSome};
ghost use Rattle.std.specs.Arc.{arc_value};
ghost use Rattle.sysmem_alloc.specs.Claims.{IsRightClaim};
ghost use Rattle.sysmem_alloc.specs.Sound.{MayWait};
ghost use Rattle.sysmem_alloc.specs.State.{base_of, next_ready};

use crate::steps::{action, platform};
use std::alloc::Global;
use std::process::Abort;
use std::sync::Arc;
use sysmem_alloc::{Book, Frozen};
use sysmem_search::{NoGate, search};
use sysmem_tree::{DomainId, Event, NodeId};
use verdict_claims::{Claim, Proof};

// The node at a path, as `/0/12`, which has to be there.
fn node_at(rt: &impl Abort, alloc: Global, book: &Book, path: &str) -> NodeId {
    let mut ordinals = Vec::new(alloc);
    for step in path.split('/') {
        if !step.is_empty() {
            let ordinal = step.parse::<u32>().expect(rt, path);
            ordinals.push(ordinal).expect(rt, path);
        }
    }
    book.tree().node_at(&ordinals).expect(rt, path)
}

// An optimal verdict of the domain that is to be decided next; `None` where memory is refused.
fn claim_for(alloc: Global, book: &Book, domain: DomainId) -> Option<Arc<Claim>>
    requires next { next_ready book.now.state ≡ Some domain }
    requires waits { MayWait book.now.state.tree domain }
    ensures { IfSome result (λ shared.
        IsRightClaim book.now.platform book.now.state.tree.nodes domain
        (base_of book.now.state domain) (arc_value shared)) }
{
    let Ok(base) = book.base(domain) else {
        return None;
    };
    let platform = book.platform();
    let Ok(found) = search(alloc, platform, book.tree(), domain, base.as_ref(), &NoGate) else {
        return None;
    };
    let claim = Claim {
        verdict: found.verdict,
        proof: Proof::Nothing,
    };
    let Ok(shared) = Arc::new(alloc, claim) else {
        return None;
    };
    Some(shared)
}

// Decides the domain that is to be decided next.
fn decide_next(rt: &impl Abort, alloc: Global, book: &mut Book) {
    let Some(domain) = book.next_ready() else {
        panic!(rt; "no domain waits");
    };
    let claim = claim_for(alloc, book, domain);
    book.decide(domain, claim);
}

// Plays a script: a path that begins with `/`, and what is done to its node, a word each, each of
// which has to be accepted. `decide` decides the domain that waits.
fn play(rt: &impl Abort, alloc: Global, book: &mut Book, script: &str) {
    let mut node = book.tree().root();
    for word in script.split_whitespace() {
        if word.starts_with('/') {
            node = node_at(rt, alloc, book, word);
        } else if word == "decide" {
            decide_next(rt, alloc, book);
        } else {
            let action = action(rt, alloc, word);
            let _done = book.apply(Event { node, action }).expect(rt, word);
        }
    }
}

/// The book of a script.
pub(crate) fn played(rt: &impl Abort, alloc: Global, script: &str) -> Book {
    let mut book = Book::new(alloc, platform(rt, alloc)).expect(rt, script);
    play(rt, alloc, &mut book, script);
    book
}

/// What is frozen at the end of a script, when a domain waits.
pub(crate) fn frozen_after(rt: &impl Abort, alloc: Global, script: &str) -> Frozen {
    let book = played(rt, alloc, script);
    let frozen = book.frozen().expect(rt, script);
    frozen.expect(rt, script)
}
