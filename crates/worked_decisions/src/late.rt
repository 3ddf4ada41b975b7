//! A late participant whose domain waits on a book: who was accepted when it came to wait counts
//! there, also who was released since.

use crate::equal::is_equal;
use crate::playing::{frozen_after, played};
use std::alloc::{AllocError, Global};
use std::process::Abort;
use sysmem_alloc::{Book, Frozen};
use sysmem_proof::check;
use sysmem_search::{NoGate, prove, search};
use verdict_claims::{Claim, Verdict};

// a and b need eight buffers and have nine, the ninth for x, who was attached to a; y, attached
// next, wants a tenth. z, attached to b, wants one more, and once its domain waits a is released.
const LATE: &str =
    "/ duplicate duplicate release /0 bind camps_on_2_and_slack /1 bind camps_on_3 decide /0 attach_token /0/0 bind camps_on_1 decide /0 attach_token /0/1 bind camps_on_1 decide /1 attach_token /1/0 bind camps_on_1 /0 release";

// The same, and z's domain is decided.
const LATE_DECIDED: &str =
    "/ duplicate duplicate release /0 bind camps_on_2_and_slack /1 bind camps_on_3 decide /0 attach_token /0/0 bind camps_on_1 decide /0 attach_token /0/1 bind camps_on_1 decide /1 attach_token /1/0 bind camps_on_1 /0 release decide";

// What a search finds of what is frozen, with what proves it.
fn proved(alloc: Global, frozen: &Frozen) -> Result<Claim, AllocError> {
    let platform = frozen.platform();
    let tree = frozen.tree();
    let domain = frozen.domain();
    let base = frozen.base();
    let verdict = search(alloc, platform, tree, domain, base, &NoGate)?.verdict;
    let proof = prove(alloc, platform, tree, domain, base, &verdict)?;
    Ok(Claim { verdict, proof })
}

// Whether the checker says yes to a claim of what is frozen.
fn is_taken(frozen: &Frozen, claim: &Claim) -> bool {
    let platform = frozen.platform();
    let tree = frozen.tree();
    let domain = frozen.domain();
    check(platform, tree, domain, frozen.base(), claim).is_ok()
}

// The book has this verdict for the domain of the node at the path, by its ordinals.
fn is_entered_empty(rt: &impl Abort, book: &Book, path: &[u32]) {
    let entered = match book.tree().node_at(path) {
        Some(node) => book.verdict_of(book.tree().domain_of(node)),
        None => None,
    };
    let is_empty = matches!(entered, Some(Verdict::IntersectionEmpty));
    is_equal(rt, "entered", &is_empty, &true);
}

#[test]
fn the_released_still_count_for_who_waits(rt: HostRuntime) {
    let frozen = frozen_after(&rt, rt.alloc(), LATE);
    let claim = proved(rt.alloc(), &frozen).expect(&rt, LATE);
    let is_empty = matches!(claim.verdict, Verdict::IntersectionEmpty);
    is_equal(&rt, "empty", &is_empty, &true);
    is_equal(&rt, "checked", &is_taken(&frozen, &claim), &true);
}

#[test]
fn who_waits_is_decided_so(rt: HostRuntime) {
    let book = played(&rt, rt.alloc(), LATE_DECIDED);
    is_entered_empty(&rt, &book, &[1, 0]);
}
