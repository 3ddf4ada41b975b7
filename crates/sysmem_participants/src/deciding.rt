//! Decisions, taken while no one holds the lock.

ghost use Rattle.std.specs.Prelude.{◌≡◌, ◌≤◌, None, option_map, IfOk};
ghost use Rattle.std.specs.Arc.{arc_value};
ghost use Rattle.sysmem_alloc.specs.Frozen.{frozen_of};
ghost use Rattle.sysmem_alloc.specs.State.{next_ready};
ghost use Rattle.verdict_claims.specs.Claim.{IsTrueClaim};
ghost use Rattle.sysmem_search.specs.declared.wide.TheConstants.{MOST_WORKERS};

use crate::shared::{Rules, SharedBook};
use std::alloc::{AllocError, Global};
use std::sync::ledger::Ledger;
use std::sync::{Arc, Wait};
use std::thread::Threads;
use sysmem_alloc::Frozen;
use sysmem_room::{SeenBook, Turn};
use sysmem_search::{Gate, prove, search_wide};
use verdict_claims::Claim;

/// From so many nanoseconds on, a search is long enough for a second worker to be worth its thread.
const LONG: u64 = 500_000;

/// How many nanoseconds a search may take where it visits all prefixes, roughly: a visit takes
/// longer where the platform has more offers.
fn longest_search(frozen: &Frozen) -> u64 {
    let platform = frozen.platform();
    let offers = platform
        .pairs()
        .len()
        .saturating_mul(platform.colours().len());
    let selections = frozen.tree().count_selections(frozen.domain());
    selections.saturating_mul((offers as u64).saturating_add(64))
}

/// How many workers search what was frozen.
fn workers_for<G: Gate + Drop>(rules: &Rules<G>, frozen: &Frozen) -> u32
    ensures some { 1 ≤ result }
    ensures few { result ≤ MOST_WORKERS }
{
    if let Some(workers) = rules.workers {
        return workers;
    }
    if longest_search(frozen) >= LONG { 2 } else { 1 }
}

/// A true claim of what was frozen, for the book and for the cell.
fn claimed<G: Gate + Drop + Sync, R: Threads + Sync>(
    rt: &R,
    rules: &Rules<G>,
    frozen: &Frozen,
) -> Result<(Arc<Claim>, Arc<Claim>), AllocError>
    ensures right { IfOk result (λ both. IsTrueClaim frozen.now.platform frozen.now.tree.nodes
        frozen.now.domain frozen.now.base (arc_value both.0)) }
    ensures same { IfOk result (λ both. arc_value both.1 ≡ arc_value both.0) }
{
    let workers = workers_for(rules, frozen);
    let claim = claim_of(rt, rules.alloc, frozen, &rules.gate, workers)?;
    let shared = Arc::new(rules.alloc, claim)?;
    let copy = Arc::try_clone(&shared)?;
    Ok((shared, copy))
}

/// A true claim of what was frozen, which so many workers search together.
fn claim_of<G: Gate + Sync, R: Threads + Sync>(
    rt: &R,
    alloc: Global,
    frozen: &Frozen,
    gate: &G,
    workers: u32,
) -> Result<Claim, AllocError>
    requires some { 1 ≤ workers }
    requires few { workers ≤ MOST_WORKERS }
    ensures { IfOk result (λ claim. IsTrueClaim frozen.now.platform frozen.now.tree.nodes
        frozen.now.domain frozen.now.base claim) }
{
    let (platform, tree, domain) = (frozen.platform(), frozen.tree(), frozen.domain());
    let base = frozen.base();
    let verdict = search_wide(rt, alloc, platform, tree, domain, base, gate, workers)?.verdict;
    gate.at_proof();
    let proof = prove(alloc, platform, tree, domain, base, &verdict)?;
    gate.at_proof();
    Ok(Claim { verdict, proof })
}

/// What the domain that is next is decided on, with the turn, in one hold, and the book as it is
/// left then.
fn next_of<L: Ledger, R: Wait>(
    rt: &R,
    shared: &SharedBook<L>,
    turn: Turn<L>,
) -> (Option<(Frozen, Turn<L>)>, SeenBook<L>)
    ensures frozen { option_map (λ next. next.0) result.0 ≡ frozen_of result.1 }
    ensures none { result.0 ≡ None → next_ready result.1.state ≡ None }
{
    let mut room = shared.room.lock(rt);
    let frozen = room.frozen(turn);
    let seen = room.seen();
    (frozen, seen)
}

/// Decides the domains that wait, one after the other, until none waits: what it decides on is
/// frozen in one hold, searched and proved in none, and entered in another. The book as it was seen
/// where none waited.
pub(crate) fn decide<L: Ledger, G: Gate + Drop + Sync, R: Threads + Wait + Sync>(
    rt: &R,
    shared: &SharedBook<L>,
    rules: &Rules<G>,
    turn: Turn<L>,
) -> SeenBook<L>
    ensures { next_ready result.state ≡ None }
{
    let mut turn = turn;
    for _ in rt.forever() {
        let (next, seen) = next_of(rt, shared, turn);
        shared.changed.notify_all();
        let Some((frozen, still)) = next else {
            return seen;
        };
        turn = still;
        match claimed(rt, rules, &frozen) {
            Ok((claim, copy)) => {
                let _entered = shared.room.lock(rt).conclude(&turn, frozen, claim, copy);
            }
            Err(_) => shared.room.lock(rt).lack(&turn, &frozen),
        }
    }
    unreachable!()
}
