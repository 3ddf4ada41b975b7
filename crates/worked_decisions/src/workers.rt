//! Searches by several workers beside those of one, and that workers search at the same time.

ghost use Rattle.std.specs.Prelude.{◌≤◌};
ghost use Rattle.sysmem_search.specs.declared.wide.TheConstants.{MOST_WORKERS};

use crate::equal::is_equal;
use crate::finding::search_frozen;
use crate::gate::{Meeting, fresh};
use crate::searches::{ROWS, Row, frozen};
use std::alloc::Global;
use std::process::Abort;
use std::sync::atomic::Ordering;
use std::thread::Threads;
use std::time::Clock;
use sysmem_alloc::Frozen;
use sysmem_search::{Gate, MOST_WORKERS, NoGate, search_wide};
use verdict_claims::Verdict;

// So many workers find the verdict of what is frozen.
fn find_alike<R: Threads + Abort + Sync, G: Gate + Sync>(
    rt: &R,
    alloc: Global,
    frozen: &Frozen,
    gate: &G,
    workers: u32,
    wanted: &Verdict,
)
    requires some { 1 ≤ workers }
    requires few { workers ≤ MOST_WORKERS }
{
    let platform = frozen.platform();
    let tree = frozen.tree();
    let domain = frozen.domain();
    let base = frozen.base();
    let found = search_wide(rt, alloc, platform, tree, domain, base, gate, workers);
    let verdict = found.expect(rt, "search_wide").verdict;
    is_equal(rt, "alike", &verdict.is_same(wanted), &true);
}

// One worker, two and the most find what one search does.
fn all_find<R: Threads + Abort + Sync>(rt: &R, alloc: Global, row: Row) {
    let (_name, many, then, _wanted) = row;
    let frozen = frozen(rt, alloc, many, then);
    let alone = search_frozen(alloc, &frozen).expect(rt, "search");
    for workers in [1, 2, MOST_WORKERS as u32] {
        find_alike(rt, alloc, &frozen, &NoGate, workers, &alone.verdict);
    }
}

#[test]
fn workers_find_what_one_finds(rt: HostRuntime) {
    for row in ROWS {
        all_find(&rt, rt.alloc(), *row);
    }
}

// As many workers as a group has children, each of which settings meet, are in their visits of one
// choice at the same time.
fn all_meet<R: Threads + Abort + Clock + Sync>(rt: &R, alloc: Global, then: &str, workers: u32)
    requires some { 1 ≤ workers }
    requires few { workers ≤ MOST_WORKERS }
{
    let wanted = u64::from(workers);
    let held = fresh();
    let gate = Meeting {
        clock: rt,
        held: &held,
        wanted,
    };
    let frozen = frozen(rt, alloc, 0, then);
    let alone = search_frozen(alloc, &frozen).expect(rt, "search");
    find_alike(rt, alloc, &frozen, &gate, workers, &alone.verdict);
    is_equal(rt, "in vain", &held.in_vain.load(Ordering::SeqCst), &0);
    is_equal(rt, "entered", &held.entered.load(Ordering::SeqCst), &wanted);
}

#[test]
fn workers_search_at_the_same_time(rt: HostRuntime) {
    all_meet(
        &rt,
        rt.alloc(),
        "/ create_group release /0 create_child create_child all_children_present /0/0 bind cpu /0/1 bind cpu",
        2,
    );
    all_meet(
        &rt,
        rt.alloc(),
        "/ create_group release /0 create_child create_child create_child create_child all_children_present /0/0 bind cpu /0/1 bind cpu /0/2 bind cpu /0/3 bind cpu",
        4,
    );
}
