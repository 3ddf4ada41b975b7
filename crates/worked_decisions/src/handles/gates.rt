//! Decisions that are held, at their search and their proof, until others have done what they could
//! do meanwhile.

ghost use Rattle.std.specs.Prelude.{◌≡◌};
ghost use Rattle.sysmem_room.specs.Counting.{all_parts};

use super::handling::{bound, child, closed, counted, released, released_group, root, waits_for};
use super::slots::{emptied, take_part};
use crate::equal::is_equal;
use crate::gate::{GateCounts, Meeting, comes, fresh};
use crate::steps::{asked, large_platform, platform};
use negotiation_inputs::Constraints;
use std::alloc::Global;
use std::marker::Brand;
use std::process::Abort;
use std::sync::atomic::{AtomicU64, Ordering};
use std::sync::ledger::{Blank, Ledger};
use std::sync::{Arc, Mutex, Wait};
use std::thread;
use std::thread::Threads;
use std::time::Clock;
use sysmem_participants::{Allocator, Audit, AuditFault, Collection, Group, Stub, Token};
use sysmem_search::Gate;
use sysmem_tree::Refusal;

// Holds one decision three times, each time until it may go on: in its search, which visits before
// any other does, and before and after its proof. Another collection is decided while its search is
// held, and so is told of two times that something is proved, before this one is.
#[derive(Drop)]
struct Stages<'a, C> {
    clock: &'a C,
    held: &'a GateCounts,
    let_go: &'a AtomicU64,
    visits: AtomicU64,
    proofs: AtomicU64,
}

impl<'a, C: Clock> Stages<'a, C> {
    fn hold(&self, stage: u64) {
        self.held.entered.fetch_add(1, Ordering::SeqCst);
        if !comes(self.clock, self.let_go, stage) {
            self.held.in_vain.fetch_add(1, Ordering::SeqCst);
        }
    }
}

impl<'a, C: Clock> Gate for Stages<'a, C> {
    fn at_prefix(&self, _length: u32) {
        if self.visits.fetch_add(1, Ordering::SeqCst) == 0 {
            self.hold(1);
        }
    }

    fn at_proof(&self) {
        match self.proofs.fetch_add(1, Ordering::SeqCst) {
            2 => self.hold(2),
            3 => self.hold(3),
            _ => {}
        }
    }
}

// Another collection of the allocator is decided from its beginning to its end: both who take part
// know one verdict, and an audit misses the stub of the second, as it does with no stubs at all.
fn decided_apart<L: Ledger, G: Gate + Drop + Sync, R: Threads + Wait + Abort + Sync>(
    rt: &R,
    alloc: Global,
    allocator: &Allocator<G>,
    blank: Blank,
    asked: &Arc<Constraints>,
)
    requires name { blank.name ≡ L.name }
    requires ledger { blank.parts ≡ L.parts }
    requires parts { blank.parts ≡ all_parts }
{
    let mut root = root::<L, G>(rt, allocator, blank);
    let second = child(rt, &mut root);
    let mut first = bound(rt, root, Arc::try_clone(asked).ok());
    let mut second = bound(rt, second, None);
    waits_for(rt, &mut first, 3);
    waits_for(rt, &mut second, 3);
    first.compare(&mut second);
    let _missed = closed(rt, second);
    let too_few = [closed(rt, first)];
    is_equal(
        rt,
        "too few",
        &counted(rt, alloc, too_few),
        &Err(AuditFault::Stubs),
    );
    let none: [Stub<L>; 0] = [];
    is_equal(
        rt,
        "none",
        &counted(rt, alloc, none),
        &Err(AuditFault::Stubs),
    );
}

// While the decision of its domain is held for so many times, the collection is told that there is
// none yet, and a token is attached to it.
fn attach_meanwhile<L: Ledger, G: Gate + Drop + Sync, R: Threads + Wait + Abort + Clock + Sync>(
    rt: &R,
    waiting: &mut Collection<L, G>,
    held: &GateCounts,
    stage: u64,
) -> Token<L, G> {
    is_equal(rt, "held", &comes(rt, &held.entered, stage), &true);
    is_equal(rt, "check", &waiting.check().err(), &Some(Refusal::Pending));
    let attached = waiting.attach_token(rt).expect(rt, "attach_token");
    is_equal(rt, "check", &waiting.check().err(), &Some(Refusal::Pending));
    attached
}

// While the decision of its domain is held in its search, the collection has a token attached, and
// another collection is decided; and a token is attached while it is held before its proof, and
// after it.
fn act_meanwhile<L: Ledger, G: Gate + Drop + Sync, R: Threads + Wait + Abort + Clock + Sync>(
    rt: &R,
    alloc: Global,
    allocator: &Allocator<G>,
    waiting: &mut Collection<L, G>,
    asked: &Arc<Constraints>,
    held: &GateCounts,
    let_go: &AtomicU64,
) -> [Stub<L>; 3] {
    let first = attach_meanwhile(rt, waiting, held, 1);
    decided_apart::<Brand, G, R>(rt, alloc, allocator, Blank::new(129), asked);
    let_go.store(1, Ordering::SeqCst);
    let second = attach_meanwhile(rt, waiting, held, 2);
    let_go.store(2, Ordering::SeqCst);
    let third = attach_meanwhile(rt, waiting, held, 3);
    let_go.store(3, Ordering::SeqCst);
    waits_for(rt, waiting, 9);
    [
        released(rt, first),
        released(rt, second),
        released(rt, third),
    ]
}

// Two take part: the constraints of the one bring the decision, which is held, and the other acts
// meanwhile. What an audit finds of the six nodes.
fn hold<
    L: Ledger + Send + Sync,
    G: Gate + Drop + Sync + Send,
    R: Threads + Wait + Abort + Clock + Sync,
>(
    rt: &R,
    alloc: Global,
    allocator: &Allocator<G>,
    blank: Blank,
    asked: &[Arc<Constraints>; 2],
    held: &GateCounts,
    let_go: &AtomicU64,
) -> Result<Audit, AuditFault>
    requires name { blank.name ≡ L.name }
    requires ledger { blank.parts ≡ L.parts }
    requires parts { blank.parts ≡ all_parts }
{
    let [first, second] = asked;
    let mut root = root::<L, G>(rt, allocator, blank);
    let a = child(rt, &mut root);
    let b = Mutex::new(Some(child(rt, &mut root)));
    let root = released(rt, root);
    let mut a = bound(rt, a, Arc::try_clone(first).ok());
    let (decided, attached) = thread::join(
        rt,
        || take_part(rt, &b, second),
        || act_meanwhile(rt, alloc, allocator, &mut a, first, held, let_go),
    );
    emptied(rt, b);
    let [x, y, z] = attached;
    counted(rt, alloc, [root, closed(rt, a), decided, x, y, z])
}

// What participants ask: the first camps on two buffers, the second on three, of nine together.
fn both_asked(rt: &impl Abort, alloc: Global) -> [Arc<Constraints>; 2] {
    let first = asked(rt, alloc, "camps_on_2_and_slack");
    [first, asked(rt, alloc, "camps_on_3")]
}

fn is_decided_outside<R: Threads + Wait + Abort + Clock + Sync>(rt: &R, alloc: Global) {
    let (held, let_go) = (fresh(), AtomicU64::new(0));
    let gate = Stages {
        clock: rt,
        held: &held,
        let_go: &let_go,
        visits: AtomicU64::new(0),
        proofs: AtomicU64::new(0),
    };
    let both = both_asked(rt, alloc);
    let made = Allocator::new(alloc, platform(rt, alloc), gate);
    let allocator = made.expect(rt, "allocator");
    let blank = Blank::new(129);
    let found = hold::<Brand, Stages<'_, R>, R>(
        rt, alloc, &allocator, blank, &both, &held, &let_go,
    );
    is_audited(rt, &held, found, [6, 15, 4]);
}

// So many nodes, actions and decisions were counted, and nothing was held in vain.
fn is_audited(
    rt: &impl Abort,
    held: &GateCounts,
    found: Result<Audit, AuditFault>,
    wanted: [u32; 3],
) {
    let [nodes, actions, decisions] = wanted;
    let wanted = Audit {
        nodes,
        actions,
        decisions,
    };
    is_equal(rt, "audit", &found, &Ok(wanted));
    is_equal(rt, "held in vain", &held.in_vain.load(Ordering::SeqCst), &0);
}

#[test]
fn others_act_while_a_decision_is_taken(rt: HostRuntime) {
    is_decided_outside(&rt, rt.alloc());
}

// A complete group of two below the root, and its children.
fn group_of_two<L: Ledger, G: Gate + Drop + Sync, R: Threads + Wait + Abort + Sync>(
    rt: &R,
    root: &mut Token<L, G>,
) -> (Group<L, G>, [Token<L, G>; 2]) {
    let mut group = root.create_group(rt).expect(rt, "create_group");
    let a = group.create_child(rt).expect(rt, "create_child");
    let b = group.create_child(rt).expect(rt, "create_child");
    is_equal(rt, "complete", &group.all_children_present(rt), &Ok(()));
    (group, [a, b])
}

// A group of two, of whom either would do: the first is chosen. What an audit finds of the four
// nodes.
fn choose<L: Ledger, G: Gate + Drop + Sync, R: Threads + Wait + Abort + Sync>(
    rt: &R,
    alloc: Global,
    allocator: &Allocator<G>,
    blank: Blank,
    asked: &[Arc<Constraints>; 2],
) -> Result<Audit, AuditFault>
    requires name { blank.name ≡ L.name }
    requires ledger { blank.parts ≡ L.parts }
    requires parts { blank.parts ≡ all_parts }
{
    let [first, second] = asked;
    let mut root = root::<L, G>(rt, allocator, blank);
    let (group, [a, b]) = group_of_two(rt, &mut root);
    let root = released(rt, root);
    let group = released_group(rt, group);
    let mut a = bound(rt, a, Arc::try_clone(first).ok());
    let mut b = bound(rt, b, Arc::try_clone(second).ok());
    waits_for(rt, &mut a, 3);
    is_equal(rt, "check", &b.check().err(), &Some(Refusal::NotSelected));
    counted(rt, alloc, [root, group, closed(rt, a), closed(rt, b)])
}

fn is_decided_by_two<R: Threads + Wait + Abort + Clock + Sync>(rt: &R, alloc: Global) {
    let held = fresh();
    let gate = Meeting {
        clock: rt,
        held: &held,
        wanted: 2,
    };
    let both = both_asked(rt, alloc);
    let made = Allocator::with_workers(alloc, platform(rt, alloc), gate, 2);
    let allocator = made.expect(rt, "with_workers");
    let found = choose::<Brand, Meeting<'_, R>, R>(rt, alloc, &allocator, Blank::new(129), &both);
    is_audited(rt, &held, found, [4, 12, 1]);
}

#[test]
fn two_workers_take_a_decision(rt: HostRuntime) {
    is_decided_by_two(&rt, rt.alloc());
}

// A group of two tokens, who ask for nothing.
fn add_group<L: Ledger, G: Gate + Drop + Sync, R: Threads + Wait + Abort + Sync>(
    rt: &R,
    root: &mut Token<L, G>,
) {
    let (group, [a, b]) = group_of_two(rt, root);
    let _a = released(rt, a);
    let _b = released(rt, b);
    let _group = released_group(rt, group);
}

// Twelve groups of two, which have 4,096 selections, and a root that camps on two buffers.
fn choose_of_many<L: Ledger, G: Gate + Drop + Sync, R: Threads + Wait + Abort + Sync>(
    rt: &R,
    allocator: &Allocator<G>,
    blank: Blank,
    asked: &Arc<Constraints>,
)
    requires name { blank.name ≡ L.name }
    requires ledger { blank.parts ≡ L.parts }
    requires parts { blank.parts ≡ all_parts }
{
    let mut root = root::<L, G>(rt, allocator, blank);
    for _group in 0..12 {
        add_group(rt, &mut root);
    }
    let mut root = bound(rt, root, Arc::try_clone(asked).ok());
    waits_for(rt, &mut root, 2);
    let _root = closed(rt, root);
}

fn is_long_for_one<R: Threads + Wait + Abort + Clock + Sync>(rt: &R, alloc: Global) {
    let held = fresh();
    let gate = Meeting {
        clock: rt,
        held: &held,
        wanted: 2,
    };
    let asked = asked(rt, alloc, "camps_on_2");
    let made = Allocator::new(alloc, large_platform(rt, alloc), gate);
    let allocator = made.expect(rt, "allocator");
    choose_of_many::<Brand, Meeting<'_, R>, R>(rt, &allocator, Blank::new(129), &asked);
    is_equal(rt, "held in vain", &held.in_vain.load(Ordering::SeqCst), &0);
}

// Who doesn't say how many workers there are has two where a search is long.
#[test]
fn two_workers_take_a_long_decision(rt: HostRuntime) {
    is_long_for_one(&rt, rt.alloc());
}
