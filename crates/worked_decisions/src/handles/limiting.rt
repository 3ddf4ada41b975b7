//! A host that lets strangers take part, and bounds what each can make.

ghost use Rattle.std.specs.Prelude.{◌≡◌};
ghost use Rattle.sysmem_room.specs.Counting.{all_parts};

use super::handling::{bound, child, closed, counted, released, released_group, root, waits_for};
use crate::equal::is_equal;
use crate::steps::{asked, platform};
use negotiation_inputs::Constraints;
use node_limits::Limits;
use std::alloc::Global;
use std::marker::Brand;
use std::process::Abort;
use std::sync::ledger::{Blank, Ledger};
use std::sync::{Arc, Wait};
use std::thread::Threads;
use sysmem_participants::{Allocator, Audit, AuditFault, Stub, Token};
use sysmem_search::{Gate, NoGate};
use sysmem_tree::Refusal;

fn is_spent<T>(rt: &impl Abort, name: &str, answer: Result<T, Refusal>) {
    match answer {
        Ok(_given) => panic!(rt; "{name} is accepted"),
        Err(refusal) => is_equal(rt, name, &refusal, &Refusal::TooManyNodes),
    }
}

// A client makes the four nodes that it may below its token: a friend's token, that one's group, its
// child and that one's friend. Then none of them makes a further one.
fn fill<L: Ledger, G: Gate + Drop + Sync, R: Threads + Wait + Abort + Sync>(
    rt: &R,
    client: &mut Token<L, G>,
) -> [Stub<L>; 4] {
    let mut friend = child(rt, client);
    let mut group = friend.create_group(rt).expect(rt, "create_group");
    let mut alternative = group.create_child(rt).expect(rt, "create_child");
    let last = child(rt, &mut alternative);
    is_spent(rt, "the client's", client.duplicate(rt));
    is_spent(rt, "the friend's", friend.create_group(rt));
    is_spent(rt, "the group's", group.create_child(rt));
    is_spent(rt, "the child's", alternative.duplicate(rt));
    is_equal(rt, "complete", &group.all_children_present(rt), &Ok(()));
    [
        released(rt, friend),
        released_group(rt, group),
        released(rt, alternative),
        released(rt, last),
    ]
}

// Two clients make all that each may, and the host, after them, a further token. They are decided,
// and what a client makes later counts too. What an audit finds of the twelve nodes.
fn host<L: Ledger, G: Gate + Drop + Sync, R: Threads + Wait + Abort + Sync>(
    rt: &R,
    alloc: Global,
    allocator: &Allocator<G>,
    blank: Blank,
    asked: &Arc<Constraints>,
) -> Result<Audit, AuditFault>
    requires name { blank.name ≡ L.name }
    requires ledger { blank.parts ≡ L.parts }
    requires parts { blank.parts ≡ all_parts }
{
    let mut root = root::<L, G>(rt, allocator, blank);
    let mut first = child(rt, &mut root);
    let mut second = child(rt, &mut root);
    let [a, b, c, d] = fill(rt, &mut first);
    let [e, f, g, h] = fill(rt, &mut second);
    let late = child(rt, &mut root);
    let left = [released(rt, root), released(rt, late)];
    let mut first = bound(rt, first, Arc::try_clone(asked).ok());
    let second = bound(rt, second, None);
    waits_for(rt, &mut first, 3);
    is_spent(rt, "the collection's", first.attach_token(rt));
    let [root, late] = left;
    let (first, second) = (closed(rt, first), closed(rt, second));
    counted(
        rt,
        alloc,
        [root, late, first, second, a, b, c, d, e, f, g, h],
    )
}

fn is_within_limits<R: Threads + Wait + Abort + Sync>(rt: &R, alloc: Global) {
    let asked = asked(rt, alloc, "camps_on_2_and_slack");
    let limits = Limits { offspring: Some(4) };
    let platform = platform(rt, alloc);
    let made = Allocator::with_limits(alloc, platform, NoGate, limits);
    let allocator = made.expect(rt, "with_limits");
    let found = host::<Brand, NoGate, R>(rt, alloc, &allocator, Blank::new(129), &asked);
    let wanted = Audit {
        nodes: 12,
        actions: 29,
        decisions: 1,
    };
    is_equal(rt, "audit", &found, &Ok(wanted));
}

// Each client has a count of its own, of all that it made and that was made of it, and the root has
// none. What is refused enters nothing.
#[test]
fn no_client_makes_more_than_a_host_allows(rt: HostRuntime) {
    is_within_limits(&rt, rt.alloc());
}
