//! A measure of the bench: many participants of one collection, on so many threads.

ghost use Rattle.std.specs.Prelude.{◌≡◌};
ghost use Rattle.sysmem_room.specs.Counting.{all_parts};

use super::tokens::{close_all, share_out, take_part};
use crate::failure::Failure;
use negotiation_inputs::{Constraints, Platform};
use std::alloc::Global;
use std::marker::Brand;
use std::sync::atomic::{AtomicUsize, Ordering};
use std::sync::ledger::{Blank, Ledger};
use std::sync::{Arc, Mutex, Wait};
use std::thread;
use std::thread::Threads;
use std::time::{Clock, Duration, Instant};
use sysmem_participants::{Allocator, Token};
use sysmem_search::NoGate;

/// Each of them duplicates its token, so that there are 126 participants.
const PAIRS: usize = 63;
/// How often a thread lets others go first at most, before it begins without them.
const TURNS: u32 = 1_000_000;

/// Who takes part in a collection, and how.
#[derive(Drop)]
pub(crate) struct Crowd<'a> {
    pub(crate) asked: &'a Arc<Constraints>,
    pub(crate) threads: usize,
    /// How often each says again, once it is set, that it asks for nothing, which is refused.
    pub(crate) refused: u32,
}

/// So many collections of 126 participants, one after the other, whose calls are shared out among
/// threads; how many nanoseconds these take. Each duplicates, binds, states what it asks for, asks
/// what was decided, and is released.
pub(crate) fn crowd_on<R: Threads + Wait + Clock + Sync>(
    rt: &R,
    alloc: Global,
    platform: Platform,
    crowd: &Crowd<'_>,
    collections: u32,
) -> Result<u64, Failure> {
    let allocator = Allocator::new(alloc, platform, NoGate)?;
    let mut all: u64 = 0;
    for _ in 0..collections {
        let one = gather::<Brand, R>(rt, alloc, &allocator, Blank::new(129), crowd)?;
        all = all.saturating_add(one);
    }
    Ok(all)
}

fn gather<L: Ledger + Send + Sync, R: Threads + Wait + Clock + Sync>(
    rt: &R,
    alloc: Global,
    allocator: &Allocator<NoGate>,
    blank: Blank,
    crowd: &Crowd<'_>,
) -> Result<u64, Failure>
    requires name { blank.name ≡ L.name }
    requires ledger { blank.parts ≡ L.parts }
    requires parts { blank.parts ≡ all_parts }
{
    let Ok(mut root) = allocator.allocate_shared::<L>(blank) else {
        return Err(Failure::NoMemory);
    };
    let tokens = Mutex::new(share_out(rt, alloc, &mut root, PAIRS));
    let there = AtomicUsize::new(0);
    let spent = thread::map_indices(
        rt,
        alloc,
        crowd.threads,
        &|_| { take_parts(rt, &tokens, crowd, &there) },
    );
    close_all(rt, tokens.into_inner());
    let _stub = root.close(rt);
    longest(&spent?)
}

/// The longest of these times.
fn longest(spent: &[Option<u64>]) -> Result<u64, Failure> {
    let mut most = 0;
    for one in spent {
        let Some(nanos) = *one else {
            return Err(Failure::NoClock);
        };
        most = most.max(nanos);
    }
    Ok(most)
}

/// Once all threads are there, takes the tokens that no thread took, one after the other: how many
/// nanoseconds it is until the last of these is spent, if there is a clock.
fn take_parts<L: Ledger, R: Threads + Wait + Clock + Sync>(
    rt: &R,
    tokens: &Mutex<Vec<Token<L, NoGate>>>,
    crowd: &Crowd<'_>,
    there: &AtomicUsize,
) -> Option<u64> {
    meet(there, crowd.threads);
    let start = Instant::now(rt).ok()?;
    let mut spent = Duration::ZERO;
    for _ in 0..PAIRS {
        let taken = tokens.lock(rt).pop();
        let Some(token) = taken else {
            break;
        };
        take_two(rt, token, crowd);
        spent = start.elapsed(rt).ok()?;
    }
    u64::try_from(spent.as_nanos()).ok()
}

/// Waits until so many are there.
fn meet(there: &AtomicUsize, wanted: usize) {
    there.fetch_add(1, Ordering::SeqCst);
    for _ in 0..TURNS {
        if there.load(Ordering::SeqCst) >= wanted {
            break;
        }
        thread::yield_now();
    }
}

/// The parts of a token and of its duplicate.
fn take_two<L: Ledger, R: Threads + Wait + Sync>(
    rt: &R,
    token: Token<L, NoGate>,
    crowd: &Crowd<'_>,
) {
    let mut token = token;
    let second = token.duplicate(rt);
    take_part(rt, token, crowd.asked, 1, crowd.refused);
    if let Ok(other) = second {
        take_part(rt, other, crowd.asked, 1, crowd.refused);
    }
}
