//! Gates that hold visits of a search until others came, for a second at most.

use std::sync::atomic::{AtomicU64, Ordering};
use std::thread;
use std::time::{Clock, Duration};
use sysmem_search::Gate;

// How often a thread is held for a millisecond at most.
const TURNS: u64 = 1_000;

/// Waits until the count is there, and says whether it came.
pub(crate) fn comes<C: Clock>(clock: &C, count: &AtomicU64, wanted: u64) -> bool {
    for _turn in 0..TURNS {
        if count.load(Ordering::SeqCst) >= wanted {
            return true;
        }
        let _slept = thread::sleep(clock, Duration::from_millis(1));
    }
    false
}

/// What became of a gate: how many visits came to it, and how many it held in vain.
#[derive(Drop)]
pub(crate) struct GateCounts {
    pub(crate) entered: AtomicU64,
    pub(crate) in_vain: AtomicU64,
}

pub(crate) fn fresh() -> GateCounts {
    GateCounts {
        entered: AtomicU64::new(0),
        in_vain: AtomicU64::new(0),
    }
}

/// Holds each visit of a choice or more until so many are entered.
#[derive(Drop)]
pub(crate) struct Meeting<'a, C> {
    pub(crate) clock: &'a C,
    pub(crate) held: &'a GateCounts,
    pub(crate) wanted: u64,
}

impl<'a, C: Clock> Gate for Meeting<'a, C> {
    fn at_prefix(&self, length: u32) {
        if length == 0 {
            return;
        }
        self.held.entered.fetch_add(1, Ordering::SeqCst);
        if !comes(self.clock, &self.held.entered, self.wanted) {
            self.held.in_vain.fetch_add(1, Ordering::SeqCst);
        }
    }
}
