//! The start of all threads: none acts before all are there, and none where one can't be started.
//! Else those that are there would wait for it.

use std::sync::{Condvar, Mutex, Wait};

/// Where threads wait until it is known whether all of them are there.
#[derive(Drop)]
pub(crate) struct Start {
    are_all_there: Mutex<Option<bool>>,
    told: Condvar,
}

impl Start {
    pub(crate) fn new() -> Start {
        Start {
            are_all_there: Mutex::new(None),
            told: Condvar::new(),
        }
    }

    /// Whether all threads are there, once that is told.
    pub(crate) fn awaited<R: Wait>(&self, rt: &R) -> bool {
        let mut known = self.are_all_there.lock(rt);
        for _ in rt.forever() {
            if let Some(are_all_there) = *known {
                return are_all_there;
            }
            known = self.told.wait(rt, known);
        }
        unreachable!()
    }

    /// Tells whether all threads are there.
    pub(crate) fn tell<R: Wait>(&self, rt: &R, are_all_there: bool) {
        *self.are_all_there.lock(rt) = Some(are_all_there);
        self.told.notify_all();
    }
}
