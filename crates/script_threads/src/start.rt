//! The start of all actors.

use std::sync::{Condvar, Mutex, Wait};

/// Whether actors may begin.
#[derive(Clone, Copy, PartialEq, Eq)]
pub(crate) enum Signal {
    Begin,
    /// One of them isn't there, so none begins.
    CallOff,
}

/// Where actors wait for the signal.
#[derive(Drop)]
pub(crate) struct Start {
    signal: Mutex<Option<Signal>>,
    given: Condvar,
}

impl Start {
    pub(crate) fn new() -> Start {
        Start {
            signal: Mutex::new(None),
            given: Condvar::new(),
        }
    }

    /// The signal, once it is given.
    pub(crate) fn awaited<R: Wait>(&self, rt: &R) -> Signal {
        let mut signal = self.signal.lock(rt);
        for _ in rt.forever() {
            if let Some(given) = *signal {
                return given;
            }
            signal = self.given.wait(rt, signal);
        }
        unreachable!()
    }

    /// Gives the signal.
    pub(crate) fn give<R: Wait>(&self, rt: &R, signal: Signal) {
        *self.signal.lock(rt) = Some(signal);
        self.given.notify_all();
    }
}
