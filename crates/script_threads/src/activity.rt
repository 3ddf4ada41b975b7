//! Which actors can still make calls. Where none can, nothing comes any more, and a wait ends.

use std::sync::{Condvar, Mutex, Wait};

/// Why a wait for a verdict goes on.
#[derive(Clone, Copy, PartialEq, Eq)]
pub(crate) enum Woken {
    /// A call was made, which may have brought the verdict.
    ByCall,
    /// Each actor waited or had ended.
    ByStandstill,
}

/// What is counted of the actors.
#[derive(Drop)]
struct Counts {
    /// Those that neither wait nor have ended.
    active: usize,
    /// Those that wait for a verdict.
    waiting: usize,
    /// How often those that wait for a verdict were woken.
    turn: u64,
    /// The last turn that came of a standstill.
    standstill: u64,
}

/// The counts, and where actors wait for a verdict.
#[derive(Drop)]
pub(crate) struct Activity {
    counts: Mutex<Counts>,
    woken: Condvar,
}

impl Counts {
    /// Those that wait for a verdict can act again.
    fn wake(&mut self) {
        self.turn = self.turn.saturating_add(1);
        self.active = self.active.saturating_add(self.waiting);
        self.waiting = 0;
    }

    /// One actor less is active. Where that leaves none, those that wait for a verdict are woken.
    fn rest(&mut self) {
        self.active = self.active.saturating_sub(1);
        if self.active == 0 && self.waiting > 0 {
            self.wake();
            self.standstill = self.turn;
        }
    }

    /// Why those are woken that wait since this turn.
    fn cause(&self, since: u64) -> Woken {
        if self.standstill > since {
            Woken::ByStandstill
        } else {
            Woken::ByCall
        }
    }
}

impl Activity {
    /// Of so many actors, which are all active.
    pub(crate) fn new(actors: usize) -> Activity {
        Activity {
            counts: Mutex::new(Counts {
                active: actors,
                waiting: 0,
                turn: 0,
                standstill: 0,
            }),
            woken: Condvar::new(),
        }
    }

    /// The turn, which a wait that follows is to name.
    pub(crate) fn turn<R: Wait>(&self, rt: &R) -> u64 {
        self.counts.lock(rt).turn
    }

    /// A call was made: those that wait for a verdict look again.
    pub(crate) fn called<R: Wait>(&self, rt: &R) {
        self.counts.lock(rt).wake();
        self.woken.notify_all();
    }

    /// An actor has ended, or waits for a name.
    pub(crate) fn pause<R: Wait>(&self, rt: &R) {
        self.counts.lock(rt).rest();
        self.woken.notify_all();
    }

    /// The name was made for which an actor has waited.
    pub(crate) fn resume<R: Wait>(&self, rt: &R) {
        let mut counts = self.counts.lock(rt);
        counts.active = counts.active.saturating_add(1);
    }

    /// Waits until a call is made, unless one was made since this turn, or until no actor can make
    /// one.
    pub(crate) fn wait<R: Wait>(&self, rt: &R, since: u64) -> Woken {
        let mut counts = self.counts.lock(rt);
        if counts.turn == since {
            counts.waiting = counts.waiting.saturating_add(1);
            counts.rest();
            self.woken.notify_all();
        }
        for _ in rt.forever() {
            if counts.turn != since {
                return counts.cause(since);
            }
            counts = self.woken.wait(rt, counts);
        }
        unreachable!()
    }
}
