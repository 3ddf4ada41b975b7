//! An actor of a script.

use crate::stage::Stage;
use crate::start::Signal;
use script_reading::Call;
use std::sync::Wait;
use std::sync::ledger::Ledger;
use std::thread::Threads;

/// Makes the calls of this actor in their order, once all actors are there.
pub(crate) fn act<L: Ledger, R: Threads + Wait + Sync>(
    rt: &R,
    stage: &Stage<L>,
    calls: &[Call<'_>],
    actor: usize,
) {
    if stage.start.awaited(rt) == Signal::CallOff {
        return;
    }
    let mut next: usize = 1;
    for call in calls {
        if call.actor == actor {
            stage.make(rt, call, next);
        }
        if call.act.name_made().is_some() {
            next = next.saturating_add(1);
        }
    }
    stage.activity.pause(rt);
}
