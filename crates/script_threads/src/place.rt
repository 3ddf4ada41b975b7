//! What a name stands for, and who waits for it.

use crate::activity::Activity;
use crate::called::{CallEffect, Rest};
use crate::handle::Handle;
use script_reading::Act;
use std::alloc::Global;
use std::sync::ledger::Ledger;
use std::sync::{Condvar, Mutex, MutexGuard, Wait};
use std::thread::Threads;
use sysmem_participants::Stub;

/// What a name stands for.
pub(crate) struct Slot<L: Ledger> {
    /// Its handle, once the call that makes it was accepted, until it is spent.
    handle: Option<Handle<L>>,
    /// What is left of the handle.
    pub(crate) stub: Option<Stub<L>>,
    /// Whether the call that makes it was answered.
    is_answered: bool,
    /// Whether an actor waits for that answer.
    is_awaited: bool,
    /// Whether memory was refused to a call on it.
    pub(crate) is_starved: bool,
}

/// A name of a script, under a lock of its own. It is held as long as a call on it is made: no
/// other actor makes one.
pub(crate) struct NameCell<L: Ledger> {
    slot: Mutex<Slot<L>>,
    answered: Condvar,
}

/// Closes a handle that stands where none is wanted.
fn discard<L: Ledger, R: Threads + Wait + Sync>(rt: &R, handle: Option<Handle<L>>) {
    if let Some(handle) = handle {
        let _stub = handle.close(rt);
    }
}

impl<L: Ledger> Slot<L> {
    /// Makes a call on the handle, if there is one; the handle that the call makes.
    fn call<R: Threads + Wait + Sync>(
        &mut self,
        rt: &R,
        alloc: Global,
        activity: &Activity,
        act: &Act<'_>,
    ) -> Option<Handle<L>> {
        let handle = self.handle.take()?;
        let CallEffect {
            rest,
            made,
            is_starved,
        } = handle.call(rt, alloc, activity, act);
        self.is_starved = self.is_starved || is_starved;
        match rest {
            Rest::Handle(handle) => discard(rt, self.handle.replace(handle)),
            Rest::Stub(stub) => self.stub = Some(stub),
        }
        made
    }

    /// Closes the handle, if there is one; what is left of it then, or was left before.
    pub(crate) fn close<R: Threads + Wait + Sync>(self, rt: &R) -> Option<Stub<L>> {
        let Slot {
            handle,
            stub,
            is_answered: _,
            is_awaited: _,
            is_starved: _,
        } = self;
        match handle {
            Some(handle) => Some(handle.close(rt)),
            None => stub,
        }
    }
}

impl<L: Ledger> NameCell<L> {
    /// That of a name which no call has made yet.
    pub(crate) fn new() -> NameCell<L> {
        NameCell {
            slot: Mutex::new(Slot {
                handle: None,
                stub: None,
                is_answered: false,
                is_awaited: false,
                is_starved: false,
            }),
            answered: Condvar::new(),
        }
    }

    /// Makes a call on what the name stands for, once the call that makes the name was answered;
    /// the handle that it makes.
    pub(crate) fn call<R: Threads + Wait + Sync>(
        &self,
        rt: &R,
        alloc: Global,
        activity: &Activity,
        act: &Act<'_>,
    ) -> Option<Handle<L>> {
        let mut slot = self.awaited(rt, activity);
        slot.call(rt, alloc, activity, act)
    }

    /// What the name stands for, once the call that makes it was answered.
    fn awaited<R: Wait>(&self, rt: &R, activity: &Activity) -> MutexGuard<'_, Slot<L>> {
        let mut slot = self.slot.lock(rt);
        if !slot.is_answered {
            slot.is_awaited = true;
            activity.pause(rt);
        }
        for _ in rt.forever() {
            if slot.is_answered {
                return slot;
            }
            slot = self.answered.wait(rt, slot);
        }
        unreachable!()
    }

    /// The call that makes the name was answered, and made this.
    pub(crate) fn answer<R: Threads + Wait + Sync>(
        &self,
        rt: &R,
        activity: &Activity,
        made: Option<Handle<L>>,
    ) {
        let before = self.exchange(rt, activity, made);
        self.answered.notify_all();
        discard(rt, before);
    }

    /// Puts what the name stands for in place of what it stood for.
    fn exchange<R: Wait>(
        &self,
        rt: &R,
        activity: &Activity,
        made: Option<Handle<L>>,
    ) -> Option<Handle<L>> {
        let mut slot = self.slot.lock(rt);
        slot.is_answered = true;
        if slot.is_awaited {
            slot.is_awaited = false;
            activity.resume(rt);
        }
        match made {
            Some(handle) => slot.handle.replace(handle),
            None => None,
        }
    }

    /// What the name stands for in the end.
    pub(crate) fn into_slot(self) -> Slot<L> {
        let NameCell { slot, answered: _ } = self;
        slot.into_inner()
    }
}
