//! What becomes of a handle by a call.

ghost use Rattle.std.specs.Prelude.{◌≡◌, ◌↔◌, false, true, IsTrue};

use crate::handle::Handle;
use std::sync::Wait;
use std::sync::ledger::Ledger;
use std::thread::Threads;
use sysmem_participants::Stub;
use sysmem_tree::Refusal;

/// A handle, or what is left of it.
pub(crate) enum Rest<L: Ledger> {
    Handle(Handle<L>),
    Stub(Stub<L>),
}

/// What becomes of a handle by a call.
pub(crate) struct CallEffect<L: Ledger> {
    pub(crate) rest: Rest<L>,
    /// The handle that the call makes.
    pub(crate) made: Option<Handle<L>>,
    /// Whether memory was refused to the call.
    pub(crate) is_starved: bool,
}

impl<L: Ledger> CallEffect<L> {
    /// The handle is as it is now, and no further one is made.
    pub(crate) fn kept(handle: Handle<L>) -> CallEffect<L>
        ensures { result.is_starved ≡ false }
    {
        CallEffect {
            rest: Rest::Handle(handle),
            made: None,
            is_starved: false,
        }
    }

    /// A further handle is made.
    pub(crate) fn made(handle: Handle<L>, made: Handle<L>) -> CallEffect<L>
        ensures { result.is_starved ≡ false }
    {
        CallEffect {
            rest: Rest::Handle(handle),
            made: Some(made),
            is_starved: false,
        }
    }

    /// The handle is spent.
    pub(crate) fn spent(stub: Stub<L>) -> CallEffect<L>
        ensures { result.is_starved ≡ false }
    {
        CallEffect {
            rest: Rest::Stub(stub),
            made: None,
            is_starved: false,
        }
    }

    /// Memory was refused, and so the handle is closed: nobody waits for what it can't do any more.
    pub(crate) fn starved<R: Threads + Wait + Sync>(rt: &R, handle: Handle<L>) -> CallEffect<L>
        ensures { result.is_starved ≡ true }
    {
        CallEffect {
            rest: Rest::Stub(handle.close(rt)),
            made: None,
            is_starved: true,
        }
    }

    /// An action is refused.
    pub(crate) fn refused<R: Threads + Wait + Sync>(
        rt: &R,
        handle: Handle<L>,
        refusal: Refusal,
    ) -> CallEffect<L>
        ensures { IsTrue result.is_starved ↔ (refusal ≡ Refusal.NoMemory) }
    {
        match refusal {
            Refusal::NoMemory => CallEffect::starved(rt, handle),
            _ => CallEffect::kept(handle),
        }
    }
}
