//! Why there is nothing to tell.

use live_book::Misnamed;
use live_script::Unwritten;
use record_reading::Fault;
use std::alloc::{AllocError, AllocFailed};
use std::io;
use sysmem_participants::AuditFault;

/// Why there is nothing to tell. It owns nothing: else each `?` that passes it on is proved to free
/// it.
#[derive(Clone, Copy, Debug)]
pub(crate) enum Failure {
    NoMemory,
    /// A thread can't be started.
    NoThread,
    /// A record is no JSON.
    NotJson,
    /// A record isn't a platform's, or no constraints.
    Record(Fault),
    Audit(AuditFault),
    Name(Misnamed),
    Script(Unwritten),
    /// Nothing can be printed, or no file be written.
    Output,
}

impl From<AllocError> for Failure {
    fn from(_error: AllocError) -> Failure {
        Failure::NoMemory
    }
}

impl<T: Drop> From<AllocFailed<T>> for Failure {
    fn from(_refused: AllocFailed<T>) -> Failure {
        Failure::NoMemory
    }
}

impl From<Fault> for Failure {
    fn from(fault: Fault) -> Failure {
        Failure::Record(fault)
    }
}

impl From<Unwritten> for Failure {
    fn from(unwritten: Unwritten) -> Failure {
        Failure::Script(unwritten)
    }
}

impl From<io::Error> for Failure {
    fn from(_error: io::Error) -> Failure {
        Failure::Output
    }
}
