//! Why a part can't be done.

use std::alloc::{AllocError, AllocFailed};
use std::{fmt, io};
use sysmem_participants::AuditFault;

/// Why a part can't be done. It owns nothing: else each `?` that passes it on is proved to free it.
#[derive(Clone, Copy)]
pub(crate) enum Failure {
    Usage,
    NoMemory,
    Transfer,
    Script,
    Constraints,
    NotJson,
    NoSuchJob,
    NotReady,
    OtherSettings,
    FalseClaim,
    NobodyAsks,
    ActedDuringDecision,
    NoScript,
    NoClock,
    Audit(AuditFault),
    NoPath,
    NoWord,
    NoSuchWord,
    NoNumber,
    TooManyChoices,
    NoGroup,
    NoChild,
}

impl Failure {
    fn words(self) -> &'static str {
        match self {
            Failure::Usage => {
                "usage: workbench decisions FILE JOB[,..] [TIMES] | workbench handles FILE [JOB [TIMES]] | workbench records | workbench rows"
            }
            Failure::NoMemory => "memory is refused",
            Failure::Transfer => "a file, the input or the output fails",
            Failure::Script => "the script is refused",
            Failure::Constraints => "the constraints are refused",
            Failure::NotJson => "the text is no JSON value",
            Failure::NoSuchJob => "no such job",
            Failure::NotReady => "the initial domain isn't ready",
            Failure::OtherSettings => "the best settings change",
            Failure::FalseClaim => "the claim isn't true",
            Failure::NobodyAsks => "nobody asks for anything",
            Failure::ActedDuringDecision => "somebody acted during a decision, as no script does",
            Failure::NoScript => "the script would be longer than one may be",
            Failure::NoClock => "the clock can't be read",
            Failure::Audit(fault) => fault.name(),
            Failure::NoPath => "a line begins with no path",
            Failure::NoWord => "a line has no word after a path",
            Failure::NoSuchWord => "no such word or action",
            Failure::NoNumber => "a step of a path or a choice is no number",
            Failure::TooManyChoices => "a line has too many choices",
            Failure::NoGroup => "no group is left",
            Failure::NoChild => "no such child",
        }
    }
}

/// In words, as `main` prints it.
impl fmt::Debug for Failure {
    fn fmt<W: fmt::Write>(&self, f: &mut fmt::Formatter<W>) -> fmt::Result {
        write!(f, "{}", self.words())
    }
}

impl From<AllocError> for Failure {
    fn from(_error: AllocError) -> Failure {
        Failure::NoMemory
    }
}

impl<T: Drop> From<AllocFailed<T>> for Failure {
    fn from(_refused: AllocFailed<T>) -> Failure {
        Failure::NoMemory
    }
}

impl From<io::Error> for Failure {
    fn from(_error: io::Error) -> Failure {
        Failure::Transfer
    }
}
