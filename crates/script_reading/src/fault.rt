//! Why a script can't be read.
ghost use Rattle.std.specs.Prelude.{◌≡◌};
ghost use Rattle.script_reading.specs.declared.fault.ParseFault.TheVariants.{NoMemory};

use record_reading::Fault;
use std::alloc::{AllocError, AllocFailed};
use thiserror::Error;

/// Why a script was not read.
#[derive(Clone, Copy, Debug, PartialEq, Eq, Error)]
pub enum ParseFault {
    /// A growth was refused.
    #[error("no memory")]
    NoMemory,
    /// The script is refused.
    #[error("script refused: {0}")]
    Refused(ScriptFault),
}

/// Why a script is refused. Calls are numbered from 1.
#[derive(Clone, Copy, Debug, PartialEq, Eq, Error)]
pub enum ScriptFault {
    /// It is longer than 4,194,304 bytes.
    #[error("Q1")]
    TooLong,
    /// It is not one JSON value.
    #[error("Q2")]
    NotJson,
    /// It is no object with a `platform` and a list of `calls`, and nothing else.
    #[error("Q3")]
    Misshapen,
    /// This call has a wrong kind, an unknown or missing key, or an unknown name of a call.
    #[error("Q3 at call {0}")]
    CallMisshapen(usize),
    /// This call has a bad name, is made on a name that no earlier call made, or makes one again.
    #[error("Q4 at call {0}")]
    BadName(usize),
    /// The platform is refused.
    #[error("Q5 {0}")]
    Platform(Fault),
    /// It has more than 4,096 calls.
    #[error("Q6")]
    TooManyCalls,
    /// This call is made by a 17th actor.
    #[error("Q6 at call {0}")]
    TooManyActors(usize),
    /// This call is made on a name on which another actor made one, in a script whose actors are
    /// threads.
    #[error("Q7 at call {0}")]
    SharedName(usize),
}

impl From<AllocError> for ParseFault {
    ghost from_gives = { λ _ e. e ≡ NoMemory };

    fn from(_e: AllocError) -> ParseFault {
        ParseFault::NoMemory
    }
}

impl<T: Drop> From<AllocFailed<T>> for ParseFault {
    ghost from_gives = { λ _ e. e ≡ NoMemory };

    fn from(_e: AllocFailed<T>) -> ParseFault {
        ParseFault::NoMemory
    }
}
