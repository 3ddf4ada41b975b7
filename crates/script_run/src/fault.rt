//! The faults that end a run.
ghost use Rattle.std.specs.Prelude.{◌≡◌};
ghost use Rattle.script_run.specs.Faults.{fault_of_parse, fault_of_read};
ghost use Rattle.script_run.specs.declared.fault.RunFault.TheVariants.{NoMemory, Write};

use byte_transfer::{ReadFault, WriteFault};
use script_reading::{ParseFault, ScriptFault};
use std::alloc::AllocError;
use thiserror::Error;

/// What the audit of a collection on threads found not to agree.
#[derive(Clone, Copy, Debug, PartialEq, Eq, Error)]
pub enum Disagreement {
    /// What is left of a node's handle is missing, doubled, or of no node.
    #[error("A1")]
    Handles,
    /// The calls of a path differ.
    #[error("A3")]
    Calls,
    /// A handle has another verdict than the collection.
    #[error("A4")]
    Verdicts,
}

/// Why a run ended before all was written.
#[derive(Clone, Copy, Debug, PartialEq, Eq, Error)]
pub enum RunFault {
    /// A reader gave an error.
    #[error("read fault")]
    Read,
    /// A writer gave an error, or took no byte.
    #[error("write fault")]
    Write,
    /// A growth was refused.
    #[error("no memory")]
    NoMemory,
    /// The script is refused.
    #[error("script refused: {0}")]
    Script(ScriptFault),
    /// The certificate is longer than 4,194,304 bytes, no JSON or no list.
    #[error("proof refused")]
    Proof,
    /// The handles that threads had don't agree with their collection.
    #[error("audit: {0}")]
    Audit(Disagreement),
}

impl From<ReadFault> for RunFault {
    ghost from_gives = { λ fault e. e ≡ fault_of_read fault };

    fn from(fault: ReadFault) -> RunFault {
        match fault {
            ReadFault::Failed => RunFault::Read,
            ReadFault::NoMemory => RunFault::NoMemory,
        }
    }
}

impl From<AllocError> for RunFault {
    ghost from_gives = { λ _ e. e ≡ NoMemory };

    fn from(_e: AllocError) -> RunFault {
        RunFault::NoMemory
    }
}

impl From<WriteFault> for RunFault {
    ghost from_gives = { λ _ e. e ≡ Write };

    fn from(_fault: WriteFault) -> RunFault {
        RunFault::Write
    }
}

impl From<ParseFault> for RunFault {
    ghost from_gives = { λ fault e. e ≡ fault_of_parse fault };

    fn from(fault: ParseFault) -> RunFault {
        match fault {
            ParseFault::NoMemory => RunFault::NoMemory,
            ParseFault::Refused(refused) => RunFault::Script(refused),
        }
    }
}
