//! The faults that end a transfer.
ghost use Rattle.std.specs.Prelude.{◌≡◌};
ghost use Rattle.byte_transfer.specs.declared.fault.ReadFault.TheVariants.{NoMemory};

use std::alloc::AllocError;
use thiserror::Error;

/// Why not all bytes were read.
#[derive(Clone, Copy, Debug, PartialEq, Eq, Error)]
pub enum ReadFault {
    /// The reader gave an error.
    #[error("read fault")]
    Failed,
    /// A growth was refused.
    #[error("no memory")]
    NoMemory,
}

/// The writer gave an error, or took no byte.
#[derive(Clone, Copy, Debug, PartialEq, Eq, Error)]
#[error("write fault")]
pub struct WriteFault;

impl From<AllocError> for ReadFault {
    ghost from_gives = { λ _ e. e ≡ NoMemory };

    fn from(_e: AllocError) -> ReadFault {
        ReadFault::NoMemory
    }
}
