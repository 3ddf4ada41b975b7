//! How a run or a check ends a program: the exit status, and what is said on standard error.
ghost use Rattle.std.specs.Prelude.{◌≡◌, Err, Some};
ghost use Rattle.script_run.specs.Endings.{fault_said, run_code};

use crate::fault::RunFault;
use crate::running::RunOutcome;

/// An exit status, and the fault whose text goes to standard error.
#[derive(Clone, Copy, Debug, PartialEq, Eq)]
pub struct Ending {
    pub status: u8,
    pub fault: Option<RunFault>,
}

/// The ending of a run: 0 where it is done, 1 for a read or write fault, 3 for a script that is
/// refused, or a certificate that can't be read, 4 for want of memory, 5 where an audit says no,
/// and 6 for a certificate that is wrong.
pub fn ending_of(outcome: Result<RunOutcome, RunFault>) -> Ending
    ensures status { result.status ≡ run_code outcome }
    ensures fault { result.fault ≡ fault_said outcome }
{
    match outcome {
        Ok(RunOutcome::Done) => Ending {
            status: 0,
            fault: None,
        },
        Ok(RunOutcome::MemoryRefused) => fault_ending(RunFault::NoMemory),
        Ok(RunOutcome::CheckedNo) => Ending {
            status: 6,
            fault: None,
        },
        Err(fault) => fault_ending(fault),
    }
}

fn fault_ending(fault: RunFault) -> Ending
    ensures status { result.status ≡ run_code (Err fault) }
    ensures fault { result.fault ≡ Some fault }
{
    let status = match fault {
        RunFault::Read | RunFault::Write => 1,
        RunFault::Script(_) | RunFault::Proof => 3,
        RunFault::NoMemory => 4,
        RunFault::Audit(_) => 5,
    };
    Ending {
        status,
        fault: Some(fault),
    }
}
