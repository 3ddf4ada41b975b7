//! How a command line that asks for no job ends the program.
ghost use Rattle.std.specs.Prelude.{◌≡◌};
ghost use Rattle.sysmem_replay.specs.Refusal.{refusal_code, refusal_said};

use clap::error::ErrorKind;
use script_run::{Ending, RunFault, ending_of};

/// The ending of a command line that asks for no job: 0 for help, 4 for want of memory, and else 2.
/// Where it has no fault, the parser's own text is what the user is told.
pub(crate) fn refusal_ending(kind: ErrorKind) -> Ending
    ensures status { result.status ≡ refusal_code kind }
    ensures fault { result.fault ≡ refusal_said kind }
{
    match kind {
        ErrorKind::DisplayHelp | ErrorKind::DisplayVersion => Ending {
            status: 0,
            fault: None,
        },
        ErrorKind::OutOfMemory => ending_of(Err(RunFault::NoMemory)),
        _ => Ending {
            status: 2,
            fault: None,
        },
    }
}
