//! How an explanation ends the program.
ghost use Rattle.std.specs.Prelude.{◌≡◌, None};
ghost use Rattle.explain.specs.PageEndings.{explained_code, explained_said};

use crate::explaining::Outcome;
use script_run::{Ending, RunFault, ending_of};

/// The ending of an explanation that was written, or of the fault that it ended with: 3 where the
/// script is refused, 4 where it isn't explained, and, where the status is to tell, 6 where a call
/// was refused or a domain isn't chosen. None of them is a fault that is told.
pub fn explained_ending(ended: Result<Outcome, RunFault>, is_strict: bool) -> Ending
    ensures status { result.status ≡ explained_code is_strict ended }
    ensures fault { result.fault ≡ explained_said ended }
{
    match ended {
        Ok(Outcome::Fine) => told(0),
        Ok(Outcome::Faulty) if is_strict => told(6),
        Ok(Outcome::Faulty) => told(0),
        Ok(Outcome::Refused) => told(3),
        Ok(Outcome::Untold) => told(4),
        Err(fault) => ending_of(Err(fault)),
    }
}

/// An ending with nothing more to tell.
fn told(status: u8) -> Ending
    ensures { result ≡ record { status = status; fault = None } }
{
    Ending {
        status,
        fault: None,
    }
}
