//! Why a script isn't played to its end.

ghost use Rattle.std.specs.Prelude.{◌≡◌};
ghost use Rattle.script_threads.specs.Run.{fault_of_audit, fault_of_play};

use script_reading::ParseFault;
use script_run::{Disagreement, RunFault};
use sysmem_participants::AuditFault;

/// Why a script isn't played to its end.
#[derive(Clone, Copy)]
pub(crate) enum PlayFault {
    /// It can't be read.
    Parse(ParseFault),
    /// Its collection's audit says no, or memory is refused.
    Audit(AuditFault),
}

/// The fault of a run whose audit answers this.
fn fault_of_audit(fault: AuditFault) -> RunFault
    ensures { result ≡ fault_of_audit fault }
{
    match fault {
        AuditFault::Stubs => RunFault::Audit(Disagreement::Handles),
        AuditFault::Calls => RunFault::Audit(Disagreement::Calls),
        AuditFault::Verdicts => RunFault::Audit(Disagreement::Verdicts),
        AuditFault::NoMemory => RunFault::NoMemory,
    }
}

impl From<PlayFault> for RunFault {
    ghost from_gives = { λ fault e. e ≡ fault_of_play fault };

    fn from(fault: PlayFault) -> RunFault {
        match fault {
            PlayFault::Parse(fault) => RunFault::from(fault),
            PlayFault::Audit(fault) => fault_of_audit(fault),
        }
    }
}
