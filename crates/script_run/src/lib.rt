//! Runs a script of calls on a buffer collection, from its bytes to the report that is written.
//!
//! ```
//! let mut reader = Counted::new(file);
//! let mut writer = Counted::new(io::writer(&rt));
//! let ended = run(rt.alloc(), &mut reader, &mut writer)?;
//! ```
#![tactic(auto)]

mod certifying;
mod ending;
mod fault;
mod running;

pub use ending::{Ending, ending_of};
pub use fault::{Disagreement, RunFault};
pub use running::{
    CertifiedReport, RunOutcome, certified_of_bytes, report_of_bytes, run, run_leaving,
    run_with_proof, run_with_proof_leaving,
};
