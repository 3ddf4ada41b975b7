//! Checks the certificate of a script's decisions, from the bytes of both to the answer that is
//! written; and what is true of reports and certificates, whoever writes them.
//!
//! ```
//! let mut reader = Counted::new(script);
//! let mut proof = Counted::new(certificate);
//! let mut writer = Counted::new(io::writer(&rt));
//! let ended = check_file(rt.alloc(), &mut reader, &mut proof, &mut writer)?;
//! ```
#![tactic(auto)]

mod checked_file;
mod checking;
pub mod laws;

pub use checked_file::{CheckAnswer, CheckReply, check_file, check_of_bytes};
