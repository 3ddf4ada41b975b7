//! A live collection as a script, and as the certificate of its decisions.
#![tactic(auto)]

mod calls;
mod certificate;
pub mod laws;
mod refusal;
mod script;

pub use calls::{certificate_on, script_on};
pub use certificate::certificate_of;
pub use refusal::refusal_on;
pub use script::{Unwritten, script_of};
