//! Reads scripts of calls on a buffer collection: the platform and the calls that the bytes spell,
//! or the first fault.
//!
//! ```
//! let value = parse_script(rt.alloc(), bytes)?;
//! let script = read_script(rt.alloc(), &value)?;
//! for call in &script.calls {
//!     println!(rt; "{}", call.on)?;
//! }
//! ```
#![tactic(auto)]

mod apart;
mod call;
mod calls;
mod fault;
mod form;
mod known;
pub mod laws;
mod names;
mod platform;
mod read_call;
mod script;
mod stated;
mod text;

pub use apart::read_calls_apart;
pub use call::{Act, CALLS, Call};
pub use calls::read_calls;
pub use fault::{ParseFault, ScriptFault};
pub use form::makes_name;
pub use read_call::{ReadCall, read_records, shared_calls};
pub use script::{Script, read_script, read_script_apart};
pub use stated::Stated;
pub use text::{LONGEST, parse_script};
