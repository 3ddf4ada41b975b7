//! Writes scripts: a platform, and calls, each in a line of its own. What is written is read as that
//! platform and those calls.
//!
//! ```
//! let mut script = ScriptWriter::new(rt.alloc(), &platform)?;
//! script.put(Act::Duplicate("camera"), "root", None)?;
//! script.put(Act::Bind, "camera", Some("camera"))?;
//! let text = script.finish()?;
//! ```
#![tactic(auto)]

mod call;
pub mod laws;
mod writer;

pub use writer::ScriptWriter;
