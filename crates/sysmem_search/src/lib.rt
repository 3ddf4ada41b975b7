//! The decision of a domain: the first selection of children that any settings can meet; and what
//! proves it, where that is asked for.
//!
//! ```
//! let found = search(rt.alloc(), &platform, &tree, domain, None, &NoGate)?;
//! let proof = prove(rt.alloc(), &platform, &tree, domain, None, &found.verdict)?;
//! ```
#![tactic(auto)]

mod deciding;
mod gate;
mod proving;
mod refuting;
mod searching;
mod wide;

pub use deciding::{SearchResult, search};
pub use gate::{Gate, NoGate};
pub use proving::prove;
pub use wide::{MOST_WORKERS, search_wide};
