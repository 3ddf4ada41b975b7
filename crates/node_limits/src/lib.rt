//! How many nodes a host lets there be below each child of the root; and what a tree refuses an
//! action for, before it is made.
//!
//! ```
//! let limits = Limits { offspring: Some(8) };
//! ```
#![tactic(auto)]

pub mod laws;
mod limits;
mod tree_refusing;

pub use limits::{Limits, Offspring};
pub use tree_refusing::{state_refusal, tree_refusal};
