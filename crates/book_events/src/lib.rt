//! The entries of a book's history, and the marks of the nodes that are open.
//!
//! ```
//! let mut history = Vec::with_capacity(rt.alloc(), 1)?;
//! enter_action(&mut history, tree.root(), ActionKind::Release);
//! let marks = open_nodes(&tree);
//! ```
#![tactic(auto)]

mod entry;
mod opening;

pub use entry::{Entry, enter_action};
pub use opening::{mark_for_first, open_nodes};
