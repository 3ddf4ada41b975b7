//! Which places of a platform a participant's memory constraints allow, and the
//! first place that all of them allow.
//!
//! ```
//! let mut bounds = MemoryBounds::new(&heaps);
//! bounds.add(&heaps, &memory, Usage::CPU);
//! let place = bounds.first_place(&heaps);
//! ```
#![tactic(auto)]

mod bounds;
mod constraints;
mod domain;
mod heap;
mod heap_set;
pub mod laws;
mod place;
mod refusal;

pub use bounds::{MOST_HEAPS, MemoryBounds};
pub use constraints::MemoryConstraints;
pub use domain::{CoherencyDomain, CoherencyDomains};
pub use heap::{Heap, HeapInfo};
pub use place::Place;
pub use refusal::{PLACE_FIELDS, refuses, refuses_in};
