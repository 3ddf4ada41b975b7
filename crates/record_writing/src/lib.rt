//! Writes what a participant asks, and what a platform has, as records of JSON: without the fields
//! whose values are what an absent field stands for. What is written is read as the same.
//!
//! ```
//! let record = write_constraints(rt.alloc(), &camera)?;
//! println!(rt; "{}", record.to_string(rt.alloc())?)?;
//! ```
#![tactic(auto)]

mod bounds;
mod constraints;
mod counts;
mod entry;
mod fields;
mod formats;
mod heaps;
mod listed;
mod memory;
mod names;
mod platform;

pub use constraints::{copy_constraints, write_constraints};
pub use platform::write_platform;
