//! The number of buffers that participants ask for together, and the names of fields and usages.
//!
//! ```
//! let mut bounds = CountBounds::new();
//! bounds.add(&CountConstraints { min_buffer_count_for_camping: 2, ..CountConstraints::ABSENT });
//! assert_eq!(bounds.least_count(), Ok(2));
//! ```
#![tactic(auto)]

mod bounds;
mod constraints;
mod field;
pub mod laws;
mod usage;

pub use bounds::{BUFFER_COUNT_LIMIT, CountBounds};
pub use constraints::CountConstraints;
pub use field::{Field, Kind};
pub use usage::Usage;
