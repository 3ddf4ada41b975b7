//! What a participant's record states: exactly the profile's, or the first fault. The reader of
//! platforms' records is passed on.
//!
//! ```
//! let platform = read_platform(rt.alloc(), &value["platform"])?;
//! let camera = read_constraints(rt.alloc(), &value["camera"])?;
//! ```
#![tactic(auto)]

mod constraints;

pub use constraints::{CONSTRAINTS_FIELDS, read_constraints};
pub use negotiation_inputs::{Constraints, Platform, laws};
pub use record_reading::{Code, Fault, FaultPlace, read_platform};
