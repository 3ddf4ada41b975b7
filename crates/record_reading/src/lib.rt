//! What the parts of a participant's record and the record of a platform state: exactly the
//! profile's, or the first fault.
//!
//! ```
//! let platform = read_platform(rt.alloc(), &value["platform"])?;
//! let usage = usage_of(&value["camera"]["usage"])?;
//! ```
#![tactic(auto)]

mod fault;
mod reading;

pub use fault::{Code, Fault, FaultPlace};
pub use reading::{
    ENTRY_FIELDS, HEAP_FIELDS, HEAP_NAME_FIELDS, MEMORY_FIELDS, PAIR_FIELDS, PLATFORM_FIELDS,
    count_or, entries_in, expect_object, memory_in, read_platform, stated, usage_of,
};
