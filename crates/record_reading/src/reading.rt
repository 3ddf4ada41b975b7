//! Reads the parts of a participant's record, and the record of a platform.

mod asked;
mod bounds;
mod colour_set;
mod entry;
mod field;
mod heap;
mod heap_info;
mod list;
mod memory;
mod name;
mod pair;
mod platform;
mod size;
mod usage;

pub use entry::{ENTRY_FIELDS, entries_in};
pub use field::{count_or, expect_object, stated};
pub use heap::HEAP_NAME_FIELDS;
pub use heap_info::HEAP_FIELDS;
pub use memory::{MEMORY_FIELDS, memory_in};
pub use pair::PAIR_FIELDS;
pub use platform::{PLATFORM_FIELDS, read_platform};
pub use usage::usage_of;
