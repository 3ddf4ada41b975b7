//! What participants and platforms are: what each may state, what is amiss where it can't, and
//! when two of them are equal. No record is read here.
//!
//! ```
//! let platform = Platform::of(heaps, pairs, colours)?;
//! let camera = Constraints::of(usage, counts, memory, entries)?;
//! ```
#![tactic(auto)]

mod amiss;
mod asked;
mod constraints;
mod copying;
mod distinct;
mod equal;
mod heaps;
pub mod laws;
mod pairs;
mod platform;
mod usage;

pub use asked::{AskedPair, asks_misfit, is_asked_already, is_same_asked, pair_asked};
pub use constraints::{Constraints, MOST_ENTRIES, MOST_MULTIPLE};
pub use heaps::{LONGEST_HEAP_TYPE, has_domains, has_heap, has_permitted, is_heap_type};
pub use pairs::{has_pair, is_tiled_misfit, lists_colour};
pub use platform::Platform;
pub use usage::is_usage;
