//! What the structs of a C program say: the parts of a platform and of participants, in the terms
//! of DRM, and the planes of an image.
//!
//! Where a number is 0, nothing is said of it.

mod colours;
mod entry;
mod flat;
mod heaps;
mod layout;
mod pairs;
mod stated;
mod unsaid;
mod wishes;

pub use colours::{colour_bit, colours_of};
pub use entry::entries_of;
pub use flat::{
    FlatEntry, FlatHeap, FlatLayout, FlatPair, FlatParticipant, FlatPlane, FlatPlatform, FlatSize,
};
pub use heaps::heaps_of;
pub use layout::{format_code, layout_in, layout_of, no_layout};
pub use pairs::pairs_of;
pub use unsaid::{Amiss, Unsaid};
pub use wishes::{counts_of, memory_of, usage_of};
