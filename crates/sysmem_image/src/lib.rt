//! Bounds on images, and the smallest image that they admit.
//!
//! ```
//! let mut bounds = ImageBounds::of(&offer);
//! for entry in entries {
//!     merge_into(&mut bounds, entry, &offer)?;
//! }
//! let corner = corner(&bounds, &offer)?;
//! ```
#![tactic(auto)]

mod bounds;
mod colours;
mod effective;
mod entry;
mod first_matches;
mod keeping;
pub mod laws;
mod matching;
mod merging;
mod multiples;
mod own;
mod read;
mod size;
mod smallest;
mod table;

pub use bounds::ImageBounds;
pub use colours::ColourSet;
pub use entry::{Entry, EntryBounds};
pub use first_matches::FirstMatches;
pub use keeping::{first_failing, keeps_field, suits};
pub use matching::{entry_for, takes_colour};
pub use merging::{merge_bounds, merge_into};
pub use multiples::lcm_capped;
pub use read::BoundsRead;
pub use size::{Corner, Size};
pub use smallest::corner;
