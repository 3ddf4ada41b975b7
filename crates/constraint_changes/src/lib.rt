//! Changes of participants' constraints that make an empty decision one that chooses, each found by
//! trying it with a run of the changed script: of one participant's, or two participants'
//! exchanged; and several together, the fewest found, each as small as it can be.
//!
//! ```
//! let first = list_changes(&mut items, group, 0, &edits)?;
//! if first.is_empty() {
//!     let _together = add_together(&mut items, group, &edits)?;
//! }
//! print!(rt; "{}", text_of(rt.alloc(), &items.into_list()?)?)?;
//! ```
#![tactic(auto)]

mod asked_before;
mod beyond;
mod camping;
mod changes;
mod exchanges;
mod known;
mod lost;
mod parts;
mod preferred;
mod together;
mod told;
mod trials;
mod turned;
mod walk;

pub use changes::list_changes;
pub use preferred::{ToldChange, list_preferred};
pub use together::add_together;
pub use trials::{Group, RestatedConstraints, Trial, entry_place, line_at, put_choice, restated};
