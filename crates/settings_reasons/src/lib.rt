//! Why participants got the settings that they got, or none: which places and offers of a platform
//! they refuse and by which field, where each value comes from, who alone is in the way, and in
//! which fields given settings fail one.
//!
//! ```
//! let mut items = Items::new(rt.alloc());
//! add_settings(&mut items, &platform, &participants, &settings)?;
//! add_conflict(&mut items, 1, &platform, &participants, true)?;
//! ```
#![tactic(auto)]

mod amounts;
mod asking_less;
mod chosen;
mod clash;
mod contradicting;
mod count_reason;
mod empty;
mod fixed;
mod lacking;
mod later;
mod later_places;
mod limiting;
mod listed;
mod misfit;
mod offer_reason;
mod offer_words;
mod offering;
mod place_reason;
mod placing;
mod refusing;
mod rows;
mod unmet;
mod unused;

pub use chosen::add_settings;
pub use empty::{add_conflict, in_the_way, is_unmet};
pub use fixed::{failing, list_misfits};
pub use listed::{is_taken, listed_before};
pub use unused::{holder_of, unused_entries};
