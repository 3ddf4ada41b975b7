//! What would become of a script's domains otherwise: with calls moved that stand too early or too
//! late, made on the nodes that they may mean, or made that are missing, with a release in the place
//! of a close, without the constraints of who uses no buffer, without those who are awaited, with a
//! later child in the place of the chosen one, with another group made first, and on a platform that
//! has a pair more, a pair first, or a heap that is contiguous or secure.
//!
//! ```
//! let moved = list_moved(&mut items, &value, &story)?;
//! print!(rt; "{}", text_of(rt.alloc(), &items.into_list()?)?)?;
//! ```
#![tactic(auto)]

mod added;
mod children;
mod closed;
mod ended_earlier;
mod ended_later;
mod groups;
mod heaps;
mod later_pairs;
mod meant;
mod moved;
mod onlookers;
mod otherwise;
mod pending;
mod platforms;
mod unchosen;

pub use added::list_added;
pub use children::add_later_children;
pub use closed::add_released;
pub use ended_earlier::add_ended_earlier;
pub use ended_later::add_ended_later;
pub use groups::add_groups_exchanged;
pub use heaps::add_heaps;
pub use later_pairs::add_taken_pairs;
pub use meant::list_meant;
pub use moved::{add_then, list_moved};
pub use onlookers::add_onlooker;
pub use otherwise::{Otherwise, reordered, with_calls};
pub use pending::add_without;
pub use platforms::add_platform;
