//! The constraints of a participant with one field changed, as JSON, with the change in words: the
//! field left out, exchanged with another, with a value more, or with one between or mistaken.
//!
//! ```
//! for edit in edits_on(rt.alloc(), heaps.len(), platform.pairs(), platform.colours())? {
//!     if let Some(change) = edited(rt.alloc(), &value, edit, heaps)? {
//!         println!(rt; "{}", change.words)?;
//!     }
//! }
//! ```
#![tactic(auto)]

mod amount;
mod applying;
mod change;
mod edits;
mod exchanging;
mod halving;
mod leaving;
mod locating;
mod objects;
mod permitting;
mod reached;
mod reading;
mod several;
mod slips;
mod stating;
mod taking;
mod using;

pub use amount::{Amount, amounts_in, edited_alone, edited_to};
pub use change::{Change, apply_all};
pub use edits::{Edit, EditedConstraints, changes, edited, edits_on};
pub use halving::{Halving, is_absurd};
pub use leaving::leave_out;
pub use reached::Reached;
pub use reading::{is_edited, read_asked};
pub use slips::{Slip, slips_of};
pub use taking::entries_without;
