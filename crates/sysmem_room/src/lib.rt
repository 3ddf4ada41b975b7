//! What lies under the lock of a collection that threads share: its book, the count of its actions,
//! and the cells in which the outcomes of its domains are published; and the logs by which handles
//! act on it. No call waits.
//!
//! ```
//! let opened = Room::<L>::open(alloc, blank, platform)?;
//! let (mut room, mut log) = (opened.room, opened.log);
//! let limits = Limits { offspring: None };
//! let (_done, turn) = room.act(&mut log, known, Action::Release, Action::Release, None, limits)?;
//! // whoever got a turn, until `frozen` finds no domain that waits
//! match room.frozen(turn) {
//!     Some((frozen, turn)) => {
//!         // a search and a proof, where nothing is locked
//!         room.conclude(&turn, frozen, claim, copy);
//!     }
//!     None => {}
//! }
//! ```
#![tactic(auto)]

mod account;
mod agreeing;
mod cell;
pub mod laws;
mod log;
mod outcome;
mod places;
mod refusing;
mod room;
mod seen;
mod verdicts;

pub use agreeing::has_actions;
pub use cell::FreshCell;
pub use log::{EnteredAction, FreshLog, Log, SpentLog};
pub use outcome::{Outcome, Ruling};
pub use refusing::{due, is_member};
pub use room::{OpenedRoom, Room, Turn};
pub use seen::SeenBook;
pub use verdicts::has_verdict;
