//! Why no settings meet what is settled, and who refuses what comes before a choice.
//!
//! ```
//! let conflict = find_conflict(rt.alloc(), &platform, &tree, domain, None, &Prefix::new())?;
//! ```
#![tactic(auto)]

mod alone_lines;
mod askers;
mod count_lines;
mod finder;
mod first_refusing;
mod learnt;
mod offer_asked;
mod offers_asked;
mod participants;
mod places_asked;
mod refusals;
mod settled_row;
mod subject;
mod whom;

pub use finder::{LinesBefore, find_conflict, find_conflict_as, lines_before};
pub use learnt::Learnt;
pub use subject::Subject;
