//! The story of a script's calls, told from their replay, call by call and node by node: what they
//! did, why some were refused, and what other calls on the script's platform do.
//!
//! ```
//! let told = scenario.tell(rt.alloc(), &script.calls)?;
//! let story = story_of(rt.alloc(), &value, &script.calls, &told)?;
//! println!(rt; "{} of {} calls were refused", refused_calls(&story), story.calls.len())?;
//! ```
#![tactic(auto)]

mod asked;
mod effort;
mod moves;
mod outcome;
mod refused;
mod scenario;
mod story;
mod telling;
mod unchosen;

pub use asked::{asked_by, asked_in};
pub use effort::Effort;
pub use moves::{Move, moves_in};
pub use outcome::Outcome;
pub use refused::{list_refused, put_domain, refused_calls};
pub use scenario::Scenario;
pub use story::{Became, Domain, MadeCall, Milestone, Milestones, Node, Story};
pub use telling::story_of;
pub use unchosen::{LeftOut, left_out};
