//! Replays a script of calls on a buffer collection: its calls, its decisions, and their report.
//!
//! ```
//! let script = read_script(alloc, &value)?;
//! let replayed = replay(alloc, script.platform, &script.calls)?;
//! print!(rt; "{}", replayed.report.text)?;
//! ```
#![tactic(auto)]

mod decider;
mod deciding;
mod domain_line;
mod event;
mod failing;
mod line;
mod proving;
mod replayed;
mod reply;
mod report;
mod runner;
mod searching;
mod telling;

pub use decider::{Decider, Objection, Stop};
pub use deciding::{claim_for, proved_claim_for};
pub use domain_line::{put_chosen, put_path, put_word, text_of_path};
pub use event::{CallEvent, Decision, DomainEvent, DomainFate, Event, Events, put_fate};
pub use line::put_reply_text;
pub use proving::Proving;
pub use replayed::{ReplayedCalls, replay, replayed_of};
pub use reply::Reply;
pub use report::{Report, report_of};
pub use searching::Searching;
