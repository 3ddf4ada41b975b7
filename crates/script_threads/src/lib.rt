//! Plays a script of calls on a buffer collection with one thread an actor, from its bytes to what
//! is told of it: what became of each domain, and what an audit counts.
//!
//! ```
//! let mut reader = Counted::new(file);
//! let mut writer = Counted::new(io::writer(&rt));
//! let ended = run_threads(&rt, rt.alloc(), &mut reader, &mut writer)?;
//! ```
#![tactic(auto)]

mod activity;
mod actor;
mod called;
mod domains;
mod fault;
mod handle;
mod place;
mod planning;
mod playing;
mod running;
mod stage;
mod start;

pub use running::run_threads;
