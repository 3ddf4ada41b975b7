//! A live collection that is made again from a book, as from one that threads share; so that its
//! script and its certificate can be written.
//!
//! ```
//! // of the root's token, before it is spent
//! let reader = root.reader()?;
//! // once the handles are spent, or while threads act; nothing is entered while it is read
//! let Some(mut collection) = replayed(alloc, reader.read(&rt).book())? else {
//!     return Err(Failure::ActedDuringDecision);
//! };
//! set_name_at(alloc, &mut collection, &[0], "camera")?;
//! let snapshot = Snapshot::of(alloc, &collection)?;
//! fs::write(&rt, "happened.json", script_of(alloc, &snapshot)?)
//! ```
#![tactic(auto)]

mod entering;
mod naming;
mod replaying;

pub use naming::set_name_at;
pub use replaying::replayed;
