//! The book of a collection: its tree, the domains that wait for a decision, their verdicts, and
//! the history of all that was entered.
//!
//! ```
//! let mut book = Book::new(alloc, platform)?;
//! let node = book.tree().root();
//! let done = book.apply(Event { node, action: Action::Release })?;
//! if let Some(domain) = book.next_ready() {
//!     let base = book.base(domain)?;
//!     let found = search(alloc, book.platform(), book.tree(), domain, base.as_ref(), &NoGate)?;
//!     let claim = Claim { verdict: found.verdict, proof: Proof::Nothing };
//!     book.decide(domain, Some(Arc::new(alloc, claim)?));
//! }
//! ```
#![tactic(auto)]

mod bases;
mod book;
mod frozen;
pub mod laws;
mod ready;
mod terms;
mod verdicts;

pub use book::{AcceptedAction, Book};
pub use book_events::Entry;
pub use frozen::Frozen;
