//! What a search asks of a domain at each prefix of choices, and what it keeps to answer that.
//! Which prefixes a search with cuts goes through is defined here too.
//!
//! ```
//! let subject = Subject::new(rt.alloc(), &platform, &tree, domain, None);
//! let mut question = Question::new(&subject)?;
//! question.enter(0)?;
//! let may_go_on = question.is_met();
//! question.leave();
//! ```
#![tactic(auto)]

mod asking;
mod kept;
mod levels;
mod on_base;
mod question;
mod settling;

pub use question::Question;
