//! Verdicts on the domains of a collection and what is to prove them, and what is true of both.
//!
//! ```
//! let line = Line::new(rt.alloc(), Field::MinBufferCount, paths)?;
//! let refutation = Refutation::new(vec![in rt.alloc(); Item::Leaf(Conflict::Count(line))]?);
//! let claim = Claim { verdict: Verdict::IntersectionEmpty, proof: Proof::Empty(refutation) };
//! ```
#![tactic(auto)]

mod asked;
mod base;
mod certificate;
mod conflict;
pub mod laws;
mod line;
mod no;
mod pair_lines;
mod path_list;
mod refutation;
mod shared_path;
mod verdict;

pub use asked::{add_count, add_read};
pub use base::Base;
pub use certificate::{Certificate, Claim, EarlierChoices, Proof};
pub use conflict::Conflict;
pub use line::{Line, Lines, SharedPaths};
pub use no::No;
pub use pair_lines::{is_same_pair, is_shared};
pub use path_list::{PathList, Paths};
pub use refutation::{Item, Refutation};
pub use verdict::{Chosen, MOST_SELECTIONS, Verdict};
