//! Verdicts on the domains of a collection, what proves them, and whether it does.
//!
//! ```
//! let conflict = find_conflict(rt.alloc(), &platform, &tree, domain, None, &Prefix::new())?;
//! let answer = check(&platform, &tree, domain, None, &claim);
//! ```
#![tactic(auto)]

mod asked;
mod checking;
mod claims;
mod roll;
mod selecting;

pub use claims::check;
pub use conflict_finding::{
    Learnt, LinesBefore, Subject, find_conflict, find_conflict_as, lines_before,
};
pub use verdict_claims::{
    Base, Certificate, Chosen, Claim, Conflict, EarlierChoices, Item, Line, Lines, MOST_SELECTIONS,
    No, PathList, Paths, Proof, Refutation, Verdict, laws,
};
