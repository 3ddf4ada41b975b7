//! A script's report for programs: an object of JSON for each line, and one that ends them.
//!
//! ```
//! let mut reader = Counted::new(file);
//! let mut writer = Counted::new(io::writer(&rt));
//! let ended = run_as_json(rt.alloc(), &mut reader, &mut writer)?;
//! ```
#![tactic(auto)]

mod call_object;
mod domain_object;
mod image_object;
mod names;
mod put;
mod reasons;
mod running;
mod telling;

pub use domain_object::{Choice, Root, chosen_object, word_object};
pub use running::{run_as_json, run_as_json_with_proof};
