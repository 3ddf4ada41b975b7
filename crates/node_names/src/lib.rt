//! Names of the nodes of a collection.
//!
//! ```
//! let mut names = Names::new(alloc);
//! names.set(alloc, 3, "camera")?;
//! names.put(&mut text, 3)?;
//! ```
#![tactic(auto)]

mod name;
mod names;

pub use name::{LONGEST_NAME, is_name};
pub use names::{Names, Unnamed};
