//! The least size and bounds of one offer that participants can share.
//!
//! ```
//! let fit = fit_of_bounds(&bounds, &offer, least_size, greatest_size)?;
//! ```
#![tactic(auto)]

mod fit;

pub use fit::{Fit, fit_of_bounds};
