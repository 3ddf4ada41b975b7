//! The best settings for a flat list of participants on a platform,
//! or the reason why none meet them.
//!
//! ```
//! let mut aggregate = Aggregate::new(rt.alloc(), &platform)?;
//! aggregate.add(&camera)?;
//! aggregate.add(&display)?;
//! let settings = aggregate.best_settings(true);
//! ```
#![tactic(auto)]

mod aggregate;
mod asked;
mod colours;
mod failing;
mod fit;
mod joined;
mod kept;
pub mod laws;
mod meets;
mod offer_read;
mod offers;
mod pair;
mod pair_walk;
mod pairs;
mod reason;
mod settings;
mod share;
mod sound;
mod sum;
mod tighter;
mod walk;

pub use aggregate::Aggregate;
pub use asked::Asked;
pub use failing::{fails_in, first_uncovered};
pub use meets::meets_one;
pub use offer_fits::Fit;
pub use offer_read::OfferRead;
pub use reason::Reason;
pub use settings::Settings;
pub use share::Share;
pub use sound::is_sound;
pub use sum::{MOST_ADDED, Sum};
