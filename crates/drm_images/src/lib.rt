//! Images as DRM sees them: the codes of formats and modifiers, and where planes lie in a buffer.
//!
//! ```
//! let pair = Pair { format: format_of(0x3231_564e)?, modifier: modifier_of(0)? }; // NV12, linear
//! let colours = plane_at(pair, 1472, 1088, 1); // offset 1601536, pitch 1472, 544 rows
//! ```
#![tactic(auto)]

mod code;
mod plane;

pub use code::{bits_of, code_of, format_of, letters_of, modifier_of};
pub use plane::{Plane, image_bytes, plane_at};
