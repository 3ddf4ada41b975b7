//! Names and layout of image formats: which bytes an image of a
//! format, a modifier and a size takes.
//!
//! ```
//! let pair = Pair { format: PixelFormat::NV12, modifier: Modifier::Linear };
//! let offer = Offer::Image(pair, ColourSpace::Rec709);
//! let row = row_bytes(&offer, 1920); // 1920
//! let bytes = image_bytes(&offer, 1920, 1088); // 3133440
//! ```
#![tactic(auto)]

mod colour_space;
pub mod laws;
mod layout;
mod modifier;
mod offer;
mod order;
mod pixel_format;

pub use colour_space::ColourSpace;
pub use layout::{
    bytes_per_pixel, image_bytes, is_tiled_misfit, own_alignment, own_row_divisor, row_bytes,
    tiled_rows, wide_image_bytes, wide_row_bytes,
};
pub use modifier::{MODIFIERS, Modifier};
pub use offer::{Offer, Pair};
pub use order::offer_at;
pub use pixel_format::{FORMATS, PixelFormat, Sampling};
