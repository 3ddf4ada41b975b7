//! What buffers can hold.

use crate::colour_space::ColourSpace;
use crate::modifier::Modifier;
use crate::pixel_format::PixelFormat;

/// A pixel format and how its rows lie in memory.
#[derive(Clone, Copy, Debug, PartialEq, Eq)]
pub struct Pair {
    pub format: PixelFormat,
    pub modifier: Modifier,
}

/// What the buffers may hold: no image, or images of one format, modifier and colour space.
#[derive(Clone, Copy, Debug, PartialEq, Eq)]
pub enum Offer {
    NoImage,
    Image(Pair, ColourSpace),
}
