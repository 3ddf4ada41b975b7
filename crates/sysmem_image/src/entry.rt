//! The entries of a participant.

ghost use Rattle.std.specs.Prelude.{◌≤◌};
ghost use Rattle.sysmem_image.specs.Size.{most_multiple};

use crate::bounds::ImageBounds;
use crate::colours::ColourSet;
use sysmem_formats::{Modifier, PixelFormat};

/// One of the image formats that a participant accepts, and its bounds on such images.
///
/// A format or modifier of `None` is `DO_NOT_CARE`, which matches all.
#[derive(Clone, Copy, Debug, PartialEq, Eq)]
pub struct Entry {
    pub format: Option<PixelFormat>,
    pub modifier: Option<Modifier>,
    pub colours: ColourSet,
    pub bounds: EntryBounds,
}

/// What an entry asks of images: its own bounds, and whether a row must end at a whole pixel, so
/// that its bytes are a multiple of a pixel's too. Its row divisor is at most 65,536.
#[derive(Clone, Copy, Debug, PartialEq, Eq)]
pub struct EntryBounds {
    pub asked: ImageBounds,
    pub at_pixel_boundary: bool,
    pub ghost small_divisor: { asked.bytes_per_row_divisor ≤ most_multiple },
}
