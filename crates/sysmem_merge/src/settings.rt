//! What a decision gives: an offer, a place, a count, a size and bounds.

use sysmem_formats::Offer;
use sysmem_image::ImageBounds;
use sysmem_memory::Place;

/// Settings that participants can share.
#[derive(Clone, Copy, Debug, PartialEq, Eq)]
pub struct Settings {
    /// What the buffers hold.
    pub offer: Offer,
    /// The heap, by its index on the platform, and how the CPU sees it.
    pub place: Place,
    /// How many buffers there are; 1 to 128 in a decision.
    pub count: u32,
    /// The size of each buffer in bytes; at least 1 in a decision.
    pub size_bytes: u64,
    /// What images in the buffers have to keep to; without an image the bounds of no entry.
    pub bounds: ImageBounds,
}
