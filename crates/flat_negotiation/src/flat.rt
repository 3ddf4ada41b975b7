//! What a C program is told.

use crate::parts::FlatLayout;

/// An image: its DRM codes, the bit of its colour space, its sides in pixels, and where it lies.
/// All of it is 0 where there is no image.
#[repr(C)]
#[derive(Clone, Copy, Debug)]
pub struct FlatImage {
    pub modifier: u64,
    pub format: u32,
    pub colour: u32,
    pub width: u32,
    pub height: u32,
    pub layout: FlatLayout,
}

/// The settings of a list.
#[repr(C)]
#[derive(Clone, Copy, Debug)]
pub struct FlatSettings {
    pub struct_size: usize,
    /// The size of each buffer.
    pub bytes: u64,
    /// The heap, as an index.
    pub heap: usize,
    /// How many buffers.
    pub count: u32,
    /// 1 for cpu, 2 for ram, 4 for inaccessible.
    pub coherency: u32,
    /// The smallest image that everybody allows.
    pub image: FlatImage,
}

/// Why a list has no settings.
#[repr(C)]
#[derive(Clone, Copy, Debug)]
pub struct FlatRefusal {
    pub struct_size: usize,
    /// The participant, as an index, or the greatest number where it is none.
    pub who: usize,
    /// Of a list in a struct that is amiss, the item.
    pub index: usize,
    /// The place that those before could share, and the next three the offer of which is told.
    pub heap: usize,
    pub modifier: u64,
    pub format: u32,
    pub colour: u32,
    pub coherency: u32,
    pub kind: u32,
    /// A field's number, or 0.
    pub field: u32,
    /// 1 where the participant can't be met even by itself, and else 0.
    pub alone: u32,
}
