//! The structs.

/// A width and a height in pixels, or what they are multiples of.
#[repr(C)]
#[derive(Clone, Copy, Debug)]
pub struct FlatSize {
    pub width: u32,
    pub height: u32,
}

/// A heap of a platform, which is named by its index.
#[repr(C)]
#[derive(Clone, Copy, Debug)]
pub struct FlatHeap {
    pub contiguous: bool,
    pub secure: bool,
    pub cpu: bool,
    pub ram: bool,
    pub inaccessible: bool,
}

/// A format and a modifier of a platform: a `DRM_FORMAT_*` and a `DRM_FORMAT_MOD_*`.
#[repr(C)]
#[derive(Clone, Copy, Debug)]
pub struct FlatPair {
    pub modifier: u64,
    pub format: u32,
    pub reserved: u32,
}

/// A platform; each list in its order.
#[repr(C)]
#[derive(Clone, Copy, Debug)]
pub struct FlatPlatform<'a> {
    pub struct_size: usize,
    pub heaps: &'a [FlatHeap],
    pub pairs: &'a [FlatPair],
    /// Colour spaces, each the bit that it has in an entry's set.
    pub colours: &'a [u32],
}

/// An image format that a participant takes, and its bounds on such images.
#[repr(C)]
#[derive(Clone, Copy, Debug)]
pub struct FlatEntry {
    pub struct_size: usize,
    /// Not read where `any_modifier` is true.
    pub modifier: u64,
    /// Not read where `any_format` is true.
    pub format: u32,
    /// A set of colour spaces: bit 0 to 7 are those of the profile in its order, bit 8 is
    /// `DO_NOT_CARE`.
    pub colours: u32,
    pub any_format: bool,
    pub any_modifier: bool,
    pub rows_end_at_pixels: bool,
    pub min_size: FlatSize,
    pub max_size: FlatSize,
    pub size_alignment: FlatSize,
    /// In bytes, as the next three.
    pub min_pitch: u32,
    pub max_pitch: u32,
    pub pitch_divisor: u32,
    pub offset_divisor: u32,
    pub display_rect_alignment: FlatSize,
    pub required_min_size: FlatSize,
    pub required_max_size: FlatSize,
    pub max_pixels: u64,
}

/// What a participant asks for. Without entries it takes every offer.
#[repr(C)]
#[derive(Clone, Copy, Debug)]
pub struct FlatParticipant<'a> {
    pub struct_size: usize,
    /// A set: bit 0 is `none`, which stands alone, bit 1 to 4 are cpu, vulkan, display and video.
    pub usage: u8,
    pub contiguous: bool,
    pub secure: bool,
    /// The three coherency domains; where none is true, `cpu` is meant.
    pub cpu: bool,
    pub ram: bool,
    pub inaccessible: bool,
    pub camping: u32,
    pub dedicated_slack: u32,
    pub shared_slack: u32,
    pub min_count: u32,
    pub max_count: u32,
    pub min_bytes: u64,
    pub max_bytes: u64,
    /// Bit i: heap i is permitted; 0 permits each heap.
    pub heaps: u64,
    pub entries: &'a [FlatEntry],
}

/// Where a plane begins in the image, its rows, and the bytes of a row; all 0 where there is no
/// such plane.
#[repr(C)]
#[derive(Clone, Copy, Debug)]
pub struct FlatPlane {
    pub offset: u64,
    pub rows: u64,
    pub pitch: u32,
    pub reserved: u32,
}

/// The bytes of an image, how many planes it has, and where they lie.
#[repr(C)]
#[derive(Clone, Copy, Debug)]
pub struct FlatLayout {
    pub bytes: u64,
    pub count: u32,
    pub reserved: u32,
    pub planes: [FlatPlane; 4],
}
