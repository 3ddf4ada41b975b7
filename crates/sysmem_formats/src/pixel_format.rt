//! Pixel formats: their names, the bytes of their pixels, and where their colours lie.

ghost use Rattle.std.specs.Prelude.{◌≡◌, ◌↔◌, ◌<◌, ◌≤◌};
ghost use Rattle.sysmem_formats.specs.declared.pixel_format.TheConstants.{FORMATS};

/// How the pixels of an image are stored.
#[derive(Clone, Copy, Debug, PartialEq, Eq)]
pub enum PixelFormat {
    R8G8B8A8,
    B8G8R8A8,
    R8G8B8X8,
    B8G8R8X8,
    R8G8B8,
    B8G8R8,
    R5G6B5,
    R8G8,
    YUY2,
    R8,
    L8,
    I420,
    YV12,
    NV12,
    P010,
}

/// How many pixel formats there are.
pub const FORMATS: usize = 15;

/// Which pixels of a format share their colours, and where these lie.
#[derive(Clone, Copy, Debug, PartialEq, Eq)]
pub enum Sampling {
    /// Each pixel has its own.
    Full,
    /// Two pixels of a row share theirs, which lie between them.
    HalfRow,
    /// Two by two pixels share theirs, which lie in a plane after the first, in turn.
    TwoPlanes,
    /// Two by two pixels share theirs, which lie in two planes after the first.
    ThreePlanes,
}

impl PixelFormat {
    ghost use Rattle.sysmem_formats.specs.declared.pixel_format.PixelFormat.{PixelFormat};
    ghost use Rattle.sysmem_formats.specs.Formats.{format_name, format_code, pixel_bytes, sampling_of};

    /// Each pixel format, in the order of `index`.
    pub const ALL: [PixelFormat; FORMATS] = [
        PixelFormat::R8G8B8A8,
        PixelFormat::B8G8R8A8,
        PixelFormat::R8G8B8X8,
        PixelFormat::B8G8R8X8,
        PixelFormat::R8G8B8,
        PixelFormat::B8G8R8,
        PixelFormat::R5G6B5,
        PixelFormat::R8G8,
        PixelFormat::YUY2,
        PixelFormat::R8,
        PixelFormat::L8,
        PixelFormat::I420,
        PixelFormat::YV12,
        PixelFormat::NV12,
        PixelFormat::P010,
    ];

    /// The format's name in constraints, platforms and reports.
    pub fn name(self) -> &'static str
        ensures { result.now ≡ format_name self }
    {
        match self {
            PixelFormat::R8G8B8A8 => "R8G8B8A8",
            PixelFormat::B8G8R8A8 => "B8G8R8A8",
            PixelFormat::R8G8B8X8 => "R8G8B8X8",
            PixelFormat::B8G8R8X8 => "B8G8R8X8",
            PixelFormat::R8G8B8 => "R8G8B8",
            PixelFormat::B8G8R8 => "B8G8R8",
            PixelFormat::R5G6B5 => "R5G6B5",
            PixelFormat::R8G8 => "R8G8",
            PixelFormat::YUY2 => "YUY2",
            PixelFormat::R8 => "R8",
            PixelFormat::L8 => "L8",
            PixelFormat::I420 => "I420",
            PixelFormat::YV12 => "YV12",
            PixelFormat::NV12 => "NV12",
            PixelFormat::P010 => "P010",
        }
    }

    /// The format of this name, or `None` where no format has it. `DO_NOT_CARE` names no format.
    pub fn from_name(name: &str) -> Option<PixelFormat>
        ensures { (format : PixelFormat) → (result ≡ Some format)
            ↔ (name.now ≡ format_name format) }
    {
        PixelFormat::ALL
            .iter()
            .find(|one| one.name() == name)
            .copied()
    }

    /// The format's place in the list of all, from 0.
    pub fn index(self) -> usize
        ensures is { result ≡ format_code self }
        ensures below { result < FORMATS }
    {
        self as usize
    }

    /// Bytes of one pixel in a row, 1 to 4; for subsampled colour, of the first plane's row.
    pub fn pixel_bytes(self) -> u32
        ensures value { result ≡ pixel_bytes self }
        ensures some { 1 ≤ result }
        ensures small { result ≤ 4 }
    {
        match self {
            PixelFormat::R8G8B8A8
            | PixelFormat::B8G8R8A8
            | PixelFormat::R8G8B8X8
            | PixelFormat::B8G8R8X8 => 4,
            PixelFormat::R8G8B8 | PixelFormat::B8G8R8 => 3,
            PixelFormat::R5G6B5 | PixelFormat::R8G8 | PixelFormat::YUY2 | PixelFormat::P010 => 2,
            PixelFormat::R8
            | PixelFormat::L8
            | PixelFormat::I420
            | PixelFormat::YV12
            | PixelFormat::NV12 => 1,
        }
    }

    /// Which pixels of the format share their colours, and where these lie.
    pub fn sampling(self) -> Sampling
        ensures { result ≡ sampling_of self }
    {
        match self {
            PixelFormat::R8G8B8A8
            | PixelFormat::B8G8R8A8
            | PixelFormat::R8G8B8X8
            | PixelFormat::B8G8R8X8
            | PixelFormat::R8G8B8
            | PixelFormat::B8G8R8
            | PixelFormat::R5G6B5
            | PixelFormat::R8G8
            | PixelFormat::R8
            | PixelFormat::L8 => Sampling::Full,
            PixelFormat::YUY2 => Sampling::HalfRow,
            PixelFormat::NV12 | PixelFormat::P010 => Sampling::TwoPlanes,
            PixelFormat::I420 | PixelFormat::YV12 => Sampling::ThreePlanes,
        }
    }
}
