/// A width and a height in pixels, or what they are multiples of.
#[derive(Clone, Copy, Debug, PartialEq, Eq)]
pub struct Size {
    pub width: u32,
    pub height: u32,
}

/// The smallest image that bounds admit: its sides in pixels, its row and all of it in bytes.
#[derive(Clone, Copy, Debug, PartialEq, Eq)]
pub struct Corner {
    pub width: u32,
    pub height: u32,
    pub bytes_per_row: u32,
    pub bytes: u128,
}
