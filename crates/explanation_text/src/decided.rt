//! What a report's line tells of a domain, beside its words.

use sysmem_formats::Offer;
use sysmem_image::Corner;
use sysmem_memory::Place;

/// What became of a domain.
pub enum Decided {
    Chosen(Choice),
    /// No settings were chosen: the report's word for it.
    Word(&'static str),
}

impl Drop for Decided {
    fn drop(self) {
        match self {
            Decided::Chosen(_) | Decided::Word(_) => {}
        }
    }
}

/// The settings that were chosen.
pub struct Choice {
    /// For each group in effect the number of the chosen child.
    pub selection: Vec<u8>,
    pub count: u32,
    pub size_bytes: u64,
    pub place: Place,
    pub offer: Offer,
    /// The smallest image that the settings admit.
    pub corner: Corner,
}

impl Drop for Choice {
    fn drop(self) {
        let Choice {
            selection: _,
            count: _,
            size_bytes: _,
            place: _,
            offer: _,
            corner: _,
        } = self;
    }
}
