//! What a decision reached.

ghost use Rattle.std.specs.Prelude.{◌≡◌};
ghost use Rattle.constraint_edits.specs.Reached.{shown_corner};

use sysmem_formats::Offer;
use sysmem_image::Corner;

/// The sides and the row where there is no image.
const NO_IMAGE: Corner = Corner {
    width: 0,
    height: 0,
    bytes_per_row: 0,
    bytes: 0,
};

/// How many buffers were decided, how large each is, and the smallest image that they admit: sides
/// and row are 0 where they hold none.
#[derive(Clone, Copy)]
pub struct Reached {
    pub count: u32,
    pub size_bytes: u64,
    pub corner: Corner,
}

impl Reached {
    /// Nothing was decided.
    pub const NOTHING: Reached = Reached {
        count: 0,
        size_bytes: 0,
        corner: NO_IMAGE,
    };

    /// So many buffers of this size for an offer, of whose images this is the smallest.
    pub fn of(count: u32, size_bytes: u64, offer: Offer, smallest: Corner) -> Reached
        ensures { result ≡ record {
          count = count;
          size_bytes = size_bytes;
          corner = shown_corner offer smallest;
        } }
    {
        let corner = match offer {
            Offer::Image(_, _) => smallest,
            Offer::NoImage => NO_IMAGE,
        };
        Reached {
            count,
            size_bytes,
            corner,
        }
    }
}
