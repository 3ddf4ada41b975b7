//! Why no settings meet participants.

use sysmem_counts::Field;

/// Why no settings meet participants: the first of these that is true, in this order.
#[derive(Clone, Copy, Debug, PartialEq, Eq)]
pub enum Reason {
    /// The counts can't be met: `max_buffer_count`, or `buffer_count_limit`.
    Count(Field),
    /// Each place of the platform is refused by some participant.
    NoPlace,
    /// Each offer of the platform fails.
    NoOffer,
}
