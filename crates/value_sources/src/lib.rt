//! Where the least values come from that participants need together: how many buffers, how wide and
//! how high an image, how long a row, how many bytes. Each with the names and fields that make it
//! so, in words.
//!
//! ```
//! let wishes = Wishes { participants: &participants, offer };
//! let width = wishes.side(rt.alloc(), Side::Width)?;
//! println!(rt; "{}: {}", width.value, width.why)?;
//! ```
#![tactic(auto)]

mod counting;
mod least_count;
mod multiples;
mod no_multiple;
mod participant;
mod sizes;
mod wishes;

pub use counting::{MOST_COUNTED, count_text, held, is_count_line, needed, why_held};
pub use least_count::LeastCount;
pub use participant::{NamedParticipant, put_has, put_participants};
pub use sizes::DerivedNumber;
pub use wishes::{Side, Wish, Wishes};
