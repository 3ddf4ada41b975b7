//! A list of participants without groups, from the structs of a C program: the best settings for
//! all of them, or who is in the way; and the layout of an image.
#![tactic(auto)]

mod blaming;
mod flat;
mod negotiating;
mod parts;
mod refusal;
mod said;
mod settling;
mod taking;
mod unsettled;
mod written;

pub use flat::{FlatImage, FlatRefusal, FlatSettings};
pub use negotiating::{MOST_PARTICIPANTS, negotiate};
pub use parts::{
    Amiss, FlatEntry, FlatHeap, FlatLayout, FlatPair, FlatParticipant, FlatPlane, FlatPlatform,
    FlatSize, Unsaid, layout_of,
};
pub use refusal::refusal_of;
pub use said::{participant_of, platform_of};
pub use settling::settled;
pub use unsettled::{ListStop, Refusal, Unsettled};
pub use written::{domain_code, no_image, settings_of};
