//! Why there are no settings for a list.

ghost use Rattle.std.specs.Prelude.{◌≡◌};

use crate::parts::Amiss;
use std::alloc::AllocError;
use sysmem_counts::Field;
use sysmem_formats::Offer;
use sysmem_merge::{Reason, Settings};

/// Where a list has no settings any more.
#[derive(Clone, Copy, Debug)]
pub struct ListStop {
    /// The first participant with whom there are none, as an index; where nobody is in the way
    /// alone, how many there are.
    pub who: usize,
    /// Whether all of them could share settings, but that nobody names a part of the image.
    pub whole: bool,
    /// Why there are none.
    pub reason: Reason,
    /// The best settings for those before.
    pub shared: Option<Settings>,
}

/// Why a list has no settings: where it stops, and the field of that participant.
#[derive(Clone, Copy, Debug)]
pub struct Refusal {
    pub stop: ListStop,
    /// Why that participant can't be met even by itself, if it can't.
    pub lone: Option<Reason>,
    /// The offer of which the field is told, or, of another reason, which those before could share.
    pub offer: Option<Offer>,
    pub field: Field,
}

/// Why there are no settings.
#[derive(Clone, Copy, Debug, Drop)]
pub enum Unsettled {
    NoMemory,
    /// More than 1,024 participants.
    TooMany,
    /// The platform's structs state none: the field, and of a list the item.
    Platform(Amiss),
    /// The structs of the participant of this index state none: the field, and the entry.
    Participant(usize, Amiss),
    /// No settings meet all of them.
    Unmet(Refusal),
}

impl From<AllocError> for Unsettled {
    ghost use Rattle.flat_negotiation.specs.declared.unsettled.Unsettled.TheVariants.{NoMemory};

    ghost from_gives = { λ _ unsettled. unsettled ≡ NoMemory };

    fn from(_: AllocError) -> Unsettled {
        Unsettled::NoMemory
    }
}
