//! What participants' entries ask of the images of an offer, and who asks for the most or the
//! least.

ghost use Rattle.std.specs.Prelude.{◌≡◌, ◌≤◌, ◌<◌, ◌^◌, All, IfSome, IfNone};
ghost use Rattle.value_sources.specs.Sources.{IsNumberOf, side_of, wish_of, wish_or};

use crate::participant::NamedParticipant;
use sysmem_formats::Offer;
use sysmem_image::{Entry, Size, entry_for};

/// A side of an image.
#[derive(Clone, Copy, PartialEq, Eq)]
pub enum Side {
    Width,
    Height,
}

impl Side {
    /// The side of a size.
    pub fn of(self, size: Size) -> u32
        ensures { result ≡ side_of self size }
    {
        match self {
            Side::Width => size.width,
            Side::Height => size.height,
        }
    }

    /// Its name in words.
    pub fn name(self) -> &'static str {
        match self {
            Side::Width => "width",
            Side::Height => "height",
        }
    }
}

/// A number that an entry asks for.
#[derive(Clone, Copy)]
pub enum Wish {
    /// A side of `min_size`.
    Least(Side),
    /// A side of `max_size`.
    Most(Side),
    /// A side of `required_min_size`.
    RequiredLeast(Side),
    /// A side of `required_max_size`.
    RequiredMost(Side),
    /// A side of `size_alignment`.
    Alignment(Side),
    /// `min_bytes_per_row`.
    LeastRow,
    /// `max_bytes_per_row`.
    MostRow,
    /// `bytes_per_row_divisor`.
    RowDivisor,
    /// The bytes of a pixel, where rows are to end at a whole one; else 1.
    WholePixels(u32),
    /// `max_width_times_height`.
    MostPixels,
}

impl Wish {
    /// The number of an entry.
    pub(crate) fn of(self, entry: &Entry) -> u64
        ensures { result ≡ wish_of self entry.now }
    {
        let asked = &entry.bounds.asked;
        match self {
            Wish::Least(side) => u64::from(side.of(asked.min_size)),
            Wish::Most(side) => u64::from(side.of(asked.max_size)),
            Wish::RequiredLeast(side) => u64::from(side.of(asked.required_min_size)),
            Wish::RequiredMost(side) => u64::from(side.of(asked.required_max_size)),
            Wish::Alignment(side) => u64::from(side.of(asked.size_alignment)),
            Wish::LeastRow => u64::from(asked.min_bytes_per_row),
            Wish::MostRow => u64::from(asked.max_bytes_per_row),
            Wish::RowDivisor => u64::from(asked.bytes_per_row_divisor),
            Wish::WholePixels(bytes) if entry.bounds.at_pixel_boundary => u64::from(bytes),
            Wish::WholePixels(_) => 1,
            Wish::MostPixels => asked.max_width_times_height,
        }
    }
}

/// Participants, with an offer.
#[derive(Clone, Copy)]
pub struct Wishes<'a, 'b> {
    pub participants: &'b [NamedParticipant<'a>],
    pub offer: Offer,
}

/// What a participant's entry for an offer asks for; this number where it has none.
fn asked_or(participant: &NamedParticipant<'_>, offer: &Offer, wish: Wish, absent: u64) -> u64
    ensures { result ≡ wish_or absent offer.now wish participant.now }
{
    match entry_for(participant.asked.entries(), offer) {
        Some(entry) => wish.of(entry),
        None => absent,
    }
}

impl<'a> Wishes<'a, '_> {
    /// The first who asks for the greatest of some numbers, with that, if anybody asks for more
    /// than 0.
    pub fn greatest(&self, wish: Wish) -> Option<(NamedParticipant<'a>, u64)>
        ensures from { IfSome result (λ r.
            IsNumberOf (wish_or 0 self.now.offer wish) self.now.participants.now r.0.name.now r.1) }
        ensures most { IfSome result (λ r.
            All (λ one. wish_or 0 self.now.offer wish one ≤ r.1) self.now.participants.now) }
        ensures some { IfSome result (λ r. 0 < r.1) }
        ensures none { IfNone result
            (All (λ one. wish_or 0 self.now.offer wish one ≡ 0) self.now.participants.now) }
    {
        let offer = self.offer;
        let participants = self.participants;
        let participant = participants
            .iter()
            .rev()
            .max_by_key(|each| asked_or(each, &offer, wish, 0))?;
        let most = asked_or(participant, &offer, wish, 0);
        if most == 0 {
            return None;
        }
        Some((*participant, most))
    }

    /// The first who asks for the least of some numbers, with that, if anybody asks for less than
    /// the greatest of 64 bits.
    pub fn least(&self, wish: Wish) -> Option<(NamedParticipant<'a>, u64)>
        ensures from { IfSome result (λ r.
            IsNumberOf (wish_or u64.MAX self.now.offer wish)
            self.now.participants.now r.0.name.now r.1) }
        ensures least { IfSome result (λ r.
            All (λ one. r.1 ≤ wish_or u64.MAX self.now.offer wish one) self.now.participants.now) }
        ensures none { IfNone result
            (All (λ one. wish_or u64.MAX self.now.offer wish one ≡ u64.MAX)
            self.now.participants.now) }
    {
        let offer = self.offer;
        let participants = self.participants;
        let participant = participants
            .iter()
            .min_by_key(|each| asked_or(each, &offer, wish, u64::MAX))?;
        let least = asked_or(participant, &offer, wish, u64::MAX);
        if least == u64::MAX {
            return None;
        }
        Some((*participant, least))
    }

    /// The first who states the greatest least size of a buffer, in bytes, with that, if anybody
    /// states more than 1.
    pub(crate) fn least_size(&self) -> Option<(NamedParticipant<'a>, u64)>
        ensures from { IfSome result (λ r. IsNumberOf (λ one. one.asked.now.memory.min_size_bytes)
            self.now.participants.now r.0.name.now r.1) }
        ensures most { IfSome result (λ r.
            All (λ one. one.asked.now.memory.min_size_bytes ≤ r.1) self.now.participants.now) }
        ensures none { IfNone result
            (All (λ one. one.asked.now.memory.min_size_bytes ≤ 1) self.now.participants.now) }
    {
        let participants = self.participants;
        let participant = participants
            .iter()
            .rev()
            .max_by_key(|participant| participant.asked.memory().min_size_bytes)?;
        let most = participant.asked.memory().min_size_bytes;
        if most < 2 {
            return None;
        }
        Some((*participant, most))
    }

    /// The first who takes the fewest bytes of a buffer at most, with that, if anybody says so.
    pub fn greatest_size(&self) -> Option<(NamedParticipant<'a>, u64)>
        ensures from { IfSome result (λ r. IsNumberOf (λ one. one.asked.now.memory.max_size_bytes)
            self.now.participants.now r.0.name.now r.1) }
        ensures least { IfSome result (λ r.
            All (λ one. r.1 ≤ one.asked.now.memory.max_size_bytes) self.now.participants.now) }
    {
        let participants = self.participants;
        let participant = participants
            .iter()
            .min_by_key(|participant| participant.asked.memory().max_size_bytes)?;
        Some((*participant, participant.asked.memory().max_size_bytes))
    }
}
