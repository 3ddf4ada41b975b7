//! Who takes no more of a number that was chosen than so much.

use explanation_text::{ListBuilder, TextBuilder};
use std::alloc::{AllocError, Global};
use std::slice::from_ref;
use sysmem_counts::Field;
use value_sources::{NamedParticipant, Side, Wish, Wishes, put_has};

/// A number that participants may limit.
#[derive(Clone, Copy)]
pub(crate) enum Limit {
    Count,
    Side(Side),
    Pixels,
    Row,
    Size,
}

impl Limit {
    fn field(self) -> Field {
        match self {
            Limit::Count => Field::MaxBufferCount,
            Limit::Side(_) => Field::MaxSize,
            Limit::Pixels => Field::MaxWidthTimesHeight,
            Limit::Row => Field::MaxBytesPerRow,
            Limit::Size => Field::MaxSizeBytes,
        }
    }

    /// How much the only one of these takes at most; the greatest number where it doesn't say.
    fn of(self, alone: Wishes<'_, '_>) -> u64 {
        let most = match self {
            Limit::Count => return most_buffers(alone.participants),
            Limit::Side(side) => alone.least(Wish::Most(side)),
            Limit::Pixels => alone.least(Wish::MostPixels),
            Limit::Row => alone.least(Wish::MostRow),
            Limit::Size => alone.greatest_size(),
        };
        match most {
            Some((_, most)) => most,
            None => u64::MAX,
        }
    }
}

/// How many buffers the first of participants takes at most.
fn most_buffers(participants: &[NamedParticipant<'_>]) -> u64 {
    match participants.first() {
        Some(one) => u64::from(one.asked.counts().max_buffer_count),
        None => u64::MAX,
    }
}

/// The least that anybody takes at most, and all who do.
#[derive(Drop)]
struct Limiting<'a> {
    most: u64,
    those: Vec<NamedParticipant<'a>>,
}

/// Who limits a number, where somebody limits it to less than the greatest of 32 bits.
fn limits<'a>(
    alloc: Global,
    wishes: Wishes<'a, '_>,
    limit: Limit,
) -> Result<Option<Limiting<'a>>, AllocError> {
    let mut most = u64::from(u32::MAX);
    let mut those = ListBuilder::new(alloc);
    for participant in wishes.participants {
        let own = limit.of(Wishes {
            participants: from_ref(participant),
            offer: wishes.offer,
        });
        if own < most {
            most = own;
            those = ListBuilder::new(alloc);
        }
        if own == most {
            those.add(*participant);
        }
    }
    if most == u64::from(u32::MAX) {
        return Ok(None);
    }
    let those = those.done()?;
    Ok(Some(Limiting { most, those }))
}

/// Puts who limits a number after a text, with how much they take at most, if anybody does.
pub(crate) fn put_limit(text: &mut TextBuilder, wishes: Wishes<'_, '_>, limit: Limit) {
    match limits(text.alloc(), wishes, limit) {
        Ok(Some(limited)) => {
            put_those(text, &limited, "");
            text.put_number(limited.most);
            put_field(text, limit);
        }
        Ok(None) => {}
        Err(AllocError) => text.refuse(),
    }
}

/// Puts who limits width and height after a text: at once where these are the same.
pub(crate) fn put_side_limits(text: &mut TextBuilder, wishes: Wishes<'_, '_>) {
    match add_side_limits(text, wishes) {
        Ok(()) => {}
        Err(AllocError) => text.refuse(),
    }
}

fn add_side_limits(text: &mut TextBuilder, wishes: Wishes<'_, '_>) -> Result<(), AllocError> {
    let alloc = text.alloc();
    let width = limits(alloc, wishes, Limit::Side(Side::Width))?;
    let height = limits(alloc, wishes, Limit::Side(Side::Height))?;
    if let Some(wide) = &width
        && let Some(high) = &height
        && are_same(&wide.those, &high.those)
    {
        put_those(text, wide, "");
        text.put_number(wide.most).put("x").put_number(high.most);
        put_field(text, Limit::Side(Side::Width));
    } else {
        put_side(text, &width, Side::Width);
        put_side(text, &height, Side::Height);
    }
    Ok(())
}

/// Puts who limits one of the sides, if anybody does.
fn put_side(text: &mut TextBuilder, limited: &Option<Limiting<'_>>, side: Side) {
    if let Some(limited) = limited {
        put_those(text, limited, side.name());
        text.put_number(limited.most);
        put_field(text, Limit::Side(side));
    }
}

/// Puts who takes at most so much of what is named after a text.
fn put_those(text: &mut TextBuilder, limited: &Limiting<'_>, what: &str) {
    text.put("; ");
    put_has(text, &limited.those, "takes", "take");
    if !what.is_empty() {
        text.put(" a ").put(what).put(" of");
    }
    text.put(" at most ");
}

fn put_field(text: &mut TextBuilder, limit: Limit) {
    text.put(" (").field(limit.field()).put(")");
}

/// Whether two lists have the same participants, in the same order.
fn are_same(some: &[NamedParticipant<'_>], others: &[NamedParticipant<'_>]) -> bool {
    if some.len() != others.len() {
        return false;
    }
    for (one, other) in some.iter().zip(others) {
        if one.node != other.node {
            return false;
        }
    }
    true
}
