//! What is wanted in the place of what was decided.

use crate::trials::Group;
use constraint_edits::Edit;
use script_story::Outcome;
use sysmem_counts::Field;
use sysmem_formats::{ColourSpace, Offer, Pair};
use sysmem_memory::{HeapInfo, Place};

/// What is wanted in the place of what was decided.
#[derive(Clone, Copy)]
pub(crate) enum Goal {
    /// A child that comes before the chosen one.
    Child,
    /// The same in an attached domain, which has the initial one's image.
    LateChild,
    /// The same children, with this pair.
    Pair(Pair),
    /// The same children and pair, in this colour space.
    Colour(ColourSpace),
    /// The same children and image, in this place.
    Place(Place),
    /// The same children and image, in memory of the kind that a field asks for.
    Kind(Field),
}

/// What is wanted of a domain of which this was decided.
#[derive(Clone, Copy)]
pub(crate) struct Wish<'a, 'b> {
    pub(crate) group: Group<'a, 'b>,
    pub(crate) now: &'b Outcome,
    pub(crate) goal: Goal,
}

impl Wish<'_, '_> {
    /// Whether a decision has what is wanted.
    pub(crate) fn is_met(&self, then: &Outcome) -> bool {
        if matches!(self.goal, Goal::Child | Goal::LateChild) {
            return comes_before(then.selection(), self.now.selection());
        }
        match (settled_by(then), settled_by(self.now)) {
            (Some(is), Some(was)) if then.selection() == self.now.selection() => {
                self.is_met_by(is, was)
            }
            _ => false,
        }
    }

    /// The same of what it settles, where this was settled with the same children.
    fn is_met_by(&self, is: Settled, was: Settled) -> bool {
        match self.goal {
            Goal::Child | Goal::LateChild => false,
            Goal::Pair(pair) => matches!(is.offer, Offer::Image(other, _) if other == pair),
            Goal::Colour(colour) => is_recoloured(is.offer, was.offer, colour),
            Goal::Place(place) => is.offer == was.offer && is.place == place,
            Goal::Kind(field) => {
                let heaps = self.group.scenario.platform.heaps();
                match heaps.get(is.place.heap) {
                    Some(info) => is.offer == was.offer && is_of_kind(info, field),
                    None => false,
                }
            }
        }
    }

    /// Whether an edit may be meant by who wants that: none that drops what is demanded of a
    /// buffer; for a pair only one by which more images are taken; and for a child none by which it
    /// takes what is chosen without it.
    pub(crate) fn may_mean(&self, edit: Edit) -> bool {
        match self.goal {
            Goal::Pair(pair) => takes_more(edit, pair),
            Goal::Child => match edit {
                Edit::TakesPair(pair) => !is_chosen(self.now, pair),
                _ => keeps_demands(edit),
            },
            Goal::LateChild | Goal::Colour(_) | Goal::Place(_) | Goal::Kind(_) => {
                keeps_demands(edit)
            }
        }
    }
}

/// Whether one offer is another one's pair in a colour space.
fn is_recoloured(is: Offer, was: Offer, colour: ColourSpace) -> bool {
    match (is, was) {
        (Offer::Image(pair, found), Offer::Image(before, _)) => pair == before && found == colour,
        _ => false,
    }
}

/// Whether more images are taken by an edit, as one of a pair.
fn takes_more(edit: Edit, pair: Pair) -> bool {
    match edit {
        Edit::TakesPair(other) => pair == other,
        Edit::TakesColour(_) | Edit::TakesColourIn(_, _) => true,
        Edit::NoBound(field) | Edit::NoMemory(field) => is_limit(field),
        _ => false,
    }
}

/// Whether an edit drops nothing that is demanded of a buffer, nor its use by CPUs.
fn keeps_demands(edit: Edit) -> bool {
    match edit {
        Edit::NoMemory(field) => is_limit(field),
        Edit::NoCpu => false,
        _ => true,
    }
}

/// The image and the place of a decision.
#[derive(Clone, Copy)]
pub(crate) struct Settled {
    pub(crate) offer: Offer,
    pub(crate) place: Place,
}

/// What a decision settles, if it chooses.
pub(crate) fn settled_by(outcome: &Outcome) -> Option<Settled> {
    let settings = outcome.chosen()?.settings();
    Some(Settled {
        offer: settings.offer,
        place: settings.place,
    })
}

/// Whether a selection comes before another.
fn comes_before(one: &[u8], other: &[u8]) -> bool {
    for (a, b) in one.iter().zip(other) {
        if *a != *b {
            return *a < *b;
        }
    }
    false
}

/// Whether a field is a greatest or a least value of an image or a size.
fn is_limit(field: Field) -> bool {
    matches!(
        field,
        Field::MaxSize
            | Field::MaxBytesPerRow
            | Field::MaxWidthTimesHeight
            | Field::MaxSizeBytes
            | Field::RequiredMinSize
            | Field::RequiredMaxSize
            | Field::MinSize
            | Field::MinBytesPerRow
            | Field::MinSizeBytes
    )
}

/// Whether a heap is of the kind that a field asks for; of a contiguous one, if it isn't secure
/// too, which is asked for by another field.
pub(crate) fn is_of_kind(info: &HeapInfo, field: Field) -> bool {
    match field {
        Field::SecureRequired => info.secure,
        _ => info.contiguous && !info.secure,
    }
}

/// Whether a decision has no image, or one of a pair.
pub(crate) fn is_chosen(now: &Outcome, pair: Pair) -> bool {
    match settled_by(now) {
        Some(settled) => match settled.offer {
            Offer::Image(chosen, _) => chosen == pair,
            Offer::NoImage => true,
        },
        None => true,
    }
}
