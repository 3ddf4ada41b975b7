//! Which places of a platform participants refuse, and by which field.

ghost use Rattle.std.specs.Prelude.{IsTrue};
ghost use Rattle.sysmem_memory.specs.Place.{HasNoPlace};
ghost use Rattle.offer_fits.specs.Demands.{place_demands};
ghost use Rattle.value_sources.specs.Sources.{all_asked};

use crate::place_reason::PlaceReason;
use crate::rows::put_those;
use explanation_text::wording::{MOST_NAMES, put_few, put_visible};
use explanation_text::{ListBuilder, Text, TextBuilder};
use negotiation_inputs::Platform;
use std::alloc::{AllocError, Global};
use sysmem_counts::Field;
use sysmem_memory::{CoherencyDomain, Heap, HeapInfo, MemoryBounds, Place};
use value_sources::{NamedParticipant, put_has};

/// The places of a platform, in its order.
pub(crate) fn places_of(alloc: Global, platform: &Platform) -> Result<Vec<Place>, AllocError> {
    let mut places = ListBuilder::new(alloc);
    for (heap, info) in platform.heaps().iter().enumerate() {
        add_places(&mut places, heap, info);
    }
    places.done()
}

/// Adds the places of a heap.
fn add_places(places: &mut ListBuilder<Place>, heap: usize, info: &HeapInfo) {
    for coherency in &CoherencyDomain::ALL {
        if info.domains.has(*coherency) {
            places.add(Place {
                heap,
                coherency: *coherency,
            });
        }
    }
}

/// Whether each place of the platform is refused by somebody.
pub(crate) fn has_no_place(platform: &Platform, participants: &[NamedParticipant<'_>]) -> bool
    ensures { IsTrue result
        → HasNoPlace platform.now.heaps (place_demands (all_asked participants.now)) }
{
    let heaps = platform.heaps();
    let mut bounds = MemoryBounds::new(heaps);
    for participant in participants {
        bounds.add(heaps, participant.asked.memory(), participant.asked.usage());
    }
    bounds.first_place(heaps).is_none()
}

/// The name of a place: `cma#0 ram`.
pub(crate) fn place_name(alloc: Global, platform: &Platform, place: Place) -> TextBuilder {
    let mut text = TextBuilder::new(alloc);
    put_place(&mut text, platform, place);
    text
}

/// Puts the name of a place after a text.
pub(crate) fn put_place(text: &mut TextBuilder, platform: &Platform, place: Place) {
    let Some(info) = platform.heaps().get(place.heap) else {
        text.put(place.coherency.name());
        return;
    };
    put_heap_place(text, info, place.coherency)
}

/// Puts the name of a coherency domain of a heap after a text.
pub(crate) fn put_heap_place(text: &mut TextBuilder, heap: &HeapInfo, coherency: CoherencyDomain) {
    put_heap(text, &heap.heap);
    text.put(" ").put(coherency.name());
}

/// The name of a heap: `cma#0`.
pub(crate) fn heap_name(alloc: Global, heap: &Heap) -> TextBuilder {
    let mut text = TextBuilder::new(alloc);
    put_heap(&mut text, heap);
    text
}

/// Puts the name of a heap after a text.
fn put_heap(text: &mut TextBuilder, heap: &Heap) {
    put_visible(text, &heap.heap_type);
    text.put("#").put_number(heap.id);
}

/// Puts the sentence of a reason against a place into an empty text.
pub(crate) fn put_place_reason(text: &mut TextBuilder, reason: &PlaceReason<'_, '_>) {
    let field = reason.field();
    let participants = reason.participants();
    match field {
        Field::PermittedHeaps => put_permits(text, participants),
        Field::PhysicallyContiguousRequired => put_needs(text, participants, "contiguous", field),
        Field::SecureRequired => put_needs(text, participants, "secure", field),
        Field::Usage => put_has(
            text,
            participants,
            "uses the CPU (usage cpu), which doesn't reach it",
            "use the CPU (usage cpu), which doesn't reach it",
        ),
        _ => put_unsupported(text, participants, field),
    }
}

/// Puts which memory participants need by a field after a text.
fn put_needs(
    text: &mut TextBuilder,
    participants: &[NamedParticipant<'_>],
    what: &str,
    field: Field,
) {
    put_has(text, participants, "needs", "need");
    text.put(" ")
        .put(what)
        .put(" memory (")
        .field(field)
        .put(")");
}

/// How many lists of heaps are told.
const MOST_LISTS: usize = 3;

/// Puts which heaps participants permit after a text, those together who state the same ones; of the
/// others only that this one isn't among them.
fn put_permits(text: &mut TextBuilder, participants: &[NamedParticipant<'_>]) {
    let mut told = ListBuilder::new(text.alloc());
    let mut others = ListBuilder::new(text.alloc());
    for one in participants {
        if states_list(told.list(), one) {
            continue;
        }
        if told.list().len() < MOST_LISTS {
            told.add(*one);
            put_permitting(text, participants, one);
        } else {
            others.add(*one);
        }
    }
    match (told.done(), others.done()) {
        (Ok(_), Ok(others)) => put_those(
            text,
            &others,
            "doesn't permit this heap",
            "don't permit this heap",
        ),
        _ => text.refuse(),
    }
}

/// Whether one of some participants permits the heaps that another one does, in the same order.
fn states_list(participants: &[NamedParticipant<'_>], other: &NamedParticipant<'_>) -> bool {
    for one in participants {
        if have_one_list(one, other) {
            return true;
        }
    }
    false
}

fn have_one_list(one: &NamedParticipant<'_>, other: &NamedParticipant<'_>) -> bool {
    one.asked.memory().permitted_heaps == other.asked.memory().permitted_heaps
}

/// Puts that those permit only what one of them does after a text.
fn put_permitting(
    text: &mut TextBuilder,
    participants: &[NamedParticipant<'_>],
    one: &NamedParticipant<'_>,
) {
    let mut those = ListBuilder::new(text.alloc());
    for other in participants {
        if have_one_list(other, one) {
            those.add(*other);
        }
    }
    match those.done() {
        Ok(those) => put_those(text, &those, "permits only", "permit only"),
        Err(AllocError) => text.refuse(),
    }
    put_heaps(text, &one.asked.memory().permitted_heaps)
}

/// Puts the names of a few heaps after a text, and how many more they are.
fn put_heaps(text: &mut TextBuilder, heaps: &[Heap]) {
    let mut names: ListBuilder<Text> = ListBuilder::new(text.alloc());
    for heap in heaps {
        names.add_text(heap_name(text.alloc(), heap));
    }
    match names.done() {
        Ok(names) if names.is_empty() => {}
        Ok(names) => {
            text.put(" ");
            put_few(text, &names, MOST_NAMES);
        }
        Err(AllocError) => text.refuse(),
    }
}

/// Whether a participant states a field of its memory.
fn states(participant: &NamedParticipant<'_>, field: &str) -> bool {
    match participant.stated {
        Some(value) => match value.get("buffer_memory_constraints") {
            Some(memory) => memory.get(field).is_some(),
            None => false,
        },
        None => false,
    }
}

/// Puts who says that it doesn't take a coherency domain into an empty text, and who doesn't say
/// that it does.
fn put_unsupported(text: &mut TextBuilder, participants: &[NamedParticipant<'_>], field: Field) {
    put_stating(text, participants, field, true);
    put_stating(text, participants, field, false)
}

/// Puts who states a field, or who doesn't, after a text, if somebody does.
fn put_stating(
    text: &mut TextBuilder,
    participants: &[NamedParticipant<'_>],
    field: Field,
    is_stated: bool,
) {
    let mut those = ListBuilder::new(text.alloc());
    for participant in participants {
        if states(participant, field.name()) == is_stated {
            those.add(*participant);
        }
    }
    match those.done() {
        Ok(those) => put_stated(text, &those, field, is_stated),
        Err(AllocError) => text.refuse(),
    }
}

/// Puts that participants state a field, or don't, after a text, if they are some.
fn put_stated(
    text: &mut TextBuilder,
    participants: &[NamedParticipant<'_>],
    field: Field,
    is_stated: bool,
) {
    if participants.is_empty() {
        return;
    }
    let (one, many, end) = if is_stated {
        ("says", "say", " false")
    } else {
        ("doesn't say", "don't say", ", so it's false")
    };
    put_those(text, participants, one, many);
    text.put(" ").field(field).put(end);
}
