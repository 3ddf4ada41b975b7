//! What is told of the places after the chosen one.

use crate::place_reason::place_reasons;
use crate::placing::{heap_name, place_name};
use crate::refusing::{Parties, place_rows};
use crate::rows::Unchosen;
use explanation_text::wording::{MOST_NAMES, put_few};
use explanation_text::{Items, Label, ListBuilder, Text, TextBuilder};
use std::alloc::{AllocError, Global};
use sysmem_counts::Field;
use sysmem_memory::{HeapInfo, Place};
use value_sources::NamedParticipant;

/// What a heap is, and what a participant may require it to be.
#[derive(Clone, Copy)]
enum HeapTrait {
    Contiguous,
    Secure,
}

impl HeapTrait {
    const ALL: [HeapTrait; 2] = [HeapTrait::Contiguous, HeapTrait::Secure];

    /// Whether a heap is so.
    fn is_of(self, heap: &HeapInfo) -> bool {
        match self {
            HeapTrait::Contiguous => heap.contiguous,
            HeapTrait::Secure => heap.secure,
        }
    }

    /// Whether a participant requires it.
    fn is_required_by(self, participant: &NamedParticipant<'_>) -> bool {
        let memory = participant.asked.memory();
        match self {
            HeapTrait::Contiguous => memory.physically_contiguous_required,
            HeapTrait::Secure => memory.secure_required,
        }
    }

    /// The field by which it is required.
    fn field(self) -> Field {
        match self {
            HeapTrait::Contiguous => Field::PhysicallyContiguousRequired,
            HeapTrait::Secure => Field::SecureRequired,
        }
    }

    /// It in a word.
    fn word(self) -> &'static str {
        match self {
            HeapTrait::Contiguous => "contiguous",
            HeapTrait::Secure => "secure",
        }
    }
}

/// Participants on a platform, and the heap that was chosen for them.
#[derive(Clone, Copy)]
struct Chosen<'a, 'b> {
    parties: Parties<'a, 'b>,
    heap: &'b HeapInfo,
}

/// Tells which of the places after the chosen one nobody refuses. On one of them all else would be
/// the same: no offer, count or size depends on the place. Then who refuses those in other kinds
/// of heaps.
pub(crate) fn add_later_places(
    items: &mut Items,
    parties: Parties<'_, '_>,
    place: Place,
    later: &[Place],
) -> Result<(), AllocError> {
    let Some(heap) = parties.platform.heaps().get(place.heap) else {
        return Ok(());
    };
    let chosen = Chosen { parties, heap };
    let taken = chosen.unrefused(items.alloc(), later)?;
    chosen.add_taken(items, &taken)?;
    let others = chosen.in_other_heaps(items.alloc(), later, &taken)?;
    let rows = place_rows(items.alloc(), parties, &others)?;
    Unchosen::after(" more places in other heaps, after it").add(items, &rows);
    Ok(())
}

/// What would do too, but stands after what was chosen; `None` where nothing would.
pub(crate) fn later_words(alloc: Global, names: &[Text]) -> Option<TextBuilder> {
    let end = match names.len() {
        0 => return None,
        1 => " would do too, but stands after it on the platform",
        _ => " would do too, but stand after it on the platform",
    };
    let mut words = TextBuilder::new(alloc);
    put_few(&mut words, names, MOST_NAMES);
    words.put(end);
    Some(words)
}

impl<'b> Chosen<'_, 'b> {
    /// Those of some places that nobody refuses.
    fn unrefused(&self, alloc: Global, places: &[Place]) -> Result<Vec<Place>, AllocError> {
        let mut those = Vec::new(alloc);
        for place in places {
            if !self.is_refused(alloc, *place)? {
                those.push(*place)?;
            }
        }
        Ok(those)
    }

    /// Whether somebody refuses a place.
    fn is_refused(&self, alloc: Global, place: Place) -> Result<bool, AllocError> {
        let Some(heap) = self.parties.platform.heaps().get(place.heap) else {
            return Ok(true);
        };
        let reasons = place_reasons(alloc, heap, place.coherency, self.parties.participants)?;
        Ok(!reasons.is_empty())
    }

    /// Tells that places would do too, if they are some, and what their heaps are that the chosen
    /// one isn't.
    fn add_taken(&self, items: &mut Items, places: &[Place]) -> Result<(), AllocError> {
        let alloc = items.alloc();
        let mut names = ListBuilder::new(alloc);
        for place in places {
            names.add_text(place_name(alloc, self.parties.platform, *place));
        }
        if let Some(mut words) = later_words(alloc, &names.done()?) {
            self.put_unasked(&mut words, &self.heaps_of(alloc, places)?, places.len())?;
            items.say(2, Label::Plain, words);
        }
        Ok(())
    }

    /// The heaps of places, each once; those of one heap stand together.
    fn heaps_of(&self, alloc: Global, places: &[Place]) -> Result<Vec<&'b HeapInfo>, AllocError> {
        let mut heaps = Vec::new(alloc);
        let mut last = usize::MAX;
        for place in places {
            if let Some(heap) = self.parties.platform.heaps().get(place.heap) {
                if place.heap != last {
                    heaps.push(heap)?;
                }
            }
            last = place.heap;
        }
        Ok(heaps)
    }

    /// Puts what the heaps of so many places are that the chosen one isn't, and that nobody
    /// requires it, after a text.
    fn put_unasked(
        &self,
        text: &mut TextBuilder,
        heaps: &[&HeapInfo],
        places: usize,
    ) -> Result<(), AllocError> {
        let mut mark = ": ";
        for kind in &HeapTrait::ALL {
            let names = self.names_of(text.alloc(), heaps, *kind)?;
            if names.is_empty() {
                continue;
            }
            text.put(mark);
            put_heaps(text, &names, heaps.len(), places);
            text.put(" ")
                .put(kind.word())
                .put(", which nobody requires (")
                .field(kind.field())
                .put(")");
            mark = "; ";
        }
        Ok(())
    }

    /// The names of those of some heaps that are what the chosen one isn't, if nobody requires it.
    fn names_of(
        &self,
        alloc: Global,
        heaps: &[&HeapInfo],
        kind: HeapTrait,
    ) -> Result<Vec<Text>, AllocError> {
        let mut names = ListBuilder::new(alloc);
        if kind.is_of(self.heap) || self.is_required(kind) {
            return names.done();
        }
        for heap in heaps {
            if kind.is_of(heap) {
                names.add_text(heap_name(alloc, &heap.heap));
            }
        }
        names.done()
    }

    /// Whether somebody requires this of a heap.
    fn is_required(&self, kind: HeapTrait) -> bool {
        for participant in self.parties.participants {
            if kind.is_required_by(participant) {
                return true;
            }
        }
        false
    }

    /// Those of some places that lie in another kind of heap than the chosen one, where no place of
    /// the heap is taken by all.
    fn in_other_heaps(
        &self,
        alloc: Global,
        places: &[Place],
        taken: &[Place],
    ) -> Result<Vec<Place>, AllocError> {
        let mut those = Vec::new(alloc);
        for place in places {
            if self.is_other(*place) && !is_in_heap_of(*place, taken) {
                those.push(*place)?;
            }
        }
        Ok(those)
    }

    /// Whether a place lies in a heap of another type than the chosen one, or in one that is
    /// contiguous or secure while that isn't.
    fn is_other(&self, place: Place) -> bool {
        let Some(heap) = self.parties.platform.heaps().get(place.heap) else {
            return false;
        };
        let chosen = self.heap;
        let (own, other) = (&chosen.heap, &heap.heap);
        other.heap_type != own.heap_type
            || heap.contiguous && !chosen.contiguous
            || heap.secure && !chosen.secure
    }
}

/// Whether a place lies in the heap of one of some others.
fn is_in_heap_of(place: Place, others: &[Place]) -> bool {
    for other in others {
        if other.heap == place.heap {
            return true;
        }
    }
    false
}

/// Puts those of so many heaps of so many places that have these names after a text, with their
/// verb.
fn put_heaps(text: &mut TextBuilder, names: &[Text], heaps: usize, places: usize) {
    if heaps == 1 {
        text.put(if places == 1 {
            "its heap is"
        } else {
            "their heap is"
        });
        return;
    }
    put_few(text, names, MOST_NAMES);
    text.put(if names.len() == 1 { " is" } else { " are" });
}
