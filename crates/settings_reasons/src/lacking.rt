//! What participants name that the platform lacks.

use crate::listed::is_taken;
use crate::offer_words::pair_name;
use crate::refusing::Parties;
use crate::rows::{FailureRow, add, add_rows};
use explanation_text::{Items, Label, Text, TextBuilder};
use negotiation_inputs::Platform;
use std::alloc::AllocError;
use sysmem_image::{ColourSet, Entry};
use sysmem_memory::Heap;
use value_sources::{NamedParticipant, put_has};

/// Something that a participant names or requires.
#[derive(Drop)]
struct LackedName<'a> {
    name: Text,
    /// What one does who names it, and what several do.
    words: (&'static str, &'static str),
    participants: Vec<NamedParticipant<'a>>,
}

/// Tells which formats, modifiers and colour spaces participants take and the platform lacks, those
/// that most take first.
pub(crate) fn add_no_images(
    items: &mut Items,
    depth: usize,
    parties: Parties<'_, '_>,
) -> Result<(), AllocError> {
    let mut lacked: Vec<LackedName<'_>> = Vec::new(items.alloc());
    for participant in parties.participants {
        for entry in participant.asked.entries() {
            add_lacked(&mut lacked, parties.platform, entry, participant)?;
        }
    }
    let count = parties.participants.len();
    add_lacked_rows(items, depth, &lacked, count)
}

/// Adds what a participant's entry names, if the platform lacks it.
fn add_lacked<'a>(
    lacked: &mut Vec<LackedName<'a>>,
    platform: &Platform,
    entry: &Entry,
    participant: &NamedParticipant<'a>,
) -> Result<(), AllocError> {
    let has_pair = has_pair(platform, entry);
    if has_pair && has_colour(platform, entry.colours) {
        return Ok(());
    }
    let mut name = pair_name(*lacked.allocator(), entry.format, entry.modifier);
    if has_pair {
        name.put(" in any of its colour spaces");
    }
    let words = ("takes it", "take it");
    add_named(lacked, name.into_text()?, words, participant)
}

/// Tells which heaps participants permit, and which kinds of heaps they require, that the platform
/// lacks, those of most first.
pub(crate) fn add_no_heaps(
    items: &mut Items,
    depth: usize,
    parties: Parties<'_, '_>,
) -> Result<(), AllocError> {
    let mut lacked: Vec<LackedName<'_>> = Vec::new(items.alloc());
    for participant in parties.participants {
        add_lacked_heaps(&mut lacked, parties.platform, participant)?;
        add_lacked_kinds(&mut lacked, parties.platform, participant)?;
    }
    let count = parties.participants.len();
    add_lacked_rows(items, depth, &lacked, count)
}

/// Adds the heaps that a participant permits and the platform lacks.
fn add_lacked_heaps<'a>(
    lacked: &mut Vec<LackedName<'a>>,
    platform: &Platform,
    participant: &NamedParticipant<'a>,
) -> Result<(), AllocError> {
    for heap in &participant.asked.memory().permitted_heaps {
        if !has_heap(platform, heap) {
            let mut name = TextBuilder::of(*lacked.allocator(), &heap.heap_type);
            name.put("#").put_number(heap.id);
            let words = ("permits it", "permit it");
            add_named(lacked, name.into_text()?, words, participant)?;
        }
    }
    Ok(())
}

/// Adds the kinds of heaps that a participant requires and the platform lacks.
fn add_lacked_kinds<'a>(
    lacked: &mut Vec<LackedName<'a>>,
    platform: &Platform,
    participant: &NamedParticipant<'a>,
) -> Result<(), AllocError> {
    let memory = participant.asked.memory();
    let heaps = platform.heaps();
    if memory.physically_contiguous_required && !heaps.iter().any(|info| info.contiguous) {
        add_required(lacked, "a contiguous heap", participant)?;
    }
    if memory.secure_required && !heaps.iter().any(|info| info.secure) {
        add_required(lacked, "a secure heap", participant)?;
    }
    Ok(())
}

/// Adds that a participant requires something.
fn add_required<'a>(
    lacked: &mut Vec<LackedName<'a>>,
    what: &str,
    participant: &NamedParticipant<'a>,
) -> Result<(), AllocError> {
    let name = TextBuilder::of(*lacked.allocator(), what).into_text()?;
    add_named(lacked, name, ("requires it", "require it"), participant)
}

/// Whether the platform has a pair that an entry takes.
fn has_pair(platform: &Platform, entry: &Entry) -> bool {
    for pair in platform.pairs() {
        if is_taken(entry, *pair) {
            return true;
        }
    }
    false
}

/// Whether the platform has one of some colour spaces.
fn has_colour(platform: &Platform, colours: ColourSet) -> bool {
    for colour in platform.colours() {
        if colours.lists(*colour) {
            return true;
        }
    }
    colours.lists_any()
}

fn has_heap(platform: &Platform, heap: &Heap) -> bool {
    for info in platform.heaps() {
        if info.heap.id == heap.id && info.heap.heap_type == heap.heap_type {
            return true;
        }
    }
    false
}

/// Adds that a participant names something, which is said in words.
fn add_named<'a>(
    lacked: &mut Vec<LackedName<'a>>,
    name: Text,
    words: (&'static str, &'static str),
    participant: &NamedParticipant<'a>,
) -> Result<(), AllocError> {
    let alloc = name.alloc();
    for known in lacked.iter_mut() {
        if known.name == name {
            known.participants.push(*participant)?;
            return Ok(());
        }
    }
    lacked.push(LackedName {
        name,
        words,
        participants: vec![in alloc; *participant]?,
    })?;
    Ok(())
}

/// Tells what is named and isn't there, by whom, those first that most of so many name.
fn add_lacked_rows(
    items: &mut Items,
    depth: usize,
    lacked: &[LackedName<'_>],
    participants: usize,
) -> Result<(), AllocError> {
    if lacked.is_empty() {
        return Ok(());
    }
    items.list_text(depth, Label::Lacks, "the platform doesn't have these:");
    let mut rows: Vec<FailureRow> = Vec::new(items.alloc());
    for named in lacked {
        let far = participants.saturating_sub(named.participants.len());
        add_lacked_row(&mut rows, named, far)?;
    }
    let below = depth.saturating_add(1);
    add_rows(items, below, &rows, usize::MAX, " aren't there either");
    Ok(())
}

/// Adds a name with what those do who name it to the rows.
fn add_lacked_row(
    rows: &mut Vec<FailureRow>,
    named: &LackedName<'_>,
    far: usize,
) -> Result<(), AllocError> {
    let (one, many) = named.words;
    let alloc = *rows.allocator();
    let mut text = TextBuilder::new(alloc);
    put_has(&mut text, &named.participants, one, many);
    let reasons = vec![in alloc; text.into_text()?]?;
    let name = TextBuilder::of_text(alloc, &named.name).into_text()?;
    add(rows, name, reasons, far, 1)
}
