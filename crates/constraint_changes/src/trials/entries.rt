//! Entries of a participant's record that stand behind others.

use negotiation_inputs::Platform;
use serde_json::Value;
use settings_reasons::is_taken;
use std::alloc::{AllocError, Global};
use sysmem_formats::Pair;
use sysmem_image::Entry;
use value_sources::NamedParticipant;

const ENTRIES: &str = "image_format_constraints";

const FURTHER: &str = "pixel_format_and_modifiers";

/// Which entry of a record a pair belongs to, from 0, and how many pairs that has.
#[derive(Clone, Copy)]
pub struct EntryPlace {
    pub item: usize,
    pub pairs: usize,
}

/// The entry of a record to which the pair of an index belongs: an entry has its own pair, if it
/// names one, and then further ones.
pub fn entry_place(stated: Option<&Value>, index: usize) -> EntryPlace {
    let mut before = 0usize;
    if let Some(entries) = stated_entries(stated) {
        for (item, entry) in entries.iter().enumerate() {
            let pairs = pairs_of(entry);
            before = before.saturating_add(pairs);
            if index < before {
                return EntryPlace { item, pairs };
            }
        }
    }
    EntryPlace {
        item: index,
        pairs: 1,
    }
}

/// The entries that a record states.
fn stated_entries<'a>(stated: Option<&'a Value>) -> Option<&'a [Value]> {
    let entries = stated?.get(ENTRIES)?.as_array()?;
    Some(entries.as_slice())
}

/// How many pairs an entry of a record names.
fn pairs_of(entry: &Value) -> usize {
    let own = usize::from(entry.get("pixel_format").is_some());
    match entry.get(FURTHER).and_then(Value::as_array) {
        Some(list) => own.saturating_add(list.len()),
        None => own,
    }
}

/// The entries of a participant's record, from 0, each of which takes a pair of a platform that an
/// earlier one takes too.
pub fn entries_behind(
    alloc: Global,
    platform: &Platform,
    participant: &NamedParticipant<'_>,
) -> Result<Vec<usize>, AllocError> {
    let entries = participant.asked.entries();
    let items = items_of(alloc, participant)?;
    let mut behind: Vec<usize> = Vec::new(alloc);
    for (index, item) in items.iter().enumerate() {
        if !behind.contains(item) && is_behind(platform.pairs(), entries, &items, index) {
            behind.push(*item)?;
        }
    }
    Ok(behind)
}

/// The entry of the record to which each pair of a participant belongs.
fn items_of(alloc: Global, participant: &NamedParticipant<'_>) -> Result<Vec<usize>, AllocError> {
    let mut items = Vec::new(alloc);
    for index in 0..participant.asked.entries().len() {
        items.push(entry_place(participant.stated, index).item)?;
    }
    Ok(items)
}

/// Whether the entry of an index takes one of some pairs that one of an earlier item takes too.
fn is_behind(pairs: &[Pair], entries: &[Entry], items: &[usize], index: usize) -> bool {
    let (Some(entry), Some(item)) = (entries.get(index), items.get(index)) else {
        return false;
    };
    for pair in pairs {
        for (other, place) in entries.iter().zip(items) {
            if *place < *item && is_taken(other, *pair) && is_taken(entry, *pair) {
                return true;
            }
        }
    }
    false
}
