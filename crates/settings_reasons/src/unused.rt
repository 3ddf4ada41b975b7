//! Entries of a participant that are never used, and which hold.

ghost use Rattle.std.specs.Prelude.{◌≡◌, ◌<◌, All, IfOk, IfSome, IsTrue, length};
ghost use Rattle.settings_reasons.specs.Held.{IsHolder, IsNeverUsed, is_taken_before, takes};

use negotiation_inputs::Platform;
use std::alloc::{AllocError, Global};
use sysmem_formats::{ColourSpace, Offer, Pair};
use sysmem_image::{Entry, entry_for};

/// The entries, by index, that hold for no pair of a platform.
pub fn unused_entries(
    alloc: Global,
    platform: &Platform,
    entries: &[Entry],
) -> Result<Vec<usize>, AllocError>
    ensures { IfOk result
        (λ found. All (IsNeverUsed platform.now.pairs entries.now) found.items) }
{
    let mut found = Vec::new(alloc);
    for index in 0..entries.len() {
        if is_never_used(platform.pairs(), entries, index) {
            found.push(index)?;
        }
    }
    Ok(found)
}

/// Whether the entry of an index holds for none of some pairs.
fn is_never_used(pairs: &[Pair], entries: &[Entry], index: usize) -> bool
    requires { index < length entries.now }
    ensures { IsTrue result → IsNeverUsed pairs.now entries.now index }
{
    let before = &entries[..index];
    let with = &entries[..=index];
    pairs
        .iter()
        .all(|pair| is_taken_before(before, with, *pair))
}

/// Whether a pair that one of some entries takes is taken by one of those before.
fn is_taken_before(before: &[Entry], with: &[Entry], pair: Pair) -> bool
    ensures { result ≡ is_taken_before before.now with.now pair }
{
    !takes(with, pair) || takes(before, pair)
}

/// Whether one of some entries takes a pair.
fn takes(entries: &[Entry], pair: Pair) -> bool
    ensures { result ≡ takes entries.now pair }
{
    entry_for(entries, &Offer::Image(pair, ColourSpace::Srgb)).is_some()
}

/// The index of the entry that holds for a pair: the first that takes it.
pub fn holder_of(entries: &[Entry], pair: Pair) -> Option<usize>
    ensures { IfSome result (IsHolder entries.now pair) }
{
    for index in 0..entries.len() {
        let is_first = !takes(&entries[..index], pair) && takes(&entries[..=index], pair);
        if is_first {
            return Some(index);
        }
    }
    None
}
