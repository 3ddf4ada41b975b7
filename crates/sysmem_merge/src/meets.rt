//! Whether one participant accepts settings.

ghost use Rattle.std.specs.Prelude.{◌≡◌, ◌↔◌, ◌≤◌, IsTrue};
ghost use Rattle.sysmem_memory.specs.PlaceTable.{AllowsPlace};
ghost use Rattle.sysmem_merge.specs.Demands.{OfferDemand};
ghost use Rattle.sysmem_merge.specs.Offers.{AcceptsOffer};
ghost use Rattle.sysmem_merge.specs.Settings.{CoversOn};

use crate::settings::Settings;
use negotiation_inputs::{Constraints, Platform};
use sysmem_image::{Entry, entry_for, first_failing, takes_colour};
use sysmem_memory::{HeapInfo, MemoryConstraints, refuses};

/// Whether the participant accepts the settings: it has an entry for their offer, with its colour
/// space, or no entries at all; their bounds keep to that entry's; nothing that it says of memory,
/// nor its usage, refuses their place, and their size is from its least to its greatest. False
/// where the platform has no heap of that index. How many buffers there are isn't one participant's
/// to accept, nor is it tested whether the platform can provide them.
pub fn meets_one(platform: &Platform, settings: &Settings, asked: &Constraints) -> bool
    ensures { IsTrue result ↔ CoversOn platform.now settings.now asked.now }
{
    let Some(heap) = platform.heaps().get(settings.place.heap) else {
        return false;
    };
    accepts_place(settings, heap, asked)
        && accepts_size(settings.size_bytes, asked.memory())
        && accepts_offer(settings, asked.entries())
}

/// Whether nothing that the participant says of memory, nor its usage, refuses the
/// settings' coherency domain of the heap.
fn accepts_place(settings: &Settings, heap: &HeapInfo, asked: &Constraints) -> bool
    ensures { IsTrue result
        ↔ AllowsPlace asked.now.memory asked.now.usage heap.now settings.now.place.coherency }
{
    let domain = settings.place.coherency;
    refuses(asked.memory(), asked.usage(), heap, domain).is_none()
}

/// Whether the size is from the least to the greatest that the participant takes.
fn accepts_size(size_bytes: u64, memory: &MemoryConstraints) -> bool
    ensures { IsTrue result
        ↔ ((memory.now.min_size_bytes ≤ size_bytes) × (size_bytes ≤ memory.now.max_size_bytes)) }
{
    memory.min_size_bytes <= size_bytes && size_bytes <= memory.max_size_bytes
}

/// Whether the participant's entries take the settings' offer, with
/// its colour space, and their bounds.
fn accepts_offer(settings: &Settings, entries: &[Entry]) -> bool
    ensures { (d : OfferDemand) → d.entries ≡ entries.now
        → IsTrue result ↔ AcceptsOffer settings.now.offer settings.now.bounds d }
{
    match entry_for(entries, &settings.offer) {
        Some(entry) => {
            takes_colour(entry, &settings.offer)
                && first_failing(&settings.bounds, entry, &settings.offer).is_none()
        }
        None => entries.is_empty(),
    }
}
