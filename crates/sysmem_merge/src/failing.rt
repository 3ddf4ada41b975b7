//! In which field settings fail one participant.

ghost use Rattle.std.specs.Prelude.{◌≡◌, ◌↔◌, ◌<◌, ◌≤◌, IsTrue, length, IfSome, IfNone, IsSomeAnd};
ghost use Rattle.sysmem_image.specs.Bounds.{KeepsField};
ghost use Rattle.sysmem_memory.specs.Heap.{HeapFacts};
ghost use Rattle.sysmem_merge.specs.declared.settings.Settings.{Settings as Settled};
ghost use Rattle.sysmem_merge.specs.Demands.{OfferDemand};
ghost use Rattle.sysmem_merge.specs.Failing.{FailsIn, FailsOn, IsFirstUncovered, offer_fields, size_fields};
ghost use Rattle.sysmem_merge.specs.First.{IsFirstOf};
ghost use Rattle.sysmem_merge.specs.Offers.{has_format, has_colour, entry_bounds, AcceptsOffer};
ghost use Rattle.sysmem_merge.specs.Settings.{CoversOn};
ghost use Rattle.negotiation_inputs.specs.Participant.{Participant};

use crate::settings::Settings;
use negotiation_inputs::{Constraints, Platform};
use sysmem_counts::Field;
use sysmem_image::{Entry, entry_for, first_failing, keeps_field, takes_colour};
use sysmem_memory::{HeapInfo, MemoryConstraints, refuses, refuses_in};

/// The first field in which the settings fail the participant: its entries' formats, their colour
/// spaces, the bounds of its entry for the offer in their table's order, its least and its greatest
/// size, then what refuses their place. `None` where the participant accepts them.
///
/// The platform must have the settings' heap.
pub fn first_uncovered(
    platform: &Platform,
    settings: &Settings,
    asked: &Constraints,
) -> Option<Field>
    requires { settings.now.place.heap < length platform.now.heaps }
    ensures first { IfSome result
        (λ field. IsFirstUncovered field platform.now settings.now asked.now) }
    ensures none { IfNone result (CoversOn platform.now settings.now asked.now) }
{
    let heap = &platform.heaps()[settings.place.heap];
    let in_offer = failing_offer(settings, asked.entries());
    if in_offer.is_some() {
        return in_offer;
    }
    let in_size = failing_size(settings.size_bytes, asked.memory());
    if in_size.is_some() {
        return in_size;
    }
    refuses(
        asked.memory(),
        asked.usage(),
        heap,
        settings.place.coherency,
    )
}

/// Whether the settings fail the participant in the field. False where the
/// platform has no heap of their index.
pub fn fails_in(field: Field, platform: &Platform, settings: &Settings, asked: &Constraints) -> bool
    ensures { IsTrue result ↔ FailsOn field platform.now settings.now asked.now }
{
    match platform.heaps().get(settings.place.heap) {
        Some(heap) => fails_in_heap(field, heap, settings, asked),
        None => false,
    }
}

/// Whether the settings, in this heap, fail the participant in the field.
fn fails_in_heap(field: Field, heap: &HeapInfo, settings: &Settings, asked: &Constraints) -> bool
    ensures { IsTrue result ↔ FailsIn field heap.now settings.now asked.now }
{
    match field {
        Field::PixelFormat => !has_format(settings, asked.entries()),
        Field::ColorSpaces => !has_colour(settings, asked.entries()),
        Field::MinSizeBytes => settings.size_bytes < asked.memory().min_size_bytes,
        Field::MaxSizeBytes => settings.size_bytes > asked.memory().max_size_bytes,
        _ => {
            let domain = settings.place.coherency;
            let in_bounds = fails_bound_of(field, settings, asked.entries());
            in_bounds || refuses_in(field, asked.memory(), asked.usage(), heap, domain)
        }
    }
}

/// Whether a participant with these entries takes the settings' offer.
fn has_format(settings: &Settings, entries: &[Entry]) -> bool
    ensures { (d : OfferDemand) → d.entries ≡ entries.now
        → result ≡ has_format settings.now.offer d }
{
    entries.is_empty() || entry_for(entries, &settings.offer).is_some()
}

/// Whether the participant's entry for the settings' offer, if it has
/// one, takes the offer's colour space.
fn has_colour(settings: &Settings, entries: &[Entry]) -> bool
    ensures { (d : OfferDemand) → d.entries ≡ entries.now
        → result ≡ has_colour settings.now.offer d }
{
    match entry_for(entries, &settings.offer) {
        Some(entry) => takes_colour(entry, &settings.offer),
        None => true,
    }
}

/// Whether the settings fail the participant's entry for their offer, if it
/// has one, in the bound of this name.
fn fails_bound_of(field: Field, settings: &Settings, entries: &[Entry]) -> bool
    ensures { (d : OfferDemand) → d.entries ≡ entries.now
        → IsTrue result ↔ IsSomeAnd (entry_bounds settings.now.offer d)
        (λ b. ¬ KeepsField field settings.now.bounds b) }
{
    match entry_for(entries, &settings.offer) {
        Some(entry) => !keeps_field(field, &settings.bounds, entry, &settings.offer),
        None => false,
    }
}

/// The first of the offer's fields and bounds in which the settings fail
/// a participant with these entries.
fn failing_offer(settings: &Settings, entries: &[Entry]) -> Option<Field>
    ensures first { (heap : HeapFacts) (p : Participant) → p.entries ≡ entries.now
        → IfSome result (λ field.
        IsFirstOf (λ f. FailsIn f heap settings.now p) offer_fields field) }
    ensures none { (d : OfferDemand) → d.entries ≡ entries.now
        → IfNone result (AcceptsOffer settings.now.offer settings.now.bounds d) }
{
    match entry_for(entries, &settings.offer) {
        Some(entry) if takes_colour(entry, &settings.offer) => {
            first_failing(&settings.bounds, entry, &settings.offer)
        }
        Some(_) => Some(Field::ColorSpaces),
        None if entries.is_empty() => None,
        None => Some(Field::PixelFormat),
    }
}

/// The first of the two sizes that the participant takes which the size isn't within.
fn failing_size(size_bytes: u64, memory: &MemoryConstraints) -> Option<Field>
    ensures first { (heap : HeapFacts) (s : Settled) (p : Participant)
        → s.size_bytes ≡ size_bytes → p.memory ≡ memory.now
        → IfSome result (λ field. IsFirstOf (λ f. FailsIn f heap s p) size_fields field) }
    ensures none { IfNone result
        ((memory.now.min_size_bytes ≤ size_bytes) × (size_bytes ≤ memory.now.max_size_bytes)) }
{
    if size_bytes < memory.min_size_bytes {
        Some(Field::MinSizeBytes)
    } else if size_bytes > memory.max_size_bytes {
        Some(Field::MaxSizeBytes)
    } else {
        None
    }
}
