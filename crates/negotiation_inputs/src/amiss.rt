//! What is amiss with the parts of a platform or of a participant.

ghost use Rattle.std.specs.Prelude.{◌≡◌, ◌≤◌, ◌↔◌, ◌&&◌, false, not, nat_lt, length, All, AllPairs, Any, IsTrue, MatchOption};
ghost use Rattle.std.specs.List.{list_all};
ghost use Rattle.sysmem_counts.specs.Usage.{usage_bits};
ghost use Rattle.sysmem_image.specs.Colours.{no_colours};
ghost use Rattle.sysmem_image.specs.Size.{most_multiple};
ghost use Rattle.negotiation_inputs.specs.Amiss.{AreHeaps, ArePermitted, EntryAmiss, PlatformAmiss, ParticipantAmiss};
ghost use Rattle.negotiation_inputs.specs.Participant.{IsParticipant, IsEntry, HasSidesUpTo};
ghost use Rattle.negotiation_inputs.specs.Platform.{IsPlatform};
ghost use Rattle.negotiation_inputs.specs.Usage.{is_usage};
ghost use Rattle.negotiation_inputs.specs.Asked.{pair_asked, same_asked};
ghost use Rattle.negotiation_inputs.specs.Heaps.{has_domains, is_heap_type};
ghost use Rattle.negotiation_inputs.specs.Pairs.{is_tiled_misfit, same_colour, same_pair};

use crate::asked::{asks_misfit, pair_asked};
use crate::constraints::{MOST_ENTRIES, MOST_MULTIPLE};
use crate::distinct::are_distinct;
use crate::heaps::{has_domains, is_heap_type};
use crate::pairs::is_tiled_misfit;
use crate::usage::is_usage;
use bitflags::Flags;
use sysmem_counts::{Field, Usage};
use sysmem_formats::{ColourSpace, Pair};
use sysmem_image::{ColourSet, Entry, Size};
use sysmem_memory::{Heap, HeapInfo, MOST_HEAPS, MemoryConstraints};

fn is_heap_name(heap: &Heap) -> bool
    ensures { result ≡ is_heap_type heap.now.heap_type }
{
    is_heap_type(heap.heap_type.as_str())
}

fn are_heaps(heaps: &[HeapInfo]) -> bool
    ensures { IsTrue result ↔ AreHeaps heaps.now }
{
    !heaps.is_empty() && heaps.len() <= MOST_HEAPS && are_distinct(heaps)
}

fn have_names(heaps: &[HeapInfo]) -> bool
    ensures { result ≡ list_all (λ h. is_heap_type h.heap.heap_type) heaps.now }
{
    heaps.iter().all(|heap| is_heap_name(&heap.heap))
}

fn have_domains(heaps: &[HeapInfo]) -> bool
    ensures { result ≡ list_all (λ h. has_domains h.domains) heaps.now }
{
    heaps.iter().all(|heap| has_domains(heap.domains))
}

fn are_pairs(pairs: &[Pair]) -> bool
    ensures { IsTrue result ↔ ((1 ≤ length pairs.now)
        × AllPairs (λ a b. same_pair a b ≡ false) pairs.now) }
{
    !pairs.is_empty() && are_distinct(pairs)
}

fn are_fitting(pairs: &[Pair]) -> bool
    ensures { result ≡ list_all (λ pair. not (is_tiled_misfit pair)) pairs.now }
{
    pairs.iter().all(|pair| !is_tiled_misfit(*pair))
}

fn are_colours(colours: &[ColourSpace]) -> bool
    ensures { IsTrue result ↔ ((1 ≤ length colours.now)
        × AllPairs (λ a b. same_colour a b ≡ false) colours.now) }
{
    !colours.is_empty() && are_distinct(colours)
}

/// A field in which no platform is so, or `None` where these are the parts of one.
pub(crate) fn amiss_in_platform(
    heaps: &[HeapInfo],
    pairs: &[Pair],
    colours: &[ColourSpace],
) -> Option<Field>
    ensures { MatchOption result (IsPlatform heaps.now pairs.now colours.now)
        (λ field. PlatformAmiss field heaps.now pairs.now colours.now) }
{
    if !are_heaps(heaps) {
        return Some(Field::Heaps);
    }
    if !have_names(heaps) {
        return Some(Field::HeapType);
    }
    if !have_domains(heaps) {
        return Some(Field::Domains);
    }
    if !are_pairs(pairs) {
        return Some(Field::Pairs);
    }
    if !are_fitting(pairs) {
        return Some(Field::PixelFormatModifier);
    }
    if !are_colours(colours) {
        return Some(Field::ColorSpaces);
    }
    None
}

/// Whether a usage is some of the five families, and `none` alone.
fn is_of_families(usage: Usage) -> bool
    ensures { result ≡ (nat_lt (usage_bits usage) 32 && is_usage usage) }
{
    usage.bits() < 32 && is_usage(usage)
}

fn are_permitted(heaps: &[Heap]) -> bool
    ensures { IsTrue result ↔ ArePermitted heaps.now }
{
    heaps.len() <= MOST_HEAPS && are_distinct(heaps)
}

fn are_heap_names(heaps: &[Heap]) -> bool
    ensures { result ≡ list_all (λ h. is_heap_type h.heap_type) heaps.now }
{
    heaps.iter().all(|heap| is_heap_name(heap))
}

/// Whether the participant permits at most 64 heaps, none of them twice.
fn permits_few(memory: &MemoryConstraints) -> bool
    ensures { IsTrue result ↔ ArePermitted memory.now.permitted_heaps }
{
    are_permitted(memory.permitted_heaps.as_slice())
}

/// Whether each heap that it permits has a name.
fn permits_named(memory: &MemoryConstraints) -> bool
    ensures { result ≡ list_all (λ h. is_heap_type h.heap_type) memory.now.permitted_heaps }
{
    are_heap_names(memory.permitted_heaps.as_slice())
}

fn are_entries(entries: &[Entry]) -> bool
    ensures { IsTrue result ↔ ((length entries.now ≤ MOST_ENTRIES)
        × AllPairs (λ a b. same_asked (pair_asked a) (pair_asked b) ≡ false) entries.now) }
{
    entries.len() <= MOST_ENTRIES && are_distinct(entries)
}

fn is_small(number: u32) -> bool
    ensures { IsTrue result ↔ (number ≤ most_multiple) }
{
    u64::from(number) <= MOST_MULTIPLE
}

fn has_small_sides(size: Size) -> bool
    ensures { IsTrue result ↔ HasSidesUpTo most_multiple size }
{
    is_small(size.width) && is_small(size.height)
}

fn has_no_colours(entry: &Entry) -> bool
    ensures { IsTrue result ↔ (entry.now.colours ≡ no_colours) }
{
    entry.colours == ColourSet::new()
}

/// A field in which no entry is so, or `None` where a participant may have the entry.
fn amiss_in_entry(entry: &Entry) -> Option<Field>
    ensures { MatchOption result (IsEntry entry.now) (λ field. EntryAmiss field entry.now) }
{
    let asked = entry.bounds.asked;
    if asks_misfit(pair_asked(entry)) {
        return Some(Field::PixelFormatModifier);
    }
    if has_no_colours(entry) {
        return Some(Field::ColorSpaces);
    }
    if !has_small_sides(asked.size_alignment) {
        return Some(Field::SizeAlignment);
    }
    if !is_small(asked.start_offset_divisor) {
        return Some(Field::StartOffsetDivisor);
    }
    if !has_small_sides(asked.display_rect_alignment) {
        return Some(Field::DisplayRectAlignment);
    }
    if asked.required_min_size.width == 0 || asked.required_min_size.height == 0 {
        return Some(Field::RequiredMinSize);
    }
    if asked.max_width_times_height == 0 {
        return Some(Field::MaxWidthTimesHeight);
    }
    None
}

fn amiss_in_entries(entries: &[Entry]) -> Option<Field>
    ensures { MatchOption result (All IsEntry entries.now)
        (λ field. Any (EntryAmiss field) entries.now) }
{
    for entry in entries {
        match amiss_in_entry(entry) {
            Some(field) => return Some(field),
            None => {}
        }
    }
    None
}

/// A field in which no participant is so, or `None` where these are the parts of one.
pub(crate) fn amiss_in_participant(
    usage: Usage,
    memory: &MemoryConstraints,
    entries: &[Entry],
) -> Option<Field>
    ensures { MatchOption result (IsParticipant usage memory.now entries.now)
        (λ field. ParticipantAmiss field usage memory.now entries.now) }
{
    if !is_of_families(usage) {
        return Some(Field::Usage);
    }
    if !permits_few(memory) {
        return Some(Field::PermittedHeaps);
    }
    if !permits_named(memory) {
        return Some(Field::HeapType);
    }
    if !are_entries(entries) {
        return Some(Field::ImageFormatConstraints);
    }
    amiss_in_entries(entries)
}
