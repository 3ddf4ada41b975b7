//! The lines for the places before that of a choice.

ghost use Rattle.std.specs.Prelude.{◌≡◌, ◌<◌, ◌++◌, List, MatchResult, Some, length, slice_get};
ghost use Rattle.std.specs.List.{AllZip};
ghost use Rattle.sysmem_memory.specs.Heap.{HeapFacts};
ghost use Rattle.sysmem_memory.specs.Listed.{HeapPlace};
ghost use Rattle.sysmem_memory.specs.Place.{IsPlace};
ghost use Rattle.verdict_claims.specs.Certificate.{RefusePlacesBefore};
ghost use Rattle.verdict_claims.specs.Conflict.{RefusesPlace};
ghost use Rattle.sysmem_proof.specs.PlacesBefore.{AreTold, PlaceLinesFault, place_if, places_before, places_in, domains_before};
ghost use Rattle.verdict_claims.specs.Fault.{PlacesFault};
ghost use Rattle.verdict_claims.specs.Roll.{listed};

use super::line_faults::place_fault;
use crate::roll::Roll;
use negotiation_inputs::Platform;
use sysmem_memory::{CoherencyDomain, CoherencyDomains, HeapInfo, Place};
use sysmem_merge::Settings;
use verdict_claims::{Line, No};

/// The domains of a set that come before this one.
fn domains_before(domains: CoherencyDomains, domain: CoherencyDomain) -> CoherencyDomains
    ensures { result ≡ domains_before domains domain }
{
    match domain {
        CoherencyDomain::Cpu => CoherencyDomains::NONE,
        CoherencyDomain::Ram => CoherencyDomains {
            cpu: domains.cpu,
            ..CoherencyDomains::NONE
        },
        CoherencyDomain::Inaccessible => CoherencyDomains {
            inaccessible: false,
            ..domains
        },
    }
}

/// Of the line at an index, which is to refuse a place, if it is there. Answers
/// how many lines were read so far.
fn line_fault(
    roll: &Roll<'_>,
    is_there: bool,
    place: Place,
    heap: &HeapInfo,
    lines: &[Line],
    many: usize,
) -> Result<usize, No>
    ensures { (told : List HeapPlace) → AreTold (listed roll.now) told lines.now many
        → MatchResult result (λ next. AreTold (listed roll.now)
        (told ++ place_if is_there place heap.now) lines.now next)
        (λ why. (more : List HeapPlace) → PlaceLinesFault (listed roll.now)
        ((told ++ place_if is_there place heap.now) ++ more) lines.now why) }
{
    if !is_there {
        return Ok(many);
    }
    if many >= lines.len() {
        return Err(No::Missing);
    }
    place_fault(roll, place, heap, &lines[many])?;
    Ok(many + 1)
}

/// Of a line for each place of a heap, given by its index, in these domains. Answers
/// how many lines were read so far.
fn heap_lines_fault(
    roll: &Roll<'_>,
    index: usize,
    heap: &HeapInfo,
    domains: CoherencyDomains,
    lines: &[Line],
    many: usize,
) -> Result<usize, No>
    ensures { (told : List HeapPlace) → AreTold (listed roll.now) told lines.now many
        → MatchResult result (λ next. AreTold (listed roll.now)
        (told ++ places_in index heap.now domains) lines.now next)
        (λ why. (more : List HeapPlace) → PlaceLinesFault (listed roll.now)
        ((told ++ places_in index heap.now domains) ++ more) lines.now why) }
{
    let cpu = Place {
        heap: index,
        coherency: CoherencyDomain::Cpu,
    };
    let ram = Place {
        heap: index,
        coherency: CoherencyDomain::Ram,
    };
    let inaccessible = Place {
        heap: index,
        coherency: CoherencyDomain::Inaccessible,
    };
    let past_cpu = line_fault(roll, domains.cpu, cpu, heap, lines, many)?;
    let past_ram = line_fault(roll, domains.ram, ram, heap, lines, past_cpu)?;
    line_fault(
        roll,
        domains.inaccessible,
        inaccessible,
        heap,
        lines,
        past_ram,
    )
}

/// Of a line for each place before one of these heaps.
fn place_lines_fault(
    roll: &Roll<'_>,
    heaps: &[HeapInfo],
    place: Place,
    lines: &[Line],
) -> Result<(), No>
    requires { place.heap < length heaps.now }
    ensures { (heap : HeapFacts) → slice_get heaps.now place.heap ≡ Some heap
        → MatchResult result (λ _. AllZip (RefusesPlace (listed roll.now))
        (places_before heaps.now heap place) lines.now)
        (PlaceLinesFault (listed roll.now) (places_before heaps.now heap place) lines.now) }
{
    let mut many = 0;
    for index in 0..place.heap {
        let heap = &heaps[index];
        many = heap_lines_fault(roll, index, heap, heap.domains, lines, many)?;
    }
    let last = &heaps[place.heap];
    let domains = domains_before(last.domains, place.coherency);
    let all = heap_lines_fault(roll, place.heap, last, domains, lines, many)?;
    if all < lines.len() {
        return Err(No::WrongShape);
    }
    Ok(())
}

/// Of a line for each place before that of the settings.
pub(crate) fn places_before_fault(
    roll: &Roll<'_>,
    platform: &Platform,
    settings: &Settings,
    lines: &[Line],
) -> Result<(), No>
    requires { (heap : HeapFacts) × IsPlace platform.now.heaps settings.now.place heap }
    ensures { MatchResult result
        (λ _. RefusePlacesBefore platform.now (listed roll.now) settings.now lines.now)
        (PlacesFault platform.now (listed roll.now) settings.now lines.now) }
{
    place_lines_fault(roll, platform.heaps(), settings.place, lines)
}
