//! Whether each place of a platform is refused to participants by its line.

ghost use Rattle.std.specs.Prelude.{◌≡◌, ◌↔◌, ◌+◌, ◌∷◌, ℕ, List, All, IsTrue};
ghost use Rattle.std.specs.List.{AllZip};
ghost use Rattle.sysmem_memory.specs.Heap.{HeapFacts};
ghost use Rattle.sysmem_memory.specs.Listed.{HeapPlace, places_from, places_of, put_if};
ghost use Rattle.verdict_claims.specs.Conflict.{RefusesPlace};
ghost use Rattle.sysmem_proof.specs.EachLine.{GoesPast};
ghost use Rattle.verdict_claims.specs.Fault.{AreNamed};
ghost use Rattle.verdict_claims.specs.Roll.{listed};

use super::line_tests::is_place_line;
use crate::roll::Roll;
use sysmem_memory::{CoherencyDomain, HeapInfo};
use verdict_claims::Line;

/// Goes past the line of a coherency domain of a heap, if the heap has it; `None` where that line
/// is missing or doesn't refuse it.
fn past_place(
    roll: &Roll<'_>,
    heap: &HeapInfo,
    domain: CoherencyDomain,
    has: bool,
    lines: &[Line],
    at: usize,
) -> Option<usize>
    requires { All (λ line. AreNamed (listed roll.now) line.nodes) lines.now }
    ensures { (p : HeapPlace) (ps : List HeapPlace) → p.heap ≡ heap.now
        → p.place.coherency ≡ domain
        → GoesPast (RefusesPlace (listed roll.now)) (put_if has p ps) ps lines.now at result }
{
    if !has {
        return Some(at);
    }
    if at >= lines.len() {
        return None;
    }
    if !is_place_line(roll, heap, domain, &lines[at]) {
        return None;
    }
    Some(at + 1)
}

/// Goes past the lines of a heap's places; `None` where one of them is
/// missing or doesn't refuse its place.
fn past_heap(roll: &Roll<'_>, heap: &HeapInfo, lines: &[Line], at: usize) -> Option<usize>
    requires { All (λ line. AreNamed (listed roll.now) line.nodes) lines.now }
    ensures { (i : ℕ) (heaps : List HeapFacts) → GoesPast (RefusesPlace (listed roll.now))
        (places_from i (heap.now ∷ heaps)) (places_from (i + 1) heaps) lines.now at result }
{
    let domains = heap.domains;
    let cpu = past_place(roll, heap, CoherencyDomain::Cpu, domains.cpu, lines, at)?;
    let ram = past_place(roll, heap, CoherencyDomain::Ram, domains.ram, lines, cpu)?;
    past_place(
        roll,
        heap,
        CoherencyDomain::Inaccessible,
        domains.inaccessible,
        lines,
        ram,
    )
}

/// Whether there is a line for each place of these heaps, and it refuses the place.
pub(crate) fn refuse_places(roll: &Roll<'_>, heaps: &[HeapInfo], lines: &[Line]) -> bool
    requires { All (λ line. AreNamed (listed roll.now) line.nodes) lines.now }
    ensures { IsTrue result
        ↔ AllZip (RefusesPlace (listed roll.now)) (places_of heaps.now) lines.now }
{
    let mut at = 0;
    for heap in heaps {
        let Some(end) = past_heap(roll, heap, lines, at) else {
            return false;
        };
        at = end;
    }
    at >= lines.len()
}
