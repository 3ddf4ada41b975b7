//! The first test that a conflict of an attached domain fails.

ghost use Rattle.std.specs.Prelude.{◌≡◌, ◌≤◌, ◌↔◌, ◌++◌, All, Some, IsTrue, MatchResult, length};
ghost use Rattle.sysmem_memory.specs.Listed.{places_of};
ghost use Rattle.sysmem_memory.specs.declared.bounds.TheConstants.{MOST_HEAPS};
ghost use Rattle.verdict_claims.specs.Base.{Terms};
ghost use Rattle.verdict_claims.specs.Conflict.{IsFixedConflict};
ghost use Rattle.sysmem_proof.specs.EachLine.{many_in};
ghost use Rattle.verdict_claims.specs.Fault.{AreNamed, ConflictFaults, Fails, First};
ghost use Rattle.verdict_claims.specs.Roll.{listed};
ghost use Rattle.verdict_claims.specs.declared.no.No.TheVariants.{WrongNode, NoConflict as Untrue};
ghost use Rattle.negotiation_inputs.specs.Platform.{offers_of};
ghost use Rattle.sysmem_tree.specs.Forest.{Forest, settled};
ghost use Rattle.sysmem_tree.specs.Shape.{Member};

use super::line_faults::{failing_fault, fixed_count_fault};
use super::names::are_named;
use crate::roll::Roll;
use negotiation_inputs::Platform;
use sysmem_formats::offer_at;
use sysmem_memory::{CoherencyDomains, HeapInfo};
use sysmem_merge::Settings;
use verdict_claims::{Conflict, Line, No};

/// Whether a platform has so many offers.
pub(crate) fn has_offers(platform: &Platform, many: usize) -> bool
    ensures { IsTrue result ↔ (many ≡ length (offers_of platform.now)) }
{
    if many == 0 {
        return false;
    }
    let pairs = platform.pairs();
    let colours = platform.colours();
    let has_last = offer_at(pairs, colours, many - 1).is_some();
    has_last && offer_at(pairs, colours, many).is_none()
}

/// How many places a heap with these domains has.
fn places_in(domains: CoherencyDomains) -> usize
    ensures many { result ≡ many_in domains }
    ensures few { result ≤ 3 }
{
    let cpu = if domains.cpu { 1 } else { 0 };
    let ram = if domains.ram { 1 } else { 0 };
    let inaccessible = if domains.inaccessible { 1 } else { 0 };
    cpu + ram + inaccessible
}

/// How many places heaps have.
pub(crate) fn count_places(heaps: &[HeapInfo]) -> usize
    requires { length heaps.now ≤ MOST_HEAPS }
    ensures { result ≡ length (places_of heaps.now) }
{
    let mut many = 0;
    for heap in heaps {
        many += places_in(heap.domains);
    }
    many
}

/// Whether each line names participants, each once.
pub(crate) fn all_named(roll: &Roll<'_>, lines: &[Line]) -> bool
    ensures { IsTrue result ↔ All (λ line. AreNamed (listed roll.now) line.nodes) lines.now }
{
    for index in 0..lines.len() {
        if !names_behind(roll, &lines[..index], &lines[index]) {
            return false;
        }
    }
    true
}

/// Whether the line names participants, each once, where each line before it does. The paths of the
/// one before aren't looked up again.
fn names_behind(roll: &Roll<'_>, before: &[Line], line: &Line) -> bool
    requires { All (λ line. AreNamed (listed roll.now) line.nodes) before.now }
    ensures { IsTrue result ↔ AreNamed (listed roll.now) line.now.nodes }
{
    if let Some(last) = before.last() {
        if last.nodes().is_same(line.nodes()) {
            return true;
        }
    }
    are_named(roll, line.nodes())
}

/// Of lines that can't be a conflict: whom they name comes first.
fn misplaced_fault(roll: &Roll<'_>, lines: &[Line]) -> No
    ensures { First (All (λ line. AreNamed (listed roll.now) line.nodes) lines.now)
        (Fails (All (λ line. AreNamed (listed roll.now) line.nodes) lines.now) WrongNode)
        (Fails ⊥ Untrue) result }
{
    if all_named(roll, lines) {
        No::NoConflict
    } else {
        No::WrongNode
    }
}

/// Of a conflict in an attached domain, on a base with these settings. The roll has those whom
/// choices settle, the wider one also those accepted before.
pub(crate) fn fixed_conflict_fault(
    platform: &Platform,
    settings: &Settings,
    roll: &Roll<'_>,
    wider: &Roll<'_>,
    conflict: &Conflict,
) -> Result<(), No>
    ensures { (terms : Terms) (d : Forest Member) → terms.settings ≡ settings.now
        → listed roll.now ≡ settled d → listed wider.now ≡ terms.accepted ++ settled d
        → MatchResult result (λ _. IsFixedConflict platform.now terms d conflict.now)
        (ConflictFaults platform.now (Some terms) d conflict.now) }
{
    match conflict {
        Conflict::Count(line) => fixed_count_fault(wider, settings.count, line),
        Conflict::Fixed(field, node) => {
            let path = node.ordinals();
            failing_fault(roll, platform, settings, *field, path)
        }
        Conflict::Places(lines) => {
            let lines = lines.as_slice();
            if lines.len() != count_places(platform.heaps()) {
                return Err(No::WrongShape);
            }
            Err(misplaced_fault(roll, lines))
        }
        Conflict::Offers(lines) => {
            let lines = lines.as_slice();
            if !has_offers(platform, lines.len()) {
                return Err(No::WrongShape);
            }
            Err(misplaced_fault(roll, lines))
        }
    }
}
