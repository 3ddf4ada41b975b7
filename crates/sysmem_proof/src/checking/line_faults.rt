//! The first test that a line fails: that it names participants, each
//! once, and that it is true of them.

ghost use Rattle.std.specs.Prelude.{[], ◌∷◌, Any, MatchResult};
ghost use Rattle.sysmem_counts.specs.Counts.{IsCountLine, IsFixedCountLine};
ghost use Rattle.offer_fits.specs.Demands.{counts_asked};
ghost use Rattle.sysmem_merge.specs.Failing.{FailsOn};
ghost use Rattle.verdict_claims.specs.Conflict.{RefusesPlace};
ghost use Rattle.verdict_claims.specs.Fault.{LineFaults};
ghost use Rattle.verdict_claims.specs.Naming.{IsTrueOf};
ghost use Rattle.verdict_claims.specs.Roll.{listed};

use super::line_tests::{is_count_line, is_failed_at, is_fixed_count_line, is_place_line};
use super::names::{are_named, counts_named, is_named};
use crate::roll::Roll;
use negotiation_inputs::Platform;
use sysmem_counts::Field;
use sysmem_memory::{HeapInfo, Place};
use sysmem_merge::Settings;
use verdict_claims::{Line, No};

/// Of a line that says that no count suits participants.
pub(crate) fn count_fault(roll: &Roll<'_>, line: &Line) -> Result<(), No>
    ensures { MatchResult result
        (λ _. IsTrueOf (listed roll.now) line.now.nodes
        (λ ps. IsCountLine line.now.field (counts_asked ps)))
        (LineFaults (listed roll.now) (IsTrueOf (listed roll.now) line.now.nodes
        (λ ps. IsCountLine line.now.field (counts_asked ps))) line.now) }
{
    let Some(counts) = counts_named(roll, line.nodes()) else {
        return Err(No::WrongNode);
    };
    if !is_count_line(roll, &counts, line) {
        return Err(No::NoConflict);
    }
    Ok(())
}

/// Of a line that says that a count which is fixed doesn't suit participants.
pub(crate) fn fixed_count_fault(roll: &Roll<'_>, count: u32, line: &Line) -> Result<(), No>
    ensures { MatchResult result
        (λ _. IsTrueOf (listed roll.now) line.now.nodes
        (λ ps. IsFixedCountLine count line.now.field (counts_asked ps)))
        (LineFaults (listed roll.now) (IsTrueOf (listed roll.now) line.now.nodes
        (λ ps. IsFixedCountLine count line.now.field (counts_asked ps))) line.now) }
{
    let Some(counts) = counts_named(roll, line.nodes()) else {
        return Err(No::WrongNode);
    };
    if !is_fixed_count_line(roll, &counts, count, line) {
        return Err(No::NoConflict);
    }
    Ok(())
}

/// Of a line that says that a place, in this heap, is refused to a participant.
pub(crate) fn place_fault(
    roll: &Roll<'_>,
    place: Place,
    heap: &HeapInfo,
    line: &Line,
) -> Result<(), No>
    ensures { MatchResult result
        (λ _. RefusesPlace (listed roll.now) (record { place = place; heap = heap.now }) line.now)
        (LineFaults (listed roll.now)
        (RefusesPlace (listed roll.now) (record { place = place; heap = heap.now }) line.now)
        line.now) }
{
    if !are_named(roll, line.nodes()) {
        return Err(No::WrongNode);
    }
    if !is_place_line(roll, heap, place.coherency, line) {
        return Err(No::NoConflict);
    }
    Ok(())
}

/// Of a field in which settings that are fixed fail the participant at a path.
pub(crate) fn failing_fault(
    roll: &Roll<'_>,
    platform: &Platform,
    settings: &Settings,
    field: Field,
    path: &[u32],
) -> Result<(), No>
    ensures { MatchResult result
        (λ _. IsTrueOf (listed roll.now) (path.now ∷ [])
        (λ ps. Any (FailsOn field platform.now settings.now) ps))
        (LineFaults (listed roll.now) (IsTrueOf (listed roll.now) (path.now ∷ [])
        (λ ps. Any (FailsOn field platform.now settings.now) ps))
        (record { field = field; nodes = path.now ∷ [] })) }
{
    if !is_named(roll, path) {
        return Err(No::WrongNode);
    }
    if !is_failed_at(roll, platform, settings, field, path) {
        return Err(No::NoConflict);
    }
    Ok(())
}
