//! The first test that a conflict fails.

ghost use Rattle.std.specs.Prelude.{◌≡◌, [], ◌∷◌, Some, None, MatchResult, is_none, length};
ghost use Rattle.std.specs.List.{AllZip};
ghost use Rattle.sysmem_memory.specs.Listed.{places_of};
ghost use Rattle.verdict_claims.specs.Matter.{forest, terms};
ghost use Rattle.verdict_claims.specs.Conflict.{IsConflict, IsConflictFor, RefusesOffer, RefusesPlace};
ghost use Rattle.sysmem_proof.specs.EachLine.{LinesOfItem};
ghost use Rattle.verdict_claims.specs.Fault.{AreNamed, ConflictFaults, Fails, First};
ghost use Rattle.verdict_claims.specs.Roll.{listed};
ghost use Rattle.verdict_claims.specs.declared.no.No.TheVariants.{WrongNode, NoConflict as Untrue};
ghost use Rattle.negotiation_inputs.specs.Platform.{offers_of};
ghost use Rattle.sysmem_tree.specs.Forest.{Forest, choices};
ghost use Rattle.sysmem_tree.specs.Selection.{IsPrefix, after};
ghost use Rattle.sysmem_tree.specs.Shape.{Member};

use super::checker::Checker;
use super::fixed_faults::{all_named, count_places, fixed_conflict_fault, has_offers};
use super::line_faults::count_fault;
use super::names::is_named;
use super::offer_lines::refuse_offers;
use super::place_lines::refuse_places;
use crate::roll::Roll;
use negotiation_inputs::Platform;
use sysmem_tree::Prefix;
use verdict_claims::{Base, Conflict, Line, No};

/// Of lines for all places of the platform.
fn places_fault(platform: &Platform, roll: &Roll<'_>, lines: &[Line]) -> Result<(), No>
    ensures { MatchResult result
        (λ _. AllZip (RefusesPlace (listed roll.now)) (places_of platform.now.heaps) lines.now)
        (LinesOfItem (length (places_of platform.now.heaps)) (listed roll.now)
        (AllZip (RefusesPlace (listed roll.now)) (places_of platform.now.heaps) lines.now)
        lines.now) }
{
    if lines.len() != count_places(platform.heaps()) {
        return Err(No::WrongShape);
    }
    if !all_named(roll, lines) {
        return Err(No::WrongNode);
    }
    if !refuse_places(roll, platform.heaps(), lines) {
        return Err(No::NoConflict);
    }
    Ok(())
}

/// Of lines for all offers of the platform; `whole` says that those on the
/// roll are all that a decision has.
fn offers_fault(platform: &Platform, roll: &Roll<'_>, whole: bool, lines: &[Line]) -> Result<(), No>
    ensures { MatchResult result
        (λ _. AllZip (RefusesOffer whole (listed roll.now)) (offers_of platform.now) lines.now)
        (LinesOfItem (length (offers_of platform.now)) (listed roll.now)
        (AllZip (RefusesOffer whole (listed roll.now)) (offers_of platform.now) lines.now)
        lines.now) }
{
    if !has_offers(platform, lines.len()) {
        return Err(No::WrongShape);
    }
    if !all_named(roll, lines) {
        return Err(No::WrongNode);
    }
    if !refuse_offers(platform, roll, whole, lines) {
        return Err(No::NoConflict);
    }
    Ok(())
}

/// Of a field in which settings fail a participant, where no settings are given: it
/// is no conflict, whomever it names.
fn unfixed_fault(roll: &Roll<'_>, path: &[u32]) -> No
    ensures { First (AreNamed (listed roll.now) (path.now ∷ []))
        (Fails (AreNamed (listed roll.now) (path.now ∷ [])) WrongNode) (Fails ⊥ Untrue) result }
{
    if is_named(roll, path) {
        No::NoConflict
    } else {
        No::WrongNode
    }
}

/// Whether no group is left after these choices.
fn is_whole(checker: &Checker<'_>, prefix: &Prefix) -> bool
    requires { IsPrefix (forest checker.now) prefix.now }
    ensures { (d : Forest Member) → after (forest checker.now) prefix.now ≡ Some d
        → result ≡ is_none (choices d) }
{
    checker.children(prefix).is_none()
}

/// Of a conflict in an initial domain, after these choices.
fn initial_conflict_fault(
    checker: &Checker<'_>,
    prefix: &Prefix,
    conflict: &Conflict,
) -> Result<(), No>
    requires { IsPrefix (forest checker.now) prefix.now }
    ensures { (d : Forest Member) → after (forest checker.now) prefix.now ≡ Some d
        → MatchResult result (λ _. IsConflict checker.now.platform d conflict.now)
        (ConflictFaults checker.now.platform None d conflict.now) }
{
    let roll = checker.settled(prefix);
    let platform = checker.platform();
    match conflict {
        Conflict::Count(line) => count_fault(&roll, line),
        Conflict::Places(lines) => places_fault(platform, &roll, lines.as_slice()),
        Conflict::Offers(lines) => {
            let whole = is_whole(checker, prefix);
            offers_fault(platform, &roll, whole, lines.as_slice())
        }
        Conflict::Fixed(_, path) => Err(unfixed_fault(&roll, path.ordinals())),
    }
}

/// Of a conflict in an attached domain on this base, after these choices.
fn attached_conflict_fault(
    checker: &Checker<'_>,
    base: &Base,
    prefix: &Prefix,
    conflict: &Conflict,
) -> Result<(), No>
    requires base { checker.now.base ≡ Some base.now }
    requires prefix { IsPrefix (forest checker.now) prefix.now }
    ensures { (d : Forest Member) → after (forest checker.now) prefix.now ≡ Some d
        → MatchResult result
        (λ _. IsConflictFor checker.now.platform (terms checker.now) d conflict.now)
        (ConflictFaults checker.now.platform (terms checker.now) d conflict.now) }
{
    let roll = checker.settled(prefix);
    let wider = checker.with_accepted(base, prefix);
    let settings = base.settings();
    fixed_conflict_fault(checker.platform(), &settings, &roll, &wider, conflict)
}

/// Of a conflict after these choices, in either kind of domain.
pub(crate) fn conflict_fault(
    checker: &Checker<'_>,
    prefix: &Prefix,
    conflict: &Conflict,
) -> Result<(), No>
    requires { IsPrefix (forest checker.now) prefix.now }
    ensures { (d : Forest Member) → after (forest checker.now) prefix.now ≡ Some d
        → MatchResult result
        (λ _. IsConflictFor checker.now.platform (terms checker.now) d conflict.now)
        (ConflictFaults checker.now.platform (terms checker.now) d conflict.now) }
{
    match checker.base() {
        None => initial_conflict_fault(checker, prefix, conflict),
        Some(base) => attached_conflict_fault(checker, base, prefix, conflict),
    }
}
