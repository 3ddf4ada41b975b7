//! The first test that the refutations of what is earlier than a selection fail.

ghost use Rattle.std.specs.Prelude.{◌≡◌, ◌++◌, List, [], ◌∷◌, Some, MatchResult, OnOk, take};
ghost use Rattle.verdict_claims.specs.Certificate.{RefutesEarlier};
ghost use Rattle.verdict_claims.specs.Matter.{forest, terms};
ghost use Rattle.verdict_claims.specs.Conflict.{IsConflictFor};
ghost use Rattle.verdict_claims.specs.Fault.{EarlierFaults, no_list};
ghost use Rattle.sysmem_proof.specs.Walk.{FaultsBefore, RefuteBefore};
ghost use Rattle.sysmem_tree.specs.Forest.{Forest, choices};
ghost use Rattle.sysmem_tree.specs.Selection.{IsPrefix, after};
ghost use Rattle.sysmem_tree.specs.Shape.{Member};

use super::checker::Checker;
use super::refutation_faults::refutation_fault;
use sysmem_tree::Prefix;
use verdict_claims::{EarlierChoices, No, Refutation};

/// What a group without its list of refutations fails, where this choice was made for it.
fn no_list(choice: u8) -> No
    ensures { result ≡ no_list choice }
{
    if choice == 0 {
        No::WrongShape
    } else {
        No::Missing
    }
}

/// Of refutations for each choice for the next group before this one; the choices
/// are as before, unless a test fails.
fn before_fault(
    checker: &Checker<'_>,
    prefix: &mut Prefix,
    choice: u8,
    refutations: &[Refutation],
) -> Result<(), No>
    requires { IsPrefix (forest checker.now) (prefix.old ++ choice ∷ []) }
    ensures same { OnOk result (prefix.new ≡ prefix.old) }
    ensures told { (d : Forest Member) (es : List (Forest Member))
        → after (forest checker.now) prefix.old ≡ Some d → choices d ≡ Some es
        → MatchResult result (λ _. RefuteBefore checker.now.platform (terms checker.now)
        (take choice es) refutations.now)
        (FaultsBefore checker.now.platform (terms checker.now) (take choice es)
        refutations.now) }
{
    checker.few_choices();
    for index in 0..choice {
        let number = usize::from(index);
        if number >= refutations.len() {
            return Err(No::Missing);
        }
        prefix.push(index);
        refutation_fault(checker, prefix, refutations[number].items())?;
        prefix.pop();
    }
    if usize::from(choice) < refutations.len() {
        return Err(No::WrongShape);
    }
    Ok(())
}

/// Of refutations for each choice of the selection.
pub(crate) fn earlier_fault(
    checker: &Checker<'_>,
    selection: &Prefix,
    earlier: &[EarlierChoices],
) -> Result<(), No>
    requires { IsPrefix (forest checker.now) selection.now }
    ensures { MatchResult result
        (λ _. RefutesEarlier (IsConflictFor checker.now.platform (terms checker.now))
        (forest checker.now) selection.now earlier.now)
        (EarlierFaults checker.now.platform (terms checker.now) (forest checker.now) selection.now
        earlier.now) }
{
    checker.few_choices();
    let mut prefix = Prefix::new();
    let chosen = selection.choices();
    for index in 0..chosen.len() {
        let choice = chosen[index];
        if index >= earlier.len() {
            return Err(no_list(choice));
        }
        before_fault(checker, &mut prefix, choice, earlier[index].refutations())?;
        prefix.push(choice);
    }
    if chosen.len() < earlier.len() {
        return Err(No::WrongShape);
    }
    Ok(())
}
