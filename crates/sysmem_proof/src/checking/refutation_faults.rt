//! The first test that a refutation fails.

ghost use Rattle.std.specs.Prelude.{◌≡◌, ◌<◌, List, [], ◌∷◌, Some, IfOk, MatchOption, MatchResult, OnOk, drop, length, option_map};
ghost use Rattle.verdict_claims.specs.Certificate.{Refutes};
ghost use Rattle.verdict_claims.specs.Matter.{forest, terms};
ghost use Rattle.verdict_claims.specs.Conflict.{IsConflictFor};
ghost use Rattle.verdict_claims.specs.Fault.{Fails, RefutationFaults};
ghost use Rattle.sysmem_proof.specs.Walk.{AreLeft};
ghost use Rattle.verdict_claims.specs.declared.no.No.TheVariants.{WrongShape as Misshapen};
ghost use Rattle.sysmem_tree.specs.Forest.{Forest, choices};
ghost use Rattle.sysmem_tree.specs.Selection.{IsPrefix, after};
ghost use Rattle.sysmem_tree.specs.Shape.{Member};

use super::checker::Checker;
use super::conflict_faults::conflict_fault;
use sysmem_tree::Prefix;
use verdict_claims::{Item, No};

/// The children of the group that is next after the choices, if they are so many.
fn so_many_children(checker: &Checker<'_>, prefix: &Prefix, many: u64) -> Result<u8, No>
    requires { IsPrefix (forest checker.now) prefix.now }
    ensures { (d : Forest Member) → after (forest checker.now) prefix.now ≡ Some d
        → MatchResult result (λ n. (option_map length (choices d) ≡ Some n) × (n ≡ many))
        (λ why. MatchOption (choices d) (why ≡ Misshapen)
        (λ es. Fails (length es ≡ many) Misshapen why)) }
{
    match checker.children(prefix) {
        Some(children) if u64::from(children) == many => Ok(children),
        _ => Err(No::WrongShape),
    }
}

/// Reads the items from `start` on that are to refute what the choices leave, and answers where
/// they end, and then the choices are as before; or the first test that they fail.
fn refuted_to(
    checker: &Checker<'_>,
    prefix: &mut Prefix,
    items: &[Item],
    start: usize,
) -> Result<usize, No>
    requires { IsPrefix (forest checker.now) prefix.old }
    ensures same { OnOk result (prefix.new ≡ prefix.old) }
    ensures on { IfOk result (λ end. start < end) }
    ensures told { (d : Forest Member) (ds : List (Forest Member))
        → after (forest checker.now) prefix.old ≡ Some d → MatchResult result
        (λ end. AreLeft checker.now.platform (terms checker.now) (drop start items.now) (d ∷ ds)
        (drop end items.now) ds)
        (RefutationFaults checker.now.platform (terms checker.now) (drop start items.now)
        (d ∷ ds)) }
{
    if start >= items.len() {
        return Err(No::Missing);
    }
    match &items[start] {
        Item::Leaf(conflict) => {
            conflict_fault(checker, prefix, conflict)?;
            Ok(start + 1)
        }
        Item::Split(many) => {
            checker.few_choices();
            let children = so_many_children(checker, prefix, *many)?;
            let mut at = start + 1;
            for choice in 0..children {
                prefix.push(choice);
                at = refuted_to(checker, prefix, items, at)?;
                prefix.pop();
            }
            Ok(at)
        }
    }
}

/// Of items that are to refute what the choices leave; the choices
/// are as before, unless a test fails.
pub(crate) fn refutation_fault(
    checker: &Checker<'_>,
    prefix: &mut Prefix,
    items: &[Item],
) -> Result<(), No>
    requires { IsPrefix (forest checker.now) prefix.old }
    ensures same { OnOk result (prefix.new ≡ prefix.old) }
    ensures told { (d : Forest Member) → after (forest checker.now) prefix.old ≡ Some d
        → MatchResult result (λ _. Refutes
        (IsConflictFor checker.now.platform (terms checker.now)) items.now (d ∷ []))
        (RefutationFaults checker.now.platform (terms checker.now) items.now (d ∷ [])) }
{
    let end = refuted_to(checker, prefix, items, 0)?;
    if end < items.len() {
        return Err(No::WrongShape);
    }
    Ok(())
}
