//! A change of one participant's constraints, as it is told, and what the participant asks then.

ghost use Rattle.std.specs.Prelude.{◌≡◌, Some, IfOk, IfSome};
ghost use Rattle.constraint_edits.specs.Edited.{edited_by};

use crate::amount::Amount;
use crate::applying::Draft;
use crate::edits::Edit;
use negotiation_inputs::Constraints;
use std::alloc::{AllocError, Global};
use sysmem_memory::HeapInfo;

/// A change of one participant: an edit, with the value that its field has then, and what it is of.
#[derive(Clone, Copy, PartialEq, Eq)]
pub struct Change {
    pub edit: Edit,
    /// The value of the field; where there is none the field is left out, or the edit has no value.
    pub amount: Option<Amount>,
    /// The first of the entries, or the permitted heap, that the edit is of; 0 where it isn't of
    /// one.
    pub start: usize,
    /// Behind the last of the entries that it is of.
    pub end: usize,
}

impl Change {
    /// An edit that is of no entry and no heap.
    pub fn plain(edit: Edit, amount: Option<Amount>) -> Change
        ensures { result ≡ record { edit = edit; amount = amount; start = 0; end = 0 } }
    {
        Change {
            edit,
            amount,
            start: 0,
            end: 0,
        }
    }
}

/// What a participant asks after some changes, made one after the other, on a platform with these
/// heaps. `None` where one is no change of what it asks then, or no participant may ask what comes
/// at last.
pub fn apply_all(
    alloc: Global,
    heaps: &[HeapInfo],
    asked: &Constraints,
    changes: &[Change],
) -> Result<Option<Constraints>, AllocError>
    ensures { IfOk result (λ made. IfSome made
        (λ after. edited_by heaps.now changes.now asked.now ≡ Some after)) }
{
    let mut draft = Draft::of(alloc, asked)?;
    for change in changes {
        if !draft.take(heaps, *change)? {
            return Ok(None);
        }
    }
    Ok(draft.into_constraints())
}
