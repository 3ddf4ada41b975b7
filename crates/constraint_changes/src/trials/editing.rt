//! Calls of which some state edited records, each read as what is asked after the edits.

ghost use Rattle.std.specs.Prelude.{◌≡◌, map, IfOk, IfSome, IsTrue};
ghost use Rattle.serde_json.specs.View.{view};
ghost use Rattle.script_reading.specs.Seen.{call_seen};
ghost use Rattle.constraint_changes.specs.Edited.{AreEdited, IsEdited, States, edits_of, stating};

use crate::trials::trying::replaced;
use constraint_edits::{Change, is_edited};
use script_reading::{Act, Call};
use serde_json::Value;
use std::alloc::{AllocError, Global};
use sysmem_memory::HeapInfo;

/// A call whose record is edited.
#[derive(Drop)]
pub struct EditedCall {
    /// Its place, from 0.
    pub place: usize,
    /// What is changed of what it asks.
    pub changes: Vec<Change>,
    /// The record after the changes.
    pub value: Value,
}

/// The record that the call at a place states, if it states one.
#[tactic(auto, using(crate::proofs::Promises::states_at))]
pub(crate) fn stated_at<'a>(calls: &[Call<'a>], place: usize) -> Option<&'a Value>
    ensures { IfSome result (λ stated. States (map call_seen calls.now) place (view stated.now)) }
{
    let call = calls.get(place)?;
    match call.act {
        Act::SetConstraints(Some(stated)) => Some(stated.value()),
        _ => None,
    }
}

/// Whether the call at a place states a record of which another one is read as what is asked after
/// some changes, on a platform with these heaps.
#[tactic(auto, using(crate::proofs::Promises::edit_at))]
pub fn is_edit(
    alloc: Global,
    heaps: &[HeapInfo],
    calls: &[Call<'_>],
    place: usize,
    changes: &[Change],
    value: &Value,
) -> Result<bool, AllocError>
    ensures { IfOk result (λ is. IsTrue is → IsEdited heaps.now (map call_seen calls.now) place
        changes.now (stating (map call_seen calls.now) place (view value.now))) }
{
    let Some(stated) = stated_at(calls, place) else {
        return Ok(false);
    };
    let is = is_edited(alloc, heaps, changes, stated, value)?;
    Ok(is)
}

/// The calls with edited records; `None` where one isn't read as what is asked after its changes.
pub fn edited_calls<'a>(
    alloc: Global,
    heaps: &[HeapInfo],
    calls: &[Call<'a>],
    edits: &'a [EditedCall],
) -> Result<Option<Vec<Call<'a>>>, AllocError>
    ensures { IfOk result (λ made. IfSome made (λ made. AreEdited heaps.now
        (map call_seen calls.now) (edits_of edits.now) (map call_seen made.items))) }
{
    let mut made = Vec::from_slice(alloc, calls)?;
    for edit in edits {
        if !is_edit(alloc, heaps, &made, edit.place, &edit.changes, &edit.value)? {
            return Ok(None);
        }
        let next = replaced(alloc, &made, edit.place, &edit.value)?;
        made = next;
    }
    Ok(Some(made))
}
