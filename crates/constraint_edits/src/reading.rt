//! Whether an edited record is read as what is asked after the edits.

ghost use Rattle.std.specs.Prelude.{◌≡◌, Ok, IfOk, IfSome, IsTrue};
ghost use Rattle.serde_json.specs.View.{view};
ghost use Rattle.record_reading.specs.Reading.{participant_of};
ghost use Rattle.constraint_edits.specs.EditedRecords.{IsRecordEdited};

use crate::change::{Change, apply_all};
use negotiation_inputs::Constraints;
use record_reading::Code;
use serde_json::Value;
use std::alloc::{AllocError, Global};
use sysmem_memory::HeapInfo;
use sysmem_sanitise::read_constraints;

/// The constraints of a record; `None` where it has a fault.
pub fn read_asked(alloc: Global, value: &Value) -> Result<Option<Constraints>, AllocError>
    ensures { IfOk result (λ read. IfSome read
        (λ asked. participant_of (view value.now) ≡ Ok asked)) }
{
    match read_constraints(alloc, value) {
        Ok(asked) => Ok(Some(asked)),
        Err(fault) if matches!(fault.code, Code::WantOfMemory) => Err(AllocError),
        Err(_) => Ok(None),
    }
}

/// Whether a record is read as what a participant asks after some changes that states another one,
/// on a platform with these heaps.
pub fn is_edited(
    alloc: Global,
    heaps: &[HeapInfo],
    changes: &[Change],
    stated: &Value,
    changed: &Value,
) -> Result<bool, AllocError>
    ensures { IfOk result (λ is. IsTrue is
        → IsRecordEdited heaps.now changes.now (view stated.now) (view changed.now)) }
{
    let Some(before) = read_asked(alloc, stated)? else {
        return Ok(false);
    };
    let Some(after) = apply_all(alloc, heaps, &before, changes)? else {
        return Ok(false);
    };
    match read_asked(alloc, changed)? {
        Some(read) => Ok(after.is_same(&read)),
        None => Ok(false),
    }
}
