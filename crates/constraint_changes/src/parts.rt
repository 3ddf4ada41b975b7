//! Changes that are made together.

use crate::trials::{EditedCall, asked_after};
use crate::walk::Run;
use constraint_edits::{
    Amount, Change, Edit, EditedConstraints, edited, edited_alone, edited_to, leave_out, read_asked,
};
use explanation_text::ListBuilder;
use negotiation_inputs::Constraints;
use serde_json::{Value, put};
use std::alloc::{AllocError, Global};
use sysmem_memory::HeapInfo;
use value_sources::NamedParticipant;

const MEMORY: &str = "buffer_memory_constraints";

/// A change of a participant.
#[derive(Clone, Copy, PartialEq, Eq)]
pub(crate) struct PartyChange {
    /// Its index among the participants.
    pub(crate) person: usize,
    pub(crate) edit: Edit,
    /// The value that the field has then; where there is none it is left out, or the change has no
    /// value.
    pub(crate) amount: Option<Amount>,
}

impl PartyChange {
    /// Constraints with the change, on a platform with these heaps; `None` where they are so
    /// already.
    pub(crate) fn changed(
        &self,
        alloc: Global,
        value: &Value,
        heaps: &[HeapInfo],
    ) -> Result<Option<EditedConstraints>, AllocError> {
        match self.amount {
            Some(amount) => edited_to(alloc, value, self.edit, amount),
            None => edited(alloc, value, self.edit, heaps),
        }
    }

    /// The same as it is told: alone, if other values may not do.
    pub(crate) fn told(
        &self,
        alloc: Global,
        value: &Value,
        heaps: &[HeapInfo],
        is_alone: bool,
    ) -> Result<Option<EditedConstraints>, AllocError> {
        match self.amount {
            Some(amount) if is_alone => edited_alone(alloc, value, self.edit, amount),
            _ => self.changed(alloc, value, heaps),
        }
    }
}

/// The parts without those of a run.
pub(crate) fn all_but(
    alloc: Global,
    parts: &[PartyChange],
    run: Run,
) -> Result<Vec<PartyChange>, AllocError> {
    let mut others = Vec::new(alloc);
    for (k, part) in parts.iter().enumerate() {
        if k < run.start || run.end <= k {
            others.push(*part)?;
        }
    }
    Ok(others)
}

/// The parts without those that take the use by a CPU away.
pub(crate) fn with_cpu(
    alloc: Global,
    parts: &[PartyChange],
) -> Result<Vec<PartyChange>, AllocError> {
    let mut plain = Vec::new(alloc);
    for part in parts {
        if part.edit != Edit::NoCpu {
            plain.push(*part)?;
        }
    }
    Ok(plain)
}

/// Whether one of some parts takes the use by a CPU away.
pub(crate) fn takes_cpu(parts: &[PartyChange]) -> bool {
    for part in parts {
        if part.edit == Edit::NoCpu {
            return true;
        }
    }
    false
}

/// Whether one of some parts is a participant's own.
pub(crate) fn has_own(parts: &[PartyChange], person: usize) -> bool {
    for part in parts {
        if part.person == person {
            return true;
        }
    }
    false
}

/// Those of some parts that are a participant's own.
pub(crate) fn own_of(
    alloc: Global,
    parts: &[PartyChange],
    person: usize,
) -> Result<Vec<PartyChange>, AllocError> {
    let mut own = Vec::new(alloc);
    for part in parts {
        if part.person == person {
            own.push(*part)?;
        }
    }
    Ok(own)
}

/// What a participant asks after changes of its own; `None` where that has a fault.
pub(crate) fn asked_with(
    alloc: Global,
    participant: &NamedParticipant<'_>,
    own: &[PartyChange],
    heaps: &[HeapInfo],
) -> Result<Option<Constraints>, AllocError> {
    let mut changes = ListBuilder::new(alloc);
    for part in own {
        changes.add(Change::plain(part.edit, part.amount));
    }
    let changes = changes.done()?;
    if let Some(asked) = asked_after(alloc, participant, &changes)? {
        return Ok(Some(asked));
    }
    let Some(value) = participant.stated else {
        return Ok(None);
    };
    let mut now = value.clone()?;
    for part in own {
        make(alloc, &mut now, *part, heaps)?;
    }
    read_asked(alloc, &now)
}

/// A participant's constraints after those of some changes that are its own.
pub(crate) fn after(
    alloc: Global,
    value: &Value,
    person: usize,
    parts: &[PartyChange],
    heaps: &[HeapInfo],
) -> Result<Value, AllocError> {
    let mut now = value.clone()?;
    for part in parts {
        if part.person == person {
            make(alloc, &mut now, *part, heaps)?;
        }
    }
    Ok(now)
}

/// The call at a place, of which those of some changes are made that are a participant's own, who
/// states this record.
pub(crate) fn edited_call(
    alloc: Global,
    place: usize,
    value: &Value,
    own: &[PartyChange],
    heaps: &[HeapInfo],
) -> Result<EditedCall, AllocError> {
    let mut now = value.clone()?;
    let mut changes = Vec::new(alloc);
    for part in own {
        if let Some(change) = change_by(alloc, &now, *part, heaps)? {
            changes.push(change)?;
        }
        make(alloc, &mut now, *part, heaps)?;
    }
    Ok(EditedCall {
        place,
        changes,
        value: now,
    })
}

/// What a part changes of what a record states; `None` where that is so already.
fn change_by(
    alloc: Global,
    now: &Value,
    part: PartyChange,
    heaps: &[HeapInfo],
) -> Result<Option<Change>, AllocError> {
    match part.edit {
        Edit::Supports(_) | Edit::NoCount(_) | Edit::NoMemory(_) | Edit::NoBound(_) => {
            Ok(Some(Change::plain(part.edit, part.amount)))
        }
        _ => match part.changed(alloc, now, heaps)? {
            Some(changed) => Ok(Some(changed.change)),
            None => Ok(None),
        },
    }
}

/// Makes a change of constraints.
fn make(
    alloc: Global,
    now: &mut Value,
    part: PartyChange,
    heaps: &[HeapInfo],
) -> Result<(), AllocError> {
    if part.amount.is_none() && leave_out(now, part.edit) {
        return Ok(());
    }
    if support(alloc, now, part.edit)? {
        return Ok(());
    }
    if let Some(change) = part.changed(alloc, now, heaps)? {
        *now = change.into_value();
    }
    Ok(())
}

/// Has a domain supported by constraints in their place, if an edit says that and they have some of
/// memory; says whether it has.
fn support(alloc: Global, value: &mut Value, edit: Edit) -> Result<bool, AllocError> {
    let Edit::Supports(field) = edit else {
        return Ok(false);
    };
    let Some(Value::Object(members)) = value.get_mut(MEMORY) else {
        return Ok(false);
    };
    put(members, alloc, field.name(), Value::Bool(true))?;
    Ok(true)
}

/// Gives the part of an index another value.
pub(crate) fn set_amount(parts: &mut [PartyChange], index: usize, amount: Option<Amount>) {
    if let Some(part) = parts.get_mut(index) {
        part.amount = amount;
    }
}
