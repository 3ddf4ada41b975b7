//! Reasons against a place.

ghost use Rattle.std.specs.Prelude.{◌≡◌, Contains, IfOk, filter};
ghost use Rattle.settings_reasons.specs.True.{place_reason, place_reasons, refuses};
ghost use Rattle.sysmem_memory.specs.PlaceTable.{place_fields};
ghost use Rattle.value_sources.specs.Sources.{all_asked};

use crate::misfit::Misfit;
use std::alloc::{AllocError, Global};
use std::marker::Model;
use sysmem_counts::Field;
use sysmem_memory::{CoherencyDomain, HeapInfo, PLACE_FIELDS, refuses_in};
use value_sources::NamedParticipant;

/// A field, with participants to whom it refuses a coherency domain of a heap. They are some, and
/// it refuses it to each of them.
#[derive(Drop)]
pub(crate) struct PlaceReason<'a, 'b> {
    heap: &'b HeapInfo,
    coherency: CoherencyDomain,
    field: Field,
    participants: Vec<NamedParticipant<'a>>,
}

impl<'a, 'b> Model for PlaceReason<'a, 'b> {
    ghost use Rattle.settings_reasons.specs.True.{IsPlaceReason, PlaceRefusal};
    ghost use Rattle.value_sources.specs.Sources.{all_asked};

    ghost Value = { PlaceRefusal };

    ghost view = { λ r. record {
      heap = r.heap.now;
      domain = r.coherency;
      field = r.field;
      participants = all_asked r.participants.items;
    } };

    ghost invariant = { λ r. IsPlaceReason (record {
      heap = r.heap.now;
      domain = r.coherency;
      field = r.field;
      participants = all_asked r.participants.items;
    }) };
}

impl<'a, 'b> PlaceReason<'a, 'b> {
    /// A field with all to whom it refuses a place; `None` where it refuses it to nobody.
    pub(crate) fn of(
        alloc: Global,
        heap: &'b HeapInfo,
        coherency: CoherencyDomain,
        field: Field,
        participants: &[NamedParticipant<'a>],
    ) -> Result<Option<PlaceReason<'a, 'b>>, AllocError>
        ensures { IfOk result (λ found.
            found ≡ place_reason heap.now coherency (all_asked participants.now) field) }
    {
        let participants = refusing(alloc, heap, coherency, field, participants)?;
        if participants.is_empty() {
            return Ok(None);
        }
        Ok(Some(PlaceReason {
            heap,
            coherency,
            field,
            participants,
        }))
    }

    /// The field of a misfit, if it is one by which places are refused, with whom it names.
    pub(crate) fn of_misfit(
        alloc: Global,
        misfit: &Misfit<'a, 'b>,
    ) -> Result<PlaceReason<'a, 'b>, AllocError>
        requires { Contains place_fields misfit.now.field }
    {
        Ok(PlaceReason {
            heap: misfit.heap(),
            coherency: misfit.settings().place.coherency,
            field: misfit.field(),
            participants: vec![in alloc; misfit.participant()]?,
        })
    }

    /// The field.
    pub(crate) fn field(&self) -> Field
        ensures { result ≡ self.now.field }
    {
        self.field
    }

    /// To whom it refuses the place.
    pub(crate) fn participants(&self) -> &[NamedParticipant<'a>]
        ensures { all_asked result.now ≡ self.now.participants }
    {
        &self.participants
    }
}

/// Those to whom a field refuses a place.
fn refusing<'a>(
    alloc: Global,
    heap: &HeapInfo,
    coherency: CoherencyDomain,
    field: Field,
    participants: &[NamedParticipant<'a>],
) -> Result<Vec<NamedParticipant<'a>>, AllocError>
    ensures { IfOk result (λ those. all_asked those.items
        ≡ filter (refuses field heap.now coherency) (all_asked participants.now)) }
{
    let mut those = Vec::new(alloc);
    for participant in participants {
        let memory = participant.asked.memory();
        if refuses_in(field, memory, participant.asked.usage(), heap, coherency) {
            those.push(*participant)?;
        }
    }
    Ok(those)
}

/// Each field by which a place is refused, with all who refuse it so.
pub(crate) fn place_reasons<'a, 'b>(
    alloc: Global,
    heap: &'b HeapInfo,
    coherency: CoherencyDomain,
    participants: &[NamedParticipant<'a>],
) -> Result<Vec<PlaceReason<'a, 'b>>, AllocError>
    ensures { IfOk result (λ reasons.
        reasons.items ≡ place_reasons heap.now coherency (all_asked participants.now)) }
{
    let mut reasons = Vec::new(alloc);
    for field in &PLACE_FIELDS {
        if let Some(reason) = PlaceReason::of(alloc, heap, coherency, *field, participants)? {
            reasons.push(reason)?;
        }
    }
    Ok(reasons)
}
