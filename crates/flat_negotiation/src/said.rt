//! The platform and the participants that structs state.

ghost use Rattle.std.specs.Prelude.{◌≡◌, ◌++◌, ◌∷◌, [], IfErr, IfOk, OnOk};
ghost use Rattle.std.specs.List.{AllZip};
ghost use Rattle.flat_negotiation.specs.Unsaid.{IfAmiss};
ghost use Rattle.flat_negotiation.specs.Said.{IsParticipantAmiss, IsParticipantSaid, IsPlatformAmiss, IsPlatformSaid};
ghost use Rattle.flat_negotiation.specs.Unsettled.{IsStructAmiss};

use crate::parts::{
    Amiss, FlatParticipant, FlatPlatform, Unsaid, colours_of, counts_of, entries_of, heaps_of,
    memory_of, pairs_of, usage_of,
};
use crate::unsettled::Unsettled;
use negotiation_inputs::{Constraints, Platform};
use std::alloc::{AllocError, Global};

/// The platform that the structs state. It fails where memory is refused, or where they state none.
pub fn platform_of(alloc: Global, flat: &FlatPlatform<'_>) -> Result<Platform, Unsaid>
    ensures said { IfOk result (IsPlatformSaid flat.now) }
    ensures amiss { IfErr result (IfAmiss (IsPlatformAmiss flat.now)) }
{
    let heaps = heaps_of(alloc, flat.heaps)?;
    let pairs = pairs_of(alloc, flat.pairs)?;
    let colours = colours_of(alloc, flat.colours)?;
    match Platform::of(heaps, pairs, colours) {
        Ok(platform) => Ok(platform),
        Err(field) => Err(Unsaid::Misstated(Amiss { index: 0, field })),
    }
}

/// The participant that a struct states. It fails where memory is refused, or where it states none.
pub fn participant_of(alloc: Global, flat: &FlatParticipant<'_>) -> Result<Constraints, Unsaid>
    ensures said { IfOk result (IsParticipantSaid flat.now) }
    ensures amiss { IfErr result (IfAmiss (IsParticipantAmiss flat.now)) }
{
    let memory = memory_of(alloc, flat)?;
    let entries = entries_of(alloc, flat.entries)?;
    match Constraints::of(usage_of(flat), counts_of(flat), memory, entries) {
        Ok(constraints) => Ok(constraints),
        Err(field) => Err(Unsaid::Misstated(Amiss { index: 0, field })),
    }
}

fn pushed(list: &mut Vec<Constraints>, item: Constraints) -> Result<(), AllocError>
    ensures { OnOk result (list.new.items ≡ list.old.items ++ item ∷ []) }
{
    list.push(item)?;
    Ok(())
}

/// The participants that the structs state. It fails where memory is refused, or where one states
/// none.
pub(crate) fn participants_of(
    alloc: Global,
    flats: &[FlatParticipant<'_>],
) -> Result<Vec<Constraints>, Unsettled>
    ensures said { IfOk result (λ asked. AllZip IsParticipantSaid flats.now asked.items) }
    ensures amiss { IfErr result (IsStructAmiss flats.now) }
{
    let mut asked = Vec::new(alloc);
    for who in 0..flats.len() {
        match participant_of(alloc, &flats[who]) {
            Ok(constraints) => pushed(&mut asked, constraints)?,
            Err(Unsaid::NoMemory) => return Err(Unsettled::NoMemory),
            Err(Unsaid::Misstated(amiss)) => return Err(Unsettled::Participant(who, amiss)),
        }
    }
    Ok(asked)
}
