//! A negotiation of structs.

ghost use Rattle.std.specs.Prelude.{IfErr, IfOk};
ghost use Rattle.flat_negotiation.specs.Unsettled.{AreSettled, AreUnsettled};
ghost use Rattle.flat_negotiation.specs.Written.{CanBeWritten};

use crate::parts::{FlatParticipant, FlatPlatform, Unsaid};
use crate::said::{participants_of, platform_of};
use crate::settling::settled;
use crate::unsettled::Unsettled;
use std::alloc::Global;
use sysmem_merge::Settings;

/// The most participants of one call.
pub const MOST_PARTICIPANTS: usize = 1024;

/// The best settings for all of the participants on the platform, or why there are none.
#[tactic(auto, using(crate::proofs::Writable::writable))]
pub fn negotiate(
    alloc: Global,
    platform: &FlatPlatform<'_>,
    participants: &[FlatParticipant<'_>],
) -> Result<Settings, Unsettled>
    ensures best { IfOk result (AreSettled platform.now participants.now) }
    ensures written { IfOk result CanBeWritten }
    ensures none { IfErr result (AreUnsettled platform.now participants.now) }
{
    if participants.len() > MOST_PARTICIPANTS {
        return Err(Unsettled::TooMany);
    }
    let platform = match platform_of(alloc, platform) {
        Ok(platform) => platform,
        Err(Unsaid::NoMemory) => return Err(Unsettled::NoMemory),
        Err(Unsaid::Misstated(amiss)) => return Err(Unsettled::Platform(amiss)),
    };
    let asked = participants_of(alloc, participants)?;
    settled(alloc, &platform, &asked)
}
