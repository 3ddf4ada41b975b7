//! Participants who leave no settings by themselves.

ghost use Rattle.std.specs.Prelude.{◌≡◌, ◌<◌, IfNone, IfOk, IfSome, length};
ghost use Rattle.settings_reasons.specs.True.{AreMet, IsAmong};
ghost use Rattle.value_sources.specs.Sources.{all_asked};

use crate::empty::{MOST_ASKED, in_the_way};
use negotiation_inputs::Platform;
use std::alloc::{AllocError, Global};
use std::marker::Model;
use value_sources::NamedParticipant;

/// Participants whom no settings of a platform meet, whatever others ask. They are some.
#[derive(Drop)]
pub(crate) struct InTheWay<'a, 'b> {
    platform: &'b Platform,
    participants: Vec<NamedParticipant<'a>>,
}

impl<'a, 'b> Model for InTheWay<'a, 'b> {
    ghost use Rattle.settings_reasons.specs.True.{IsInTheWay, Unmet};
    ghost use Rattle.value_sources.specs.Sources.{all_asked};

    ghost Value = { Unmet };

    ghost view = { λ u. record {
      platform = u.platform.now;
      participants = all_asked u.participants.items;
    } };

    ghost invariant = { λ u. IsInTheWay (record {
      platform = u.platform.now;
      participants = all_asked u.participants.items;
    }) };
}

impl<'a, 'b> InTheWay<'a, 'b> {
    /// Those of some who leave no settings by themselves, each of whom is needed for that; `None`
    /// where all together leave some.
    pub(crate) fn among(
        alloc: Global,
        platform: &'b Platform,
        participants: &[NamedParticipant<'a>],
    ) -> Result<Option<InTheWay<'a, 'b>>, AllocError>
        ensures some { IfOk result
            (λ found. IfSome found (IsAmong platform.now (all_asked participants.now))) }
        ensures none { IfOk result (λ found. IfNone found (0 < length participants.now
            → AreMet MOST_ASKED platform.now (all_asked participants.now))) }
    {
        match in_the_way(alloc, platform, participants)? {
            Some(participants) => Ok(Some(InTheWay {
                platform,
                participants,
            })),
            None => Ok(None),
        }
    }

    /// The platform.
    pub(crate) fn platform(&self) -> &'b Platform
        ensures { result.now ≡ self.now.platform }
    {
        self.platform
    }

    /// Who they are.
    pub(crate) fn participants(&self) -> &[NamedParticipant<'a>]
        ensures { all_asked result.now ≡ self.now.participants }
    {
        &self.participants
    }
}
