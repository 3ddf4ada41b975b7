//! Fields in which the settings that were decided before fail those who come late.

ghost use Rattle.std.specs.Prelude.{◌≡◌, IfNone, IfSome, Some, slice_get};
ghost use Rattle.sysmem_merge.specs.Failing.{FailsOn};

use negotiation_inputs::Platform;
use std::marker::Model;
use sysmem_counts::Field;
use sysmem_memory::HeapInfo;
use sysmem_merge::{Settings, fails_in};
use value_sources::NamedParticipant;

/// A field in which settings on a platform fail a participant.
#[derive(Drop)]
pub(crate) struct Misfit<'a, 'b> {
    platform: &'b Platform,
    settings: Settings,
    participant: NamedParticipant<'a>,
    field: Field,
}

impl<'a, 'b> Model for Misfit<'a, 'b> {
    ghost use Rattle.settings_reasons.specs.True.{FailedField};
    ghost use Rattle.sysmem_merge.specs.Failing.{FailsOn};

    ghost Value = { FailedField };

    ghost view = { λ m. record {
      platform = m.platform.now;
      settings = m.settings;
      participant = m.participant.asked.now;
      field = m.field;
    } };

    ghost invariant = { λ m.
        FailsOn m.field m.platform.now m.settings m.participant.asked.now };
}

impl<'a, 'b> Misfit<'a, 'b> {
    /// That settings fail a participant in a field, if they do.
    pub(crate) fn of(
        platform: &'b Platform,
        settings: &Settings,
        participant: &NamedParticipant<'a>,
        field: Field,
    ) -> Option<Misfit<'a, 'b>>
        ensures some { IfSome result (λ misfit. misfit ≡ record {
          platform = platform.now;
          settings = settings.now;
          participant = participant.now.asked.now;
          field = field;
        }) }
        ensures none { IfNone result
            (¬ FailsOn field platform.now settings.now participant.now.asked.now) }
    {
        if !fails_in(field, platform, settings, participant.asked) {
            return None;
        }
        Some(Misfit {
            platform,
            settings: *settings,
            participant: *participant,
            field,
        })
    }

    /// The platform.
    pub(crate) fn platform(&self) -> &'b Platform
        ensures { result.now ≡ self.now.platform }
    {
        self.platform
    }

    /// The settings.
    pub(crate) fn settings(&self) -> Settings
        ensures { result ≡ self.now.settings }
    {
        self.settings
    }

    /// The heap in which the buffers lie.
    pub(crate) fn heap(&self) -> &'b HeapInfo
        ensures { slice_get self.now.platform.heaps self.now.settings.place.heap
            ≡ Some result.now }
    {
        &self.platform.heaps()[self.settings.place.heap]
    }

    /// Whom they fail.
    pub(crate) fn participant(&self) -> NamedParticipant<'a>
        ensures { result.asked.now ≡ self.now.participant }
    {
        self.participant
    }

    /// In which field.
    pub(crate) fn field(&self) -> Field
        ensures field { result ≡ self.now.field }
        ensures fails { FailsOn result self.now.platform self.now.settings self.now.participant }
    {
        self.field
    }
}
