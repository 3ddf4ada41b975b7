//! Reasons against each count.

ghost use Rattle.std.specs.Prelude.{◌≡◌, ◌≤◌, IfNone, IfSome, length};
ghost use Rattle.sysmem_counts.specs.Counts.{IsCountLine};
ghost use Rattle.value_sources.specs.Sources.{counts_of};

use explanation_text::TextBuilder;
use std::alloc::Global;
use std::marker::Model;
use sysmem_counts::Field;
use value_sources::{MOST_COUNTED, NamedParticipant, count_text, is_count_line};

/// A line of the conflict table on the count that is true of participants.
#[derive(Drop)]
pub(crate) struct CountReason<'a, 'b> {
    field: Field,
    participants: &'b [NamedParticipant<'a>],
}

impl<'a, 'b> Model for CountReason<'a, 'b> {
    ghost use Rattle.settings_reasons.specs.True.{CountRefusal, IsCountReason};
    ghost use Rattle.value_sources.specs.Sources.{counts_of};

    ghost Value = { CountRefusal };

    ghost view = { λ r. record { field = r.field; counts = counts_of r.participants.now } };

    ghost invariant = { λ r. IsCountReason (record {
      field = r.field;
      counts = counts_of r.participants.now;
    }) };
}

impl<'a, 'b> CountReason<'a, 'b> {
    /// A line on the count, if it is true of participants, who are at most as many as are counted.
    pub(crate) fn of(
        field: Field,
        participants: &'b [NamedParticipant<'a>],
    ) -> Option<CountReason<'a, 'b>>
        ensures some { IfSome result (λ reason.
            reason ≡ record { field = field; counts = counts_of participants.now }) }
        ensures none { IfNone result (length participants.now ≤ MOST_COUNTED
            → ¬ IsCountLine field (counts_of participants.now)) }
    {
        if participants.len() > MOST_COUNTED || !is_count_line(field, participants) {
            return None;
        }
        Some(CountReason {
            field,
            participants,
        })
    }

    /// It in words.
    pub(crate) fn text(&self, alloc: Global) -> TextBuilder {
        count_text(alloc, self.field, self.participants)
    }
}
