//! Where a record contradicts itself: a least value above a greatest one in the same.

ghost use Rattle.std.specs.Prelude.{◌≡◌, false, Contains, IfNone, IfSome, option_copied};
ghost use Rattle.settings_reasons.specs.Stated.{is_above, stated_at, whole_at};

use crate::amounts::{Amount, amount_at};
use negotiation_inputs::Constraints;
use std::marker::Model;
use sysmem_counts::Field;
use sysmem_image::Entry;
use value_sources::NamedParticipant;

/// Two fields of a participant's record, of which the first is above the second: both in one of its
/// entries, or both apart from these.
#[derive(Drop)]
pub(crate) struct Clash<'a> {
    participant: NamedParticipant<'a>,
    entry: Option<&'a Entry>,
    least: Field,
    most: Field,
}

impl<'a> Model for Clash<'a> {
    ghost use Rattle.std.specs.Prelude.{option_copied};
    ghost use Rattle.settings_reasons.specs.Stated.{ClashFacts, IsClash};

    ghost Value = { ClashFacts };

    ghost view = { λ c. record {
      participant = c.participant.asked.now;
      entry = option_copied c.entry;
      least = c.least;
      most = c.most;
    } };

    ghost invariant = { λ c. IsClash (record {
      participant = c.participant.asked.now;
      entry = option_copied c.entry;
      least = c.least;
      most = c.most;
    }) };
}

impl<'a> Clash<'a> {
    /// That a field of a participant's record is above another one of it, if it is: in one of its
    /// entries, or apart from these.
    pub(crate) fn of(
        participant: NamedParticipant<'a>,
        entry: Option<&'a Entry>,
        least: Field,
        most: Field,
    ) -> Option<Clash<'a>>
        requires { IfSome (option_copied entry) (Contains participant.asked.now.entries) }
        ensures some { IfSome result (λ clash. clash ≡ record {
          participant = participant.entry.asked.now;
          entry = option_copied entry.entry;
          least = least;
          most = most;
        }) }
        ensures none { IfNone result (is_above
            (stated_at participant.entry.asked.now (option_copied entry.entry) least)
            (stated_at participant.entry.asked.now (option_copied entry.entry) most) ≡ false) }
    {
        let low = stated_at(participant.asked, entry, least);
        if !low.is_above(stated_at(participant.asked, entry, most)) {
            return None;
        }
        Some(Clash {
            participant,
            entry,
            least,
            most,
        })
    }

    /// Whose record it is.
    pub(crate) fn participant(&self) -> NamedParticipant<'a>
        ensures { result.asked.now ≡ self.now.participant }
    {
        self.participant
    }

    /// In which entry; `None` apart from these.
    pub(crate) fn entry(&self) -> Option<&'a Entry>
        ensures { option_copied result ≡ self.now.entry }
    {
        self.entry
    }

    /// The field that is above, with what it states.
    pub(crate) fn least(&self) -> (Field, Amount)
        ensures { result ≡ (
          self.now.least,
          stated_at self.now.participant self.now.entry self.now.least,
        ) }
    {
        (
            self.least,
            stated_at(self.participant.asked, self.entry, self.least),
        )
    }

    /// The field above which it is, with what that states.
    pub(crate) fn most(&self) -> (Field, Amount)
        ensures { result ≡ (
          self.now.most,
          stated_at self.now.participant self.now.entry self.now.most,
        ) }
    {
        (
            self.most,
            stated_at(self.participant.asked, self.entry, self.most),
        )
    }
}

/// What a participant states at a field: in an entry, or apart from its entries.
pub(crate) fn stated_at(asked: &Constraints, entry: Option<&Entry>, field: Field) -> Amount
    ensures { result ≡ stated_at asked.now (option_copied entry.entry) field }
{
    match entry {
        Some(entry) => amount_at(&entry.bounds.asked, field),
        None => whole_at(asked, field),
    }
}

/// What a participant states at a field apart from its entries; 0 where it is none of these.
fn whole_at(asked: &Constraints, field: Field) -> Amount
    ensures { result ≡ whole_at asked.now field }
{
    let (counts, memory) = (asked.counts(), asked.memory());
    match field {
        Field::MinBufferCount => Amount::Number(u64::from(counts.min_buffer_count)),
        Field::MaxBufferCount => Amount::Number(u64::from(counts.max_buffer_count)),
        Field::MinBufferCountForSharedSlack => {
            Amount::Number(u64::from(counts.min_buffer_count_for_shared_slack))
        }
        Field::MinSizeBytes => Amount::Number(memory.min_size_bytes),
        Field::MaxSizeBytes => Amount::Number(memory.max_size_bytes),
        _ => Amount::Number(0),
    }
}
