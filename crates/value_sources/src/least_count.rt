//! The least count that participants need, with what it comes from.

ghost use Rattle.std.specs.Prelude.{◌≡◌, ◌<◌, IfNone, IfSome, length};
ghost use Rattle.sysmem_counts.specs.Counts.{needed};
ghost use Rattle.value_sources.specs.Sources.{counts_of};

use crate::counting::{MOST_COUNTED, needed, put_why};
use crate::participant::NamedParticipant;
use explanation_text::TextBuilder;
use std::alloc::Global;
use std::marker::Model;

/// The least count that participants need. It is theirs: it comes from them, and so do its words.
#[derive(Drop)]
pub struct LeastCount<'a, 'b> {
    number: u64,
    participants: &'b [NamedParticipant<'a>],
}

impl<'a, 'b> Model for LeastCount<'a, 'b> {
    ghost use Rattle.value_sources.specs.Least.{CountOf, IsNeeded};
    ghost use Rattle.value_sources.specs.Sources.{counts_of};

    ghost Value = { CountOf };

    ghost view = { λ c. record { number = c.number; counts = counts_of c.participants.now } };

    ghost invariant = { λ c. IsNeeded (record {
      number = c.number;
      counts = counts_of c.participants.now;
    }) };
}

impl<'a, 'b> LeastCount<'a, 'b> {
    /// The least count of participants, if they are at most as many as are counted.
    pub fn of(participants: &'b [NamedParticipant<'a>]) -> Option<LeastCount<'a, 'b>>
        ensures some { IfSome result (λ least. least ≡ record {
          number = needed (counts_of participants.now);
          counts = counts_of participants.now;
        }) }
        ensures none { IfNone result (MOST_COUNTED < length participants.now) }
    {
        if participants.len() > MOST_COUNTED {
            return None;
        }
        Some(LeastCount {
            number: needed(participants),
            participants,
        })
    }

    /// The number.
    pub fn number(&self) -> u64
        ensures number { result ≡ self.now.number }
        ensures least { result ≡ needed self.now.counts }
    {
        self.number
    }

    /// Where it comes from.
    pub fn why(&self, alloc: Global) -> TextBuilder {
        let mut words = TextBuilder::new(alloc);
        put_why(&mut words, self.participants);
        words
    }
}
