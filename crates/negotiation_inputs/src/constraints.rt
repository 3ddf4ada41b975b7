//! What a participant asks of the buffers.

ghost use Rattle.std.specs.Prelude.{◌≡◌, ◌≤◌, ◌↔◌, length, false, All, AllPairs, IfErr, IfOk, IsTrue};
ghost use Rattle.sysmem_memory.specs.Heap.{same_heap};
ghost use Rattle.negotiation_inputs.specs.Amiss.{ParticipantAmiss};
ghost use Rattle.negotiation_inputs.specs.Equal.{same_participant};
ghost use Rattle.negotiation_inputs.specs.EqualLaws.{participant_laws};
ghost use Rattle.negotiation_inputs.specs.Participant.{IsParticipant, IsUsage, IsEntry, AreApart};
ghost use Rattle.negotiation_inputs.specs.Heaps.{IsHeapName};
ghost use Rattle.sysmem_memory.specs.declared.bounds.TheConstants.{MOST_HEAPS};

use crate::amiss::amiss_in_participant;
use crate::equal::is_same_memory;
use std::marker::Model;
use sysmem_counts::{CountConstraints, Field, Usage};
use sysmem_image::Entry;
use sysmem_memory::MemoryConstraints;

/// The greatest alignment or divisor that an entry may have.
pub const MOST_MULTIPLE: u64 = 65_536;

/// How many entries a participant has at most: formats that it asks for, each with a modifier.
pub const MOST_ENTRIES: usize = 64;

/// The constraints of one participant. Its usage is `none` alone or some other families. It permits
/// at most 64 heaps and has at most 64 entries, none of them twice. In an entry alignments and
/// divisors are 1 to 65,536, what is least is 1 or more, there is some colour space, and no tiled
/// modifier goes with a format that isn't of 4 bytes.
#[derive(Debug)]
pub struct Constraints {
    usage: Usage,
    counts: CountConstraints,
    memory: MemoryConstraints,
    entries: Vec<Entry>,
}

impl Drop for Constraints {
    fn drop(self) {
        let Constraints {
            usage: _,
            counts: _,
            memory: _,
            entries: _,
        } = self;
    }
}

impl Model for Constraints {
    ghost use Rattle.negotiation_inputs.specs.Participant.{Participant, IsParticipant};

    ghost Value = { Participant };

    ghost view = { λ c. record {
      usage = c.usage;
      counts = c.counts;
      memory = c.memory;
      entries = c.entries.items;
    } };

    ghost invariant = { λ c. IsParticipant c.usage c.memory c.entries.items };
}

impl PartialEq for Constraints {
    ghost eq = { same_participant };

    ghost laws = { participant_laws };

    fn eq(&self, other: &Constraints) -> bool {
        self.counts == other.counts
            && self.usage == other.usage
            && is_same_memory(&self.memory, &other.memory)
            && self.entries.as_slice() == other.entries.as_slice()
    }
}

impl Constraints {
    /// The constraints of the parts of a participant. Where it isn't known that they are such
    /// parts, `of` tests them.
    pub fn new(
        usage: Usage,
        counts: CountConstraints,
        memory: MemoryConstraints,
        entries: Vec<Entry>,
    ) -> Constraints
        requires { IsParticipant usage memory entries.items }
        ensures { result
            ≡ record { usage = usage; counts = counts; memory = memory; entries = entries.items } }
    {
        Constraints {
            usage,
            counts,
            memory,
            entries,
        }
    }

    /// The constraints of these parts. It fails with a field in which no participant is so, where
    /// they are the parts of none; where an entry is amiss, with the field in which it is.
    pub fn of(
        usage: Usage,
        counts: CountConstraints,
        memory: MemoryConstraints,
        entries: Vec<Entry>,
    ) -> Result<Constraints, Field>
        ensures made { IfOk result (λ constraints. constraints
            ≡ record { usage = usage; counts = counts; memory = memory; entries = entries.items }) }
        ensures taken { IfOk result (λ _. IsParticipant usage memory entries.items) }
        ensures refused { IfErr result (λ _. IsParticipant usage memory entries.items → ⊥) }
        ensures amiss { IfErr result (λ field. ParticipantAmiss field usage memory entries.items) }
    {
        match amiss_in_participant(usage, &memory, &entries) {
            Some(field) => Err(field),
            None => Ok(Constraints::new(usage, counts, memory, entries)),
        }
    }

    /// What the participant does with the buffers: nothing, which is `none` alone, or some other
    /// families.
    pub fn usage(&self) -> Usage
        ensures usage { result ≡ self.now.usage }
        ensures families { IsUsage result }
    {
        self.usage
    }

    /// How many buffers it asks for.
    pub fn counts(&self) -> &CountConstraints
        ensures { result.now ≡ self.now.counts }
    {
        &self.counts
    }

    /// The sizes and the places that it takes, its permitted heaps among them: at most 64, no two
    /// of one type and id.
    pub fn memory(&self) -> &MemoryConstraints
        ensures memory { result.now ≡ self.now.memory }
        ensures few { length result.now.permitted_heaps ≤ MOST_HEAPS }
        ensures distinct { AllPairs (λ a b. same_heap a b ≡ false) result.now.permitted_heaps }
        ensures named { All IsHeapName result.now.permitted_heaps }
    {
        &self.memory
    }

    /// The image formats that it takes, in its order, each with its bounds on such images: at most
    /// 64, no two of one format and modifier. A participant without entries takes every offer.
    pub fn entries(&self) -> &[Entry]
        ensures entries { result.now ≡ self.now.entries }
        ensures few { length result.now ≤ MOST_ENTRIES }
        ensures distinct { AllPairs AreApart result.now }
        ensures each { All IsEntry result.now }
    {
        &self.entries
    }

    /// Whether the other asks the same in all that it states.
    pub fn is_same(&self, other: &Constraints) -> bool
        ensures { IsTrue result ↔ (self.now ≡ other.now) }
    {
        self == other
    }
}
