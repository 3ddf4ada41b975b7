//! What a participant asks after changes, made of parts one after the other.

ghost use Rattle.std.specs.Prelude.{◌≡◌, [], ◌∷◌, map, set, slice_get, Some, None, option_and_then, option_map, if◌then◌else◌, IfOk, OnOk, IfSome, IsTrue};
ghost use Rattle.sysmem_counts.specs.Usage.{uses_cpu};
ghost use Rattle.constraint_edits.specs.Drafts.{drafted};
ghost use Rattle.constraint_edits.specs.Edited.{changed_between, edited, exchanged, naming, permitting, put_first, taking, taking_alone, with_counts, with_entries, with_heaps, with_memory, without_cpu};
ghost use Rattle.constraint_edits.specs.EditedNumbers.{counts_edited, memory_edited, supporting, unsupporting};
ghost use Rattle.constraint_edits.specs.EditedBounds.{bound_edited, bound_replaced, bound_stated, bounds_exchanged};

mod bounds;
mod entries;
mod numbers;
mod values;

use crate::amount::Amount;
use crate::change::Change;
use crate::edits::Edit;
use bitflags::Flags;
use bounds::{bound_edited, bound_replaced, bound_stated, bounds_exchanged};
use entries::{naming, taking_colour, taking_colour_alone};
use negotiation_inputs::Constraints;
use numbers::{copied_heap, copied_memory, counts_edited, counts_exchanged};
use std::alloc::{AllocError, Global};
use sysmem_counts::{CountConstraints, Field, Usage};
use sysmem_formats::{ColourSpace, Pair};
use sysmem_image::Entry;
use sysmem_memory::{HeapInfo, MemoryConstraints};
use values::is_same_field;
pub(crate) use values::{absent_amount, asks_more};

/// What a participant asks after the changes so far.
#[derive(Drop)]
pub(crate) struct Draft {
    alloc: Global,
    usage: Usage,
    counts: CountConstraints,
    memory: MemoryConstraints,
    entries: Vec<Entry>,
}

impl Draft {
    /// What a participant asks before any change.
    pub(crate) fn of(alloc: Global, asked: &Constraints) -> Result<Draft, AllocError>
        ensures { IfOk result (λ draft. drafted draft ≡ asked.now) }
    {
        Ok(Draft {
            alloc,
            usage: asked.usage(),
            counts: *asked.counts(),
            memory: copied_memory(alloc, asked.memory())?,
            entries: Vec::from_slice(alloc, asked.entries())?,
        })
    }

    /// The constraints that were drafted, if a participant may ask so.
    pub(crate) fn into_constraints(self) -> Option<Constraints>
        ensures { IfSome result (λ constraints. constraints ≡ drafted self) }
    {
        let Draft {
            alloc: _,
            usage,
            counts,
            memory,
            entries,
        } = self;
        match Constraints::of(usage, counts, memory, entries) {
            Ok(constraints) => Some(constraints),
            Err(_) => None,
        }
    }

    /// Makes a change, if it is one of what is asked.
    pub(crate) fn take(&mut self, heaps: &[HeapInfo], change: Change) -> Result<bool, AllocError>
        ensures { IfOk result (λ made. IsTrue made
            → edited heaps.now change (drafted self.old) ≡ Some (drafted self.new)) }
    {
        match change.edit {
            Edit::MeansHeap(index) => self.replace_heap(heaps, index, change.start),
            Edit::PermitsHeap(index) => self.permit(heaps, index),
            Edit::Exchanges(least, most) => self.exchange(least, most),
            Edit::Supports(field) => Ok(self.support(field)),
            Edit::NoSupport(field) => Ok(self.drop_support(field)),
            Edit::NoCount(field) => Ok(self.put_count(field, change.amount)),
            Edit::NoMemory(field) => Ok(self.put_memory(field, change.amount)),
            Edit::NoBound(field) => self.put_bound(field, change.amount),
            Edit::Replaces(field, was) => self.replace_bound(field, was, change.amount),
            Edit::States(field, amount) => self.state_bound(field, amount),
            Edit::TakesColour(colour) => self.take_colour(colour),
            Edit::TakesColourIn(colour, _) => {
                self.take_colour_in(colour, change.start, change.end)
            }
            Edit::TakesColourAlone(colour) => self.take_colour_alone(colour),
            Edit::TakesPair(pair) => self.take_pair(pair, change.start),
            Edit::NoCpu => Ok(self.drop_cpu()),
            Edit::LeastCount(count) => Ok(self.put_least(count)),
            Edit::EntryFirst(_) => self.put_first(change.start, change.end),
            Edit::PermitsAlone(index) => self.permit_alone(heaps, index),
        }
    }

    /// Permits the heap of an index in the place of a permitted one.
    fn replace_heap(
        &mut self,
        heaps: &[HeapInfo],
        index: usize,
        place: usize,
    ) -> Result<bool, AllocError>
        ensures { IfOk result (λ made. IsTrue made → option_and_then (λ info. with_heaps
            (drafted self.old) (set self.old.memory.permitted_heaps place info.heap))
            (slice_get heaps.now index) ≡ Some (drafted self.new)) }
    {
        let Some(info) = heaps.get(index) else {
            return Ok(false);
        };
        if place >= self.memory.permitted_heaps.len() {
            return Ok(false);
        }
        self.memory.permitted_heaps[place] = copied_heap(&info.heap)?;
        Ok(true)
    }

    /// Permits the heap of an index too, where some are named.
    fn permit(&mut self, heaps: &[HeapInfo], index: usize) -> Result<bool, AllocError>
        ensures { IfOk result (λ made. IsTrue made → option_and_then (λ info. permitting info.heap
            (drafted self.old)) (slice_get heaps.now index) ≡ Some (drafted self.new)) }
    {
        let Some(info) = heaps.get(index) else {
            return Ok(false);
        };
        if self.memory.permitted_heaps.as_slice().is_empty() {
            return Ok(false);
        }
        let heap = copied_heap(&info.heap)?;
        self.memory.permitted_heaps.push(heap)?;
        Ok(true)
    }

    /// Permits the heap of an index alone.
    fn permit_alone(&mut self, heaps: &[HeapInfo], index: usize) -> Result<bool, AllocError>
        ensures { IfOk result (λ made. IsTrue made → option_and_then (λ info. with_heaps
            (drafted self.old) (info.heap ∷ [])) (slice_get heaps.now index)
            ≡ Some (drafted self.new)) }
    {
        let Some(info) = heaps.get(index) else {
            return Ok(false);
        };
        let mut alone = Vec::new(self.alloc);
        alone.push(copied_heap(&info.heap)?)?;
        self.memory.permitted_heaps = alone;
        Ok(true)
    }

    /// Exchanges the values of two fields.
    fn exchange(&mut self, least: Field, most: Field) -> Result<bool, AllocError>
        ensures { IfOk result (λ made. IsTrue made
            → exchanged least most (drafted self.old) ≡ Some (drafted self.new)) }
    {
        if is_same_field(least, Field::MinBufferCount) {
            self.counts = counts_exchanged(&self.counts);
            return Ok(true);
        }
        if is_same_field(least, Field::MinSizeBytes) {
            let size = self.memory.min_size_bytes;
            self.memory.min_size_bytes = self.memory.max_size_bytes;
            self.memory.max_size_bytes = size;
            return Ok(true);
        }
        let made = bounds_exchanged(self.alloc, &self.entries, least, most)?;
        Ok(self.put_entries(made))
    }

    /// Asks with other entries, if there are some.
    fn put_entries(&mut self, entries: Option<Vec<Entry>>) -> bool
        ensures { IsTrue result → with_entries (drafted self.old)
            (option_map (λ entries. entries.items) entries) ≡ Some (drafted self.new) }
    {
        match entries {
            Some(entries) => {
                self.entries = entries;
                true
            }
            None => false,
        }
    }

    /// Sets a flag of the memory.
    fn support(&mut self, field: Field) -> bool
        ensures { IsTrue result → with_memory (drafted self.old) (supporting field self.old.memory)
            ≡ Some (drafted self.new) }
    {
        match field {
            Field::CpuDomainSupported => self.memory.cpu_domain_supported = true,
            Field::RamDomainSupported => self.memory.ram_domain_supported = true,
            Field::InaccessibleDomainSupported => {
                self.memory.inaccessible_domain_supported = true;
            }
            Field::PhysicallyContiguousRequired => {
                self.memory.physically_contiguous_required = true;
            }
            Field::SecureRequired => self.memory.secure_required = true,
            _ => return false,
        }
        true
    }

    /// Has a coherency domain not supported.
    fn drop_support(&mut self, field: Field) -> bool
        ensures { IsTrue result → with_memory (drafted self.old)
            (unsupporting field self.old.memory) ≡ Some (drafted self.new) }
    {
        match field {
            Field::CpuDomainSupported => self.memory.cpu_domain_supported = false,
            Field::RamDomainSupported => self.memory.ram_domain_supported = false,
            Field::InaccessibleDomainSupported => {
                self.memory.inaccessible_domain_supported = false;
            }
            _ => return false,
        }
        true
    }

    /// Leaves a count out, or gives it an amount.
    fn put_count(&mut self, field: Field, amount: Option<Amount>) -> bool
        ensures { IsTrue result → with_counts (drafted self.old)
            (counts_edited field amount self.old.counts) ≡ Some (drafted self.new) }
    {
        match counts_edited(&self.counts, field, amount) {
            Some(counts) => {
                self.counts = counts;
                true
            }
            None => false,
        }
    }

    /// Asks for so many buffers at least.
    fn put_least(&mut self, count: u32) -> bool
        ensures { Some (record (drafted self.old)
            { counts = record self.old.counts { min_buffer_count = count } })
            ≡ Some (drafted self.new) }
    {
        self.counts.min_buffer_count = count;
        true
    }

    /// Leaves a wish of memory out, or gives it an amount.
    fn put_memory(&mut self, field: Field, amount: Option<Amount>) -> bool
        ensures { IsTrue result → with_memory (drafted self.old)
            (memory_edited field amount self.old.memory) ≡ Some (drafted self.new) }
    {
        match (field, amount) {
            (Field::MinSizeBytes, None) => self.memory.min_size_bytes = 0,
            (Field::MinSizeBytes, Some(Amount::Number(size))) => self.memory.min_size_bytes = size,
            (Field::MaxSizeBytes, None) => self.memory.max_size_bytes = u64::MAX,
            (Field::MaxSizeBytes, Some(Amount::Number(size))) => self.memory.max_size_bytes = size,
            (Field::PhysicallyContiguousRequired, None) => {
                self.memory.physically_contiguous_required = false;
            }
            (Field::SecureRequired, None) => self.memory.secure_required = false,
            _ => return false,
        }
        true
    }

    /// Leaves a bound out, or gives it an amount.
    fn put_bound(&mut self, field: Field, amount: Option<Amount>) -> Result<bool, AllocError>
        ensures { IfOk result (λ made. IsTrue made → with_entries (drafted self.old)
            (bound_edited field amount self.old.entries.items) ≡ Some (drafted self.new)) }
    {
        let made = bound_edited(self.alloc, &self.entries, field, amount)?;
        Ok(self.put_entries(made))
    }

    /// Leaves a bound out where it has an amount, or gives it another one there.
    fn replace_bound(
        &mut self,
        field: Field,
        was: Amount,
        amount: Option<Amount>,
    ) -> Result<bool, AllocError>
        ensures { IfOk result (λ made. IsTrue made → with_entries (drafted self.old)
            (bound_replaced field was amount self.old.entries.items) ≡ Some (drafted self.new)) }
    {
        let made = bound_replaced(self.alloc, &self.entries, field, was, amount)?;
        Ok(self.put_entries(made))
    }

    /// States an amount of a bound in each entry.
    fn state_bound(&mut self, field: Field, amount: Amount) -> Result<bool, AllocError>
        ensures { IfOk result (λ made. IsTrue made → with_entries (drafted self.old)
            (bound_stated field amount self.old.entries.items) ≡ Some (drafted self.new)) }
    {
        let made = bound_stated(self.alloc, &self.entries, field, amount)?;
        Ok(self.put_entries(made))
    }

    /// Takes a colour space in each entry.
    fn take_colour(&mut self, colour: ColourSpace) -> Result<bool, AllocError>
        ensures { OnOk result (Some (record (drafted self.old)
            { entries = map (taking colour) self.old.entries.items }) ≡ Some (drafted self.new)) }
    {
        self.entries = taking_colour(self.alloc, &self.entries, colour)?;
        Ok(true)
    }

    /// Takes a colour space in the entries from one of an index on to another.
    fn take_colour_in(
        &mut self,
        colour: ColourSpace,
        start: usize,
        end: usize,
    ) -> Result<bool, AllocError>
        ensures { IfOk result (λ made. IsTrue made → Some (record (drafted self.old)
            { entries = changed_between (taking colour) start end self.old.entries.items })
            ≡ Some (drafted self.new)) }
    {
        if start > end || end > self.entries.len() {
            return Ok(false);
        }
        let old = self.entries.as_slice();
        let mut entries = Vec::from_slice(self.alloc, &old[..start])?;
        let taking = taking_colour(self.alloc, &old[start..end], colour)?;
        entries.extend_from_slice(&taking)?;
        entries.extend_from_slice(&old[end..])?;
        self.entries = entries;
        Ok(true)
    }

    /// Takes no other colour space than one in each entry that takes that.
    fn take_colour_alone(&mut self, colour: ColourSpace) -> Result<bool, AllocError>
        ensures { OnOk result (Some (record (drafted self.old)
            { entries = map (taking_alone colour) self.old.entries.items })
            ≡ Some (drafted self.new)) }
    {
        self.entries = taking_colour_alone(self.alloc, &self.entries, colour)?;
        Ok(true)
    }

    /// Takes a pair in an entry more, which is else like that of an index.
    fn take_pair(&mut self, pair: Pair, index: usize) -> Result<bool, AllocError>
        ensures { IfOk result (λ made. IsTrue made
            → option_map (λ like. record (drafted self.old)
            { entries = naming pair like ∷ self.old.entries.items })
            (slice_get self.old.entries.items index) ≡ Some (drafted self.new)) }
    {
        let Some(like) = self.entries.get(index) else {
            return Ok(false);
        };
        let mut entries = Vec::new(self.alloc);
        entries.push(naming(like, pair))?;
        entries.extend_from_slice(&self.entries)?;
        self.entries = entries;
        Ok(true)
    }

    /// Isn't used by CPUs, if it is.
    fn drop_cpu(&mut self) -> bool
        ensures { IsTrue result → (if uses_cpu self.old.usage
            then Some (record (drafted self.old) { usage = without_cpu self.old.usage }) else None)
            ≡ Some (drafted self.new) }
    {
        if !self.usage.uses_cpu() {
            return false;
        }
        self.usage = without_cpu(self.usage);
        true
    }

    /// Puts the entries from one of an index on to another before the others.
    fn put_first(&mut self, start: usize, end: usize) -> Result<bool, AllocError>
        ensures { IfOk result (λ made. IsTrue made → Some (record (drafted self.old)
            { entries = put_first start end self.old.entries.items }) ≡ Some (drafted self.new)) }
    {
        if start > end || end > self.entries.len() {
            return Ok(false);
        }
        let old = self.entries.as_slice();
        let mut entries = Vec::from_slice(self.alloc, &old[start..end])?;
        entries.extend_from_slice(&old[..start])?;
        entries.extend_from_slice(&old[end..])?;
        self.entries = entries;
        Ok(true)
    }
}

/// The use of the buffers without the CPU's.
#[tactic(auto, using(std::proofs::lemmas::Nat::and_le_l))]
fn without_cpu(usage: Usage) -> Usage
    requires { IsTrue (uses_cpu usage) }
    ensures { result ≡ without_cpu usage }
{
    if usage == Usage::CPU {
        return Usage::NONE;
    }
    Usage::from_bits_retain(usage.bits() - Usage::CPU.bits())
}
