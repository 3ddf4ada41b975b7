//! Constraints with one field changed.

ghost use Rattle.std.specs.Prelude.{◌≡◌, IfOk, IfSome};

use crate::amount::Amount;
use crate::change::Change;
use crate::exchanging::{exchanged, exchanges};
use crate::locating::change_of;
use crate::objects::{
    ENTRIES, MEMORY, entries_of, have, lacking, members_in, put_values, with, words_without,
};
use crate::permitting::{
    meaning, means, permits_more, permits_others, permitting, permitting_alone,
};
use crate::stating::{can_state, stating};
use crate::taking::{
    putting_first, recolours, recolours_in, taking_colour, taking_colour_in, taking_pair,
};
use crate::using::{asking_for, asks_for, has_cpu, without_cpu};
use explanation_text::{Deed, Fact, ListBuilder, Said, Text, TextBuilder};
use serde_json::Value;
use std::alloc::{AllocError, Global};
use sysmem_counts::Field;
use sysmem_formats::{ColourSpace, Pair};
use sysmem_memory::HeapInfo;

/// A change of one field of one participant.
#[derive(Clone, Copy, PartialEq, Eq)]
pub enum Edit {
    /// A heap is permitted in the place of one that nearly has its name: the heap of an index.
    MeansHeap(usize),
    /// Two fields are exchanged wherever the first is above the second, which is to be above it.
    Exchanges(Field, Field),
    /// A flag of the memory is set: a coherency domain is supported, or contiguous or secure memory
    /// is needed.
    Supports(Field),
    /// A coherency domain isn't supported.
    NoSupport(Field),
    /// A field of the counts is left out.
    NoCount(Field),
    /// A field of the memory is left out.
    NoMemory(Field),
    /// A bound is left out of all entries.
    NoBound(Field),
    /// A bound has another amount where entries state it with this one: with an amount alone.
    Replaces(Field, Amount),
    /// A bound is stated by all entries with this amount.
    States(Field, Amount),
    /// A colour space is taken by all entries too.
    TakesColour(ColourSpace),
    /// A colour space is taken by the entry of an index too, from 0.
    TakesColourIn(ColourSpace, usize),
    /// A colour space is the only one that is taken by each entry that takes it.
    TakesColourAlone(ColourSpace),
    /// A format with a modifier is taken by an entry more.
    TakesPair(Pair),
    /// A heap is permitted too: the heap of an index.
    PermitsHeap(usize),
    /// No CPU uses the buffers.
    NoCpu,
    /// So many buffers are asked for at least.
    LeastCount(u32),
    /// The entry of an index, from 0, stands before the others.
    EntryFirst(usize),
    /// One heap alone is permitted: the heap of an index.
    PermitsAlone(usize),
}

impl Edit {
    /// The field that it leaves out, or of which it replaces a value.
    pub(crate) fn left_out(self) -> Option<Field> {
        match self {
            Edit::NoCount(field)
            | Edit::NoMemory(field)
            | Edit::NoBound(field)
            | Edit::Replaces(field, _) => Some(field),
            _ => None,
        }
    }
}

/// The changes that go by no platform and are tried first.
const FIRST: [Edit; 27] = [
    Edit::Supports(Field::RamDomainSupported),
    Edit::Supports(Field::CpuDomainSupported),
    Edit::Supports(Field::InaccessibleDomainSupported),
    Edit::NoBound(Field::MaxSize),
    Edit::NoBound(Field::RequiredMinSize),
    Edit::NoBound(Field::MaxBytesPerRow),
    Edit::NoBound(Field::MaxWidthTimesHeight),
    Edit::NoMemory(Field::MaxSizeBytes),
    Edit::NoCount(Field::MaxBufferCount),
    Edit::Exchanges(Field::MinBufferCount, Field::MaxBufferCount),
    Edit::Exchanges(Field::MinSizeBytes, Field::MaxSizeBytes),
    Edit::Exchanges(Field::MinSize, Field::MaxSize),
    Edit::Exchanges(Field::MinSize, Field::RequiredMinSize),
    Edit::Exchanges(Field::RequiredMaxSize, Field::MaxSize),
    Edit::Exchanges(Field::MinBytesPerRow, Field::MaxBytesPerRow),
    Edit::NoBound(Field::MinSize),
    Edit::NoBound(Field::RequiredMaxSize),
    Edit::NoBound(Field::MinBytesPerRow),
    Edit::NoMemory(Field::MinSizeBytes),
    Edit::NoCount(Field::MinBufferCount),
    Edit::NoCount(Field::MinBufferCountForCamping),
    Edit::NoCount(Field::MinBufferCountForDedicatedSlack),
    Edit::NoCount(Field::MinBufferCountForSharedSlack),
    Edit::NoBound(Field::SizeAlignment),
    Edit::NoBound(Field::BytesPerRowDivisor),
    Edit::NoBound(Field::StartOffsetDivisor),
    Edit::NoBound(Field::DisplayRectAlignment),
];

/// Those that drop what a participant demands of a buffer or does with it, and are tried last.
const LAST: [Edit; 3] = [
    Edit::NoMemory(Field::PhysicallyContiguousRequired),
    Edit::NoMemory(Field::SecureRequired),
    Edit::NoCpu,
];

/// The changes that are tried on a platform with these heaps, pairs and colour spaces, those that
/// are mostly meant first.
pub fn edits_on(
    alloc: Global,
    heaps: usize,
    pairs: &[Pair],
    colours: &[ColourSpace],
) -> Result<Vec<Edit>, AllocError> {
    let mut edits: Vec<Edit> = Vec::new(alloc);
    for heap in 0..heaps {
        edits.push(Edit::MeansHeap(heap))?;
    }
    edits.extend_from_slice(&FIRST)?;
    for colour in colours {
        edits.push(Edit::TakesColour(*colour))?;
    }
    for pair in pairs {
        edits.push(Edit::TakesPair(*pair))?;
    }
    for heap in 0..heaps {
        edits.push(Edit::PermitsHeap(heap))?;
    }
    edits.extend_from_slice(&LAST)?;
    Ok(edits)
}

/// A record of constraints after an edit, with what is changed in words.
pub(crate) struct EditedRecord {
    pub(crate) value: Value,
    pub(crate) words: Text,
}

impl Drop for EditedRecord {
    fn drop(self) {
        let EditedRecord { value: _, words: _ } = self;
    }
}

impl EditedRecord {
    /// The constraints, and what is changed.
    pub(crate) fn into_parts(self) -> (Value, Text)
        ensures value { result.0 ≡ self.value }
        ensures words { result.1 ≡ self.words }
    {
        let EditedRecord { value, words } = self;
        (value, words)
    }

    /// What is changed, with these as the memory of the constraints.
    pub(crate) fn in_memory_of(
        self,
        alloc: Global,
        constraints: &Value,
    ) -> Result<EditedRecord, AllocError>
        ensures { IfOk result (λ made. made.words ≡ self.words) }
    {
        let (memory, words) = self.into_parts();
        let value = with(alloc, Some(constraints), MEMORY, memory)?;
        Ok(EditedRecord { value, words })
    }

    /// The same, of this change.
    pub(crate) fn by(self, change: Change) -> EditedConstraints
        ensures change { result.change ≡ change }
        ensures value { result.value ≡ self.value }
        ensures words { result.words ≡ self.words }
    {
        let (value, words) = self.into_parts();
        EditedConstraints {
            change,
            value,
            words,
        }
    }
}

/// A change, the record of the constraints after it, and what is changed in words.
pub struct EditedConstraints {
    pub change: Change,
    pub value: Value,
    pub words: Text,
}

impl Drop for EditedConstraints {
    fn drop(self) {
        let EditedConstraints {
            change: _,
            value: _,
            words: _,
        } = self;
    }
}

impl EditedConstraints {
    /// The constraints alone.
    pub fn into_value(self) -> Value
        ensures { result ≡ self.value }
    {
        let EditedConstraints {
            change: _,
            value,
            words: _,
        } = self;
        value
    }

    /// The constraints, and what is changed.
    pub fn into_parts(self) -> (Value, Text)
        ensures value { result.0 ≡ self.value }
        ensures words { result.1 ≡ self.words }
    {
        let EditedConstraints {
            change: _,
            value,
            words,
        } = self;
        (value, words)
    }
}

/// The constraints with an edit, on a platform with these heaps; `None` where they are so already.
pub fn edited(
    alloc: Global,
    value: &Value,
    edit: Edit,
    heaps: &[HeapInfo],
) -> Result<Option<EditedConstraints>, AllocError>
    ensures { IfOk result (λ made. IfSome made (λ changed. changed.change.edit ≡ edit)) }
{
    match record_after(alloc, value, edit, heaps)? {
        Some(made) => Ok(Some(made.by(change_of(alloc, value, edit, heaps)?))),
        None => Ok(None),
    }
}

fn record_after(
    alloc: Global,
    value: &Value,
    edit: Edit,
    heaps: &[HeapInfo],
) -> Result<Option<EditedRecord>, AllocError> {
    match edit {
        Edit::MeansHeap(index) => meaning(alloc, value, heaps, index),
        Edit::Exchanges(least, most) => exchanged(alloc, value, least, most),
        Edit::Supports(field) => setting(alloc, value, field, true),
        Edit::NoSupport(field) => setting(alloc, value, field, false),
        Edit::NoCount(field) => without(alloc, value, field),
        Edit::NoMemory(field) => without_memory(alloc, value, field),
        Edit::NoBound(field) => without_bound(alloc, value, field),
        Edit::Replaces(_, _) => Ok(None),
        Edit::States(field, amount) => stating(alloc, value, field, amount),
        Edit::TakesColour(colour) => taking_colour(alloc, value, colour.name(), false),
        Edit::TakesColourIn(colour, index) => taking_colour_in(alloc, value, colour.name(), index),
        Edit::TakesColourAlone(colour) => taking_colour(alloc, value, colour.name(), true),
        Edit::TakesPair(pair) => taking_pair(alloc, value, pair),
        Edit::PermitsHeap(index) => permitting(alloc, value, heaps.get(index)),
        Edit::NoCpu => without_cpu(alloc, value),
        Edit::LeastCount(count) => asking_for(alloc, value, count),
        Edit::EntryFirst(index) => putting_first(alloc, value, index),
        Edit::PermitsAlone(index) => permitting_alone(alloc, value, heaps.get(index)),
    }
}

/// Whether a change makes constraints other ones, on a platform with these heaps.
pub fn changes(
    alloc: Global,
    value: &Value,
    edit: Edit,
    heaps: &[HeapInfo],
) -> Result<bool, AllocError> {
    Ok(match edit {
        Edit::MeansHeap(index) => return means(alloc, value, heaps, index),
        Edit::Exchanges(least, most) => exchanges(value, least.name(), most.name()),
        Edit::Supports(field) => !has_flag(value, field),
        Edit::NoSupport(field) => has_flag(value, field),
        Edit::NoCount(field) => value.get(field.name()).is_some(),
        Edit::NoMemory(field) => memory_of(value, field.name()).is_some(),
        Edit::NoBound(field) => have(value, field.name()),
        Edit::Replaces(_, _) => false,
        Edit::States(field, amount) => can_state(value, field, amount),
        Edit::TakesColour(colour) => recolours(alloc, value, colour.name(), false)?,
        Edit::TakesColourIn(colour, index) => recolours_in(alloc, value, colour.name(), index)?,
        Edit::TakesColourAlone(colour) => recolours(alloc, value, colour.name(), true)?,
        Edit::TakesPair(_) => !entries_of(value).is_empty(),
        Edit::PermitsHeap(index) => permits_more(value, heaps.get(index)),
        Edit::NoCpu => has_cpu(value),
        Edit::LeastCount(count) => !asks_for(value, count),
        Edit::EntryFirst(index) => 0 < index && index < entries_of(value).len(),
        Edit::PermitsAlone(index) => permits_others(value, heaps.get(index)),
    })
}

/// Whether a flag of the memory is set by constraints.
fn has_flag(value: &Value, field: Field) -> bool {
    match memory_of(value, field.name()) {
        Some(stated) => stated.as_bool() == Some(true),
        None => field == Field::CpuDomainSupported,
    }
}

/// Gives a flag of the memory another value, which is this.
fn setting(
    alloc: Global,
    value: &Value,
    field: Field,
    is_set: bool,
) -> Result<Option<EditedRecord>, AllocError> {
    if has_flag(value, field) == is_set {
        return Ok(None);
    }
    let key = field.name();
    let stated = memory_of(value, key);
    let object = with(alloc, value.get(MEMORY), key, Value::Bool(is_set))?;
    let mut words = TextBuilder::new(alloc);
    words.field(field).put(match (stated, is_set) {
        (Some(_), true) => " false becomes true",
        (Some(_), false) => " true becomes false",
        (None, true) => " (absent, so false) becomes true",
        (None, false) => " (absent, so true) becomes false",
    });
    words.tell(Fact::Change(Deed::Set {
        field,
        was: stated.map(|_stated| Said::Flag(!is_set)),
        value: Said::Flag(is_set),
    }));
    Ok(Some(EditedRecord {
        value: with(alloc, Some(value), MEMORY, object)?,
        words: words.into_text()?,
    }))
}

/// What the memory of constraints states of a field.
fn memory_of<'a>(value: &'a Value, key: &str) -> Option<&'a Value> {
    value.get(MEMORY)?.get(key)
}

fn without(alloc: Global, value: &Value, field: Field) -> Result<Option<EditedRecord>, AllocError> {
    let key = field.name();
    let Some(member) = value.get(key) else {
        return Ok(None);
    };
    Ok(Some(EditedRecord {
        value: lacking(alloc, value, key)?,
        words: words_without(alloc, field, member).into_text()?,
    }))
}

fn without_memory(
    alloc: Global,
    value: &Value,
    field: Field,
) -> Result<Option<EditedRecord>, AllocError> {
    let Some(memory) = value.get(MEMORY) else {
        return Ok(None);
    };
    let Some(change) = without(alloc, memory, field)? else {
        return Ok(None);
    };
    Ok(Some(change.in_memory_of(alloc, value)?))
}

fn without_bound(
    alloc: Global,
    value: &Value,
    field: Field,
) -> Result<Option<EditedRecord>, AllocError> {
    let key = field.name();
    if !have(value, key) {
        return Ok(None);
    }
    let mut copy = ListBuilder::new(alloc);
    for entry in entries_of(value) {
        copy.add(lacking(alloc, entry, key)?);
    }
    let mut words = TextBuilder::new(alloc);
    words.field(field).put(" ");
    let was = put_values(&mut words, &members_in(alloc, entries_of(value), key)?)?;
    words.put(" left out");
    words.tell(Fact::Change(Deed::LeaveOut(field, was)));
    with_entries(alloc, value, copy.done()?, words.into_text()?)
}

/// The constraints with other entries, and what is changed; `None` where nothing is.
pub(crate) fn with_entries(
    alloc: Global,
    value: &Value,
    entries: Vec<Value>,
    words: Text,
) -> Result<Option<EditedRecord>, AllocError> {
    if words.is_empty() {
        return Ok(None);
    }
    Ok(Some(EditedRecord {
        value: with(alloc, Some(value), ENTRIES, Value::Array(entries))?,
        words,
    }))
}
