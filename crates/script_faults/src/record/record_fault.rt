//! A record's first fault, in words.

use crate::help::{Help, did_you_mean, missing};
use crate::record::document::{Document, RecordPart};
use crate::record::firsts::put_first_like;
use crate::record::keys::{SIZE, is_one_of, kind_at, names_of, put_allowed, range_of};
use crate::record::kinds::{
    flag_in, heap_type_like, is_number_within, wrong_kind, wrong_number, wrong_value,
};
use crate::record::leaving::{lacks_needed, what_goes};
use crate::record::list_fault::{free_id, is_linear_beside, note_of_list, tiled_formats};
use crate::record::names::{ANY, hint_of_name, names_for};
use crate::record::numbers::number_meant;
use crate::record::objects_meant::{object_of, objects_of};
use crate::record::on_platform::{colours_text, heap_types, only_tiling};
use crate::record::owners::places_in;
use crate::record::paths::{Path, joined, with};
use crate::record::record_place::place_of;
use crate::record::sides::{side_of, sides_in, sides_of, size_text};
use crate::record::unknown::{first_unknown, key_of};
use crate::record::unknown_key::{Elsewhere, KeyHelp, UnknownKey};
use explanation_text::{Items, ListBuilder, Meant, Moved, Renamed, Step, TextBuilder, nearest};
use record_reading::{
    Code, ENTRY_FIELDS, Fault, FaultPlace, HEAP_FIELDS, HEAP_NAME_FIELDS, MEMORY_FIELDS,
    PAIR_FIELDS, PLATFORM_FIELDS,
};
use serde_json::Value;
use std::alloc::{AllocError, Global};
use sysmem_counts::{Field, Kind};
use sysmem_sanitise::CONSTRAINTS_FIELDS;

const ID: &str = "id";

/// What is said of a key that an object can't have.
const UNKNOWN: &str = "unknown key";

/// The first fault of a record, and where it is.
#[derive(Clone, Copy)]
struct Faulty<'a, 'b> {
    document: &'b Document<'a>,
    /// Below how many items it is told.
    depth: usize,
    /// The record's path in the text.
    base: &'b [Step<'a>],
    /// The fault's.
    path: &'b [Step<'a>],
    fault: Fault,
    is_platform: bool,
}

impl Faulty<'_, '_> {
    /// What is allowed at the field, after a word.
    fn allowed(&self, alloc: Global, word: &str) -> Help {
        Help::of(help_allowed(alloc, word, self.fault.at, self.is_platform))
    }

    /// Points at a part of what stands at a path, with one sentence of what helps.
    fn advise(
        &self,
        items: &mut Items,
        path: &[Step<'_>],
        part: RecordPart,
        note: &str,
        help: Help,
    ) {
        self.document
            .advise(items, self.depth, path, part, note, help)
    }

    /// The same of a value, with a note that is put together.
    fn tell(&self, items: &mut Items, path: &[Step<'_>], note: TextBuilder, help: Help) {
        self.document
            .tell(items, self.depth, path, RecordPart::Value, note, help)
    }

    /// Points at an object that lacks a member.
    fn tell_missing(&self, items: &mut Items, object: &[Step<'_>], name: &str, help: Help) {
        let note = missing(items.alloc(), name);
        self.document
            .tell(items, self.depth, object, RecordPart::Begin, note, help)
    }
}

/// Tells the first fault of the record at a path.
pub fn add_record_fault<'a>(
    items: &mut Items,
    depth: usize,
    document: &Document<'a>,
    base: &[Step<'a>],
    fault: Fault,
    is_platform: bool,
) -> Result<(), AllocError> {
    let Some(record) = document.at(base) else {
        return Ok(());
    };
    let path = path_of(items.alloc(), base, record, fault, is_platform)?;
    let faulty = Faulty {
        document,
        depth,
        base,
        path: &path,
        fault,
        is_platform,
    };
    match document.at(&path) {
        Some(value) => add_value(items, faulty, value)?,
        None => add_missing(items, faulty),
    }
    Ok(())
}

/// The path from the whole to the value that the first fault of the record at a path is about.
fn path_of<'a>(
    alloc: Global,
    base: &[Step<'a>],
    record: &Value,
    fault: Fault,
    is_platform: bool,
) -> Result<Path<'a>, AllocError> {
    let place = place_of(alloc, record, fault, is_platform)?;
    joined(alloc, base, &place)
}

/// Tells what is wrong with a value that is there.
fn add_value<'a>(
    items: &mut Items,
    faulty: Faulty<'a, '_>,
    value: &'a Value,
) -> Result<(), AllocError> {
    let is_size = kind_at(faulty.fault.at.name()) == Kind::Sides;
    match faulty.fault.code {
        Code::UnknownField => add_object(items, faulty, value)?,
        Code::WrongKind if is_size && value.is_object() => add_object(items, faulty, value)?,
        Code::UnknownName => add_name(items, faulty, value)?,
        Code::WrongKind => add_kind(items, faulty, value)?,
        Code::BadMultiple if value.is_object() => add_side(items, faulty, value)?,
        Code::BadMultiple => add_number(items, faulty, faulty.path, value)?,
        Code::NotAnObject => add_no_object(items, faulty, value),
        _ => add_list(items, faulty, value)?,
    }
    Ok(())
}

/// What is allowed at a field, after a word.
fn help_allowed(alloc: Global, word: &str, at: FaultPlace, is_platform: bool) -> TextBuilder {
    let mut words = TextBuilder::of(alloc, word);
    words.put(": ");
    match at {
        FaultPlace::At(field) => put_allowed(&mut words, field, is_platform),
        FaultPlace::Whole => {
            words.put("an object");
        }
    }
    words
}

/// A field that isn't there: the object that lacks it is pointed at.
fn add_missing(items: &mut Items, faulty: Faulty<'_, '_>) {
    let at = faulty.fault.at;
    let last = faulty.path.len().saturating_sub(1);
    let object = faulty.path.get(..last).unwrap_or(&[]);
    let help = faulty.allowed(items.alloc(), "needed");
    faulty.tell_missing(items, object, at.name(), help);
    if at == FaultPlace::At(Field::ColorSpaces) && !faulty.is_platform {
        add_colours(items, faulty, object)
    }
    if let Some(Step::Item(_)) = object.last() {
        leave_out(items, faulty, object)
    }
}

/// Keeps that an entry may be meant to have the colour spaces of the platform.
fn add_colours(items: &mut Items, faulty: Faulty<'_, '_>, entry: &[Step<'_>]) {
    let key = Field::ColorSpaces.name();
    let path = [Step::Key("platform"), Step::Key(key)];
    let document = faulty.document;
    match document.written(items.alloc(), &path) {
        Ok(written) => match std::str::from_utf8(written) {
            Ok(colours) if !colours.is_empty() => {
                let written = TextBuilder::of(items.alloc(), colours);
                document.add_member(items, entry, key, written)
            }
            _ => {}
        },
        Err(AllocError) => items.refuse(),
    }
}

/// The keys that an object at a place may have.
fn keys_at(
    alloc: Global,
    at: FaultPlace,
    path: &[Step<'_>],
    is_platform: bool,
) -> Result<Vec<&'static str>, AllocError> {
    let last = path.iter().rev().find_map(|step| match *step {
        Step::Key(key) => Some(key),
        Step::Item(_) => None,
    });
    if last.is_some_and(|key| kind_at(key) == Kind::Sides) {
        return Vec::from_slice(alloc, SIZE);
    }
    names_of(alloc, fields_at(at, is_platform))
}

/// The fields of the object that a field has, or of the whole record.
fn fields_at(at: FaultPlace, is_platform: bool) -> &'static [Field] {
    match at {
        FaultPlace::At(Field::Heaps) => &HEAP_FIELDS,
        FaultPlace::At(Field::Pairs | Field::PixelFormatAndModifiers) => &PAIR_FIELDS,
        FaultPlace::At(Field::BufferMemoryConstraints) => &MEMORY_FIELDS,
        FaultPlace::At(Field::PermittedHeaps) => &HEAP_NAME_FIELDS,
        FaultPlace::At(Field::ImageFormatConstraints) => &ENTRY_FIELDS,
        _ if is_platform => &PLATFORM_FIELDS,
        _ => &CONSTRAINTS_FIELDS,
    }
}

/// An object with an unknown key, or a size that isn't one.
fn add_object<'a>(
    items: &mut Items,
    faulty: Faulty<'a, '_>,
    value: &'a Value,
) -> Result<(), AllocError> {
    let alloc = items.alloc();
    let keys = keys_at(alloc, faulty.fault.at, faulty.path, faulty.is_platform)?;
    let Some(unknown) = first_unknown(alloc, faulty.document, faulty.path, &keys)? else {
        return add_side(items, faulty, value);
    };
    match side_of(key_of(&unknown)) {
        Some(side) if is_one_of(side, &keys) => {
            add_side_key(items, faulty, &unknown, value, side);
            Ok(())
        }
        _ => add_key(items, faulty, &unknown, &keys),
    }
}

/// A key in the place of which that of a side is meant; both at once where a size has two such, and
/// stands in one line.
fn add_side_key(
    items: &mut Items,
    faulty: Faulty<'_, '_>,
    path: &[Step<'_>],
    size: &Value,
    side: &str,
) {
    let alloc = items.alloc();
    let (part, note) = (RecordPart::Key, UNKNOWN);
    match sides_of(size) {
        Some(sides) if is_in_line(items, faulty.document, faulty.path) => {
            let text = size_text(alloc, sides);
            let help = Help::of(did_you_mean(alloc, text.as_str()));
            faulty.advise(items, path, part, note, help);
            faulty.document.replace(items, faulty.path, text)
        }
        _ => {
            let help = unless_there(Help::near(alloc, side), Some(size));
            faulty.advise(items, path, part, note, help);
            leave_out_key(items, faulty, path, SIZE)
        }
    }
}

/// Whether the value at a path stands in one line.
fn is_in_line(items: &mut Items, document: &Document<'_>, path: &[Step<'_>]) -> bool {
    match document.written(items.alloc(), path) {
        Ok(written) => !written.contains(&b'\n'),
        Err(AllocError) => {
            items.refuse();
            false
        }
    }
}

fn add_key(
    items: &mut Items,
    faulty: Faulty<'_, '_>,
    path: &[Step<'_>],
    keys: &[&'static str],
) -> Result<(), AllocError> {
    let alloc = items.alloc();
    let document = faulty.document;
    let Some(value) = document.at(path) else {
        return Ok(());
    };
    let unknown = UnknownKey {
        key: key_of(path),
        value,
        keys,
        is_platform: faulty.is_platform,
    };
    let KeyHelp { help, elsewhere } = unknown.help(alloc)?;
    match help {
        Some(help) => {
            let help = unless_there(help, document.at(faulty.path));
            faulty.advise(items, path, RecordPart::Key, UNKNOWN, help)
        }
        None => document.point(items, faulty.depth, path, RecordPart::Key, UNKNOWN, &[]),
    }
    if let Some(elsewhere) = elsewhere {
        move_to(items, faulty, path, elsewhere)?;
    }
    leave_out_key(items, faulty, path, keys);
    Ok(())
}

/// What helps, where no key is meant that the object has already.
fn unless_there(help: Help, object: Option<&Value>) -> Help {
    let is_there = match (&help.meant, object) {
        (Some(Meant::Word(name)), Some(object)) => object.get(name.as_str()).is_some(),
        _ => false,
    };
    if is_there { help.unmeant() } else { help }
}

/// Keeps that the member at a path is meant in the object into which it belongs.
fn move_to(
    items: &mut Items,
    faulty: Faulty<'_, '_>,
    path: &[Step<'_>],
    to: Elsewhere,
) -> Result<(), AllocError> {
    let alloc = items.alloc();
    let document = faulty.document;
    let renamed = match to.renamed {
        Some(field) => match document.span(alloc, path, RecordPart::Value)? {
            Some(value) => Some(Renamed { field, value }),
            None => return Ok(()),
        },
        None => None,
    };
    let moved = places_in(alloc, document, faulty.base, faulty.path, to.owner)?;
    if !moved.places.is_empty() {
        let moved = Moved { renamed, ..moved };
        document.mean(items, path, Meant::Moved(moved));
    }
    Ok(())
}

/// Keeps that what stands at a path of a record may be left out, or what can't do without it, where
/// nothing else is known of what may be meant.
fn leave_out(items: &mut Items, faulty: Faulty<'_, '_>, path: &[Step<'_>]) {
    if items.is_corrected() {
        return;
    }
    if let Some(gone) = what_goes(faulty.document, faulty.base.len(), path) {
        faulty.document.leave_out(items, gone)
    }
}

/// The same of a member whose key isn't one of those that its object can have: it may stand for one
/// that the object must have and lacks. Then the object goes.
fn leave_out_key(items: &mut Items, faulty: Faulty<'_, '_>, path: &[Step<'_>], keys: &[&str]) {
    let lacks = match faulty.document.at(faulty.path) {
        Some(object) => lacks_needed(object, keys, faulty.is_platform),
        None => false,
    };
    if lacks {
        leave_out(items, faulty, faulty.path)
    } else if !items.is_corrected() {
        faulty.document.leave_out(items, path)
    }
}

/// The least and the greatest number that is allowed, where one has the fault that isn't in a range of
/// its own.
fn bounds_of(code: Code) -> (u64, u64) {
    match code {
        Code::BadMultiple => (1, 65536),
        _ => (0, 4294967295),
    }
}

/// The side of a size that isn't within bounds: the height where the width is.
fn wrong_side(size: &Value, bounds: (u64, u64)) -> &'static str {
    match size.get("width") {
        Some(width) if is_number_within(width, bounds.0, bounds.1) => "height",
        _ => "width",
    }
}

/// A width or a height that is missing or wrong.
fn add_side(items: &mut Items, faulty: Faulty<'_, '_>, value: &Value) -> Result<(), AllocError> {
    let alloc = items.alloc();
    let side = wrong_side(value, bounds_of(faulty.fault.code));
    let Some(number) = value.get(side) else {
        let help = faulty.allowed(alloc, "allowed");
        faulty.tell_missing(items, faulty.path, side, help);
        leave_out(items, faulty, faulty.path);
        return Ok(());
    };
    let path = with(alloc, faulty.path, Step::Key(side))?;
    add_number(items, faulty, &path, number)
}

/// A number at a path that isn't within its least and greatest value.
fn add_number(
    items: &mut Items,
    faulty: Faulty<'_, '_>,
    path: &[Step<'_>],
    number: &Value,
) -> Result<(), AllocError> {
    let alloc = items.alloc();
    let bounds = bounds_of(faulty.fault.code);
    let written = faulty.document.written(alloc, path)?;
    let meant = number_meant(alloc, faulty.fault.at, number, written, bounds)?;
    let help = help_of_number(alloc, faulty).with_meant(meant);
    let note = wrong_number(alloc, number, written, bounds.0, bounds.1);
    faulty.tell(items, path, note, help);
    leave_out(items, faulty, path);
    Ok(())
}

/// What is allowed in the place of such a number.
fn help_of_number(alloc: Global, faulty: Faulty<'_, '_>) -> Help {
    match faulty.fault.code {
        Code::BadMultiple => {
            let text = "an alignment or divisor is from 1 to 65536; 1 asks for nothing";
            Help::of_text(alloc, text)
        }
        _ => faulty.allowed(alloc, "allowed"),
    }
}

fn add_name(items: &mut Items, faulty: Faulty<'_, '_>, value: &Value) -> Result<(), AllocError> {
    let name = value.as_str().unwrap_or("");
    let FaultPlace::At(field) = faulty.fault.at else {
        return Ok(());
    };
    let hint = hint_at(items.alloc(), faulty, field, name)?;
    faulty.advise(items, faulty.path, RecordPart::Value, "unknown name", hint);
    leave_out(items, faulty, faulty.path);
    Ok(())
}

/// What an unknown name may mean; of a modifier of which nothing else is known, the only one of the
/// platform that is tiled.
fn hint_at(
    alloc: Global,
    faulty: Faulty<'_, '_>,
    field: Field,
    name: &str,
) -> Result<Help, AllocError> {
    let help = hint_of_name(alloc, field, name, faulty.is_platform)?;
    let is_tiling = field == Field::PixelFormatModifier && !name.ends_with("INVALID");
    if !is_tiling || faulty.is_platform || help.meant.is_some() {
        return Ok(help);
    }
    match only_tiling(faulty.document, format_beside(faulty)) {
        Some(modifier) => Ok(hint_of_tiling(alloc, faulty, modifier)),
        None => Ok(help),
    }
}

/// That the only tiled modifier of the platform may be meant.
fn hint_of_tiling(alloc: Global, faulty: Faulty<'_, '_>, modifier: &str) -> Help {
    let mut words = did_you_mean(alloc, modifier);
    words.put(" It is the only tiled one of the platform");
    match format_beside(faulty) {
        Some(format) if only_tiling(faulty.document, None).is_none() => {
            words.put(" for ").put(format);
        }
        Some(_) => {}
        None => {
            words.put(", but counts only beside a pixel_format");
        }
    }
    Help::of_word(words, modifier)
}

/// The format that is named beside the value with the fault.
fn format_beside<'a>(faulty: Faulty<'a, '_>) -> Option<&'a str> {
    let (_, object) = faulty.path.split_last()?;
    let format = faulty.document.at(object)?.get(Field::PixelFormat.name())?;
    match format.as_str() {
        Some(name) if name == ANY => None,
        format => format,
    }
}

fn add_kind(items: &mut Items, faulty: Faulty<'_, '_>, value: &Value) -> Result<(), AllocError> {
    let alloc = items.alloc();
    let at = faulty.fault.at;
    let is_item = matches!(faulty.path.last(), Some(Step::Item(_)));
    let written = faulty.document.written(alloc, faulty.path)?;
    let meant = value_meant(alloc, faulty, value, written, is_item)?;
    let help = faulty.allowed(alloc, "allowed").with_meant(meant);
    let note = wrong_value(alloc, at.name(), value, written, is_item);
    faulty.tell(items, faulty.path, note, help);
    leave_out(items, faulty, faulty.path);
    Ok(())
}

/// What may be meant by a value of a wrong kind, which is an item of a list or not: the nearest
/// number that is allowed; true or false, or a width and a height, that are written otherwise; a
/// heap of the platform; or a list of a name or an object that stands without brackets.
fn value_meant(
    alloc: Global,
    faulty: Faulty<'_, '_>,
    value: &Value,
    written: &[u8],
    is_item: bool,
) -> Result<Option<Meant>, AllocError> {
    let at = faulty.fault.at;
    let is_list = match kind_at(at.name()) {
        Kind::Number | Kind::Limit => {
            return number_meant(alloc, at, value, written, range_of(at.name()));
        }
        Kind::Flag => return Ok(flag_meant(at, value)),
        Kind::Sides => return written_meant(sides_meant(alloc, at, value)),
        Kind::Name => return heap_meant(alloc, faulty, value),
        Kind::Names if !is_item => is_known(alloc, at, value, faulty.is_platform)?,
        Kind::Objects if !is_item && !value.is_object() => {
            return written_meant(listed_meant(alloc, faulty, value));
        }
        Kind::Objects if !is_item => true,
        _ => false,
    };
    Ok(if is_list { Some(Meant::List) } else { None })
}

/// The type of a heap that may be meant by a text which can't be one: for constraints that of a heap
/// of the platform which is near; for the platform one with `_` for each wrong character.
fn heap_meant(
    alloc: Global,
    faulty: Faulty<'_, '_>,
    value: &Value,
) -> Result<Option<Meant>, AllocError> {
    let Some(name) = value.as_str() else {
        return Ok(None);
    };
    if faulty.fault.at != FaultPlace::At(Field::HeapType) {
        return Ok(None);
    }
    if faulty.is_platform {
        return heap_type_like(alloc, name);
    }
    let types = heap_types(alloc, faulty.document)?;
    Ok(match nearest(alloc, name, &types)? {
        Some(near) => Some(Meant::Word(String::from_str(alloc, near)?)),
        None => None,
    })
}

/// A text of JSON, if one is meant.
fn written_meant(written: Option<TextBuilder>) -> Result<Option<Meant>, AllocError> {
    match written {
        Some(written) => Ok(Some(Meant::Written(written.done()?))),
        None => Ok(None),
    }
}

/// A list of the object that is meant by a name.
fn listed_meant(alloc: Global, faulty: Faulty<'_, '_>, value: &Value) -> Option<TextBuilder> {
    let FaultPlace::At(field) = faulty.fault.at else {
        return None;
    };
    let object = object_of(alloc, faulty.document, field, value)?;
    let mut list = TextBuilder::of(alloc, "[");
    list.put_words(&object).put("]");
    Some(list)
}

/// True or false, where it is written as a text or as 1 or 0.
fn flag_meant(at: FaultPlace, value: &Value) -> Option<Meant> {
    match (at, flag_in(value)) {
        (FaultPlace::At(field), Some(is_set)) => Some(Meant::Flag(field, is_set)),
        _ => None,
    }
}

/// A width and a height, where they are written as a list or as a text; of an alignment also as one
/// number for both.
fn sides_meant(alloc: Global, at: FaultPlace, value: &Value) -> Option<TextBuilder> {
    let both = match value.as_u64() {
        Some(number) if at == FaultPlace::At(Field::SizeAlignment) => Some((number, number)),
        _ => None,
    };
    Some(size_text(alloc, sides_in(value).or(both)?))
}

/// Whether a value is one of the names that a field takes.
fn is_known(
    alloc: Global,
    at: FaultPlace,
    value: &Value,
    is_platform: bool,
) -> Result<bool, AllocError> {
    match (at, value.as_str()) {
        (FaultPlace::At(field), Some(name)) => {
            Ok(is_one_of(name, &names_for(alloc, field, is_platform)?))
        }
        _ => Ok(false),
    }
}

/// A value that is no object; names that stand for objects mean these.
fn add_no_object(items: &mut Items, faulty: Faulty<'_, '_>, value: &Value) {
    let alloc = items.alloc();
    let (document, path) = (faulty.document, faulty.path);
    let note = wrong_kind(alloc, value, "an object is");
    match objects_meant(items, faulty, value) {
        Some((meant_at, text)) => {
            let help = Help::of(did_you_mean(alloc, text.as_str()));
            faulty.tell(items, path, note, help);
            document.replace(items, meant_at, text)
        }
        None => {
            document.note(items, faulty.depth, path, RecordPart::Value, note);
            leave_out(items, faulty, path)
        }
    }
}

/// The objects that are meant by a list of names, where it stands in one line, or else the object
/// that is meant by the name with the fault; and the path of what means them.
fn objects_meant<'a, 'b>(
    items: &mut Items,
    faulty: Faulty<'a, 'b>,
    value: &Value,
) -> Option<(&'b [Step<'a>], TextBuilder)> {
    let (FaultPlace::At(field), Some((Step::Item(_), list))) = (
        faulty.fault.at,
        faulty.path.split_last(),
    ) else {
        return None;
    };
    let (alloc, document) = (items.alloc(), faulty.document);
    let names = document.at(list).and_then(Value::as_array);
    if let Some(names) = names
        && names.len() > 1
        && is_in_line(items, document, list)
        && let Some(text) = objects_of(alloc, document, field, names)
    {
        return Some((list, text));
    }
    Some((faulty.path, object_of(alloc, document, field, value)?))
}

/// A list that is empty, too long or has an item twice, or a tiled modifier that doesn't go with its
/// format.
fn add_list(items: &mut Items, faulty: Faulty<'_, '_>, value: &Value) -> Result<(), AllocError> {
    let is_empty = matches!(value.as_array(), Some(list) if list.is_empty());
    point_list(items, faulty, is_empty)?;
    match faulty.fault.code {
        Code::TiledMisfit => leave_out_modifier(items, faulty)?,
        Code::NoColourSpaces => mean_colours(items, faulty),
        Code::BadPlatformList if !is_empty => mean_free_id(items, faulty, value)?,
        _ => {}
    }
    leave_out(items, faulty, faulty.path);
    Ok(())
}

/// Keeps that a heap which is given twice may be meant to have an id that no other of its type has.
fn mean_free_id(items: &mut Items, faulty: Faulty<'_, '_>, heap: &Value) -> Result<(), AllocError> {
    let Some((_, list)) = faulty.path.split_last() else {
        return Ok(());
    };
    let heaps = faulty.document.at(list).and_then(Value::as_array);
    let (Some(heaps), Some(_)) = (heaps, heap.get(Field::HeapType.name())) else {
        return Ok(());
    };
    let id = free_id(heaps, heap);
    if heap.get(ID).is_none() {
        let mut written = TextBuilder::new(items.alloc());
        written.put_number(id);
        faulty.document.add_member(items, faulty.path, ID, written);
        return Ok(());
    }
    let path = with(items.alloc(), faulty.path, Step::Key(ID))?;
    let meant = Some(Meant::Value(Field::Id, id));
    faulty
        .document
        .correct(items, &path, RecordPart::Value, meant);
    Ok(())
}

/// Keeps that an entry without colour spaces may be meant to have those of the platform.
fn mean_colours(items: &mut Items, faulty: Faulty<'_, '_>) {
    if is_in_line(items, faulty.document, faulty.path)
        && let Some(text) = colours_text(items.alloc(), faulty.document)
    {
        faulty.document.replace(items, faulty.path, text)
    }
}

/// Keeps that the modifier beside a format may be left out, if the format doesn't stand there
/// without one as well.
fn leave_out_modifier(items: &mut Items, faulty: Faulty<'_, '_>) -> Result<(), AllocError> {
    let is_member = matches!(faulty.path.last(), Some(Step::Key(_)));
    let steps = faulty.path.len().saturating_sub(usize::from(is_member));
    let object = faulty.path.get(..steps).unwrap_or(faulty.path);
    if !is_linear_beside(faulty.document, object) {
        let name = Field::PixelFormatModifier.name();
        let path = with(items.alloc(), object, Step::Key(name))?;
        faulty.document.leave_out(items, &path);
    }
    Ok(())
}

/// Points at the list or the item, with what helps there.
fn point_list(items: &mut Items, faulty: Faulty<'_, '_>, is_empty: bool) -> Result<(), AllocError> {
    let alloc = items.alloc();
    let note = note_of_list(faulty.fault.code, is_empty);
    let help = match faulty.fault.code {
        Code::TooMany => Help::of_text(alloc, "allowed: at most 64"),
        Code::TiledMisfit => Help::of(tiled_formats(alloc)?),
        Code::BadUsage => {
            let at = FaultPlace::At(Field::Usage);
            Help::of(help_allowed(alloc, "allowed", at, false))
        }
        _ if is_empty => faulty.allowed(alloc, "needed"),
        _ => return point_again(items, faulty, note),
    };
    faulty.advise(items, faulty.path, RecordPart::Value, note, help);
    Ok(())
}

/// Points at what is given twice, with where it stands first, and which names count as equal.
fn point_again(items: &mut Items, faulty: Faulty<'_, '_>, note: &str) -> Result<(), AllocError> {
    let (document, path) = (faulty.document, faulty.path);
    let helps = first_like(items.alloc(), faulty)?;
    document.point(items, faulty.depth, path, RecordPart::Value, note, &helps);
    Ok(())
}

/// `first at calls[4].constraints.usage[0]`, if it is found; and that an absent modifier has a name.
fn first_like(alloc: Global, faulty: Faulty<'_, '_>) -> Result<Vec<String>, AllocError> {
    let code = faulty.fault.code;
    let mut helps = ListBuilder::new(alloc);
    let mut words = TextBuilder::of(alloc, "first at ");
    if put_first_like(&mut words, faulty.document.value, faulty.path, code) {
        helps.add_words(words);
    }
    if code == Code::RepeatedPair {
        helps.add_words(TextBuilder::of(alloc, "an absent modifier is LINEAR"));
    }
    helps.done()
}
