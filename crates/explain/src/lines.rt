//! Where the fields stand in the script's text that the section of a domain names which is empty or
//! chosen.

use explanation_text::{Deed, Fact, Item, Kind, Label, Step, Text, TextBuilder, Thing, line_of};
use record_reading::{ENTRY_FIELDS, MEMORY_FIELDS};
use script_faults::{Document, RecordPart, Whole};
use script_story::{Became, Milestone, Story};
use std::alloc::{AllocError, Global};
use sysmem_counts::{Field, Kind as FieldKind};
use sysmem_sanitise::CONSTRAINTS_FIELDS;

/// How many participants' fields are told.
const MOST: usize = 6;
/// How many entries of a participant are looked at.
const MOST_ENTRIES: usize = 8;
/// The fields of which the count is made.
const COUNTED: [Field; 4] = [
    Field::MinBufferCount,
    Field::MinBufferCountForCamping,
    Field::MinBufferCountForDedicatedSlack,
    Field::MinBufferCountForSharedSlack,
];
/// How long the text may be, in bytes: for each field it is gone through.
const LONGEST: usize = 262_144;

/// Whether reasons and changes name a field of a participant's constraints, but for its usage and its
/// modifiers.
fn is_told(field: Field) -> bool {
    let is_count = CONSTRAINTS_FIELDS.contains(&field) && field.kind() == FieldKind::Number;
    let is_bound = !matches!(
        field,
        Field::PixelFormatModifier
            | Field::PixelFormatAndModifiers
            | Field::RequireBytesPerRowAtPixelBoundary
    );
    is_count || MEMORY_FIELDS.contains(&field) || (ENTRY_FIELDS.contains(&field) && is_bound)
}

/// The section that is gone through: whose domain's it is, if that is empty or chosen, and where its
/// items begin.
#[derive(Clone, Copy)]
struct Section {
    domain: Option<usize>,
    start: usize,
}

/// The items, and at the end of the section of each domain that is empty or chosen in which line of
/// the text the fields stand that it names; where the text has several lines, and isn't long.
pub(crate) fn with_lines(
    alloc: Global,
    document: &Document<'_>,
    story: &Story<'_>,
    items: Vec<Item>,
) -> Result<Vec<Item>, AllocError> {
    let lines = line_of(document.bytes, document.bytes.len().saturating_sub(1));
    if document.bytes.len() > LONGEST || lines < 2 {
        return Ok(items);
    }
    let mut lined: Vec<Item> = Vec::new(alloc);
    let mut section = Section {
        domain: None,
        start: 0,
    };
    for item in items {
        if item.kind == Kind::Title {
            add_lines(document, story, &mut lined, section)?;
            section = Section {
                domain: decided_domain(story, &item),
                start: lined.len().saturating_add(1),
            };
        }
        lined.push(item)?;
    }
    add_lines(document, story, &mut lined, section)?;
    Ok(lined)
}

/// The domain that is empty or chosen whose section has this title.
fn decided_domain(story: &Story<'_>, title: &Item) -> Option<usize> {
    let Thing::Node(root) = title.mentions.first()?.thing else {
        return None;
    };
    for (index, domain) in story.domains.iter().enumerate() {
        let is_decided = matches!(domain.became, Became::Empty | Became::Chosen);
        if domain.root == root && is_decided {
            return Some(index);
        }
    }
    None
}

/// Adds the lines of each participant that a section names.
fn add_lines(
    document: &Document<'_>,
    story: &Story<'_>,
    lined: &mut Vec<Item>,
    section: Section,
) -> Result<(), AllocError> {
    let Some(domain) = section.domain else {
        return Ok(());
    };
    let alloc = *lined.allocator();
    let items = lined.get(section.start..).unwrap_or(&[]);
    let rows = rows_in(alloc, document, story, domain, items)?;
    for row in rows {
        lined.push(Item::new(Kind::Words, 1, Label::Lines, row))?;
    }
    Ok(())
}

/// The items of a section, and which of them tell of the domain itself.
#[derive(Clone, Copy)]
struct Told<'a> {
    items: &'a [Item],
    is_own: &'a [bool],
}

impl Told<'_> {
    /// Whether one that tells of the domain names a node; those are left out that list who has
    /// constraints.
    fn names_node(&self, node: usize) -> bool {
        self.items
            .iter()
            .zip(self.is_own)
            .any(|(item, is_own)| *is_own && names(item, Thing::Node(node)))
    }

    /// Whether one of these names a field of a node.
    fn names_of(&self, node: usize, field: Field) -> bool {
        self.items
            .iter()
            .zip(self.is_own)
            .any(|(item, is_own)| *is_own && names_of(item, node, field))
    }

    /// Whether one tells a change of a field that the constraints of a call state, with its lines:
    /// also below a `then`, where these are told only if they are the text's.
    fn places(&self, number: usize, field: Field) -> bool {
        self.items.iter().any(|item| places(item, number, field))
    }
}

/// The lines of each participant of a domain that its section of these items names.
fn rows_in(
    alloc: Global,
    document: &Document<'_>,
    story: &Story<'_>,
    domain: usize,
    items: &[Item],
) -> Result<Vec<Text>, AllocError> {
    let is_own = own_of(alloc, items)?;
    let told = Told {
        items,
        is_own: &is_own,
    };
    rows_of(alloc, document, story, domain, told)
}

/// Which items tell of the domain itself: what isn't chosen in a decision that would come is left
/// out, and what is told of calls made otherwise.
fn own_of(alloc: Global, items: &[Item]) -> Result<Vec<bool>, AllocError> {
    let mut own = Vec::new(alloc);
    let mut promised = None;
    let mut then = None;
    for item in items {
        then = then_of(item, then);
        let is_own = then.is_none() && !is_below(item, promised);
        if is_own && item.label != Label::Choice {
            promised = promised_by(item);
        }
        own.push(is_own)?;
    }
    Ok(own)
}

/// How deep the `then` stands that an item is, or below which it stands, if there is one; before it
/// that was this one.
pub(crate) fn then_of(item: &Item, before: Option<usize>) -> Option<usize> {
    match before {
        Some(depth) if item.depth > depth => before,
        _ if item.label == Label::Then => Some(item.depth),
        _ => None,
    }
}

/// How deep a decision stands that would come, if an item is one.
fn promised_by(item: &Item) -> Option<usize> {
    if item.label == Label::Promised {
        Some(item.depth)
    } else {
        None
    }
}

/// Whether an item tells what isn't chosen in a decision that would come and stands so deep; its
/// choice of children does not.
fn is_below(item: &Item, promised: Option<usize>) -> bool {
    match promised {
        Some(depth) if item.depth == depth => item.label != Label::Choice,
        Some(depth) => item.depth > depth,
        None => false,
    }
}

/// The lines of each participant of a domain that those name that tell of it.
fn rows_of(
    alloc: Global,
    document: &Document<'_>,
    story: &Story<'_>,
    domain: usize,
    told: Told<'_>,
) -> Result<Vec<Text>, AllocError> {
    let mut rows: Vec<Text> = Vec::new(alloc);
    for (node, known) in story.nodes.iter().enumerate() {
        if known.domain != domain || rows.len() >= MOST || !told.names_node(node) {
            continue;
        }
        if let Some(number) = story.milestone(node, Milestone::SetConstraints) {
            let fields = fields_of(alloc, told, node)?;
            let left = without_placed(alloc, told, &fields, number)?;
            let lines = lines_of(alloc, document, &left, number)?;
            if !lines.is_empty() {
                let mut text = TextBuilder::of_name(alloc, story.called(node));
                text.put(" (call ").call(number).put("): ");
                text.put_text(&lines);
                rows.push(text.into_text()?)?;
            }
        }
    }
    Ok(rows)
}

/// Whether an item names a thing, but for one that lists who has constraints; one on the count is of
/// each field of which that is made.
fn names(item: &Item, thing: Thing) -> bool {
    item.label != Label::Who
        && (is_counted(item, thing) || item.mentions.iter().any(|mention| mention.thing == thing))
}

/// Whether an item names a field of a node: a field is of those nodes that were named last before
/// it, as both in `a needs more (min_size); b takes less (max_size)`, or of all that are named where
/// none was.
fn names_of(item: &Item, node: usize, field: Field) -> bool {
    if !names(item, Thing::Node(node)) {
        return false;
    }
    if is_counted(item, Thing::Field(field)) {
        return true;
    }
    let mut is_begun = false;
    let mut is_owner = true;
    for mention in &item.mentions {
        match mention.thing {
            Thing::Field(named) if named == field && is_owner => return true,
            Thing::Field(_) => is_begun = false,
            Thing::Node(named) => {
                is_owner = named == node || (is_begun && is_owner);
                is_begun = true;
            }
            _ => {}
        }
    }
    false
}

/// Whether a thing is a field of which the count is made that an item is on.
fn is_counted(item: &Item, thing: Thing) -> bool {
    match thing {
        Thing::Field(field) => item.label == Label::Count && COUNTED.contains(&field),
        _ => false,
    }
}

/// The fields that those name with a node that tell of the domain.
fn fields_of(alloc: Global, told: Told<'_>, node: usize) -> Result<Vec<Field>, AllocError> {
    let mut fields = Vec::new(alloc);
    for field in &Field::ALL {
        if is_told(*field) && told.names_of(node, *field) {
            fields.push(*field)?;
        }
    }
    Ok(fields)
}

/// Those of some fields whose lines no change of the constraints of a call tells.
fn without_placed(
    alloc: Global,
    told: Told<'_>,
    fields: &[Field],
    number: usize,
) -> Result<Vec<Field>, AllocError> {
    let mut left = Vec::new(alloc);
    for field in fields {
        if !told.places(number, *field) {
            left.push(*field)?;
        }
    }
    Ok(left)
}

/// Whether an item tells a change of a field that the constraints of a call state, with its lines:
/// `encoder (call 7, line 23): max_size 1920x1088 becomes 4096x2160`. One of the entries has the line
/// of their list.
fn places(item: &Item, number: usize, field: Field) -> bool {
    item.facts.contains(&Fact::Lined(number))
        && names(item, Thing::Field(field))
        && !item.facts.iter().any(|fact| is_of_entries(*fact))
}

/// Whether it is told that an entry is added, or put first.
fn is_of_entries(fact: Fact) -> bool {
    matches!(fact, Fact::Change(Deed::AddEntry(_) | Deed::PutFirst(_)))
}

/// The fields of some that the constraints of a call state, each with its line.
fn lines_of(
    alloc: Global,
    document: &Document<'_>,
    fields: &[Field],
    number: usize,
) -> Result<Text, AllocError> {
    let call = number.saturating_sub(1);
    let path = [
        Step::Key("calls"),
        Step::Item(call),
        Step::Key("constraints"),
    ];
    let span = document.span(alloc, &path, RecordPart::Value)?;
    let (Some(value), Some(span)) = (document.at(&path), span) else {
        return Ok(Text::new(alloc));
    };
    let record = Document {
        file: document.file,
        bytes: span.within(document.bytes),
        value,
        whole: Whole::Record,
    };
    let begin = line_of(document.bytes, span.start.min(document.bytes.len()));
    let mut words = TextBuilder::new(alloc);
    for field in fields {
        put_lines(&mut words, &record, begin, *field);
    }
    words.into_text()
}

/// Puts in which lines constraints, which begin in a line of the text, state a field after a text.
fn put_lines(text: &mut TextBuilder, record: &Document<'_>, begin: usize, field: Field) {
    put_line(text, record, begin, &[Step::Key(field.name())], field, 0);
    let memory = [
        Step::Key("buffer_memory_constraints"),
        Step::Key(field.name()),
    ];
    put_line(text, record, begin, &memory, field, 0);
    for entry in 0..MOST_ENTRIES {
        let path = [
            Step::Key("image_format_constraints"),
            Step::Item(entry),
            Step::Key(field.name()),
        ];
        put_line(text, record, begin, &path, field, entry);
    }
}

/// Puts in which line the member at a path of constraints stands, which begin in a line of the
/// text, after a text, if there is one; an entry but the first is named.
fn put_line(
    text: &mut TextBuilder,
    record: &Document<'_>,
    begin: usize,
    path: &[Step<'_>],
    field: Field,
    entry: usize,
) {
    if record.at(path).is_none() {
        return;
    }
    let span = match record.span(text.alloc(), path, RecordPart::Key) {
        Ok(Some(span)) => span,
        Ok(None) => return,
        Err(AllocError) => return text.refuse(),
    };
    let within = line_of(record.bytes, span.start.min(record.bytes.len()));
    let line = begin.saturating_add(within).saturating_sub(1);
    let mark = if text.as_str().is_empty() { "" } else { ", " };
    text.put(mark)
        .field(field)
        .put(" in line ")
        .put_number(line);
    if entry > 0 {
        let place = entry.saturating_add(1);
        text.put(" (entry ").put_number(place).put(")");
        text.tell(Fact::Stated(field, line, Some(place)));
    } else {
        text.tell(Fact::Stated(field, line, None));
    }
}
