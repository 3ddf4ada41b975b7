//! Refutations, and lists of paths and of lines, as text.

ghost use Rattle.std.specs.Prelude.{◌≡◌, ◌++◌, ◌<◌, ◌+◌, [], ◌∷◌, List, ℕ, codes, false, map, Contains, IfOk, IfSome, IsTrue, OnOk};
ghost use Rattle.certificate_text.specs.Out.{IsKept, IsTold};
ghost use Rattle.certificate_text.specs.Paths.{path_text, steps_text};
ghost use Rattle.certificate_text.specs.Told.{conflict_data, item_data, line_data, lines_data, named_data, path_data, paths_data, refutation_data};
ghost use Rattle.serde_json.specs.View.{items_of};
ghost use Rattle.json.specs.Print.{escape};
ghost use Rattle.json.specs.Tree.{HasNumbers};
ghost use Rattle.serde_json.specs.Data.{object, member, no_members};
ghost use Rattle.serde_json.specs.Written.{comma_if, compact_text, items_text, outline};
ghost use Rattle.std.specs.Fmt.{decimal};

use std::alloc::{AllocError, Global};
use sysmem_counts::Field;
use sysmem_tree::Path;
use verdict_claims::{Conflict, Item, Line, Lines, PathList};

/// Puts the items of a refutation after bytes, with a comma between two.
pub(crate) fn push_items(out: &mut Vec<u8>, items: &[Item]) -> Result<(), AllocError>
    ensures text { OnOk result (out.new.items ++ codes "]"
        ≡ out.old.items ++ items_text false (items_of (map item_data items.now))) }
    ensures numbers { OnOk result (HasNumbers (outline (refutation_data items.now))) }
{
    let mut later = false;
    for item in items {
        push_comma(out, later)?;
        push_item(out, item)?;
        later = true;
    }
    Ok(())
}

fn push_item(out: &mut Vec<u8>, item: &Item) -> Result<(), AllocError>
    ensures text { OnOk result (out.new.items
        ≡ out.old.items ++ compact_text (item_data item.now)) }
    ensures numbers { HasNumbers (outline (item_data item.now)) }
{
    match item {
        Item::Split(children) => push_split(out, *children),
        Item::Leaf(conflict) => push_conflict(out, conflict),
    }
}

/// Puts how many children a group has after bytes: `{"split":2}`.
fn push_split(out: &mut Vec<u8>, children: u64) -> Result<(), AllocError>
    ensures text { OnOk result (out.new.items
        ≡ out.old.items ++ compact_text (item_data (Item.Split children))) }
    ensures numbers { HasNumbers (outline (item_data (Item.Split children))) }
{
    let mut digits = itoa::Buffer::new();
    out.extend_from_slice(b"{\"split\":")?;
    out.extend_from_slice(digits.format(children).as_bytes())?;
    out.push(b'}')?;
    Ok(())
}

fn push_conflict(out: &mut Vec<u8>, conflict: &Conflict) -> Result<(), AllocError>
    ensures { OnOk result (out.new.items
        ≡ out.old.items ++ compact_text (conflict_data conflict.now)) }
{
    match conflict {
        Conflict::Count(line) => push_named(out, "count", line.field(), line.nodes()),
        Conflict::Fixed(field, node) => push_fixed(out, *field, node),
        Conflict::Places(lines) => push_lines(out, "places", lines),
        Conflict::Offers(lines) => push_lines(out, "offers", lines),
    }
}

/// Puts a conflict of settings that are given after bytes: `{"fixed":"usage","nodes":["/0"]}`.
fn push_fixed(out: &mut Vec<u8>, field: Field, node: &Path) -> Result<(), AllocError>
    ensures { OnOk result (out.new.items ≡ out.old.items
        ++ compact_text (conflict_data (Conflict.Fixed field node.now))) }
{
    let mut nodes = PathList::new(*out.allocator());
    nodes.put(node.ordinals())?;
    push_named(out, "fixed", field, &nodes)
}

/// Puts a field under a kind, which needs no escape, and the paths of nodes after bytes:
/// `{"count":"max_buffer_count","nodes":["/0"]}`.
fn push_named(
    out: &mut Vec<u8>,
    kind: &str,
    field: Field,
    nodes: &PathList,
) -> Result<(), AllocError>
    ensures { escape kind.now ≡ kind.now → OnOk result (out.new.items ≡ out.old.items
        ++ compact_text (named_data kind.now field nodes.now)) }
{
    out.extend_from_slice(b"{\"")?;
    out.extend_from_slice(kind.as_bytes())?;
    out.extend_from_slice(b"\":\"")?;
    out.extend_from_slice(field.name().as_bytes())?;
    out.extend_from_slice(b"\",\"nodes\":")?;
    push_paths(out, nodes)?;
    out.push(b'}')?;
    Ok(())
}

/// Puts lines under a kind, which needs no escape, after bytes: `{"places":[..]}`.
fn push_lines(out: &mut Vec<u8>, kind: &str, lines: &Lines) -> Result<(), AllocError>
    ensures { escape kind.now ≡ kind.now → OnOk result (out.new.items ≡ out.old.items
        ++ compact_text (object (member kind.now (lines_data lines.now) no_members))) }
{
    out.extend_from_slice(b"{\"")?;
    out.extend_from_slice(kind.as_bytes())?;
    out.extend_from_slice(b"\":[")?;
    push_line_items(out, lines)?;
    out.extend_from_slice(b"]}")?;
    Ok(())
}

/// A line that was put, with its text and that of its paths.
#[derive(Drop)]
struct WrittenLine {
    line: Line,
    paths: Vec<u8>,
    text: Vec<u8>,
}

impl WrittenLine {
    /// Of this line.
    fn of(alloc: Global, line: &Line) -> Result<WrittenLine, AllocError>
        ensures told { IfOk result IsTold }
        ensures line { IfOk result (λ told. told.line ≡ line.now) }
    {
        let mut paths = Vec::new(alloc);
        push_paths(&mut paths, line.nodes())?;
        let mut text = Vec::new(alloc);
        push_line(&mut text, line.field(), paths.as_slice())?;
        let line = line.again()?;
        Ok(WrittenLine { line, paths, text })
    }

    /// Becomes that of the next line. What both have in common stays.
    fn tell(&mut self, line: &Line) -> Result<(), AllocError>
        requires { IsTold self.old }
        ensures told { OnOk result (IsTold self.new) }
        ensures line { OnOk result (self.new.line ≡ line.now) }
    {
        if !self.line.nodes().is_same(line.nodes()) {
            self.paths.clear();
            push_paths(&mut self.paths, line.nodes())?;
        } else if self.line.field() == line.field() {
            return Ok(());
        }
        self.text.clear();
        push_line(&mut self.text, line.field(), self.paths.as_slice())?;
        self.line = line.again()?;
        Ok(())
    }
}

/// Puts lines after bytes, with a comma between two. A line with few paths takes over what it has
/// in common with the last such line, and one with many what it has in common with the last of
/// those: a line that names one participant stands between lines that name all. Where a line is
/// known to be the one before once more, nothing is compared.
pub(crate) fn push_line_items(out: &mut Vec<u8>, lines: &Lines) -> Result<(), AllocError>
    ensures { OnOk result (out.new.items ++ codes "]"
        ≡ out.old.items ++ items_text false (items_of (map line_data lines.now))) }
{
    let again = lines.again();
    let mut next = 0;
    let mut few = None;
    let mut many = None;
    for (index, line) in lines.as_slice().iter().enumerate() {
        push_comma(out, index > 0)?;
        let is_again = is_next(again, next, index);
        next += usize::from(is_again);
        push_kept(out, &mut few, &mut many, line, is_again)?;
    }
    Ok(())
}

/// Puts a line after bytes, which takes over from the last line with few paths that is kept, or
/// from the last with many, and is then kept in its place.
fn push_kept(
    out: &mut Vec<u8>,
    few: &mut Option<WrittenLine>,
    many: &mut Option<WrittenLine>,
    line: &Line,
    is_again: bool,
) -> Result<(), AllocError>
    requires few { IfSome few.old IsTold }
    requires many { IfSome many.old IsTold }
    requires again { IsTrue is_again → IsKept few.old many.old line.now }
    ensures few { OnOk result (IfSome few.new IsTold) }
    ensures many { OnOk result (IfSome many.new IsTold) }
    ensures kept { OnOk result (IsKept few.new many.new line.now) }
    ensures text { OnOk result (out.new.items
        ≡ out.old.items ++ compact_text (line_data line.now)) }
{
    if line.nodes().is_small() {
        push_told(out, few, line, is_again)
    } else {
        push_told(out, many, line, is_again)
    }
}

/// Whether the place of a line is the one that comes next among those of lines that are the one
/// before once more.
fn is_next(again: &[u8], next: usize, index: usize) -> bool
    ensures { IsTrue result → Contains again.now index }
{
    match again.get(next) {
        Some(place) => usize::from(*place) == index,
        None => false,
    }
}

/// Puts a line after bytes. It takes over what it has in common with the line that is kept, and is
/// then kept in its place; if it is that line once more, it takes over all.
fn push_told(
    out: &mut Vec<u8>,
    kept: &mut Option<WrittenLine>,
    line: &Line,
    is_again: bool,
) -> Result<(), AllocError>
    requires told { IfSome kept.old IsTold }
    requires again { IsTrue is_again → IfSome kept.old (λ told. told.line ≡ line.now) }
    ensures told { OnOk result (IfSome kept.new IsTold) }
    ensures line { OnOk result (IfSome kept.new (λ told. told.line ≡ line.now)) }
    ensures text { OnOk result (out.new.items
        ≡ out.old.items ++ compact_text (line_data line.now)) }
{
    if let Some(told) = kept {
        if !is_again {
            told.tell(line)?;
        }
        return out.extend_from_slice(told.text.as_slice());
    }
    let told = WrittenLine::of(*out.allocator(), line)?;
    out.extend_from_slice(told.text.as_slice())?;
    *kept = Some(told);
    Ok(())
}

/// Puts a line after bytes, of whose paths this is the text: `{"field":"usage","nodes":["/0"]}`.
fn push_line(out: &mut Vec<u8>, field: Field, paths: &[u8]) -> Result<(), AllocError>
    ensures { (nodes : List (List ℕ)) → paths.now ≡ compact_text (paths_data nodes)
        → OnOk result (out.new.items ≡ out.old.items
        ++ compact_text (named_data (codes "field") field nodes)) }
{
    out.extend_from_slice(b"{\"field\":\"")?;
    out.extend_from_slice(field.name().as_bytes())?;
    out.extend_from_slice(b"\",\"nodes\":")?;
    out.extend_from_slice(paths)?;
    out.push(b'}')?;
    Ok(())
}

fn push_paths(out: &mut Vec<u8>, paths: &PathList) -> Result<(), AllocError>
    ensures { OnOk result (out.new.items ≡ out.old.items ++ compact_text (paths_data paths.now)) }
{
    out.push(b'[')?;
    push_path_items(out, paths)?;
    out.push(b']')?;
    Ok(())
}

/// Puts the paths of a list after bytes, with a comma between two: `"/0","/1/2"`.
fn push_path_items(out: &mut Vec<u8>, paths: &PathList) -> Result<(), AllocError>
    ensures { OnOk result (out.new.items ++ codes "]"
        ≡ out.old.items ++ items_text false (items_of (map path_data paths.now))) }
{
    let mut later = false;
    for path in paths.iter() {
        push_comma(out, later)?;
        push_quoted_path(out, path)?;
        later = true;
    }
    Ok(())
}

fn push_comma(out: &mut Vec<u8>, later: bool) -> Result<(), AllocError>
    ensures { OnOk result (out.new.items ≡ out.old.items ++ comma_if later) }
{
    if later {
        out.push(b',')?;
    }
    Ok(())
}

fn push_quoted_path(out: &mut Vec<u8>, ordinals: &[u32]) -> Result<(), AllocError>
    ensures { OnOk result (out.new.items ≡ out.old.items
        ++ compact_text (path_data ordinals.now)) }
{
    out.push(b'"')?;
    push_path(out, ordinals)?;
    out.push(b'"')?;
    Ok(())
}

fn push_path(out: &mut Vec<u8>, ordinals: &[u32]) -> Result<(), AllocError>
    ensures { OnOk result (out.new.items ≡ out.old.items ++ path_text ordinals.now) }
{
    if ordinals.is_empty() {
        out.push(b'/')?;
        return Ok(());
    }
    push_steps(out, ordinals)
}

fn push_steps(out: &mut Vec<u8>, ordinals: &[u32]) -> Result<(), AllocError>
    ensures { OnOk result (out.new.items ≡ out.old.items ++ steps_text ordinals.now) }
{
    for ordinal in ordinals {
        out.push(b'/')?;
        push_number(out, *ordinal)?;
    }
    Ok(())
}

/// Puts a number after bytes. Most ordinals have one digit or two, which need no buffer.
fn push_number(out: &mut Vec<u8>, number: u32) -> Result<(), AllocError>
    ensures { OnOk result (out.new.items ≡ out.old.items ++ decimal number) }
{
    if number < 10 {
        return push_digit(out, number as u8);
    }
    if number < 100 {
        push_digit(out, (number / 10) as u8)?;
        return push_digit(out, (number % 10) as u8);
    }
    let mut digits = itoa::Buffer::new();
    out.extend_from_slice(digits.format(number).as_bytes())
}

fn push_digit(out: &mut Vec<u8>, digit: u8) -> Result<(), AllocError>
    requires { digit < 10 }
    ensures { OnOk result (out.new.items ≡ out.old.items ++ (48 + digit) ∷ []) }
{
    out.push(b'0' + digit)?;
    Ok(())
}
