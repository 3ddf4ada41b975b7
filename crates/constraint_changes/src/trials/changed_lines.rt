//! In which lines of a script's text changed constraints differ from those that are stated.

use crate::trials::group::line_at;
use explanation_text::Step;
use script_faults::{Document, RecordPart};
use serde_json::Value;
use std::alloc::{AllocError, Global};

const MEMORY: &str = "buffer_memory_constraints";

const ENTRIES: &str = "image_format_constraints";

/// The lines of the fields that the constraints of the call at a place, from 0, state otherwise
/// than changed ones; of the object that lacks one where they don't state it, and of the list where
/// they have fewer entries. Each once, in the order of the text.
pub(crate) fn changed_lines(
    alloc: Global,
    document: &Document<'_>,
    place: usize,
    stated: &Value,
    changed: &Value,
) -> Result<Vec<usize>, AllocError> {
    let base = [
        Step::Key("calls"),
        Step::Item(place),
        Step::Key("constraints"),
    ];
    let mut lines: Vec<usize> = Vec::new(alloc);
    add_object(&mut lines, document, &base, stated, changed)?;
    let memory = longer(alloc, &base, Step::Key(MEMORY))?;
    if let (Some(was), Some(is)) = (stated.get(MEMORY), changed.get(MEMORY)) {
        add_object(&mut lines, document, &memory, was, is)?;
    }
    let list = longer(alloc, &base, Step::Key(ENTRIES))?;
    add_entries(&mut lines, document, &list, stated, changed)?;
    lines.sort_unstable();
    Ok(lines)
}

/// The line in which the entry of an index, from 0, of the constraints of the call at a place
/// begins.
pub(crate) fn entry_lines(
    alloc: Global,
    document: &Document<'_>,
    place: usize,
    index: usize,
) -> Result<Vec<usize>, AllocError> {
    let path = [
        Step::Key("calls"),
        Step::Item(place),
        Step::Key("constraints"),
        Step::Key(ENTRIES),
        Step::Item(index),
    ];
    let mut lines: Vec<usize> = Vec::new(alloc);
    add_line(&mut lines, document, &path, RecordPart::Value)?;
    Ok(lines)
}

fn longer<'a>(
    alloc: Global,
    path: &[Step<'a>],
    step: Step<'a>,
) -> Result<Vec<Step<'a>>, AllocError> {
    let mut steps = Vec::from_slice(alloc, path)?;
    steps.push(step)?;
    Ok(steps)
}

/// Adds the line of the part at a path, if it is told and isn't there.
fn add_line(
    lines: &mut Vec<usize>,
    document: &Document<'_>,
    path: &[Step<'_>],
    part: RecordPart,
) -> Result<(), AllocError> {
    if let Some(line) = line_at(*lines.allocator(), document, path, part)? {
        if !lines.contains(&line) {
            lines.push(line)?;
        }
    }
    Ok(())
}

/// Adds the lines of the members of the object at a path that another has otherwise or lacks; the
/// memory and the entries of two that have them are looked at by themselves. Where the other has a
/// member more, adds the object's own line.
fn add_object<'a>(
    lines: &mut Vec<usize>,
    document: &Document<'_>,
    path: &[Step<'a>],
    was: &'a Value,
    is: &Value,
) -> Result<(), AllocError> {
    let alloc = *lines.allocator();
    let (Some(members), Some(others)) = (was.as_object(), is.as_object()) else {
        return Ok(());
    };
    for (key, member) in members.iter() {
        let name = key.as_str();
        let is_kept = match is.get(name) {
            Some(other) => other == member || name == MEMORY || name == ENTRIES,
            None => false,
        };
        if !is_kept {
            let at = longer(alloc, path, Step::Key(name))?;
            add_line(lines, document, &at, RecordPart::Key)?;
        }
    }
    for (key, _) in others.iter() {
        if was.get(key.as_str()).is_none() {
            let part = match path.last() {
                Some(Step::Key(_)) => RecordPart::Key,
                _ => RecordPart::Value,
            };
            add_line(lines, document, path, part)?;
        }
    }
    Ok(())
}

/// Adds the lines in which entries differ, entry by entry; where there are more than before, that
/// of the list at the path.
fn add_entries<'a>(
    lines: &mut Vec<usize>,
    document: &Document<'_>,
    path: &[Step<'a>],
    stated: &'a Value,
    changed: &Value,
) -> Result<(), AllocError> {
    let alloc = *lines.allocator();
    let (Some(was), Some(is)) = (entries_in(stated), entries_in(changed)) else {
        return Ok(());
    };
    if was.len() != is.len() {
        return add_line(lines, document, path, RecordPart::Key);
    }
    for (index, entry) in was.iter().enumerate() {
        if let Some(other) = is.get(index) {
            let at = longer(alloc, path, Step::Item(index))?;
            add_object(lines, document, &at, entry, other)?;
        }
    }
    Ok(())
}

fn entries_in<'a>(value: &'a Value) -> Option<&'a Vec<Value>> {
    value.get(ENTRIES)?.as_array()
}
