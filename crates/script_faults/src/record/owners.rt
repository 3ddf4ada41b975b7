//! The objects of constraints, and where they stand.

use crate::record::document::Document;
use crate::record::keys::{is_field_of, is_one_of};
use crate::record::paths::{Path, with};
use explanation_text::{Moved, Owner, Step};
use record_reading::{ENTRY_FIELDS, MEMORY_FIELDS};
use serde_json::Value;
use std::alloc::{AllocError, Global};
use sysmem_counts::Field;
use sysmem_sanitise::CONSTRAINTS_FIELDS;

/// The objects of constraints.
pub(crate) const OWNERS: [Owner; 3] = [Owner::Constraints, Owner::Memory, Owner::Entry];

/// The keys that such an object may have.
pub(crate) fn fields_of(owner: Owner) -> &'static [Field] {
    match owner {
        Owner::Constraints => &CONSTRAINTS_FIELDS,
        Owner::Memory => &MEMORY_FIELDS,
        Owner::Entry => &ENTRY_FIELDS,
    }
}

/// The object into which a key belongs, if it isn't one of these.
pub(crate) fn owner_of(key: &str, keys: &[&str]) -> Option<Owner> {
    if is_one_of(key, keys) {
        return None;
    }
    OWNERS
        .iter()
        .copied()
        .find(|owner| is_field_of(key, fields_of(*owner)))
}

/// Where such an object of the constraints at a path begins, for a member that stands in the object
/// at another path: of entries the one in which that is, else all. No place where there is none.
pub(crate) fn places_in(
    alloc: Global,
    document: &Document<'_>,
    base: &[Step<'_>],
    path: &[Step<'_>],
    owner: Owner,
) -> Result<Moved, AllocError> {
    let mut moved = Moved {
        into: owner,
        renamed: None,
        is_new: false,
        places: Vec::new(alloc),
    };
    match owner {
        Owner::Constraints => add_place(&mut moved.places, document, base)?,
        Owner::Memory => {
            let memory = with(
                alloc,
                base,
                Step::Key(Field::BufferMemoryConstraints.name()),
            )?;
            add_place(&mut moved.places, document, &memory)?;
            if document.at(&memory).is_none() {
                moved.is_new = true;
                add_place(&mut moved.places, document, base)?;
            }
        }
        Owner::Entry => {
            for entry in &entries_for(alloc, document, base, path)? {
                add_place(&mut moved.places, document, entry)?;
            }
        }
    }
    Ok(moved)
}

/// Adds where the object at a path begins, if it has members.
fn add_place(
    places: &mut Vec<usize>,
    document: &Document<'_>,
    path: &[Step<'_>],
) -> Result<(), AllocError> {
    if let Some(place) = document.first_place(*places.allocator(), path)? {
        places.push(place)?;
    }
    Ok(())
}

/// The paths of the entries of the constraints at a path: of the one in which another path lies, or
/// else of all.
fn entries_for<'a>(
    alloc: Global,
    document: &Document<'_>,
    base: &[Step<'a>],
    path: &[Step<'a>],
) -> Result<Vec<Path<'a>>, AllocError> {
    let list = with(alloc, base, Step::Key(Owner::Entry.key()))?;
    let mut paths = Vec::new(alloc);
    if let Some(Step::Item(index)) = path.get(list.len()) {
        paths.push(with(alloc, &list, Step::Item(*index))?)?;
        return Ok(paths);
    }
    let count = match document.at(&list).and_then(Value::as_array) {
        Some(entries) => entries.len(),
        None => 0,
    };
    for index in 0..count {
        paths.push(with(alloc, &list, Step::Item(index))?)?;
    }
    Ok(paths)
}
