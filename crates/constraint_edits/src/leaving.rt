//! Fields that are left out of constraints without a copy.

use crate::edits::Edit;
use crate::objects::{ENTRIES, MEMORY};
use serde_json::Value;

/// Makes a change of constraints in their place, if it leaves a field out; says whether it does.
pub fn leave_out(value: &mut Value, edit: Edit) -> bool {
    match edit {
        Edit::NoCount(field) => drop_member(value, field.name()),
        Edit::NoMemory(field) => {
            if let Some(memory) = value.get_mut(MEMORY) {
                drop_member(memory, field.name());
            }
        }
        Edit::NoBound(field) => drop_bound(value, field.name()),
        _ => return false,
    }
    true
}

/// Takes the member of a key out of an object.
fn drop_member(object: &mut Value, key: &str) {
    if let Some(members) = object.as_object_mut() {
        let _gone = members.remove(key);
    }
}

/// Takes a bound out of each entry.
fn drop_bound(value: &mut Value, key: &str) {
    let Some(list) = value.get_mut(ENTRIES) else {
        return;
    };
    if let Some(entries) = list.as_array_mut() {
        for entry in entries.iter_mut() {
            drop_member(entry, key);
        }
    }
}
