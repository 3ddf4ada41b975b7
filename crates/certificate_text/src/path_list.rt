//! Lists of paths.

ghost use Rattle.certificate_text.specs.Reading.{at_key, each_said, list_said, Says};
ghost use Rattle.certificate_text.specs.Said.{node_said};
ghost use Rattle.serde_json.specs.View.{items_view, view};

use crate::part::CertificatePart;
use crate::path::read_path;
use crate::unread::Unread;
use serde_json::Value;
use std::alloc::Global;
use verdict_claims::PathList;

impl CertificatePart for PathList {
    ghost said = { list_said node_said };

    fn read(alloc: Global, value: &Value) -> Result<PathList, Unread> {
        match value.as_array() {
            Some(values) => each_path(alloc, values),
            None => Err(Unread::WrongForm),
        }
    }
}

/// The paths that each of the items says.
fn each_path(alloc: Global, values: &[Value]) -> Result<PathList, Unread>
    ensures { Says result (each_said node_said (items_view values.now)) }
{
    let mut paths = PathList::with_room(alloc, values.len())?;
    let mut ordinals = Vec::new(alloc);
    for value in values {
        read_path(&mut ordinals, value)?;
        paths.put(ordinals.as_slice())?;
    }
    Ok(paths)
}

/// The paths at a key.
pub(crate) fn paths_at(alloc: Global, value: &Value, key: &str) -> Result<PathList, Unread>
    ensures { Says result (at_key key.now (list_said node_said) (view value.now)) }
{
    match value.get(key) {
        Some(list) => PathList::read(alloc, list),
        None => Err(Unread::WrongForm),
    }
}
