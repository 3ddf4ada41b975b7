//! Lines of the conflict table.

ghost use Rattle.std.specs.Prelude.{◌≡◌, codes};
ghost use Rattle.certificate_text.specs.Fields.{field_named};
ghost use Rattle.certificate_text.specs.Reading.{named_at, SaysAs};
ghost use Rattle.certificate_text.specs.Said.{line_said, named_said};
ghost use Rattle.serde_json.specs.View.{view};

use crate::part::CertificatePart;
use crate::path_list::paths_at;
use crate::reading::{expect_object, text_at};
use crate::unread::Unread;
use serde_json::Value;
use std::alloc::Global;
use sysmem_counts::Field;
use verdict_claims::{Line, PathList};

impl CertificatePart for Line {
    ghost said = { line_said };

    fn read(alloc: Global, value: &Value) -> Result<Line, Unread> {
        Line::read_behind(alloc, &[], value)
    }

    fn read_behind(alloc: Global, lines: &[Line], value: &Value) -> Result<Line, Unread> {
        expect_object(value, 2).ok_or(Unread::WrongForm)?;
        let field = field_behind(lines, value).ok_or(Unread::WrongForm)?;
        let nodes = paths_at(alloc, value, "nodes")?;
        Ok(Line::behind(alloc, lines, field, nodes)?)
    }
}

/// The field of a line that stands after others. Most often it is that of the last of them, whose
/// name is compared first.
fn field_behind(lines: &[Line], value: &Value) -> Option<Field>
    ensures { result ≡ named_at (codes "field") field_named (view value.now) }
{
    let name = text_at(value, "field")?;
    match lines.last() {
        Some(last) if last.field().name() == name => Some(last.field()),
        _ => field_of(name),
    }
}

/// The field of a name.
fn field_of(name: &str) -> Option<Field>
    ensures { result ≡ field_named name.now }
{
    Field::from_name(name)
}

/// The field that is named at a key.
fn field_at(value: &Value, key: &str) -> Option<Field>
    ensures { result ≡ named_at key.now field_named (view value.now) }
{
    field_of(text_at(value, key)?)
}

/// The field under a kind, and the paths of nodes.
pub(crate) fn read_named(
    alloc: Global,
    value: &Value,
    kind: &str,
) -> Result<(Field, PathList), Unread>
    ensures { SaysAs (λ named. record { field = named.0; nodes = named.1 }) result
        (named_said kind.now (view value.now)) }
{
    expect_object(value, 2).ok_or(Unread::WrongForm)?;
    let field = field_at(value, kind).ok_or(Unread::WrongForm)?;
    let nodes = paths_at(alloc, value, "nodes")?;
    Ok((field, nodes))
}
