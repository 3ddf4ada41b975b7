//! Items of refutations, and refutations.

ghost use Rattle.std.specs.Prelude.{◌≡◌, IfOk};
ghost use Rattle.certificate_text.specs.Reading.{Says};
ghost use Rattle.certificate_text.specs.Said.{conflict_said, earlier_said, fixed_by, item_said, lines_said, refutation_said, split_said};
ghost use Rattle.serde_json.specs.View.{view};
ghost use Rattle.certificate_text.specs.Told.{earlier_data, refutation_data};

use crate::json_writer::Writer;
use crate::line::read_named;
use crate::part::{CertificatePart, Put, put_list};
use crate::reading::{expect_object, has_key, list_at, list_of, number_at};
use crate::unread::Unread;
use serde_json::Value;
use std::alloc::{AllocError, Global};
use sysmem_counts::Field;
use sysmem_tree::Path;
use verdict_claims::{Conflict, EarlierChoices, Item, Line, Lines, PathList, Refutation};

impl CertificatePart for Item {
    ghost said = { item_said };

    fn read(alloc: Global, value: &Value) -> Result<Item, Unread> {
        if has_key(value, "split") {
            return split_of(value).ok_or(Unread::WrongForm);
        }
        Ok(Item::Leaf(conflict_of(alloc, value)?))
    }
}

impl Put for Refutation {
    ghost told = { refutation_data };

    fn put(&self, out: &mut Writer) -> Result<(), AllocError> {
        out.refutation(self.items())
    }
}

impl CertificatePart for Refutation {
    ghost said = { refutation_said };

    fn read(alloc: Global, value: &Value) -> Result<Refutation, Unread> {
        Ok(Refutation::new(list_of(alloc, value)?))
    }
}

impl Put for EarlierChoices {
    ghost told = { earlier_data };

    fn put(&self, out: &mut Writer) -> Result<(), AllocError> {
        put_list(out, self.refutations())
    }
}

impl CertificatePart for EarlierChoices {
    ghost said = { earlier_said };

    fn read(alloc: Global, value: &Value) -> Result<EarlierChoices, Unread> {
        Ok(EarlierChoices::new(list_of(alloc, value)?))
    }
}

fn split_of(value: &Value) -> Option<Item>
    ensures { result ≡ split_said (view value.now) }
{
    expect_object(value, 1)?;
    Some(Item::Split(number_at(value, "split", u64::MAX)?))
}

fn conflict_of(alloc: Global, value: &Value) -> Result<Conflict, Unread>
    ensures { Says result (conflict_said (view value.now)) }
{
    if has_key(value, "count") {
        let (field, nodes) = read_named(alloc, value, "count")?;
        Ok(Conflict::Count(Line::new(alloc, field, nodes)?))
    } else if has_key(value, "fixed") {
        let (field, nodes) = read_named(alloc, value, "fixed")?;
        fixed_by(alloc, field, &nodes)?.ok_or(Unread::WrongForm)
    } else if has_key(value, "places") {
        Ok(Conflict::Places(lines_of(alloc, value, "places")?))
    } else {
        Ok(Conflict::Offers(lines_of(alloc, value, "offers")?))
    }
}

/// The conflict of a field and one node.
fn fixed_by(alloc: Global, field: Field, nodes: &PathList) -> Result<Option<Conflict>, AllocError>
    ensures { IfOk result (λ found. found ≡ fixed_by field nodes.now) }
{
    let mut left = nodes.iter();
    let Some(node) = left.next() else {
        return Ok(None);
    };
    if left.next().is_some() {
        return Ok(None);
    }
    let ordinals = Vec::from_slice(alloc, node)?;
    Ok(Some(Conflict::Fixed(field, Path::new(ordinals))))
}

/// The lines that an object has alone, under a kind.
fn lines_of(alloc: Global, value: &Value, kind: &str) -> Result<Lines, Unread>
    ensures { Says result (lines_said kind.now (view value.now)) }
{
    expect_object(value, 1).ok_or(Unread::WrongForm)?;
    Ok(Lines::new(list_at(alloc, value, kind)?))
}
