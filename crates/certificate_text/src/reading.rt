//! Looks into an object of a certificate.

ghost use Rattle.std.specs.Prelude.{◌≡◌, ◌≤◌, IfSome, is_some, option_map};
ghost use Rattle.serde_json.specs.Find.{as_object, as_str, get};
ghost use Rattle.serde_json.specs.View.{view, items_view};
ghost use Rattle.certificate_text.specs.Reading.{at_key, each_said, list_said, members_len, number_to, is_object_of, SaysAs};

use crate::part::CertificatePart;
use crate::unread::Unread;
use serde_json::Value;
use std::alloc::Global;

/// Asks for an object of so many members. Where so many keys are found in it, it has no others.
pub(crate) fn expect_object(value: &Value, members: usize) -> Option<()>
    ensures { result ≡ is_object_of members (view value.now) }
{
    if members_len(value)? == members {
        Some(())
    } else {
        None
    }
}

/// How many members an object has.
fn members_len(value: &Value) -> Option<usize>
    ensures { result ≡ option_map members_len (as_object (view value.now)) }
{
    let members = value.as_object()?;
    Some(members.len())
}

/// A whole number up to the greatest.
pub(crate) fn number_to(value: &Value, most: u64) -> Option<u64>
    ensures said { result ≡ number_to most (view value.now) }
    ensures fits { IfSome result (λ n. n ≤ most) }
{
    let number = value.as_u64()?;
    if number <= most { Some(number) } else { None }
}

/// The number at a key.
pub(crate) fn number_at(value: &Value, key: &str, most: u64) -> Option<u64>
    ensures said { result ≡ at_key key.now (number_to most) (view value.now) }
    ensures fits { IfSome result (λ n. n ≤ most) }
{
    number_to(value.get(key)?, most)
}

/// The text at a key.
pub(crate) fn text_at<'a>(value: &'a Value, key: &str) -> Option<&'a str>
    ensures { option_map (λ text. text.now) result ≡ at_key key.now as_str (view value.now) }
{
    value.get(key)?.as_str()
}

/// Whether the object has the key.
pub(crate) fn has_key(value: &Value, key: &str) -> bool
    ensures { result ≡ is_some (get key.now (view value.now)) }
{
    value.get(key).is_some()
}

/// What each of the items says.
fn each_of<T: CertificatePart>(alloc: Global, values: &[Value]) -> Result<Vec<T>, Unread>
    ensures { SaysAs (λ parts. parts.items) result (each_said T.said (items_view values.now)) }
{
    let mut parts = Vec::new(alloc);
    for value in values {
        let part = T::read_behind(alloc, parts.as_slice(), value)?;
        parts.push(part)?;
    }
    Ok(parts)
}

/// What a list says, item by item.
pub(crate) fn list_of<T: CertificatePart>(alloc: Global, value: &Value) -> Result<Vec<T>, Unread>
    ensures { SaysAs (λ parts. parts.items) result (list_said T.said (view value.now)) }
{
    match value.as_array() {
        Some(values) => each_of(alloc, values),
        None => Err(Unread::WrongForm),
    }
}

/// What the list at a key says.
pub(crate) fn list_at<T: CertificatePart>(
    alloc: Global,
    value: &Value,
    key: &str,
) -> Result<Vec<T>, Unread>
    ensures { SaysAs (λ parts. parts.items) result
        (at_key key.now (list_said T.said) (view value.now)) }
{
    match value.get(key) {
        Some(list) => list_of(alloc, list),
        None => Err(Unread::WrongForm),
    }
}
