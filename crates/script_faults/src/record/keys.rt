//! The keys of a script's records, and what may stand at them.

use crate::record::names::names_for;
use explanation_text::TextBuilder;
use explanation_text::wording::put_joined;
use std::alloc::{AllocError, Global};
use sysmem_counts::{Field, Kind};
use sysmem_image::bounds_table;

pub(crate) const SIZE: &[&str] = &["width", "height"];

/// Whether a name is one of these.
pub fn is_one_of(name: &str, names: &[&str]) -> bool {
    names.iter().any(|other| *other == name)
}

/// Whether a name is that of one of these fields.
pub fn is_field_of(name: &str, fields: &[Field]) -> bool {
    fields.iter().any(|field| field.name() == name)
}

/// The names of fields.
pub(crate) fn names_of(alloc: Global, fields: &[Field]) -> Result<Vec<&'static str>, AllocError> {
    fields.iter().map(|field| field.name()).collect(alloc)
}

/// What a record has at a key.
pub(crate) fn kind_at(key: &str) -> Kind {
    match Field::from_name(key) {
        Some(field) => field.kind(),
        None => Kind::Number,
    }
}

macro_rules! ranges {
    (($field:ident) $($name:ident: $shape:ident $rule:ident $bound:ident $absent:ident $range:ident,)*) => {
        match $field {
            $(Field::$bound => range!($shape $range),)*
            Field::MinSizeBytes | Field::MaxSizeBytes | Field::Id => (0, u64::MAX),
            _ => (0, 4294967295),
        }
    };
}

macro_rules! range {
    (large from_one) => { (1, u64::MAX) };
    (number multiple) => { (1, 65536) };
    ($shape:ident $range:ident) => { (0, 4294967295) };
}

/// The least and the greatest number that a key takes, where it takes one.
pub(crate) fn range_of(key: &str) -> (u64, u64) {
    match Field::from_name(key) {
        Some(field) => bounds_table!(ranges!(field)),
        None => (0, 4294967295),
    }
}

/// Texts, each with what stands for it.
pub(crate) type Table = &'static [(&'static str, &'static str)];

/// What stands for a text, if it is in a table.
pub(crate) fn found(table: Table, text: &str) -> Option<&'static str> {
    for (key, words) in table {
        if *key == text {
            return Some(*words);
        }
    }
    None
}

macro_rules! bounds_allowed {
    (($field:ident) $($name:ident: $shape:ident $rule:ident $bound:ident $absent:ident $range:ident,)*) => {
        match $field {
            $(Field::$bound => bound_allowed!($shape $range),)*
            _ => allowed_outside_bounds($field),
        }
    };
}

macro_rules! bound_allowed {
    (number multiple) => { "a whole number of bytes, 1 to 65536" };
    (number $range:ident) => { "a whole number of bytes, 0 to 4294967295" };
    (large $range:ident) => { "a whole number of pixels, 1 to 18446744073709551615" };
    (size multiple) => { "an object with just width and height, whole numbers of pixels from 1 to 65536" };
    (size $range:ident) => { "an object with just width and height, whole numbers of pixels from 0 to 4294967295" };
}

/// What may stand at a field that is no bound and lists no names.
fn allowed_outside_bounds(field: Field) -> &'static str {
    match field {
        Field::BufferMemoryConstraints => "an object",
        Field::MinSizeBytes | Field::MaxSizeBytes => {
            "a whole number of bytes, 0 to 18446744073709551615"
        }
        Field::Id => "a whole number, 0 to 18446744073709551615",
        Field::HeapType => "1 to 128 ASCII letters, digits, '.', '_' or '-'",
        Field::PermittedHeaps => {
            "a list of at most 64 heaps, each an object with heap_type and id, none twice"
        }
        Field::ImageFormatConstraints => "a list of entries",
        Field::Heaps => "a list of 1 to 64 heaps, no two of one heap_type and id",
        Field::Pairs => {
            "a list of objects with pixel_format and pixel_format_modifier, one at least, none twice"
        }
        Field::PixelFormatAndModifiers => {
            "a list of objects with pixel_format and pixel_format_modifier"
        }
        _ if field.kind() == Kind::Flag => "true or false",
        _ => "a whole number of buffers, 0 to 4294967295",
    }
}

/// What may stand at a field that lists no names.
fn allowed_at(field: Field) -> &'static str {
    bounds_table!(bounds_allowed!(field))
}

/// Puts what may stand at a field after a text.
pub(crate) fn put_allowed(text: &mut TextBuilder, field: Field, is_platform: bool) {
    match field {
        Field::PixelFormat => {
            text.put("the name of a format");
            if !is_platform {
                text.put(", or DO_NOT_CARE");
            }
        }
        Field::ColorSpaces => {
            text.put("a list of names, one at least");
            text.put(if is_platform {
                ", none twice"
            } else {
                "; DO_NOT_CARE takes any"
            });
        }
        Field::Usage => {
            text.put("a list of none alone, or of one or more of ");
            put_names(text, field, is_platform, 1, "and");
        }
        Field::Domains => {
            text.put("a list of ");
            put_names(text, field, is_platform, 0, "or");
            text.put("; one at least, none twice");
        }
        Field::PixelFormatModifier => put_names(text, field, is_platform, 0, "or"),
        _ => {
            text.put(allowed_at(field));
        }
    }
}

/// Puts the names that a field takes after a text, but for the first few.
fn put_names(text: &mut TextBuilder, field: Field, is_platform: bool, first: usize, word: &str) {
    match names_for(text.alloc(), field, is_platform) {
        Ok(names) => put_joined(text, names.get(first..).unwrap_or(&[]), word),
        Err(AllocError) => text.refuse(),
    }
}
