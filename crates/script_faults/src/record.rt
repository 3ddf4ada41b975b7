//! Where the first fault of a record stands in its text, and what would be right, in words.

mod alike;
mod cutting;
mod document;
mod firsts;
mod keys;
mod kinds;
mod leaving;
mod list_fault;
mod names;
mod numbers;
mod objects_meant;
mod on_platform;
mod other_words;
mod owners;
mod paths;
mod record_fault;
mod record_place;
mod sides;
mod unknown;
mod unknown_key;

pub use document::{Document, RecordPart, Whole};
pub use keys::{is_field_of, is_one_of};
pub use kinds::wrong_kind;
pub(crate) use other_words::call_in;
pub use record_fault::add_record_fault;
pub use unknown::{first_unknown, key_of};
