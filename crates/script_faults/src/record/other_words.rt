//! Other people's words for the fields of records, and for calls.

use crate::record::keys::{Table, found, is_one_of};
use std::alloc::{AllocError, Global};
use sysmem_counts::Field;

/// How many letters of a key are looked at.
const LONGEST: usize = 60;

/// Words of other buffer APIs in keys, each with the word for it in `FIELDS_OF_WORDS`; an empty one
/// counts for nothing.
const WORDS: Table = &[
    ("stride", "row"),
    ("pitch", "row"),
    ("line", "row"),
    ("align", "alignment"),
    ("multiple", "alignment"),
    ("divisor", "alignment"),
    ("minimum", "min"),
    ("maximum", "max"),
    ("count", "buffer"),
    ("num", "buffer"),
    ("number", "buffer"),
    ("buffers", "buffer"),
    ("heaps", "heap"),
    ("pixels", "pixel"),
    ("byte", "bytes"),
    ("coherent", "domain"),
    ("coherency", "domain"),
    ("per", ""),
    ("of", ""),
    ("in", ""),
];

/// The words of a key, in any order, each with the field that is meant; where it may be one of
/// several, the first that takes what stands there.
const FIELDS_OF_WORDS: &[(&str, Field)] = &[
    ("row alignment", Field::BytesPerRowDivisor),
    ("bytes row alignment", Field::BytesPerRowDivisor),
    ("min row", Field::MinBytesPerRow),
    ("min bytes row", Field::MinBytesPerRow),
    ("max row", Field::MaxBytesPerRow),
    ("max bytes row", Field::MaxBytesPerRow),
    ("alignment", Field::SizeAlignment),
    ("alignment", Field::BytesPerRowDivisor),
    ("width alignment", Field::SizeAlignment),
    ("height alignment", Field::SizeAlignment),
    ("offset alignment", Field::StartOffsetDivisor),
    ("size", Field::MinSize),
    ("size", Field::MinSizeBytes),
    ("bytes size", Field::MinSizeBytes),
    ("buffer size", Field::MinSizeBytes),
    ("max buffer size", Field::MaxSizeBytes),
    ("resolution", Field::MinSize),
    ("width", Field::MinSize),
    ("height", Field::MinSize),
    ("min size", Field::MinSize),
    ("min resolution", Field::MinSize),
    ("min width", Field::MinSize),
    ("min height", Field::MinSize),
    ("max size", Field::MaxSize),
    ("max resolution", Field::MaxSize),
    ("max width", Field::MaxSize),
    ("max height", Field::MaxSize),
    ("pixel", Field::MaxWidthTimesHeight),
    ("max pixel", Field::MaxWidthTimesHeight),
    ("buffer", Field::MinBufferCount),
    ("min buffer", Field::MinBufferCount),
    ("max buffer", Field::MaxBufferCount),
    ("held", Field::MinBufferCountForCamping),
    ("buffer held", Field::MinBufferCountForCamping),
    ("protected", Field::SecureRequired),
    ("cached", Field::CpuDomainSupported),
    ("cpu domain", Field::CpuDomainSupported),
    ("uncached", Field::RamDomainSupported),
    ("ram domain", Field::RamDomainSupported),
    ("inaccessible domain", Field::InaccessibleDomainSupported),
    ("heap", Field::PermittedHeaps),
    ("allowed heap", Field::PermittedHeaps),
    ("heap", Field::HeapType),
    ("name", Field::HeapType),
    ("format", Field::PixelFormat),
    ("drm format", Field::PixelFormat),
    ("fourcc", Field::PixelFormat),
    ("modifier", Field::PixelFormatModifier),
    ("tiling", Field::PixelFormatModifier),
];

/// The fields that may be meant by a key that is made of other people's words, the likeliest first;
/// none where it isn't.
pub(crate) fn fields_of_words(alloc: Global, key: &str) -> Result<Vec<Field>, AllocError> {
    let spaced = spaced(alloc, key)?;
    let words = words_of(alloc, &spaced)?;
    let mut fields = Vec::new(alloc);
    for (row, field) in FIELDS_OF_WORDS {
        if is_row(*row, &words) {
            fields.push(*field)?;
        }
    }
    Ok(fields)
}

/// A key in small letters, with a blank before each capital and in the place of each mark.
fn spaced(alloc: Global, key: &str) -> Result<String, AllocError> {
    let mut words = String::new(alloc);
    let mut was_small = false;
    for c in key.chars().take(LONGEST) {
        if !c.is_ascii_alphanumeric() || (was_small && c.is_ascii_uppercase()) {
            words.push(' ')?;
        }
        if c.is_ascii_alphanumeric() {
            words.push(c.to_ascii_lowercase())?;
        }
        was_small = c.is_ascii_lowercase();
    }
    Ok(words)
}

/// The words for those of a text, each once.
fn words_of<'a>(alloc: Global, spaced: &'a str) -> Result<Vec<&'a str>, AllocError> {
    let mut words: Vec<&'a str> = Vec::new(alloc);
    for word in spaced.split(' ') {
        let word = match found(WORDS, word) {
            Some(ours) => ours,
            None => word,
        };
        if !word.is_empty() && !is_one_of(word, &words) {
            words.push(word)?;
        }
    }
    Ok(words)
}

/// Whether the words of a row are just these.
fn is_row(row: &str, words: &[&str]) -> bool {
    row.split(' ').count() == words.len() && row.split(' ').all(|word| is_one_of(word, words))
}

/// The known call whose words all stand in the name of an unknown one, if one has more of them than
/// all others: `duplicate` in `DuplicateSync`, `wait` in `wait_for_all_buffers_allocated`.
pub(crate) fn call_in<'a>(
    alloc: Global,
    name: &str,
    calls: &[&'a str],
) -> Result<Option<&'a str>, AllocError> {
    let spaced = spaced(alloc, name)?;
    let words = words_of(alloc, &spaced)?;
    let mut most = 0usize;
    let mut best = None;
    for call in calls {
        let count = words_among(call, &words);
        if count > most {
            most = count;
            best = Some(*call);
        } else if count == most {
            best = None;
        }
    }
    Ok(best)
}

/// How many words a call has that all stand among these; 0 where one doesn't.
fn words_among(call: &str, words: &[&str]) -> usize {
    if call.split('_').all(|word| is_one_of(word, words)) {
        call.split('_').count()
    } else {
        0
    }
}
