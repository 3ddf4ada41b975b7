//! Paths to values in a script or a record.

use explanation_text::wording::put_visible;
use explanation_text::{Step, TextBuilder};
use std::alloc::{AllocError, Global};

/// How many characters of a key are shown.
const MOST: usize = 60;

/// A path from the whole to a value in it.
pub type Path<'a> = Vec<Step<'a>>;

/// A path with a further step.
pub fn with<'a>(alloc: Global, path: &[Step<'a>], step: Step<'a>) -> Result<Path<'a>, AllocError> {
    let mut longer = Vec::from_slice(alloc, path)?;
    longer.push(step)?;
    Ok(longer)
}

/// A path with further steps after it.
pub(crate) fn joined<'a>(
    alloc: Global,
    path: &[Step<'a>],
    others: &[Step<'a>],
) -> Result<Path<'a>, AllocError> {
    let mut longer = Vec::from_slice(alloc, path)?;
    longer.extend_from_slice(others)?;
    Ok(longer)
}

/// The path of an item of the list at a path, with further steps after it.
pub(crate) fn extended<'a>(
    path: Path<'a>,
    index: usize,
    rest: &[Step<'a>],
) -> Result<Path<'a>, AllocError> {
    let mut path = path;
    path.push(Step::Item(index))?;
    path.extend_from_slice(rest)?;
    Ok(path)
}

/// Puts a path after a text: `calls[4].constraints.usage[0]`.
pub(crate) fn put_path(text: &mut TextBuilder, path: &[Step<'_>]) {
    for (k, step) in path.iter().enumerate() {
        match *step {
            Step::Key(key) => put_key(text, if 0 < k { "." } else { "" }, key),
            Step::Item(index) => {
                text.put("[").put_number(index).put("]");
            }
        }
    }
}

/// Puts a path with further steps after a text.
pub(crate) fn put_longer<'a>(text: &mut TextBuilder, path: &[Step<'a>], steps: &[Step<'a>]) {
    match joined(text.alloc(), path, steps) {
        Ok(longer) => put_path(text, &longer),
        Err(AllocError) => text.refuse(),
    }
}

/// Puts a key after a text and a mark, the front of it where it is long.
fn put_key(text: &mut TextBuilder, mark: &str, key: &str) {
    let front = match key.char_indices().nth(MOST) {
        Some((end, _)) => key.get(..end).unwrap_or(key),
        None => key,
    };
    text.put(mark);
    put_visible(text, front);
    text.put(if front.len() < key.len() { "..." } else { "" });
}
