//! Entries that take something more, or a colour space alone.

ghost use Rattle.std.specs.Prelude.{◌≡◌, map, IfOk};
ghost use Rattle.constraint_edits.specs.Edited.{naming, taking, taking_alone};

use std::alloc::{AllocError, Global};
use sysmem_formats::{ColourSpace, Pair};
use sysmem_image::{ColourSet, Entry};

/// An entry for a pair, else like another.
pub(super) fn naming(like: &Entry, pair: Pair) -> Entry
    ensures { result ≡ naming pair like.now }
{
    Entry {
        format: Some(pair.format),
        modifier: Some(pair.modifier),
        colours: like.colours,
        bounds: like.bounds,
    }
}

/// An entry that takes a colour space too.
fn taking(entry: &Entry, colour: ColourSpace) -> Entry
    ensures { result ≡ taking colour entry.now }
{
    let mut colours = entry.colours;
    colours.insert(colour);
    Entry {
        format: entry.format,
        modifier: entry.modifier,
        colours,
        bounds: entry.bounds,
    }
}

/// An entry that takes no other colour space than one, if it takes that.
fn taking_alone(entry: &Entry, colour: ColourSpace) -> Entry
    ensures { result ≡ taking_alone colour entry.now }
{
    if !entry.colours.accepts(colour) {
        return *entry;
    }
    let mut colours = ColourSet::new();
    colours.insert(colour);
    Entry {
        format: entry.format,
        modifier: entry.modifier,
        colours,
        bounds: entry.bounds,
    }
}

/// Entries of which each that takes a colour space takes no other.
pub(super) fn taking_colour_alone(
    alloc: Global,
    entries: &[Entry],
    colour: ColourSpace,
) -> Result<Vec<Entry>, AllocError>
    ensures { IfOk result (λ made. made.items ≡ map (taking_alone colour) entries.now) }
{
    let mut made = Vec::new(alloc);
    for entry in entries {
        made.push(taking_alone(entry, colour))?;
    }
    Ok(made)
}

/// Entries that each take a colour space too.
pub(super) fn taking_colour(
    alloc: Global,
    entries: &[Entry],
    colour: ColourSpace,
) -> Result<Vec<Entry>, AllocError>
    ensures { IfOk result (λ made. made.items ≡ map (taking colour) entries.now) }
{
    let mut made = Vec::new(alloc);
    for entry in entries {
        made.push(taking(entry, colour))?;
    }
    Ok(made)
}
