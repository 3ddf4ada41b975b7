//! Which entry of a participant is the first with each pair of names.

ghost use Rattle.std.specs.Prelude.{◌≡◌, ◌<◌, ◌≤◌, ◌==◌, [], length};
ghost use Rattle.std.specs.List.{position_or_len, slice_get};
ghost use Rattle.std.specs.Option.{option_copied};
ghost use Rattle.sysmem_formats.specs.declared.colour_space.ColourSpace.{ColourSpace};
ghost use Rattle.sysmem_formats.specs.declared.offer.Offer.TheVariants.{Image};
ghost use Rattle.sysmem_formats.specs.declared.pixel_format.TheConstants.{FORMATS};
ghost use Rattle.sysmem_formats.specs.declared.modifier.TheConstants.{MODIFIERS};
ghost use Rattle.sysmem_image.specs.declared.first_matches.TheConstants.{SLOTS};
ghost use Rattle.sysmem_image.specs.Entries.{first_match};
ghost use Rattle.sysmem_image.specs.Slots.{format_row, modifier_column, slot, has_slot};

use crate::entry::Entry;
use std::marker::Model;
use sysmem_formats::{FORMATS, MODIFIERS, Modifier, Offer, Pair, PixelFormat};

/// The columns of the table: one for entries of any modifier, and one for each modifier.
const COLUMNS: usize = MODIFIERS + 1;

/// The places of the table. It has a row for entries of any format, and one for each format.
const SLOTS: usize = (FORMATS + 1) * COLUMNS;

/// The first entry of a participant for each pair of a format and a modifier.
///
/// It is made in one pass over the entries, and then finds the entry for an offer in a few steps.
#[derive(Drop)]
pub struct FirstMatches<'a> {
    entries: &'a [Entry],
    first: [usize; SLOTS],
}

impl<'a> Model for FirstMatches<'a> {
    ghost use Rattle.std.specs.Prelude.{List};
    ghost use Rattle.sysmem_image.specs.declared.entry.Entry.{Entry};
    ghost use Rattle.sysmem_image.specs.Slots.{AreFirst};

    ghost Value = { List Entry };

    ghost view = { λ t. t.entries.now };

    ghost invariant = { λ t. AreFirst t.entries.now t.first };
}

impl<'a> FirstMatches<'a> {
    /// The table of a participant's entries.
    pub fn of(entries: &'a [Entry]) -> FirstMatches<'a>
        ensures { result ≡ entries.now }
    {
        let mut matches = FirstMatches::none();
        matches.read(entries);
        matches
    }

    /// The table of no entries.
    pub fn none() -> FirstMatches<'a>
        ensures { result ≡ [] }
    {
        FirstMatches {
            entries: &[],
            first: [0; SLOTS],
        }
    }

    /// Becomes the table of these entries, which is so made where it stands.
    pub fn read(&mut self, entries: &'a [Entry])
        ensures { self.new ≡ entries.now }
    {
        self.entries = entries;
        self.first = [entries.len(); SLOTS];
        for (index, entry) in entries.iter().enumerate() {
            let slot = slot(entry.format, entry.modifier);
            self.first[slot] = self.first[slot].min(index);
        }
    }

    /// Whether the participant has no entries.
    pub fn is_empty(&self) -> bool
        ensures { result ≡ (length self.now == 0) }
    {
        self.entries.is_empty()
    }

    /// The participant's entry for an offer: the first whose format and modifier match, or
    /// `None`. No entry is one for no image.
    pub fn entry_for(&self, offer: &Offer) -> Option<&'a Entry>
        ensures { option_copied result ≡ first_match offer.now self.now }
    {
        match offer {
            Offer::NoImage => None,
            Offer::Image(pair, _) => self.entries.get(self.first_for(*pair)),
        }
    }

    /// The index of the first entry for images of a pair, or the number of entries where none is.
    fn first_for(&self, pair: Pair) -> usize
        ensures { (colour : ColourSpace)
            → slice_get self.now result ≡ first_match (Image pair colour) self.now }
    {
        let (format, modifier) = (Some(pair.format), Some(pair.modifier));
        let named = self
            .first_with(format, modifier)
            .min(self.first_with(format, None));
        let any = self
            .first_with(None, modifier)
            .min(self.first_with(None, None));
        named.min(any)
    }

    /// The index of the first entry with these names themselves, or the
    /// number of entries where none has them.
    fn first_with(&self, format: Option<PixelFormat>, modifier: Option<Modifier>) -> usize
        ensures { result ≡ position_or_len (has_slot (slot format modifier)) self.now }
    {
        self.first[slot(format, modifier)]
    }
}

/// The place in the table of a format and a modifier, `None` being `DO_NOT_CARE`.
fn slot(format: Option<PixelFormat>, modifier: Option<Modifier>) -> usize
    ensures is { result ≡ slot format modifier }
    ensures below { result < SLOTS }
{
    row(format) * COLUMNS + column(modifier)
}

/// The row of a format.
fn row(format: Option<PixelFormat>) -> usize
    ensures is { result ≡ format_row format }
    ensures below { result ≤ FORMATS }
{
    match format {
        None => 0,
        Some(format) => format.index() + 1,
    }
}

/// The column of a modifier.
fn column(modifier: Option<Modifier>) -> usize
    ensures is { result ≡ modifier_column modifier }
    ensures below { result ≤ MODIFIERS }
{
    match modifier {
        None => 0,
        Some(modifier) => modifier.index() + 1,
    }
}
