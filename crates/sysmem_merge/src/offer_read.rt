//! What participants ask of one offer, kept so that each line of the conflict table can be asked.

ghost use Rattle.std.specs.Prelude.{◌≡◌, ◌↔◌, ◌||◌, true, not, List, [], ◌∷◌, ◌++◌, All, Some, IsTrue, IfSome, IfNone};
ghost use Rattle.sysmem_counts.specs.declared.field.Field.{Field};
ghost use Rattle.sysmem_counts.specs.declared.field.Field.TheVariants.{MaxSizeBytes};
ghost use Rattle.sysmem_formats.specs.declared.offer.Offer.{Offer};
ghost use Rattle.sysmem_image.specs.declared.bounds.ImageBounds.{ImageBounds};
ghost use Rattle.sysmem_image.specs.Entries.{effective, takes_colour};
ghost use Rattle.sysmem_image.specs.Read.{AreRead};
ghost use Rattle.offer_fits.specs.declared.fit.Fit.{Fit};
ghost use Rattle.sysmem_merge.specs.Demands.{OfferDemand, offer_demand};
ghost use Rattle.sysmem_merge.specs.Fit.{IsBestFit};
ghost use Rattle.sysmem_merge.specs.First.{IsFirstOf};
ghost use Rattle.sysmem_merge.specs.OfferRead.{IsRefusingLine, offer_lines};
ghost use Rattle.sysmem_merge.specs.Offers.{is_named, names_format, names_modifier, names_colour};
ghost use Rattle.sysmem_merge.specs.Reasons.{IsOfferLine, IsUnnamedLine};

use crate::fit::best_fit;
use crate::kept::{KeptBounds, names_colour};
use negotiation_inputs::Constraints;
use offer_fits::Fit;
use sysmem_counts::Field;
use sysmem_formats::{Offer, wide_image_bytes};
use sysmem_image::{BoundsRead, Entry, bounds_lines, bounds_table, entry_for, takes_colour};

macro_rules! offer_lines {
    ($($line:ident)*) => {
        [
            Field::PixelFormat,
            Field::ColorSpaces,
            $(Field::$line,)*
            Field::MaxSizeBytes,
            Field::UnnamedPixelFormat,
            Field::UnnamedPixelFormatModifier,
            Field::UnnamedColorSpace,
        ]
    };
}

/// What participants ask of one offer, of which each line of the conflict table can be asked: also
/// the lines behind the first that is true, as a certificate may give any of them.
#[derive(Clone, Copy, Debug)]
pub struct OfferRead {
    offer: Offer,
    bounds: BoundsRead,
    format_refused: bool,
    colour_refused: bool,
    format_named: bool,
    modifier_named: bool,
    colour_named: bool,
    least_size: u64,
    greatest_size: u64,
}

impl OfferRead {
    ghost use Rattle.sysmem_merge.specs.OfferRead.{IsOfferRead};

    /// What is read of an offer before any participant.
    pub fn new(offer: &Offer) -> OfferRead
        ensures { IsOfferRead offer.now [] result }
    {
        OfferRead {
            offer: *offer,
            bounds: BoundsRead::new(offer),
            format_refused: false,
            colour_refused: false,
            format_named: false,
            modifier_named: false,
            colour_named: false,
            least_size: 0,
            greatest_size: u64::MAX,
        }
    }

    /// Reads what one more participant asks of the offer.
    pub fn add(&mut self, asked: &Constraints)
        ensures { (o : Offer) (ds : List OfferDemand) → IsOfferRead o ds self.old
            → IsOfferRead o (ds ++ offer_demand asked.now ∷ []) self.new }
    {
        let memory = asked.memory();
        self.least_size = self.least_size.max(memory.min_size_bytes);
        self.greatest_size = self.greatest_size.min(memory.max_size_bytes);
        match entry_for(asked.entries(), &self.offer) {
            Some(entry) => self.add_entry(entry),
            None => self.format_refused = self.format_refused || !asked.entries().is_empty(),
        }
    }

    /// Whether the line of the conflict table that the field heads is true of the
    /// participants, in exact arithmetic. False of a field that heads no line of an offer;
    /// of unnamed lines see `is_unnamed`.
    pub fn is_line(&self, field: Field) -> bool
        ensures { (o : Offer) (ds : List OfferDemand) → IsOfferRead o ds self.now
            → IsTrue result ↔ IsOfferLine field o ds }
    {
        match field {
            Field::PixelFormat => self.format_refused,
            Field::ColorSpaces => self.colour_refused,
            Field::MaxSizeBytes => self.is_too_large(),
            _ => self.bounds.is_line(&self.offer, field),
        }
    }

    /// Whether no participant names the part of an image's name that the field speaks of:
    /// `UnnamedPixelFormat`, `UnnamedPixelFormatModifier` or `UnnamedColorSpace`. False of another
    /// field, and where there is no image.
    pub fn is_unnamed(&self, field: Field) -> bool
        ensures { (o : Offer) (ds : List OfferDemand) → IsOfferRead o ds self.now
            → IsTrue result ↔ IsUnnamedLine field o ds }
    {
        if let Offer::NoImage = self.offer {
            return false;
        }
        match field {
            Field::UnnamedPixelFormat => !self.format_named,
            Field::UnnamedPixelFormatModifier => !self.modifier_named,
            Field::UnnamedColorSpace => !self.colour_named,
            _ => false,
        }
    }

    /// The first line, in the table's order, that is true of the participants, or `None` where some
    /// size and bounds of the offer suit all of them. `whole` says that they are all that a
    /// decision has, so that an image's format, modifier and colour space must each be named by
    /// some of them: then the lines of what nobody names count too.
    pub fn first_line(&self, whole: bool) -> Option<Field>
        ensures first { (o : Offer) (ds : List OfferDemand) → IsOfferRead o ds self.now
            → IfSome result (IsFirstOf (IsRefusingLine whole o ds) offer_lines) }
        ensures fit { (o : Offer) (ds : List OfferDemand) → IsOfferRead o ds self.now
            → IfNone result ((fit : Fit) × IsBestFit o ds fit) }
        ensures named { (o : Offer) (ds : List OfferDemand) → IsOfferRead o ds self.now
            → IfNone result (whole ≡ true → is_named o ds ≡ true) }
    {
        if self.least_fit().is_some() && (!whole || self.is_named()) {
            return None;
        }
        let lines = bounds_table!(bounds_lines!(offer_lines));
        self.first_of(&lines, whole)
    }

    /// The least size, and the least bounds, of the offer that suit the participants, but for the
    /// names of the image. `None` where a line is true of them.
    pub fn least_fit(&self) -> Option<Fit>
        ensures best { (o : Offer) (ds : List OfferDemand) → IsOfferRead o ds self.now
            → IfSome result (IsBestFit o ds) }
        ensures none { (o : Offer) (ds : List OfferDemand) → IsOfferRead o ds self.now
            → IfNone result ((field : Field) × IsOfferLine field o ds) }
    {
        if self.format_refused || self.colour_refused {
            return None;
        }
        let kept = KeptBounds::Merged(self.bounds.merged()?);
        best_fit(&kept, &self.offer, self.least_size, self.greatest_size).ok()
    }

    /// Reads what one more participant's entry for the offer asks.
    fn add_entry(&mut self, entry: &Entry)
        ensures offer { self.new.offer ≡ self.old.offer }
        ensures least { self.new.least_size ≡ self.old.least_size }
        ensures greatest { self.new.greatest_size ≡ self.old.greatest_size }
        ensures refused { self.new.format_refused ≡ self.old.format_refused }
        ensures bounds { (es : List ImageBounds) → AreRead self.old.offer es self.old.bounds
            → AreRead self.old.offer (es ++ effective self.old.offer entry.now ∷ [])
            self.new.bounds }
        ensures colour { self.new.colour_refused
            ≡ (self.old.colour_refused || not (takes_colour self.old.offer entry.now)) }
        ensures format_named { self.new.format_named
            ≡ (self.old.format_named || names_format (Some entry.now)) }
        ensures modifier_named { self.new.modifier_named
            ≡ (self.old.modifier_named || names_modifier (Some entry.now)) }
        ensures colour_named { self.new.colour_named
            ≡ (self.old.colour_named || names_colour self.old.offer (Some entry.now)) }
    {
        let offer = self.offer;
        self.bounds.add(entry, &offer);
        self.colour_refused = self.colour_refused || !takes_colour(entry, &offer);
        self.format_named = self.format_named || entry.format.is_some();
        self.modifier_named = self.modifier_named || entry.modifier.is_some();
        self.colour_named = self.colour_named || names_colour(&offer, entry);
    }

    /// Whether each size that holds the least image and that all find
    /// large enough is too large for one.
    fn is_too_large(&self) -> bool
        ensures { (o : Offer) (ds : List OfferDemand) → IsOfferRead o ds self.now
            → IsTrue result ↔ IsOfferLine MaxSizeBytes o ds }
    {
        let Some((width, height)) = self.bounds.least_sides() else {
            return false;
        };
        let Some(row) = self.bounds.least_row(&self.offer, width) else {
            return false;
        };
        let bytes = wide_image_bytes(&self.offer, row, height);
        bytes.max(u128::from(self.least_size)).max(1) > u128::from(self.greatest_size)
    }

    /// Whether somebody named each part of the offer's name. No image needs no name.
    fn is_named(&self) -> bool
        ensures { (o : Offer) (ds : List OfferDemand) → IsOfferRead o ds self.now
            → result ≡ is_named o ds }
    {
        match self.offer {
            Offer::NoImage => true,
            Offer::Image(_, _) => self.format_named && self.modifier_named && self.colour_named,
        }
    }

    /// Whether the line is true of the participants; an unnamed one counts where they are all.
    fn is_refusing(&self, field: Field, whole: bool) -> bool
        ensures { (o : Offer) (ds : List OfferDemand) → IsOfferRead o ds self.now
            → IsTrue result ↔ IsRefusingLine whole o ds field }
    {
        self.is_line(field) || whole && self.is_unnamed(field)
    }

    /// The first of some lines that is true of the participants.
    fn first_of(&self, lines: &[Field], whole: bool) -> Option<Field>
        ensures first { (o : Offer) (ds : List OfferDemand) → IsOfferRead o ds self.now
            → IfSome result (IsFirstOf (IsRefusingLine whole o ds) lines.now) }
        ensures none { (o : Offer) (ds : List OfferDemand) → IsOfferRead o ds self.now
            → IfNone result (All (λ field. ¬ IsRefusingLine whole o ds field) lines.now) }
    {
        for field in lines {
            if self.is_refusing(*field, whole) {
                return Some(*field);
            }
        }
        None
    }
}
