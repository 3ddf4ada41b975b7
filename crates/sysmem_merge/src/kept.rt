//! What is kept of an offer for the participants that were added.

ghost use Rattle.std.specs.Prelude.{◌≡◌, ◌||◌, [], ◌++◌, ◌∷◌, List, Some, IsTrue};
ghost use Rattle.sysmem_counts.specs.declared.field.Field.{Field};
ghost use Rattle.sysmem_formats.specs.declared.offer.Offer.{Offer};
ghost use Rattle.sysmem_image.specs.declared.bounds.ImageBounds.{ImageBounds};
ghost use Rattle.sysmem_image.specs.Entries.{first_match};
ghost use Rattle.sysmem_merge.specs.Aggregate.{AreKeptBounds, IsKept};
ghost use Rattle.sysmem_merge.specs.declared.kept.KeptBounds.TheVariants.{Merged, Refused};
ghost use Rattle.sysmem_merge.specs.Demands.{OfferDemand};
ghost use Rattle.sysmem_merge.specs.Pairs.{IsMergedWith};
ghost use Rattle.sysmem_merge.specs.Offers.{names_format, names_modifier, names_colour, is_named};

use crate::tighter::is_tighter;
use sysmem_counts::Field;
use sysmem_formats::Offer;
use sysmem_image::{Entry, FirstMatches, ImageBounds, merge_bounds, merge_into, takes_colour};

/// What participants ask of an offer's images together.
#[derive(Clone, Copy, Debug, PartialEq, Eq)]
pub(crate) enum KeptBounds {
    /// The merged bounds of their entries.
    Merged(ImageBounds),
    /// The field for which the offer fails, whoever else joins.
    Refused(Field),
}

/// What is kept of an offer: the bounds on its images, and which parts of its name somebody named.
#[derive(Clone, Copy, Debug, PartialEq, Eq)]
pub(crate) struct KeptOffer {
    pub bounds: KeptBounds,
    pub format_named: bool,
    pub modifier_named: bool,
    pub colour_named: bool,
}

impl KeptOffer {
    /// What is kept of an offer before any participant.
    pub(crate) fn new(offer: &Offer) -> KeptOffer
        ensures { IsKept offer.now [] result }
    {
        KeptOffer {
            bounds: KeptBounds::Merged(ImageBounds::of(offer)),
            format_named: false,
            modifier_named: false,
            colour_named: false,
        }
    }

    /// Whether somebody named each part of the offer's name. No image needs no name.
    pub(crate) fn is_named(&self, offer: &Offer) -> bool
        ensures { (ds : List OfferDemand) → IsKept offer.now ds self.now
            → result ≡ is_named offer.now ds }
    {
        match offer {
            Offer::NoImage => true,
            Offer::Image(_, _) => self.format_named && self.modifier_named && self.colour_named,
        }
    }

    /// Keeps what one more participant asks of the offer by its entries.
    pub(crate) fn add(&mut self, offer: &Offer, matches: &FirstMatches)
        ensures { (ds : List OfferDemand) (d : OfferDemand) → d.entries ≡ matches.now
            → IsKept offer.now ds self.old
            → IsKept offer.now (ds ++ d ∷ []) self.new }
    {
        match matches.entry_for(offer) {
            Some(entry) => {
                self.bounds.add(offer, entry);
                self.name(offer, entry);
            }
            None => {
                if !matches.is_empty() {
                    self.bounds.refuse(Field::PixelFormat);
                }
            }
        }
    }

    /// Becomes what is kept for the participants above, then more, whatever it was.
    pub(crate) fn join_of(&mut self, above: &KeptOffer, more: &KeptOffer)
        ensures { (o : Offer) (ds es : List OfferDemand) → IsKept o ds above.now
            → IsKept o es more.now → IsKept o (ds ++ es) self.new }
    {
        self.bounds.join_of(&above.bounds, &more.bounds);
        self.format_named = above.format_named | more.format_named;
        self.modifier_named = above.modifier_named | more.modifier_named;
        self.colour_named = above.colour_named | more.colour_named;
    }

    /// Keeps which parts of the offer's name one more entry for it names.
    fn name(&mut self, offer: &Offer, entry: &Entry)
        ensures bounds { self.new.bounds ≡ self.old.bounds }
        ensures format { self.new.format_named
            ≡ (self.old.format_named || names_format (Some entry.now)) }
        ensures modifier { self.new.modifier_named
            ≡ (self.old.modifier_named || names_modifier (Some entry.now)) }
        ensures colour { self.new.colour_named
            ≡ (self.old.colour_named || names_colour offer.now (Some entry.now)) }
    {
        self.format_named = self.format_named || entry.format.is_some();
        self.modifier_named = self.modifier_named || entry.modifier.is_some();
        self.colour_named = self.colour_named || names_colour(offer, entry);
    }
}

impl KeptBounds {
    /// Keeps what one more participant's entry for the offer asks.
    fn add(&mut self, offer: &Offer, entry: &Entry)
        ensures { (ds : List OfferDemand) (d : OfferDemand)
            → Some entry.now ≡ first_match offer.now d.entries
            → AreKeptBounds offer.now ds self.old
            → AreKeptBounds offer.now (ds ++ d ∷ []) self.new }
    {
        if !takes_colour(entry, offer) {
            return self.refuse(Field::ColorSpaces);
        }
        if let KeptBounds::Merged(bounds) = self {
            if let Err(field) = merge_into(bounds, entry, offer) {
                *self = KeptBounds::Refused(field);
            }
        }
    }

    /// Keeps the bounds of one more participant's entry for the
    /// offer, whatever its colour spaces are.
    pub(crate) fn merge(&mut self, offer: &Offer, entry: &Entry)
        ensures merged { (b : ImageBounds) → self.old ≡ Merged b
            → IsMergedWith offer.now entry.now b self.new }
        ensures still { (earlier : Field) → self.old ≡ Refused earlier
            → self.new ≡ Refused earlier }
    {
        if let KeptBounds::Merged(bounds) = self {
            if let Err(field) = merge_into(bounds, entry, offer) {
                *self = KeptBounds::Refused(field);
            }
        }
    }

    /// Joins the bounds for more participants; refused where those of either
    /// are, or have no common multiple.
    pub(crate) fn join(&mut self, more: &KeptBounds)
        ensures { (o : Offer) (ds es : List OfferDemand) → AreKeptBounds o ds self.old
            → AreKeptBounds o es more.now → AreKeptBounds o (ds ++ es) self.new }
    {
        match more {
            KeptBounds::Refused(field) => self.refuse(*field),
            KeptBounds::Merged(more) => {
                if let KeptBounds::Merged(bounds) = self {
                    if let Err(field) = merge_bounds(bounds, more) {
                        *self = KeptBounds::Refused(field);
                    }
                }
            }
        }
    }

    /// Becomes the bounds above, joined with those for more participants, whatever it was.
    #[inline]
    pub(crate) fn join_of(&mut self, above: &KeptBounds, more: &KeptBounds)
        ensures { (o : Offer) (ds es : List OfferDemand) → AreKeptBounds o ds above.now
            → AreKeptBounds o es more.now → AreKeptBounds o (ds ++ es) self.new }
    {
        if let KeptBounds::Refused(field) = above {
            return self.become_refused(*field);
        }
        if let KeptBounds::Refused(field) = more {
            return self.become_refused(*field);
        }
        self.join_merged(above, more);
    }

    /// The same. Where neither is refused, it isn't in line, so that a refusal costs little.
    #[inline(never)]
    fn join_merged(&mut self, above: &KeptBounds, more: &KeptBounds)
        ensures { (o : Offer) (ds es : List OfferDemand) → AreKeptBounds o ds above.now
            → AreKeptBounds o es more.now → AreKeptBounds o (ds ++ es) self.new }
    {
        *self = *above;
        if above.covers(more) {
            return;
        }
        self.join(more);
    }

    /// `true` only where those for more participants add nothing, as those for participants of one
    /// kind.
    fn covers(&self, more: &KeptBounds) -> bool
        ensures { (o : Offer) (ds es : List OfferDemand) → IsTrue result
            → AreKeptBounds o ds self.now → AreKeptBounds o es more.now
            → AreKeptBounds o (ds ++ es) self.now }
    {
        let KeptBounds::Merged(bounds) = self else {
            return false;
        };
        let KeptBounds::Merged(more) = more else {
            return false;
        };
        is_tighter(bounds, more)
    }

    /// Becomes the bounds above, whatever it was. Of a refusal only the field is written.
    pub(crate) fn copy_of(&mut self, above: &KeptBounds)
        ensures { self.new ≡ above.now }
    {
        match above {
            KeptBounds::Refused(field) => self.become_refused(*field),
            KeptBounds::Merged(_) => *self = *above,
        }
    }

    /// Becomes refused for a field, whatever it was. Where it is refused
    /// already, only the field is written.
    fn become_refused(&mut self, field: Field)
        ensures { self.new ≡ Refused field }
    {
        match self {
            KeptBounds::Refused(old) => *old = field,
            KeptBounds::Merged(_) => *self = KeptBounds::Refused(field),
        }
    }

    /// Refuses the offer for a field, if it isn't refused already.
    pub(crate) fn refuse(&mut self, field: Field)
        ensures first { (bounds : ImageBounds) → self.old ≡ Merged bounds
            → self.new ≡ Refused field }
        ensures still { (earlier : Field) → self.old ≡ Refused earlier
            → self.new ≡ Refused earlier }
    {
        if let KeptBounds::Merged(_) = self {
            *self = KeptBounds::Refused(field);
        }
    }
}

/// Whether the entry names the offer's colour space itself.
pub(crate) fn names_colour(offer: &Offer, entry: &Entry) -> bool
    ensures { result ≡ names_colour offer.now (Some entry.now) }
{
    match offer {
        Offer::NoImage => false,
        Offer::Image(_, colour) => entry.colours.lists(*colour),
    }
}
