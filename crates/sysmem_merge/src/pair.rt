//! What is kept of a pair for the participants that were added: of its
//! offers, one for each colour space.

ghost use Rattle.std.specs.Prelude.{◌≡◌, ◌&&◌, [], ◌++◌, ◌∷◌, List, Some, true};
ghost use Rattle.sysmem_formats.specs.declared.colour_space.ColourSpace.{ColourSpace as Colour};
ghost use Rattle.sysmem_formats.specs.declared.colour_space.ColourSpace.TheVariants.{Srgb};
ghost use Rattle.sysmem_formats.specs.declared.offer.Offer.{Offer as AnOffer};
ghost use Rattle.sysmem_formats.specs.declared.offer.Offer.TheVariants.{Image, NoImage};
ghost use Rattle.sysmem_formats.specs.declared.offer.Pair.{Pair as APair};
ghost use Rattle.sysmem_image.specs.Bounds.{IsOwn};
ghost use Rattle.sysmem_image.specs.Entries.{effective, first_match};
ghost use Rattle.sysmem_merge.specs.Aggregate.{AreKeptBounds};
ghost use Rattle.sysmem_merge.specs.Demands.{OfferDemand};
ghost use Rattle.sysmem_merge.specs.Offers.{is_named};
ghost use Rattle.sysmem_merge.specs.Pairs.{ArePlain, IsPairKept, says_format, says_modifier};

use crate::colours::Colours;
use crate::kept::KeptBounds;
use sysmem_counts::Field;
use sysmem_formats::{ColourSpace, Offer, Pair};
use sysmem_image::{Entry, FirstMatches, ImageBounds};

/// What is kept of a pair: the bounds on its images, and the colour spaces and the parts of its
/// name that participants take or name.
#[derive(Clone, Copy, Debug)]
pub(crate) struct KeptPair {
    /// The bounds in each colour space that everybody takes.
    pub bounds: KeptBounds,
    /// Whether the bounds are merged ones that are no more than the pair's own.
    pub is_plain: bool,
    /// The colour spaces that everybody takes.
    pub taken: Colours,
    /// The colour spaces that somebody names, and whether somebody
    /// names its format and its modifier.
    pub named: Colours,
}

impl KeptPair {
    /// What is kept of a pair before any participant.
    pub(crate) fn new(pair: Pair) -> KeptPair
        ensures { IsPairKept pair [] result }
    {
        KeptPair {
            bounds: KeptBounds::Merged(ImageBounds::of(&any_offer(pair))),
            is_plain: true,
            taken: Colours::all(),
            named: Colours::none(),
        }
    }

    /// Keeps what one more participant asks of the pair by its entries.
    pub(crate) fn add(&mut self, pair: Pair, matches: &FirstMatches)
        ensures { (ds : List OfferDemand) (d : OfferDemand) → d.entries ≡ matches.now
            → IsPairKept pair ds self.old → IsPairKept pair (ds ++ d ∷ []) self.new }
    {
        match matches.entry_for(&any_offer(pair)) {
            Some(entry) => self.add_entry(pair, entry),
            None => {
                if !matches.is_empty() {
                    self.bounds.refuse(Field::PixelFormat);
                    self.is_plain = false;
                }
            }
        }
    }

    /// Keeps what one more participant asks, whose entry for the pair this is.
    fn add_entry(&mut self, pair: Pair, entry: &Entry)
        ensures { (ds : List OfferDemand) (d : OfferDemand)
            → Some entry.now ≡ first_match (Image pair Srgb) d.entries
            → IsPairKept pair ds self.old → IsPairKept pair (ds ++ d ∷ []) self.new }
    {
        if !asks_nothing(entry) {
            self.bounds.merge(&any_offer(pair), entry);
            self.is_plain = is_plain(&self.bounds, pair);
        }
        let names = Colours::names(
            &entry.colours,
            entry.format.is_some(),
            entry.modifier.is_some(),
        );
        let taken = Colours::taken(&entry.colours);
        self.taken = self.taken.in_both(&taken);
        self.named = self.named.in_either(&names);
    }

    /// Whether somebody named the pair's format and its modifier.
    pub(crate) fn is_named_itself(&self) -> bool
        ensures { result ≡ (says_format self.now.named && says_modifier self.now.named) }
    {
        self.named.has_pair()
    }

    /// Whether somebody named each part of the name of the pair's offer in a colour space.
    pub(crate) fn is_named(&self, colour: ColourSpace) -> bool
        ensures { (pair : APair) (ds : List OfferDemand) → IsPairKept pair ds self.now
            → result ≡ is_named (Image pair colour) ds }
    {
        self.named.has_pair() && self.named.has(colour)
    }

    /// Becomes what is kept for the participants above, then more, whatever was kept of the pair.
    /// Where all three have plain bounds, these are as they are to be.
    pub(crate) fn join_of(&mut self, above: &KeptPair, more: &KeptPair)
        ensures { (pair : APair) (others ds es : List OfferDemand)
            → IsPairKept pair others self.old → IsPairKept pair ds above.now
            → IsPairKept pair es more.now → IsPairKept pair (ds ++ es) self.new }
    {
        if !(self.is_plain & above.is_plain & more.is_plain) {
            self.join_bounds(above, more);
        }
        self.taken = above.taken.in_both(&more.taken);
        self.named = above.named.in_either(&more.named);
    }

    /// Takes the bounds of the participants above, then more, whatever they were.
    /// Bounds that are plain add nothing.
    fn join_bounds(&mut self, above: &KeptPair, more: &KeptPair)
        ensures bounds { (pair : APair) (ds es : List OfferDemand) (c : Colour)
            → IsPairKept pair es more.now → AreKeptBounds (Image pair c) ds above.now.bounds
            → AreKeptBounds (Image pair c) es more.now.bounds
            → AreKeptBounds (Image pair c) (ds ++ es) self.new.bounds }
        ensures plain { (pair : APair) (ds : List OfferDemand) → IsPairKept pair ds above.now
            → self.new.is_plain ≡ true → ArePlain pair self.new.bounds }
    {
        if more.is_plain {
            self.bounds.copy_of(&above.bounds);
        } else {
            self.bounds.join_of(&above.bounds, &more.bounds);
        }
        self.is_plain = above.is_plain & more.is_plain;
    }
}

/// An offer of the pair; what an entry asks of its bounds is the same in each colour space.
fn any_offer(pair: Pair) -> Offer
    ensures { result ≡ Image pair Srgb }
{
    Offer::Image(pair, ColourSpace::Srgb)
}

/// Whether the bounds that an entry puts on an offer, whichever it is, are the absent
/// values, to which any others keep.
fn asks_nothing(entry: &Entry) -> bool
    ensures { result ≡ true → (o : AnOffer) → IsOwn NoImage (effective o entry.now) }
{
    !entry.bounds.at_pixel_boundary && entry.bounds.asked == ImageBounds::of(&Offer::NoImage)
}

/// Whether the bounds are merged ones that are no more than the pair's own.
fn is_plain(bounds: &KeptBounds, pair: Pair) -> bool
    ensures { result ≡ true → ArePlain pair bounds.now }
{
    match bounds {
        KeptBounds::Merged(bounds) => *bounds == ImageBounds::of(&any_offer(pair)),
        KeptBounds::Refused(_) => false,
    }
}
