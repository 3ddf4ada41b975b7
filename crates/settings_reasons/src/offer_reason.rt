//! Reasons against an offer.

ghost use Rattle.std.specs.Prelude.{◌≡◌, ◌↔◌, false, [], ◌∷◌, IfOk, IsTrue, List, filter};
ghost use Rattle.settings_reasons.specs.True.{AreLineReasons, AreLines, AreOfferReasons};
ghost use Rattle.settings_reasons.specs.True.{IsGround, IsTrueLine, lacks, lacks_colour, lacks_entry};
ghost use Rattle.settings_reasons.specs.True.{line_of, no_colour, no_entry};
ghost use Rattle.sysmem_formats.specs.declared.offer.Offer.{Offer as Offered};
ghost use Rattle.offer_fits.specs.Demands.{OfferDemand, offer_demands};
ghost use Rattle.sysmem_merge.specs.OfferRead.{IsOfferRead, IsRefusingLine};
ghost use Rattle.value_sources.specs.Sources.{all_asked};

use crate::misfit::Misfit;
use crate::offering::read_of;
use negotiation_inputs::Constraints;
use std::alloc::{AllocError, Global};
use std::marker::Model;
use sysmem_counts::Field;
use sysmem_formats::Offer;
use sysmem_image::{bounds_lines, bounds_table, entry_for, takes_colour};
use sysmem_merge::OfferRead;
use value_sources::NamedParticipant;

macro_rules! image_lines {
    ($($line:ident)*) => {
        [$(Field::$line,)* Field::MaxSizeBytes]
    };
}

/// The lines on what nobody names.
const UNNAMED: [Field; 3] = [
    Field::UnnamedPixelFormat,
    Field::UnnamedPixelFormatModifier,
    Field::UnnamedColorSpace,
];

/// What is said against an offer.
#[derive(Clone, Copy)]
pub(crate) enum OfferGround {
    /// Each has entries, and none for the offer.
    NoEntry,
    /// The entry of each for the offer doesn't take its colour space.
    NoColour,
    /// This line of the conflict table is true of all together.
    Line(Field),
}

/// What is said against an offer, with participants of whom it is true. They are all that there
/// are if `whole` says so.
#[derive(Drop)]
pub(crate) struct OfferReason<'a> {
    offer: Offer,
    whole: bool,
    ground: OfferGround,
    participants: Vec<NamedParticipant<'a>>,
}

impl<'a> Model for OfferReason<'a> {
    ghost use Rattle.settings_reasons.specs.True.{IsOfferReason, OfferRefusal};
    ghost use Rattle.value_sources.specs.Sources.{all_asked};

    ghost Value = { OfferRefusal };

    ghost view = { λ r. record {
      offer = r.offer;
      whole = r.whole;
      ground = r.ground;
      participants = all_asked r.participants.items;
    } };

    ghost invariant = { λ r. IsOfferReason (record {
      offer = r.offer;
      whole = r.whole;
      ground = r.ground;
      participants = all_asked r.participants.items;
    }) };
}

impl<'a> OfferReason<'a> {
    /// All who have entries and none for an offer; `None` where nobody is so.
    pub(crate) fn without_entry(
        alloc: Global,
        offer: &Offer,
        participants: &[NamedParticipant<'a>],
        whole: bool,
    ) -> Result<Option<OfferReason<'a>>, AllocError>
        ensures { IfOk result
            (λ found. found ≡ no_entry offer.now whole (all_asked participants.now)) }
    {
        let participants = lacking(alloc, offer, participants, Lack::Entry)?;
        if participants.is_empty() {
            return Ok(None);
        }
        Ok(Some(OfferReason {
            offer: *offer,
            whole,
            ground: OfferGround::NoEntry,
            participants,
        }))
    }

    /// All whose entry for an offer doesn't take its colour space; `None` where nobody's is so.
    pub(crate) fn without_colour(
        alloc: Global,
        offer: &Offer,
        participants: &[NamedParticipant<'a>],
        whole: bool,
    ) -> Result<Option<OfferReason<'a>>, AllocError>
        ensures { IfOk result
            (λ found. found ≡ no_colour offer.now whole (all_asked participants.now)) }
    {
        let participants = lacking(alloc, offer, participants, Lack::Colour)?;
        if participants.is_empty() {
            return Ok(None);
        }
        Ok(Some(OfferReason {
            offer: *offer,
            whole,
            ground: OfferGround::NoColour,
            participants,
        }))
    }

    /// A ground against the offer that was decided, which is true of whom a misfit names.
    pub(crate) fn of_misfit(
        alloc: Global,
        misfit: &Misfit<'a, '_>,
        ground: OfferGround,
    ) -> Result<OfferReason<'a>, AllocError>
        requires { IsGround misfit.now.settings.offer false (misfit.now.participant ∷ []) ground }
    {
        Ok(OfferReason {
            offer: misfit.settings().offer,
            whole: false,
            ground,
            participants: vec![in alloc; misfit.participant()]?,
        })
    }

    /// A line that is true of participants, with all of them.
    fn of_line(
        alloc: Global,
        offer: &Offer,
        participants: &[NamedParticipant<'a>],
        whole: bool,
        field: Field,
    ) -> Result<OfferReason<'a>, AllocError>
        requires { IsTrueLine offer.now whole (all_asked participants.now) field }
        ensures { IfOk result
            (λ reason. reason ≡ line_of offer.now whole (all_asked participants.now) field) }
    {
        Ok(OfferReason {
            offer: *offer,
            whole,
            ground: OfferGround::Line(field),
            participants: Vec::from_slice(alloc, participants)?,
        })
    }

    /// The offer.
    pub(crate) fn offer(&self) -> Offer
        ensures { result ≡ self.now.offer }
    {
        self.offer
    }

    /// What is said against it.
    pub(crate) fn ground(&self) -> OfferGround
        ensures { result ≡ self.now.ground }
    {
        self.ground
    }

    /// Of whom it is true.
    pub(crate) fn participants(&self) -> &[NamedParticipant<'a>]
        ensures { all_asked result.now ≡ self.now.participants }
    {
        &self.participants
    }
}

/// What participants lack for an offer.
#[derive(Clone, Copy)]
enum Lack {
    Entry,
    Colour,
}

/// Those who lack something for an offer.
fn lacking<'a>(
    alloc: Global,
    offer: &Offer,
    participants: &[NamedParticipant<'a>],
    lack: Lack,
) -> Result<Vec<NamedParticipant<'a>>, AllocError>
    ensures { IfOk result (λ those. all_asked those.items
        ≡ filter (lacks lack offer.now) (all_asked participants.now)) }
{
    let mut those = Vec::new(alloc);
    for participant in participants {
        if lacks(lack, offer, participant.asked) {
            those.push(*participant)?;
        }
    }
    Ok(those)
}

/// Whether a participant lacks something for an offer.
fn lacks(lack: Lack, offer: &Offer, asked: &Constraints) -> bool
    ensures { result ≡ lacks lack offer.now asked.now }
{
    match lack {
        Lack::Entry => lacks_entry(offer, asked),
        Lack::Colour => lacks_colour(offer, asked),
    }
}

/// Whether a participant has entries and none for an offer.
fn lacks_entry(offer: &Offer, asked: &Constraints) -> bool
    ensures { result ≡ lacks_entry offer.now asked.now }
{
    let entries = asked.entries();
    !entries.is_empty() && entry_for(entries, offer).is_none()
}

/// Whether a participant's entry for an offer doesn't take its colour space.
fn lacks_colour(offer: &Offer, asked: &Constraints) -> bool
    ensures { result ≡ lacks_colour offer.now asked.now }
{
    match entry_for(asked.entries(), offer) {
        Some(entry) => !takes_colour(entry, offer),
        None => false,
    }
}

/// Whether a line is true of what participants say; one on names where they are all that there are.
fn is_true(read: &OfferRead, whole: bool, field: Field) -> bool
    ensures { (offer : Offered) (ds : List OfferDemand) → IsOfferRead offer ds read.now
        → IsTrue result ↔ IsRefusingLine whole offer ds field }
{
    read.is_line(field) || whole && read.is_unnamed(field)
}

/// What is true against an offer: all who have no entry for it; or else all who lack its colour
/// space; or else each line of the bounds, of all; or else what nobody names, where they are all
/// that there are.
pub(crate) fn offer_reasons<'a>(
    alloc: Global,
    offer: &Offer,
    participants: &[NamedParticipant<'a>],
    whole: bool,
) -> Result<Vec<OfferReason<'a>>, AllocError>
    ensures { IfOk result (λ reasons.
        AreOfferReasons offer.now whole (all_asked participants.now) reasons.items) }
{
    if let Some(reason) = OfferReason::without_entry(alloc, offer, participants, whole)? {
        return Ok(vec![in alloc; reason]?);
    }
    if let Some(reason) = OfferReason::without_colour(alloc, offer, participants, whole)? {
        return Ok(vec![in alloc; reason]?);
    }
    line_reasons(alloc, offer, participants, whole)
}

/// Each line of the bounds that is true of participants; or else what nobody names, where they are
/// all that there are.
fn line_reasons<'a>(
    alloc: Global,
    offer: &Offer,
    participants: &[NamedParticipant<'a>],
    whole: bool,
) -> Result<Vec<OfferReason<'a>>, AllocError>
    ensures { IfOk result (λ reasons.
        AreLineReasons offer.now whole (all_asked participants.now) reasons.items) }
{
    let read = read_of(offer, participants);
    let lines = bounds_table!(bounds_lines!(image_lines));
    let reasons = true_lines(alloc, offer, &read, participants, whole, &lines)?;
    if !reasons.is_empty() {
        return Ok(reasons);
    }
    true_lines(alloc, offer, &read, participants, whole, &UNNAMED)
}

/// Each of some lines that is true of participants, of whom this was read, with all of them; one on
/// names where they are all that there are.
fn true_lines<'a>(
    alloc: Global,
    offer: &Offer,
    read: &OfferRead,
    participants: &[NamedParticipant<'a>],
    whole: bool,
    fields: &[Field],
) -> Result<Vec<OfferReason<'a>>, AllocError>
    requires { IsOfferRead offer.now (offer_demands (all_asked participants.now)) read.now }
    ensures { IfOk result (λ reasons.
        AreLines offer.now whole (all_asked participants.now) fields.now reasons.items) }
{
    let mut reasons = Vec::new(alloc);
    for field in fields {
        if is_true(read, whole, *field) {
            let reason = OfferReason::of_line(alloc, offer, participants, whole, *field)?;
            reasons.push(reason)?;
        }
    }
    Ok(reasons)
}
