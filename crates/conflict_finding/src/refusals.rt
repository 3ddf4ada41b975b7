//! Lines that refuse the offers of a platform, or its places, one after another.

ghost use Rattle.std.specs.Prelude.{◌≡◌, [], ◌<◌, ◌⊎◌, ◌+◌, true, false, List, ◌∷◌, All, Some, IfOk, IfSome, IfNone, IsTrue, filter, length, slice_get};
ghost use Rattle.sysmem_counts.specs.declared.field.Field.TheVariants.{ColorSpaces, PixelFormat};
ghost use Rattle.sysmem_formats.specs.declared.offer.Offer.{Offer as Offered};
ghost use Rattle.sysmem_memory.specs.Domain.{has_domain};
ghost use Rattle.sysmem_memory.specs.Heap.{HeapFacts};
ghost use Rattle.sysmem_memory.specs.Listed.{HeapPlace, places_from, places_of, put_if};
ghost use Rattle.offer_fits.specs.Demands.{offer_demand, offer_demands};
ghost use Rattle.sysmem_merge.specs.OfferRead.{IsRefusingLine};
ghost use Rattle.offer_fits.specs.OfferLines.{IsOfferLine};
ghost use Rattle.sysmem_merge.specs.Reasons.{IsUnnamedLine};
ghost use Rattle.conflict_finding.specs.Learnt.{IsLearnt};
ghost use Rattle.verdict_claims.specs.FirstConflict.{IsOfferLineGiven, IsPlaceLineGiven};
ghost use Rattle.verdict_claims.specs.Members.{members_at, participants, StandFor};
ghost use Rattle.conflict_finding.specs.OffersAsked.{AreAskedOf};
ghost use Rattle.conflict_finding.specs.Reading.{TakesIn};
ghost use Rattle.conflict_finding.specs.Refusals.{AreRefusals, AreSoFar, Ends, GoOn, HasLast, HasOneMore, RefusesLast, ShareOffer, SharePlace};
ghost use Rattle.conflict_finding.specs.Whom.{NamesThose, names};
ghost use Rattle.negotiation_inputs.specs.Participant.{Participant};
ghost use Rattle.negotiation_inputs.specs.Platform.{offers_of};
ghost use Rattle.sysmem_tree.specs.Nodes.{HasNode};
ghost use Rattle.sysmem_tree.specs.Shape.{Member};

use crate::alone_lines::line_alone;
use crate::askers::those_asking;
use crate::first_refusing::{Reading, first_refused, read_offer};
use crate::learnt::Learnt;
use crate::offers_asked::OffersAsked;
use crate::participants::Participants;
use crate::whom::{NamingLine, Whom, push_line_of};
use negotiation_inputs::Platform;
use std::alloc::{AllocError, Global};
use sysmem_counts::Field;
use sysmem_formats::{Offer, offer_at};
use sysmem_memory::{CoherencyDomain, HeapInfo, Place};
use sysmem_tree::{NodeId, Tree};
use verdict_claims::{Line, Lines, is_shared};

/// Lines for the first of a platform's offers, or of its places, which refuse them.
#[derive(Drop)]
pub(crate) enum Refusals {
    /// A line for each.
    Whole(Lines),
    /// A line for each before one.
    UpTo(Lines),
}

impl Refusals {
    /// The lines.
    pub(crate) fn into_lines(self) -> Lines
        ensures { (self ≡ Refusals.Whole result) ⊎ (self ≡ Refusals.UpTo result) }
    {
        match self {
            Refusals::Whole(lines) | Refusals::UpTo(lines) => lines,
        }
    }
}

/// Whom the line of this field names, of participants of whom it is true
/// for an offer whose format all take.
fn whom_for(field: Field) -> Whom
    ensures { (whole : _) (o : Offered) (ps : List Participant)
        → IsRefusingLine whole o (offer_demands ps) field
        → IsOfferLine field o (offer_demands (filter (names result) ps))
        ⊎ ((whole ≡ true) × IsUnnamedLine field o (offer_demands ps)) }
{
    match field {
        Field::UnnamedPixelFormat | Field::UnnamedPixelFormatModifier | Field::UnnamedColorSpace =>
            Whom::Nobody,
        Field::PixelFormat | Field::ColorSpaces | Field::MaxSizeBytes => Whom::All,
        _ => Whom::WithEntries,
    }
}

/// Whether the line before refuses this offer too and is the first that does: they are of one pair,
/// and nobody refuses the colour space for which another would come first.
fn is_line_again(
    tree: &Tree,
    nodes: &[NodeId],
    earlier: &Offer,
    offer: &Offer,
    before: &[Line],
    asked: &mut OffersAsked,
) -> Result<bool, AllocError>
    requires there { All (HasNode tree.now.nodes) nodes.now }
    requires asked { AreAskedOf tree.now.nodes nodes.now asked.old }
    ensures asked { AreAskedOf tree.now.nodes nodes.now asked.new }
    ensures line { (whole : _) (ms : List Member)
        → StandFor (members_at tree.now.nodes nodes.now) ms
        → RefusesLast (IsOfferLineGiven whole ms) earlier.now before.now
        → IfOk result (λ again. IsTrue again
        → HasLast (IsOfferLineGiven whole ms offer.now) before.now) }
    ensures some { IfOk result (λ again. IsTrue again → 0 < length before.now) }
{
    let Some(last) = before.last() else {
        return Ok(false);
    };
    let field = last.field();
    if !is_shared(field, earlier, offer) {
        return Ok(false);
    }
    let again = is_before_colour(tree, nodes, field, before.len(), offer, asked)?;
    Ok(again)
}

/// Whether no line of the colour space comes before one with this field: it is that of the format,
/// or all take the colour space of the offer, which has this number.
fn is_before_colour(
    tree: &Tree,
    nodes: &[NodeId],
    field: Field,
    number: usize,
    offer: &Offer,
    asked: &mut OffersAsked,
) -> Result<bool, AllocError>
    requires there { All (HasNode tree.now.nodes) nodes.now }
    requires asked { AreAskedOf tree.now.nodes nodes.now asked.old }
    ensures asked { AreAskedOf tree.now.nodes nodes.now asked.new }
    ensures before { IfOk result (λ before. IsTrue before → (field ≡ PixelFormat)
        ⊎ All (λ p. TakesIn ColorSpaces offer.now (offer_demand p))
        (participants (members_at tree.now.nodes nodes.now))) }
{
    match field {
        Field::PixelFormat => Ok(true),
        _ => asked.all_take(tree, nodes, number, offer),
    }
}

/// Puts the line for an offer of these participants behind the lines so far, of which the last is
/// that of an earlier offer: that line once more where it is the offer's own, and else the first of
/// the table that is true. False where they share the offer.
fn push_offer(
    those: &Participants<'_>,
    earlier: &Offer,
    offer: &Offer,
    lines: &mut Lines,
    kept: &mut Option<NamingLine>,
    learnt: &mut Learnt,
) -> Result<bool, AllocError>
    requires named { IfSome kept.old
        (NamesThose those.now.tree.now.nodes those.now.nodes.now lines.old) }
    requires asked { AreAskedOf those.now.tree.now.nodes
        those.now.nodes.now learnt.old.offers }
    requires learnt { IsLearnt those.now.tree.now.nodes
        those.now.platform.now.heaps learnt.old }
    requires last { (ms : List Member)
        → StandFor (members_at those.now.tree.now.nodes those.now.nodes.now) ms
        → RefusesLast (IsOfferLineGiven those.now.whole ms) earlier.now lines.old }
    ensures named { IfOk result (λ _. IfSome kept.new
        (NamesThose those.now.tree.now.nodes those.now.nodes.now lines.new)) }
    ensures asked { AreAskedOf those.now.tree.now.nodes
        those.now.nodes.now learnt.new.offers }
    ensures learnt { IsLearnt those.now.tree.now.nodes
        those.now.platform.now.heaps learnt.new }
    ensures longer { IfOk result (λ more. IsTrue more
        → length lines.new ≡ length lines.old + 1) }
    ensures more { (ms : List Member)
        → StandFor (members_at those.now.tree.now.nodes those.now.nodes.now) ms
        → IfOk result (λ more. IsTrue more
        → HasOneMore (IsOfferLineGiven those.now.whole ms offer.now) lines.old lines.new) }
    ensures share { (ms : List Member)
        → StandFor (members_at those.now.tree.now.nodes those.now.nodes.now) ms
        → IfOk result (λ more. more ≡ false
        → (lines.new ≡ lines.old) × ShareOffer those.now.whole ms offer.now) }
{
    let (tree, nodes) = (those.tree, those.nodes);
    let asked = &mut learnt.offers;
    let again = is_line_again(tree, nodes, earlier, offer, lines.as_slice(), asked)?;
    if again {
        lines.push_again()?;
        return Ok(true);
    }
    let number = lines.as_slice().len();
    match read_offer(tree, nodes, number, offer, &mut learnt.offers)? {
        Reading::Refused(field, node) => {
            lines.push(line_alone(those.alloc, tree, node, field, &mut learnt.alone)?)?;
        }
        Reading::Read(read) => {
            let Some(field) = read.first_line(those.whole) else {
                return Ok(false);
            };
            push_line_of(
                those,
                field,
                whom_for(field),
                lines,
                kept,
                &mut learnt.alone,
            )?;
        }
    }
    Ok(true)
}

/// How many offers the platform has: without an image, and each colour space under each pair.
fn offers_at_most(platform: &Platform) -> usize {
    let with_image = platform
        .pairs()
        .len()
        .saturating_mul(platform.colours().len());
    with_image.saturating_add(1)
}

/// No lines, with room for so many.
fn no_lines(alloc: Global, many: usize) -> Result<Vec<Line>, AllocError>
    ensures { IfOk result (λ lines. lines.items ≡ []) }
{
    Vec::with_capacity(alloc, many)
}

/// Lines that refuse each offer of the platform to these participants, or each before the first
/// that they share; where it is given, at most those before `until`.
pub(crate) fn refused_offers(
    those: &Participants<'_>,
    until: Option<Offer>,
    learnt: &mut Learnt,
) -> Result<Refusals, AllocError>
    requires learnt { IsLearnt those.now.tree.now.nodes
        those.now.platform.now.heaps learnt.old }
    ensures learnt { IsLearnt those.now.tree.now.nodes
        those.now.platform.now.heaps learnt.new }
    ensures lines { (ms : List Member)
        → StandFor (members_at those.now.tree.now.nodes those.now.nodes.now) ms
        → IfOk result (AreRefusals (IsOfferLineGiven those.now.whole ms)
        (Ends until (λ (o : Offered). o) (ShareOffer those.now.whole ms))
        (offers_of those.now.platform.now)) }
{
    let (alloc, platform) = (those.alloc, those.platform);
    let asking = those_asking(alloc, those.tree, those.nodes)?;
    learnt.offers.settle(those.tree, those.nodes, &asking)?;
    let mut lines = Lines::new(no_lines(alloc, offers_at_most(platform))?);
    let mut earlier = Offer::NoImage;
    let mut kept = None;
    while let Some(offer) = offer_at(platform.pairs(), platform.colours(), lines.as_slice().len()) {
        if until == Some(offer) {
            return Ok(Refusals::UpTo(lines));
        }
        if !push_offer(those, &earlier, &offer, &mut lines, &mut kept, learnt)? {
            return Ok(Refusals::UpTo(lines));
        }
        earlier = offer;
    }
    Ok(Refusals::Whole(lines.fitted()?))
}

/// The line of the first of these participants to whom the place is refused, `None` where they
/// share it or it is `until`.
fn place_line(
    those: &Participants<'_>,
    place: Place,
    heap: &HeapInfo,
    until: Option<Place>,
    learnt: &mut Learnt,
) -> Result<Option<Line>, AllocError>
    requires heap { slice_get those.now.platform.now.heaps place.heap ≡ Some heap.now }
    requires learnt { IsLearnt those.now.tree.now.nodes
        those.now.platform.now.heaps learnt.old }
    ensures learnt { IsLearnt those.now.tree.now.nodes
        those.now.platform.now.heaps learnt.new }
    ensures line { (ms : List Member)
        → StandFor (members_at those.now.tree.now.nodes those.now.nodes.now) ms
        → IfOk result (λ line. IfSome line
        (IsPlaceLineGiven ms (record { place = place; heap = heap.now }))) }
    ensures end { (ms : List Member)
        → StandFor (members_at those.now.tree.now.nodes those.now.nodes.now) ms
        → IfOk result (λ line. IfNone line (Ends until (λ (p : HeapPlace). p.place) (SharePlace ms)
        (record { place = place; heap = heap.now }))) }
{
    if until == Some(place) {
        return Ok(None);
    }
    let Some(first) = first_refused(those, place, heap, &mut learnt.asked) else {
        return Ok(None);
    };
    let (tree, alone) = (those.tree, &mut learnt.alone);
    let line = line_alone(those.alloc, tree, first.node, first.field, alone)?;
    Ok(Some(line))
}

/// Puts the line for a place behind the lines so far, if the heap
/// has it; false where they end at it.
fn push_place(
    those: &Participants<'_>,
    place: Place,
    heap: &HeapInfo,
    until: Option<Place>,
    lines: &mut Vec<Line>,
    learnt: &mut Learnt,
) -> Result<bool, AllocError>
    requires heap { slice_get those.now.platform.now.heaps place.heap ≡ Some heap.now }
    requires learnt { IsLearnt those.now.tree.now.nodes
        those.now.platform.now.heaps learnt.old }
    ensures learnt { IsLearnt those.now.tree.now.nodes
        those.now.platform.now.heaps learnt.new }
    ensures lines { (ms : List Member)
        → StandFor (members_at those.now.tree.now.nodes those.now.nodes.now) ms
        → (xs left : List HeapPlace) → AreSoFar (IsPlaceLineGiven ms) xs lines.old.items
        (put_if (has_domain heap.now.domains place.coherency)
        (record { place = place; heap = heap.now }) left)
        → IfOk result (GoOn (IsPlaceLineGiven ms)
        (Ends until (λ (p : HeapPlace). p.place) (SharePlace ms)) xs lines.new.items left) }
{
    if !heap.domains.has(place.coherency) {
        return Ok(true);
    }
    let Some(line) = place_line(those, place, heap, until, learnt)? else {
        return Ok(false);
    };
    lines.push(line)?;
    Ok(true)
}

/// Puts the lines for the places of a heap behind the lines so far;
/// false where they end at one of them.
fn push_heap(
    those: &Participants<'_>,
    index: usize,
    heap: &HeapInfo,
    until: Option<Place>,
    lines: &mut Vec<Line>,
    learnt: &mut Learnt,
) -> Result<bool, AllocError>
    requires heap { slice_get those.now.platform.now.heaps index ≡ Some heap.now }
    requires learnt { IsLearnt those.now.tree.now.nodes
        those.now.platform.now.heaps learnt.old }
    ensures learnt { IsLearnt those.now.tree.now.nodes
        those.now.platform.now.heaps learnt.new }
    ensures lines { (ms : List Member)
        → StandFor (members_at those.now.tree.now.nodes those.now.nodes.now) ms
        → (xs : List HeapPlace) (heaps : List HeapFacts)
        → AreSoFar (IsPlaceLineGiven ms) xs lines.old.items
        (places_from index (heap.now ∷ heaps))
        → IfOk result (GoOn (IsPlaceLineGiven ms)
        (Ends until (λ (p : HeapPlace). p.place) (SharePlace ms)) xs lines.new.items
        (places_from (index + 1) heaps)) }
{
    let cpu = Place {
        heap: index,
        coherency: CoherencyDomain::Cpu,
    };
    if !push_place(those, cpu, heap, until, lines, learnt)? {
        return Ok(false);
    }
    let ram = Place {
        heap: index,
        coherency: CoherencyDomain::Ram,
    };
    if !push_place(those, ram, heap, until, lines, learnt)? {
        return Ok(false);
    }
    let inaccessible = Place {
        heap: index,
        coherency: CoherencyDomain::Inaccessible,
    };
    push_place(those, inaccessible, heap, until, lines, learnt)
}

/// Lines that refuse each place of the platform to these participants, or each before the first
/// that they share; where it is given, at most those before `until`.
pub(crate) fn refused_places(
    those: &Participants<'_>,
    until: Option<Place>,
    learnt: &mut Learnt,
) -> Result<Refusals, AllocError>
    requires learnt { IsLearnt those.now.tree.now.nodes
        those.now.platform.now.heaps learnt.old }
    ensures learnt { IsLearnt those.now.tree.now.nodes
        those.now.platform.now.heaps learnt.new }
    ensures lines { (ms : List Member)
        → StandFor (members_at those.now.tree.now.nodes those.now.nodes.now) ms
        → IfOk result (AreRefusals (IsPlaceLineGiven ms)
        (Ends until (λ (p : HeapPlace). p.place) (SharePlace ms))
        (places_of those.now.platform.now.heaps)) }
{
    let mut lines = no_lines(those.alloc, those.platform.heaps().len().saturating_mul(3))?;
    for (index, heap) in those.platform.heaps().iter().enumerate() {
        if !push_heap(those, index, heap, until, &mut lines, learnt)? {
            return Ok(Refusals::UpTo(Lines::new(lines)));
        }
    }
    Ok(Refusals::Whole(Lines::new(lines).fitted()?))
}
