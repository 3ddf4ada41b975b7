//! The first of some participants who refuses an offer, a place, or settings that are given.

ghost use Rattle.std.specs.Prelude.{◌≡◌, ◌<◌, true, false, [], ◌∷◌, Some, All, Any, Contains, IfOk, IfSome, IfNone, IsSomeAnd, IsTrue, length, option_map, slice_get};
ghost use Rattle.std.specs.List.{cons_option};
ghost use Rattle.sysmem_counts.specs.declared.field.Field.TheVariants.{ColorSpaces, PixelFormat};
ghost use Rattle.sysmem_memory.specs.PlaceTable.{AllowsPlace, first_refusing, refuses_by};
ghost use Rattle.offer_fits.specs.Demands.{OfferDemand, offer_demand, offer_demands};
ghost use Rattle.sysmem_merge.specs.Failing.{FailsOn, IsFirstUncovered};
ghost use Rattle.sysmem_merge.specs.OfferRead.{IsOfferRead};
ghost use Rattle.offer_fits.specs.Offers.{has_colour, has_format};
ghost use Rattle.offer_fits.specs.OfferLines.{IsOfferLine};
ghost use Rattle.sysmem_merge.specs.Settings.{CoversOn};
ghost use Rattle.verdict_claims.specs.FirstConflict.{IsFirstWithout};
ghost use Rattle.verdict_claims.specs.Members.{members_at, participants};
ghost use Rattle.conflict_finding.specs.OffersAsked.{AreAskedOf};
ghost use Rattle.conflict_finding.specs.PlacesAsked.{AreAsked};
ghost use Rattle.conflict_finding.specs.Reading.{IsReading, TakesIn};
ghost use Rattle.sysmem_tree.specs.Nodes.{HasNode};
ghost use Rattle.sysmem_tree.specs.Path.{path_of};

use crate::offers_asked::OffersAsked;
use crate::participants::Participants;
use crate::places_asked::PlacesAsked;
use negotiation_inputs::{Constraints, Platform};
use std::alloc::AllocError;
use sysmem_counts::Field;
use sysmem_formats::Offer;
use sysmem_image::{Entry, entry_for, takes_colour};
use sysmem_memory::{HeapInfo, Place};
use sysmem_merge::{OfferRead, Settings, first_uncovered};
use sysmem_tree::{NodeId, Tree};
use verdict_claims::add_read;

/// A participant who refuses something, and the first field by which it does.
#[derive(Clone, Copy)]
pub(crate) struct Refuser {
    pub(crate) field: Field,
    pub(crate) node: NodeId,
}

/// What participants ask of an offer, read one after the other.
#[derive(Clone, Copy)]
pub(crate) enum Reading {
    /// This participant doesn't take it, by this field: its format, or else its colour space.
    Refused(Field, NodeId),
    /// Each takes its format and its colour space; this is what all of them ask.
    Read(OfferRead),
}

/// Whether a participant with these entries takes the offer's format.
fn has_format(entries: &[Entry], offer: &Offer) -> bool
    ensures { (d : OfferDemand) → d.entries ≡ entries.now → result ≡ has_format offer.now d }
{
    match entry_for(entries, offer) {
        Some(_entry) => true,
        None => entries.is_empty(),
    }
}

/// Whether a participant, if there is one, doesn't take the offer's format.
fn lacks_format(asked: Option<&Constraints>, offer: &Offer) -> bool
    ensures line { IsTrue result → IsOfferLine PixelFormat offer.now
        (offer_demands (cons_option (option_map (λ one. one.now) asked.entry) [])) }
    ensures takes { result ≡ false → All (λ p. TakesIn PixelFormat offer.now (offer_demand p))
        (cons_option (option_map (λ one. one.now) asked.entry) []) }
{
    match asked {
        Some(one) => !has_format(one.entries(), offer),
        None => false,
    }
}

/// The first of the participants at these nodes who doesn't take the offer's format.
fn first_without_format(tree: &Tree, nodes: &[NodeId], offer: &Offer) -> Option<NodeId>
    requires { All (HasNode tree.now.nodes) nodes.now }
    ensures there { IfSome result (Contains nodes.now) }
    ensures line { IfSome result (λ node. IsOfferLine PixelFormat offer.now
        (offer_demands (participants (members_at tree.now.nodes (node ∷ []))))) }
    ensures none { IfNone result (All (λ p. TakesIn PixelFormat offer.now (offer_demand p))
        (participants (members_at tree.now.nodes nodes.now))) }
{
    for node in nodes {
        if lacks_format(tree.constraints_of(*node), offer) {
            return Some(*node);
        }
    }
    None
}

/// Whether a participant's entry for the offer, if these have one, takes the offer's colour space.
fn has_colour(entries: &[Entry], offer: &Offer) -> bool
    ensures { (d : OfferDemand) → d.entries ≡ entries.now → result ≡ has_colour offer.now d }
{
    match entry_for(entries, offer) {
        Some(entry) => takes_colour(entry, offer),
        None => true,
    }
}

/// Whether a participant, if there is one, doesn't take the offer's colour space.
fn lacks_colour(asked: Option<&Constraints>, offer: &Offer) -> bool
    ensures line { IsTrue result → IsOfferLine ColorSpaces offer.now
        (offer_demands (cons_option (option_map (λ one. one.now) asked.entry) [])) }
    ensures takes { result ≡ false → All (λ p. TakesIn ColorSpaces offer.now (offer_demand p))
        (cons_option (option_map (λ one. one.now) asked.entry) []) }
{
    match asked {
        Some(one) => !has_colour(one.entries(), offer),
        None => false,
    }
}

/// The first of the participants at these nodes who doesn't take the offer's colour space.
fn first_without_colour(tree: &Tree, nodes: &[NodeId], offer: &Offer) -> Option<NodeId>
    requires { All (HasNode tree.now.nodes) nodes.now }
    ensures there { IfSome result (Contains nodes.now) }
    ensures line { IfSome result (λ node. IsOfferLine ColorSpaces offer.now
        (offer_demands (participants (members_at tree.now.nodes (node ∷ []))))) }
    ensures none { IfNone result (All (λ p. TakesIn ColorSpaces offer.now (offer_demand p))
        (participants (members_at tree.now.nodes nodes.now))) }
{
    for node in nodes {
        if lacks_colour(tree.constraints_of(*node), offer) {
            return Some(*node);
        }
    }
    None
}

/// What the participants at these nodes ask of an offer together.
fn read_all(tree: &Tree, nodes: &[NodeId], offer: &Offer) -> OfferRead
    requires { All (HasNode tree.now.nodes) nodes.now }
    ensures { IsOfferRead offer.now
        (offer_demands (participants (members_at tree.now.nodes nodes.now))) result }
{
    let mut read = OfferRead::new(offer);
    for node in nodes {
        add_read(&mut read, tree.constraints_of(*node));
    }
    read
}

/// Reads what the participants at these nodes ask of an offer, which has this number. Where one of
/// them doesn't take its format, it is the first who doesn't; or else the first who doesn't take
/// its colour space.
pub(crate) fn read_offer(
    tree: &Tree,
    nodes: &[NodeId],
    number: usize,
    offer: &Offer,
    asked: &mut OffersAsked,
) -> Result<Reading, AllocError>
    requires there { All (HasNode tree.now.nodes) nodes.now }
    requires asked { AreAskedOf tree.now.nodes nodes.now asked.old }
    ensures asked { AreAskedOf tree.now.nodes nodes.now asked.new }
    ensures reading { IfOk result (IsReading tree.now.nodes nodes.now offer.now) }
{
    if let Some(read) = asked.read(tree, nodes, number, offer)? {
        return Ok(Reading::Read(read));
    }
    if let Some(node) = first_without_format(tree, nodes, offer) {
        return Ok(Reading::Refused(Field::PixelFormat, node));
    }
    if let Some(node) = first_without_colour(tree, nodes, offer) {
        return Ok(Reading::Refused(Field::ColorSpaces, node));
    }
    Ok(Reading::Read(read_all(tree, nodes, offer)))
}

/// The first of these participants to whom the place is refused, with the first field that does it.
pub(crate) fn first_refused(
    those: &Participants<'_>,
    place: Place,
    heap: &HeapInfo,
    asked: &mut PlacesAsked,
) -> Option<Refuser>
    requires heap { slice_get those.now.platform.now.heaps place.heap ≡ Some heap.now }
    requires asked { AreAsked those.now.tree.now.nodes those.now.platform.now.heaps asked.old }
    ensures asked { AreAsked those.now.tree.now.nodes those.now.platform.now.heaps asked.new }
    ensures there { IfSome result (λ first. Contains those.now.nodes.now first.node) }
    ensures refused { IfSome result (λ first.
        Any (λ p. refuses_by first.field p.memory p.usage heap.now place.coherency ≡ true)
        (participants (members_at those.now.tree.now.nodes (first.node ∷ [])))) }
    ensures allowed { IfNone result
        (All (λ p. AllowsPlace p.memory p.usage heap.now place.coherency)
        (participants (members_at those.now.tree.now.nodes those.now.nodes.now))) }
    ensures first { IfSome result (λ first. IsFirstWithout
        (λ p. AllowsPlace p.memory p.usage heap.now place.coherency)
        (λ p. first_refusing p.memory p.usage heap.now place.coherency ≡ Some first.field)
        (members_at those.now.tree.now.nodes those.now.nodes.now)
        (path_of those.now.tree.now.nodes first.node)) }
{
    let (tree, nodes) = (those.tree, those.nodes);
    for node in nodes {
        let constraints = tree.constraints_of(*node);
        if let Some(field) = asked.answer(those, *node, constraints, place, heap) {
            let node = *node;
            return Some(Refuser { field, node });
        }
    }
    None
}

/// The first field in which the settings fail a participant, if there is one.
fn failing_field(
    platform: &Platform,
    settings: &Settings,
    asked: Option<&Constraints>,
) -> Option<Field>
    requires { settings.now.place.heap < length platform.now.heaps }
    ensures failed { IfSome result (λ field. Any (FailsOn field platform.now settings.now)
        (cons_option (option_map (λ one. one.now) asked.entry) [])) }
    ensures covered { IfNone result (All (CoversOn platform.now settings.now)
        (cons_option (option_map (λ one. one.now) asked.entry) [])) }
    ensures first { IfSome result (λ field.
        IsSomeAnd (option_map (λ one. one.now) asked.entry)
        (IsFirstUncovered field platform.now settings.now)) }
{
    first_uncovered(platform, settings, asked?)
}

/// The first of the participants at these nodes whom the settings fail, with
/// the first field in which they do.
pub(crate) fn first_failing(
    platform: &Platform,
    settings: &Settings,
    tree: &Tree,
    nodes: &[NodeId],
) -> Option<Refuser>
    requires heap { settings.now.place.heap < length platform.now.heaps }
    requires there { All (HasNode tree.now.nodes) nodes.now }
    ensures there { IfSome result (λ first. Contains nodes.now first.node) }
    ensures failed { IfSome result (λ first.
        Any (FailsOn first.field platform.now settings.now)
        (participants (members_at tree.now.nodes (first.node ∷ [])))) }
    ensures covered { IfNone result (All (CoversOn platform.now settings.now)
        (participants (members_at tree.now.nodes nodes.now))) }
    ensures first { IfSome result (λ first. IsFirstWithout (CoversOn platform.now settings.now)
        (IsFirstUncovered first.field platform.now settings.now)
        (members_at tree.now.nodes nodes.now) (path_of tree.now.nodes first.node)) }
{
    for node in nodes {
        if let Some(field) = failing_field(platform, settings, tree.constraints_of(*node)) {
            let node = *node;
            return Some(Refuser { field, node });
        }
    }
    None
}
