//! What participants said of offers, kept from one conflict to the next.

ghost use Rattle.std.specs.Prelude.{◌≡◌, ◌<◌, ◌≤◌, List, Some, All, IfOk, IfSome, IsTrue, OnOk, length, slice_get, take};
ghost use Rattle.offer_fits.specs.Demands.{offer_demands};
ghost use Rattle.sysmem_merge.specs.OfferRead.{IsOfferRead};
ghost use Rattle.sysmem_tree.specs.Node.{NodeFacts};
ghost use Rattle.sysmem_tree.specs.Nodes.{HasNode};
ghost use Rattle.verdict_claims.specs.Members.{members_at, participants};
ghost use Rattle.conflict_finding.specs.Askers.{AreAskers};
ghost use Rattle.conflict_finding.specs.declared.offer_asked.OfferAsked.{OfferAsked as OneAsked};
ghost use Rattle.conflict_finding.specs.OfferAsked.{IsOfferAsked, TakesOffer};
ghost use Rattle.conflict_finding.specs.OffersAsked.{AreAskedOf, AreOffersAsked};

use crate::offer_asked::OfferAsked;
use crate::settled_row::{common_front, next_row};
use std::alloc::{AllocError, Global};
use sysmem_formats::Offer;
use sysmem_merge::OfferRead;
use sysmem_tree::{NodeId, Tree};

/// Those for whom a conflict was looked for last and who ask something of offers, and what they
/// said of each offer. Those who were settled earlier stand first, so that what they said stays
/// when later ones go.
#[derive(Drop)]
pub(crate) struct OffersAsked {
    alloc: Global,
    row: Vec<NodeId>,
    /// By the number of the offer.
    offers: Vec<OfferAsked>,
}

impl OffersAsked {
    /// Nobody was asked.
    pub(crate) fn new(alloc: Global) -> OffersAsked
        ensures { (nodes : List NodeFacts) → AreOffersAsked nodes result }
    {
        OffersAsked {
            alloc,
            row: Vec::new(alloc),
            offers: Vec::new(alloc),
        }
    }

    /// Goes on to the participants at these nodes, of whom some are given who alone ask something
    /// of offers.
    pub(crate) fn settle(
        &mut self,
        tree: &Tree,
        nodes: &[NodeId],
        askers: &[NodeId],
    ) -> Result<(), AllocError>
        requires askers { AreAskers tree.now.nodes nodes.now askers.now }
        requires asked { AreOffersAsked tree.now.nodes self.old }
        ensures asked { AreOffersAsked tree.now.nodes self.new }
        ensures settled { OnOk result (AreAskedOf tree.now.nodes nodes.now self.new) }
    {
        let _ = nodes;
        let next = next_row(self.alloc, tree, &self.row, askers)?;
        let front = common_front(&self.row, &next);
        cut_each(&mut self.offers, front);
        self.row = next;
        Ok(())
    }

    /// Has the offer, which has this number; `false` where no number is above it.
    fn reserve(&mut self, number: usize, offer: &Offer) -> Result<bool, AllocError>
        ensures asked { (nodes : List NodeFacts) (ns : List _) → AreAskedOf nodes ns self.old
            → AreAskedOf nodes ns self.new }
        ensures there { IfOk result (λ there. IsTrue there
            → number < length self.new.offers.items) }
        ensures of { IfOk result (λ there. IsTrue there → (one : OneAsked)
            → slice_get self.new.offers.items number ≡ Some one → one.offer ≡ offer.now) }
    {
        fill(self.alloc, &mut self.offers, number, offer)?;
        if number >= self.offers.len() {
            return Ok(false);
        }
        if self.offers[number].is_of(offer) {
            return Ok(true);
        }
        self.offers[number] = OfferAsked::new(self.alloc, offer);
        Ok(true)
    }

    /// Whether each of the participants at these nodes is known to take the offer of this number,
    /// its format and its colour space.
    pub(crate) fn all_take(
        &mut self,
        tree: &Tree,
        nodes: &[NodeId],
        number: usize,
        offer: &Offer,
    ) -> Result<bool, AllocError>
        requires asked { AreAskedOf tree.now.nodes nodes.now self.old }
        ensures asked { AreAskedOf tree.now.nodes nodes.now self.new }
        ensures take { IfOk result (λ take. IsTrue take → All (TakesOffer offer.now)
            (participants (members_at tree.now.nodes nodes.now))) }
    {
        let _ = nodes;
        if !self.reserve(number, offer)? {
            return Ok(false);
        }
        Ok(self.offers[number].all_take(tree, &self.row))
    }

    /// What the participants at these nodes ask of the offer of this number; `None` where one of
    /// them doesn't take its format or its colour space.
    pub(crate) fn read(
        &mut self,
        tree: &Tree,
        nodes: &[NodeId],
        number: usize,
        offer: &Offer,
    ) -> Result<Option<OfferRead>, AllocError>
        requires asked { AreAskedOf tree.now.nodes nodes.now self.old }
        ensures asked { AreAskedOf tree.now.nodes nodes.now self.new }
        ensures read { IfOk result (λ read. IfSome read (IsOfferRead offer.now
            (offer_demands (participants (members_at tree.now.nodes nodes.now))))) }
    {
        let _ = nodes;
        if !self.reserve(number, offer)? {
            return Ok(None);
        }
        let one = &mut self.offers[number];
        if !one.all_take(tree, &self.row) {
            return Ok(None);
        }
        let read = one.read(tree, &self.row)?;
        Ok(Some(read))
    }
}

/// Has something of each number up to this one: in place of an offer that wasn't asked stands this
/// one, of which nobody was asked.
fn fill(
    alloc: Global,
    offers: &mut Vec<OfferAsked>,
    number: usize,
    offer: &Offer,
) -> Result<(), AllocError>
    ensures { (nodes : List NodeFacts) (row : List _)
        → All (IsOfferAsked nodes row) offers.old.items
        → All (IsOfferAsked nodes row) offers.new.items }
{
    for _more in offers.len()..number.saturating_add(1) {
        offers.push(OfferAsked::new(alloc, offer))?;
    }
    Ok(())
}

/// Forgets of each offer what others than so many of the first said.
fn cut_each(offers: &mut [OfferAsked], many: usize)
    ensures { (nodes : List NodeFacts) (row other : List _)
        → take many row ≡ take many other → many ≤ length other
        → All (IsOfferAsked nodes row) offers.old → All (IsOfferAsked nodes other) offers.new }
{
    for one in offers.iter_mut() {
        one.cut(many);
    }
}
