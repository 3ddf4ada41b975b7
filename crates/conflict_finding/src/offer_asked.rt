//! What the first of some participants in a row ask of an offer.

ghost use Rattle.std.specs.Prelude.{◌≡◌, ◌≤◌, List, [], All, IfOk, IsTrue, length, option_map, take};
ghost use Rattle.std.specs.List.{cons_option};
ghost use Rattle.sysmem_formats.specs.declared.offer.Offer.{Offer as Offered};
ghost use Rattle.offer_fits.specs.Demands.{offer_demands};
ghost use Rattle.sysmem_merge.specs.OfferRead.{IsOfferRead};
ghost use Rattle.negotiation_inputs.specs.Participant.{Participant};
ghost use Rattle.sysmem_tree.specs.Node.{NodeFacts};
ghost use Rattle.sysmem_tree.specs.Nodes.{HasNode};
ghost use Rattle.verdict_claims.specs.Members.{members_at, participants};
ghost use Rattle.conflict_finding.specs.OfferAsked.{AreFrontReads, IsOfferAsked, TakesOffer};

use negotiation_inputs::Constraints;
use std::alloc::{AllocError, Global};
use sysmem_formats::Offer;
use sysmem_image::{Entry, entry_for, takes_colour};
use sysmem_merge::OfferRead;
use sysmem_tree::{NodeId, Tree};
use verdict_claims::add_read;

/// An offer, and what the first participants of a row said of it.
#[derive(Drop)]
pub(crate) struct OfferAsked {
    offer: Offer,
    /// So many of them take its format and its colour space.
    taking: usize,
    /// What the first asks of it, what the first two ask, and so on.
    reads: Vec<OfferRead>,
}

impl OfferAsked {
    /// Nobody was asked of the offer.
    pub(crate) fn new(alloc: Global, offer: &Offer) -> OfferAsked
        ensures offer { result.offer ≡ offer.now }
        ensures asked { (nodes : List NodeFacts) (row : List _) → IsOfferAsked nodes row result }
    {
        OfferAsked {
            offer: *offer,
            taking: 0,
            reads: Vec::new(alloc),
        }
    }

    /// Whether this is of the offer.
    pub(crate) fn is_of(&self, offer: &Offer) -> bool
        ensures { IsTrue result → self.now.offer ≡ offer.now }
    {
        self.offer == *offer
    }

    /// Forgets what others than so many of the first said.
    pub(crate) fn cut(&mut self, many: usize)
        ensures { (nodes : List NodeFacts) (row other : List _)
            → take many row ≡ take many other → many ≤ length other
            → IsOfferAsked nodes row self.old → IsOfferAsked nodes other self.new }
    {
        self.taking = self.taking.min(many);
        self.reads.truncate(many);
    }

    /// Whether each in the row takes the offer's format and its colour space. Those are asked who
    /// come behind those who are known to.
    pub(crate) fn all_take(&mut self, tree: &Tree, row: &[NodeId]) -> bool
        requires there { All (HasNode tree.now.nodes) row.now }
        requires asked { IsOfferAsked tree.now.nodes row.now self.old }
        ensures offer { self.new.offer ≡ self.old.offer }
        ensures asked { IsOfferAsked tree.now.nodes row.now self.new }
        ensures take { IsTrue result → All (TakesOffer self.old.offer)
            (participants (members_at tree.now.nodes row.now)) }
    {
        self.taking = count_taking(tree, row, &self.offer, self.taking);
        self.taking >= row.len()
    }

    /// What those in the row ask of the offer. Those are read who come behind those who were.
    pub(crate) fn read(&mut self, tree: &Tree, row: &[NodeId]) -> Result<OfferRead, AllocError>
        requires there { All (HasNode tree.now.nodes) row.now }
        requires asked { IsOfferAsked tree.now.nodes row.now self.old }
        ensures offer { self.new.offer ≡ self.old.offer }
        ensures asked { IsOfferAsked tree.now.nodes row.now self.new }
        ensures read { IfOk result (IsOfferRead self.old.offer
            (offer_demands (participants (members_at tree.now.nodes row.now)))) }
    {
        read_more(tree, row, &self.offer, &mut self.reads)
    }
}

/// Whether a participant with these entries takes the offer's format and its colour space.
fn takes(entries: &[Entry], offer: &Offer) -> bool
    ensures { (p : Participant) → p.entries ≡ entries.now → IsTrue result
        → TakesOffer offer.now p }
{
    match entry_for(entries, offer) {
        Some(entry) => takes_colour(entry, offer),
        None => entries.is_empty(),
    }
}

/// Whether a participant, if there is one, does.
fn takes_offer(asked: Option<&Constraints>, offer: &Offer) -> bool
    ensures { IsTrue result → All (TakesOffer offer.now)
        (cons_option (option_map (λ one. one.now) asked.entry) []) }
{
    match asked {
        Some(one) => takes(one.entries(), offer),
        None => true,
    }
}

/// How many of the first in the row take the offer, of whom so many are known to.
fn count_taking(tree: &Tree, row: &[NodeId], offer: &Offer, known: usize) -> usize
    requires there { All (HasNode tree.now.nodes) row.now }
    requires known { All (TakesOffer offer.now)
        (participants (members_at tree.now.nodes (take known row.now))) }
    ensures { All (TakesOffer offer.now)
        (participants (members_at tree.now.nodes (take result row.now))) }
{
    for index in known..row.len() {
        if !takes_offer(tree.constraints_of(row[index]), offer) {
            return index;
        }
    }
    known.max(row.len())
}

/// The last of what was read of the offer, or that nothing was.
fn last_read(reads: &[OfferRead], offer: &Offer) -> OfferRead
    ensures { (nodes : List NodeFacts) (row : List _)
        → AreFrontReads nodes row offer.now reads.now → IsOfferRead offer.now
        (offer_demands (participants (members_at nodes (take (length reads.now) row)))) result }
{
    match reads.last() {
        Some(read) => *read,
        None => OfferRead::new(offer),
    }
}

/// Reads what those in the row ask of the offer behind those of whom it was read.
fn read_more(
    tree: &Tree,
    row: &[NodeId],
    offer: &Offer,
    reads: &mut Vec<OfferRead>,
) -> Result<OfferRead, AllocError>
    requires there { All (HasNode tree.now.nodes) row.now }
    requires few { length reads.old.items ≤ length row.now }
    requires reads { AreFrontReads tree.now.nodes row.now offer.now reads.old.items }
    ensures few { length reads.new.items ≤ length row.now }
    ensures reads { AreFrontReads tree.now.nodes row.now offer.now reads.new.items }
    ensures read { IfOk result (IsOfferRead offer.now
        (offer_demands (participants (members_at tree.now.nodes row.now)))) }
{
    let mut read = last_read(reads, offer);
    for index in reads.len()..row.len() {
        add_read(&mut read, tree.constraints_of(row[index]));
        reads.push(read)?;
    }
    Ok(read)
}
