//! What the participants among nodes ask together.

ghost use Rattle.std.specs.Prelude.{◌≤◌, ◌+◌, ◌*◌, ◌^◌, ◌↔◌, ◌++◌, List, [], All, IsTrue, length, option_map};
ghost use Rattle.std.specs.List.{cons_option};
ghost use Rattle.sysmem_counts.specs.Bounds.{IsTallyOf};
ghost use Rattle.sysmem_counts.specs.Tally.{sum_of};
ghost use Rattle.sysmem_counts.specs.declared.constraints.CountConstraints.{CountConstraints as Counted};
ghost use Rattle.offer_fits.specs.Demands.{counts_asked, offer_demands};
ghost use Rattle.sysmem_merge.specs.OfferRead.{IsOfferRead};
ghost use Rattle.sysmem_merge.specs.Settings.{CoversOn};
ghost use Rattle.sysmem_tree.specs.declared.tree.TheConstants.{MOST_NODES};
ghost use Rattle.verdict_claims.specs.Asked.{asked_in};
ghost use Rattle.sysmem_tree.specs.Nodes.{HasNode};

use negotiation_inputs::{Constraints, Platform};
use sysmem_counts::CountBounds;
use sysmem_formats::Offer;
use sysmem_merge::{OfferRead, Settings, meets_one};
use sysmem_tree::{NodeId, Tree};
use verdict_claims::{add_count, add_read};

/// Adds what the participants among these nodes ask of the number of buffers.
fn add_counts(tree: &Tree, nodes: &[NodeId], counts: &mut CountBounds)
    requires there { All (HasNode tree.now.nodes) nodes.now }
    requires few { length nodes.now ≤ MOST_NODES }
    requires room { sum_of counts.old ≤ MOST_NODES * 2 ^ 33 }
    ensures added { (ps : List Counted) → IsTallyOf counts.old ps
        → IsTallyOf counts.new (ps ++ counts_asked (asked_in tree.now.nodes nodes.now)) }
    ensures grows { sum_of counts.new ≤ sum_of counts.old + length nodes.now * 2 ^ 33 }
{
    for node in nodes {
        add_count(counts, tree.constraints_of(*node));
    }
}

/// What the participants among nodes ask of the number of buffers, behind those accepted before.
pub(crate) fn count_nodes(tree: &Tree, accepted: &[NodeId], nodes: &[NodeId]) -> CountBounds
    requires accepted { All (HasNode tree.now.nodes) accepted.now }
    requires few_accepted { length accepted.now ≤ MOST_NODES }
    requires there { All (HasNode tree.now.nodes) nodes.now }
    requires few { length nodes.now ≤ MOST_NODES }
    ensures { IsTallyOf result
        (counts_asked (asked_in tree.now.nodes (accepted.now ++ nodes.now))) }
{
    let mut counts = CountBounds::new();
    add_counts(tree, accepted, &mut counts);
    add_counts(tree, nodes, &mut counts);
    counts
}

/// What the participants among nodes ask of an offer.
pub(crate) fn read_nodes(tree: &Tree, offer: &Offer, nodes: &[NodeId]) -> OfferRead
    requires { All (HasNode tree.now.nodes) nodes.now }
    ensures { IsOfferRead offer.now (offer_demands (asked_in tree.now.nodes nodes.now)) result }
{
    let mut read = OfferRead::new(offer);
    for node in nodes {
        add_read(&mut read, tree.constraints_of(*node));
    }
    read
}

/// Whether one accepts the settings, if there is one.
fn is_accepted(platform: &Platform, settings: &Settings, asked: Option<&Constraints>) -> bool
    ensures { IsTrue result ↔ All (CoversOn platform.now settings.now)
        (cons_option (option_map (λ one. one.now) asked.entry) []) }
{
    match asked {
        Some(one) => meets_one(platform, settings, one),
        None => true,
    }
}

/// Whether each participant among these nodes accepts the settings.
pub(crate) fn accept_nodes(
    platform: &Platform,
    settings: &Settings,
    tree: &Tree,
    nodes: &[NodeId],
) -> bool
    requires { All (HasNode tree.now.nodes) nodes.now }
    ensures { IsTrue result ↔ All (CoversOn platform.now settings.now)
        (asked_in tree.now.nodes nodes.now) }
{
    for node in nodes {
        if !is_accepted(platform, settings, tree.constraints_of(*node)) {
            return false;
        }
    }
    true
}
