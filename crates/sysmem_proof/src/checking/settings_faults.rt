//! Whether settings meet participants, and are the least that do.

ghost use Rattle.std.specs.Prelude.{◌≡◌, ◌≤◌, ◌↔◌, ◌++◌, List, Some, None, All, IsPermutation, IsTrue, MatchResult, length, true};
ghost use Rattle.sysmem_counts.specs.Counts.{IsCounted};
ghost use Rattle.sysmem_formats.specs.declared.offer.Offer.{Offer as Offered};
ghost use Rattle.offer_fits.specs.Demands.{OfferDemand, counts_asked};
ghost use Rattle.sysmem_merge.specs.OfferRead.{IsOfferRead};
ghost use Rattle.offer_fits.specs.Offers.{is_named};
ghost use Rattle.sysmem_merge.specs.Settings.{CoversOn, Meets};
ghost use Rattle.sysmem_tree.specs.declared.tree.TheConstants.{MOST_NODES};
ghost use Rattle.verdict_claims.specs.Asked.{asked_in};
ghost use Rattle.verdict_claims.specs.Base.{Terms};
ghost use Rattle.verdict_claims.specs.Check.{IsLeastAt};
ghost use Rattle.verdict_claims.specs.Fault.{NoFault, SettingsFaults};
ghost use Rattle.verdict_claims.specs.Members.{participants};
ghost use Rattle.verdict_claims.specs.Verdict.{MeetsFixed};
ghost use Rattle.sysmem_tree.specs.Nodes.{HasNode};
ghost use Rattle.sysmem_tree.specs.Shape.{Member};

use super::asked_of_nodes::{accept_nodes, count_nodes, read_nodes};
use negotiation_inputs::Platform;
use sysmem_counts::Field;
use sysmem_merge::laws::{count_line_leaves_none, offer_line_leaves_none};
use sysmem_merge::{OfferRead, Settings, is_sound};
use sysmem_tree::{NodeId, Tree};
use verdict_claims::No;
use verdict_claims::laws::least_is_computed;

/// Whether the three parts of an image's name are named; no image needs no name.
fn is_named(read: &OfferRead) -> bool
    ensures { (o : Offered) (ds : List OfferDemand) → IsOfferRead o ds read.now
        → IsTrue result ↔ (is_named o ds ≡ true) }
{
    !read.is_unnamed(Field::UnnamedPixelFormat)
        && !read.is_unnamed(Field::UnnamedPixelFormatModifier)
        && !read.is_unnamed(Field::UnnamedColorSpace)
}

/// Whether the settings meet the participants among these nodes.
fn is_met(tree: &Tree, nodes: &[NodeId], platform: &Platform, settings: &Settings) -> bool
    requires there { All (HasNode tree.now.nodes) nodes.now }
    requires few { length nodes.now ≤ MOST_NODES }
    ensures { IsTrue result
        ↔ Meets platform.now (asked_in tree.now.nodes nodes.now) settings.now }
{
    is_sound(platform, settings)
        && accept_nodes(platform, settings, tree, nodes)
        && count_nodes(tree, &[], nodes).suits(settings.count)
        && is_named(&read_nodes(tree, &settings.offer, nodes))
}

/// Whether settings that meet the participants among these nodes are the
/// least of their offer in their place.
fn is_least(tree: &Tree, nodes: &[NodeId], platform: &Platform, settings: &Settings) -> bool
    requires there { All (HasNode tree.now.nodes) nodes.now }
    requires few { length nodes.now ≤ MOST_NODES }
    requires met { Meets platform.now (asked_in tree.now.nodes nodes.now) settings.now }
    ensures { IsTrue result
        ↔ IsLeastAt platform.now (asked_in tree.now.nodes nodes.now) settings.now }
{
    least_is_computed();
    offer_line_leaves_none();
    count_line_leaves_none();
    let Some(fit) = read_nodes(tree, &settings.offer, nodes).least_fit() else {
        return false;
    };
    let Ok(count) = count_nodes(tree, &[], nodes).least_count() else {
        return false;
    };
    let least = Settings {
        offer: fit.offer,
        place: settings.place,
        count,
        size_bytes: fit.size_bytes,
        bounds: fit.bounds,
    };
    *settings == least
}

/// Of the settings of an initial domain, for all participants of the decision,
/// which are those among these nodes.
pub(crate) fn initial_fault(
    tree: &Tree,
    nodes: &[NodeId],
    platform: &Platform,
    settings: &Settings,
) -> Result<(), No>
    requires there { All (HasNode tree.now.nodes) nodes.now }
    requires few { length nodes.now ≤ MOST_NODES }
    ensures { (ms : List Member)
        → IsPermutation (asked_in tree.now.nodes nodes.now) (participants ms) → MatchResult result
        (λ _. IsLeastAt platform.now (participants ms) settings.now)
        (SettingsFaults platform.now None ms settings.now NoFault) }
{
    if !is_met(tree, nodes, platform, settings) {
        return Err(No::NotMet);
    }
    if !is_least(tree, nodes, platform, settings) {
        return Err(No::NotLeast);
    }
    Ok(())
}

/// Whether the settings are those given, the participants among these nodes accept them, and their
/// count suits these with those accepted before.
fn is_kept(
    tree: &Tree,
    accepted: &[NodeId],
    nodes: &[NodeId],
    platform: &Platform,
    given: &Settings,
    settings: &Settings,
) -> bool
    requires accepted { All (HasNode tree.now.nodes) accepted.now }
    requires few_accepted { length accepted.now ≤ MOST_NODES }
    requires there { All (HasNode tree.now.nodes) nodes.now }
    requires few { length nodes.now ≤ MOST_NODES }
    ensures { IsTrue result ↔ ((settings.now ≡ given.now)
        × All (CoversOn platform.now settings.now) (asked_in tree.now.nodes nodes.now)
        × IsCounted (counts_asked (asked_in tree.now.nodes (accepted.now ++ nodes.now)))
        settings.now.count) }
{
    if *settings != *given {
        return false;
    }
    accept_nodes(platform, settings, tree, nodes)
        && count_nodes(tree, accepted, nodes).suits(settings.count)
}

/// Of the settings of an attached domain, on a base with these settings
/// and these nodes accepted before.
pub(crate) fn attached_fault(
    tree: &Tree,
    accepted: &[NodeId],
    nodes: &[NodeId],
    platform: &Platform,
    given: &Settings,
    settings: &Settings,
) -> Result<(), No>
    requires accepted { All (HasNode tree.now.nodes) accepted.now }
    requires few_accepted { length accepted.now ≤ MOST_NODES }
    requires there { All (HasNode tree.now.nodes) nodes.now }
    requires few { length nodes.now ≤ MOST_NODES }
    ensures { (terms : Terms) (ms : List Member) → terms.settings ≡ given.now
        → participants terms.accepted ≡ asked_in tree.now.nodes accepted.now
        → IsPermutation (asked_in tree.now.nodes nodes.now) (participants ms) → MatchResult result
        (λ _. MeetsFixed platform.now terms ms settings.now)
        (SettingsFaults platform.now (Some terms) ms settings.now NoFault) }
{
    if !is_kept(tree, accepted, nodes, platform, given, settings) {
        return Err(No::NotMet);
    }
    Ok(())
}
