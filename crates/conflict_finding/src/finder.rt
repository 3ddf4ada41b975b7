//! Why no settings meet what is settled, and what is refused before what was chosen.

ghost use Rattle.std.specs.Prelude.{◌≡◌, ◌≢◌, ◌≤◌, ◌<◌, ◌++◌, ℕ, List, [], All, AllPairs, Some, None, is_none, length, option_map, IfOk, IfSome, IfNone};
ghost use Rattle.sysmem_counts.specs.declared.bounds.TheConstants.{BUFFER_COUNT_LIMIT};
ghost use Rattle.sysmem_merge.specs.declared.settings.Settings.{Settings as Settled};
ghost use Rattle.sysmem_tree.specs.declared.tree.TheConstants.{MOST_NODES};
ghost use Rattle.verdict_claims.specs.Base.{IsElsewhere, IsGivenBase, terms_of};
ghost use Rattle.verdict_claims.specs.Certificate.{RefuseBeforeFor};
ghost use Rattle.verdict_claims.specs.Conflict.{IsConflict, IsConflictFor, IsFixedConflict};
ghost use Rattle.verdict_claims.specs.FirstConflict.{IsFirstConflict, IsFirstConflictFor, IsFirstFixedConflict};
ghost use Rattle.conflict_finding.specs.Learnt.{IsLearnt};
ghost use Rattle.conflict_finding.specs.Found.{AreSettledAt, IsBestChoice};
ghost use Rattle.verdict_claims.specs.Matter.{forest, terms};
ghost use Rattle.verdict_claims.specs.Members.{members_at, StandFor};
ghost use Rattle.verdict_claims.specs.Verdict.{MeetsFixed, MeetsSettled};
ghost use Rattle.verdict_claims.specs.declared.refutation.Item.{Item};
ghost use Rattle.sysmem_tree.specs.Domain.{HasDomain};
ghost use Rattle.sysmem_tree.specs.Forest.{Forest, choices, settled};
ghost use Rattle.sysmem_tree.specs.Layout.{IsLayout};
ghost use Rattle.sysmem_tree.specs.Nodes.{HasNode};
ghost use Rattle.sysmem_tree.specs.OpenGroups.{HoldsNodes};
ghost use Rattle.sysmem_tree.specs.Selection.{IsPrefix, IsSelection, after};
ghost use Rattle.sysmem_tree.specs.Shape.{Member, by_number, forest_of, shape_of};

use crate::count_lines::{counts_at, fixed_line};
use crate::first_refusing::first_failing;
use crate::learnt::Learnt;
use crate::participants::Participants;
use crate::refusals::{Refusals, refused_offers, refused_places};
use crate::subject::Subject;
use crate::whom::{Whom, line_of};
use negotiation_inputs::Platform;
use std::alloc::{AllocError, Global};
use sysmem_merge::Settings;
use sysmem_merge::laws::{
    count_line_leaves_none, offer_line_leaves_none, place_line_leaves_none,
    unnamed_line_leaves_none,
};
use sysmem_tree::laws::{members_stand_once, one_forest, one_path};
use sysmem_tree::layout_laws::choices_leave_one_forest;
use sysmem_tree::{DomainId, Layout, NodeId, Prefix, Tree};
use verdict_claims::{Base, Conflict, Lines};

/// Lines for what stands before settings in a platform's order: these refuse it.
#[derive(Debug, Drop)]
pub struct LinesBefore {
    /// One for each offer of the platform before that of the settings.
    pub offers: Lines,
    /// One for each place of the platform before that of the settings.
    pub places: Lines,
}

/// The participants that these choices settle in a domain of the tree, by its layout, in pre-order.
fn settled_at(
    tree: &Tree,
    domain: DomainId,
    layout: &Layout,
    prefix: &Prefix,
) -> Result<Vec<NodeId>, AllocError>
    requires domain { HasDomain tree.now.nodes domain }
    requires lays { IsLayout layout.now (forest_of by_number tree.now.nodes domain []) }
    requires nodes { HoldsNodes layout.now tree.now.nodes }
    requires prefix { IsPrefix (shape_of tree.now.nodes domain) prefix.now }
    ensures { (d : Forest Member) (accepted : List ℕ)
        → after (shape_of tree.now.nodes domain) prefix.now ≡ Some d
        → All (IsElsewhere tree.now.nodes domain) accepted
        → AllPairs (λ i j. i ≢ j) accepted
        → IfOk result (λ found. AreSettledAt tree.now.nodes d accepted found.items) }
{
    one_path();
    one_forest();
    members_stand_once();
    choices_leave_one_forest();
    tree.recall_sound();
    let _ = domain;
    tree.participants_in(layout, prefix.choices())
}

/// These nodes, then those.
fn joined(alloc: Global, first: &[NodeId], second: &[NodeId]) -> Result<Vec<NodeId>, AllocError>
    ensures { IfOk result (λ both. both.items ≡ first.now ++ second.now) }
{
    let mut both = Vec::new(alloc);
    both.extend_from_slice(first)?;
    both.extend_from_slice(second)?;
    Ok(both)
}

/// Looks for a conflict of the participants at these nodes, which are settled in an initial domain.
fn find_initial(
    alloc: Global,
    platform: &Platform,
    tree: &Tree,
    nodes: &[NodeId],
    whole: bool,
    learnt: &mut Learnt,
) -> Result<Option<Conflict>, AllocError>
    requires there { All (HasNode tree.now.nodes) nodes.now }
    requires few { length nodes.now ≤ MOST_NODES }
    requires learnt { IsLearnt tree.now.nodes platform.now.heaps learnt.old }
    ensures learnt { IsLearnt tree.now.nodes platform.now.heaps learnt.new }
    ensures conflict { (d : Forest Member)
        → StandFor (members_at tree.now.nodes nodes.now) (settled d)
        → whole ≡ is_none (choices d)
        → IfOk result (λ found. IfSome found (IsConflict platform.now d)) }
    ensures first { (d : Forest Member)
        → StandFor (members_at tree.now.nodes nodes.now) (settled d)
        → whole ≡ is_none (choices d)
        → IfOk result (λ found. IfSome found (IsFirstConflict platform.now d)) }
    ensures none { (d : Forest Member)
        → StandFor (members_at tree.now.nodes nodes.now) (settled d)
        → whole ≡ is_none (choices d)
        → IfOk result (λ found. IfNone found ((t : Settled) × MeetsSettled platform.now None d t)) }
{
    let those = Participants {
        alloc,
        platform,
        tree,
        nodes,
        whole,
    };
    if let Err(field) = counts_at(tree, nodes).least_count() {
        let line = line_of(&those, field, Whom::WithCount, &[], &mut learnt.alone)?;
        return Ok(Some(Conflict::Count(line)));
    }
    learnt.asked.begin(platform)?;
    let places = refused_places(&those, None, learnt)?;
    if let Refusals::Whole(lines) = places {
        return Ok(Some(Conflict::Places(lines)));
    }
    match refused_offers(&those, None, learnt)? {
        Refusals::Whole(lines) => Ok(Some(Conflict::Offers(lines))),
        Refusals::UpTo(_) => Ok(None),
    }
}

/// Looks for a conflict of the participants at these nodes, which are settled in an attached
/// domain; in counts those of its base take part.
fn find_on_base(
    alloc: Global,
    platform: &Platform,
    tree: &Tree,
    base: &Base,
    nodes: &[NodeId],
    learnt: &mut Learnt,
) -> Result<Option<Conflict>, AllocError>
    requires there { All (HasNode tree.now.nodes) (base.now.accepted ++ nodes.now) }
    requires few { length (base.now.accepted ++ nodes.now) ≤ MOST_NODES }
    requires heap { base.now.settings.place.heap < length platform.now.heaps }
    requires some { 1 ≤ base.now.settings.count }
    requires limit { base.now.settings.count ≤ BUFFER_COUNT_LIMIT }
    requires learnt { IsLearnt tree.now.nodes platform.now.heaps learnt.old }
    ensures learnt { IsLearnt tree.now.nodes platform.now.heaps learnt.new }
    ensures conflict { (d : Forest Member)
        → StandFor (members_at tree.now.nodes nodes.now) (settled d)
        → StandFor (members_at tree.now.nodes (base.now.accepted ++ nodes.now))
        (members_at tree.now.nodes base.now.accepted ++ settled d)
        → IfOk result (λ found. IfSome found
        (IsFixedConflict platform.now (terms_of tree.now.nodes base.now) d)) }
    ensures first { (d : Forest Member)
        → StandFor (members_at tree.now.nodes nodes.now) (settled d)
        → StandFor (members_at tree.now.nodes (base.now.accepted ++ nodes.now))
        (members_at tree.now.nodes base.now.accepted ++ settled d)
        → IfOk result (λ found. IfSome found
        (IsFirstFixedConflict platform.now (terms_of tree.now.nodes base.now) d)) }
    ensures none { (d : Forest Member)
        → StandFor (members_at tree.now.nodes nodes.now) (settled d)
        → StandFor (members_at tree.now.nodes (base.now.accepted ++ nodes.now))
        (members_at tree.now.nodes base.now.accepted ++ settled d)
        → IfOk result (λ found. IfNone found
        ((t : Settled) × MeetsFixed platform.now (terms_of tree.now.nodes base.now)
        (settled d) t)) }
{
    let settings = base.settings();
    let everyone = joined(alloc, base.accepted(), nodes)?;
    if let Some(field) = fixed_line(&counts_at(tree, &everyone), settings.count) {
        let those = Participants {
            alloc,
            platform,
            tree,
            nodes: &everyone,
            whole: false,
        };
        let line = line_of(&those, field, Whom::WithCount, &[], &mut learnt.alone)?;
        return Ok(Some(Conflict::Count(line)));
    }
    match first_failing(platform, &settings, tree, nodes) {
        Some(first) => {
            let path = tree.path_of(first.node)?;
            Ok(Some(Conflict::Fixed(first.field, path)))
        }
        None => Ok(None),
    }
}

/// Looks for a conflict of the participants that these choices settle in a domain of the tree,
/// for an attached one on the base that is given. `None` where some settings meet them; that
/// nobody names an image's format, modifier or colour space counts where no group is left.
/// `AllocError` where memory is refused.
pub fn find_conflict(
    alloc: Global,
    platform: &Platform,
    tree: &Tree,
    domain: DomainId,
    base: Option<&Base>,
    prefix: &Prefix,
) -> Result<Option<Conflict>, AllocError>
    requires domain { HasDomain tree.now.nodes domain }
    requires base { IsGivenBase platform.now tree.now.nodes domain
        (option_map (λ b. b.now) base) }
    requires prefix { IsPrefix (shape_of tree.now.nodes domain) prefix.now }
    ensures conflict { (d : Forest Member)
        → after (shape_of tree.now.nodes domain) prefix.now ≡ Some d
        → IfOk result (λ found. IfSome found (IsConflictFor platform.now
        (option_map (terms_of tree.now.nodes) (option_map (λ b. b.now) base.entry)) d)) }
    ensures first { (d : Forest Member)
        → after (shape_of tree.now.nodes domain) prefix.now ≡ Some d
        → IfOk result (λ found. IfSome found (IsFirstConflictFor platform.now
        (option_map (terms_of tree.now.nodes) (option_map (λ b. b.now) base.entry)) d)) }
    ensures none { (d : Forest Member)
        → after (shape_of tree.now.nodes domain) prefix.now ≡ Some d
        → IfOk result (λ found. IfNone found ((t : Settled) × MeetsSettled platform.now
        (option_map (terms_of tree.now.nodes) (option_map (λ b. b.now) base.entry)) d t)) }
{
    choices_leave_one_forest();
    let whole = tree.next_group(domain, prefix).is_none();
    let subject = Subject::new(alloc, platform, tree, domain, base);
    let layout = subject.layout();
    let mut learnt = Learnt::new(alloc);
    find_conflict_as(&subject, &layout, prefix, whole, &mut learnt)
}

/// As `find_conflict`, for a caller who has the domain's layout, knows whether the choices are a
/// selection, so that no group is left (`whole`), and keeps what is learnt of participants.
pub fn find_conflict_as(
    subject: &Subject<'_>,
    layout: &Layout,
    prefix: &Prefix,
    whole: bool,
    learnt: &mut Learnt,
) -> Result<Option<Conflict>, AllocError>
    requires lays { IsLayout layout.now
        (forest_of by_number subject.now.nodes subject.now.domain []) }
    requires nodes { HoldsNodes layout.now subject.now.nodes }
    requires prefix { IsPrefix (forest subject.now) prefix.now }
    requires whole { (d : Forest Member) → after (forest subject.now) prefix.now ≡ Some d
        → whole ≡ is_none (choices d) }
    requires learnt { IsLearnt subject.now.nodes subject.now.platform.heaps learnt.old }
    ensures learnt { IsLearnt subject.now.nodes subject.now.platform.heaps learnt.new }
    ensures conflict { (d : Forest Member) → after (forest subject.now) prefix.now ≡ Some d
        → IfOk result (λ found. IfSome found
        (IsConflictFor subject.now.platform (terms subject.now) d)) }
    ensures first { (d : Forest Member) → after (forest subject.now) prefix.now ≡ Some d
        → IfOk result (λ found. IfSome found
        (IsFirstConflictFor subject.now.platform (terms subject.now) d)) }
    ensures none { (d : Forest Member) → after (forest subject.now) prefix.now ≡ Some d
        → IfOk result (λ found. IfNone found
        ((t : Settled) × MeetsSettled subject.now.platform (terms subject.now) d t)) }
{
    let (alloc, platform, tree) = (subject.alloc, subject.platform, subject.tree);
    let nodes = settled_at(tree, subject.domain, layout, prefix)?;
    match subject.base {
        Some(base) => find_on_base(alloc, platform, tree, base, &nodes, learnt),
        None => find_initial(alloc, platform, tree, &nodes, whole, learnt),
    }
}

/// Lines that refuse each offer and each place before those of the settings to the members of a
/// selection for which they are the best; none in an attached domain, whose settings are given.
/// `AllocError` where memory is refused.
pub fn lines_before(
    alloc: Global,
    platform: &Platform,
    tree: &Tree,
    domain: DomainId,
    base: Option<&Base>,
    selection: &Prefix,
    settings: &Settings,
) -> Result<LinesBefore, AllocError>
    requires domain { HasDomain tree.now.nodes domain }
    requires best { IsBestChoice platform.now
        (option_map (terms_of tree.now.nodes) (option_map (λ b. b.now) base))
        (shape_of tree.now.nodes domain) selection.now settings.now }
    ensures { (members : Forest Member)
        → IsSelection (shape_of tree.now.nodes domain) selection.now members
        → IfOk result (λ lines. (earlier : List (List (List Item))) → RefuseBeforeFor platform.now
        (option_map (terms_of tree.now.nodes) (option_map (λ b. b.now) base.entry))
        (settled members) settings.now
        (record { earlier = earlier; offers = lines.offers; places = lines.places })) }
{
    offer_line_leaves_none();
    place_line_leaves_none();
    count_line_leaves_none();
    unnamed_line_leaves_none();
    if base.is_some() {
        return Ok(LinesBefore {
            offers: Lines::new(Vec::new(alloc)),
            places: Lines::new(Vec::new(alloc)),
        });
    }
    let layout = tree.layout(domain);
    let nodes = settled_at(tree, domain, &layout, selection)?;
    let (offer, place) = (settings.offer, settings.place);
    let those = Participants {
        alloc,
        platform,
        tree,
        nodes: &nodes,
        whole: true,
    };
    let mut learnt = Learnt::new(alloc);
    let offers = refused_offers(&those, Some(offer), &mut learnt)?;
    let places = refused_places(&those, Some(place), &mut learnt)?;
    Ok(LinesBefore {
        offers: offers.into_lines(),
        places: places.into_lines(),
    })
}
