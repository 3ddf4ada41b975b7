//! How the participants of an attached domain take the settings of its base.

ghost use Rattle.std.specs.Prelude.{◌≤◌, ◌<◌, ◌+◌, ◌*◌, ◌^◌, ◌↔◌, ◌++◌, List, [], ◌∷◌, All, IsTrue, length, option_map};
ghost use Rattle.std.specs.List.{cons_option};
ghost use Rattle.sysmem_counts.specs.Bounds.{IsTallyOf};
ghost use Rattle.sysmem_counts.specs.Counts.{IsCounted};
ghost use Rattle.sysmem_counts.specs.Tally.{sum_of};
ghost use Rattle.sysmem_counts.specs.declared.constraints.CountConstraints.{CountConstraints as Counted};
ghost use Rattle.offer_fits.specs.Demands.{counts_asked};
ghost use Rattle.sysmem_merge.specs.Settings.{CoversOn};
ghost use Rattle.sysmem_merge.specs.declared.settings.Settings.{Settings as Settled};
ghost use Rattle.negotiation_inputs.specs.Participant.{Participant};
ghost use Rattle.negotiation_inputs.specs.Platform.{PlatformFacts};
ghost use Rattle.search_questions.specs.Kept.{TakesBase};
ghost use Rattle.sysmem_tree.specs.declared.tree.TheConstants.{MOST_NODES};
ghost use Rattle.verdict_claims.specs.Asked.{asked_in};
ghost use Rattle.sysmem_tree.specs.Nodes.{HasNode};

use negotiation_inputs::{Constraints, Platform};
use sysmem_counts::CountBounds;
use sysmem_merge::{Settings, meets_one};
use sysmem_tree::{NodeId, Tree};

/// What participants ask of the number of buffers together with those accepted before them, and
/// whether each of them accepts the base's settings.
#[derive(Clone, Copy)]
pub(crate) struct OnBase {
    counts: CountBounds,
    all_accept: bool,
}

impl OnBase {
    /// Of no participant at all.
    pub(crate) fn new() -> OnBase
        ensures { (platform : PlatformFacts) (settings : Settled)
            → TakesBase platform settings [] result [] }
    {
        OnBase {
            counts: CountBounds::new(),
            all_accept: true,
        }
    }

    /// Of no participant behind those that were accepted before.
    pub(crate) fn behind(tree: &Tree, accepted: &[NodeId]) -> OnBase
        requires there { All (HasNode tree.now.nodes) accepted.now }
        requires few { length accepted.now ≤ MOST_NODES }
        ensures { (platform : PlatformFacts) (settings : Settled)
            → TakesBase platform settings (asked_in tree.now.nodes accepted.now) result [] }
    {
        let mut counts = CountBounds::new();
        add_counts(tree, accepted, &mut counts);
        OnBase {
            counts,
            all_accept: true,
        }
    }

    /// Adds one more participant.
    pub(crate) fn add(&mut self, platform: &Platform, settings: &Settings, asked: &Constraints)
        requires { sum_of self.old.counts < 2 ^ 62 }
        ensures { (earlier ps : List Participant)
            → TakesBase platform.now settings.now earlier self.old ps
            → TakesBase platform.now settings.now earlier self.new (ps ++ asked.now ∷ []) }
    {
        self.counts.add(asked.counts());
        self.all_accept &= meets_one(platform, settings, asked);
    }

    /// Of these participants and more.
    pub(crate) fn join(&self, more: &OnBase) -> OnBase
        requires { sum_of self.now.counts + sum_of more.now.counts < 2 ^ 62 }
        ensures { (platform : PlatformFacts) (settings : Settled) (earlier ps qs : List Participant)
            → TakesBase platform settings earlier self.now ps
            → TakesBase platform settings [] more.now qs
            → TakesBase platform settings earlier result (ps ++ qs) }
    {
        let mut counts = self.counts;
        counts.join(&more.counts);
        OnBase {
            counts,
            all_accept: self.all_accept & more.all_accept,
        }
    }

    /// Whether each participant accepts the settings, and their count suits all together.
    pub(crate) fn suits(&self, settings: &Settings) -> bool
        ensures { (platform : PlatformFacts) (earlier ps : List Participant)
            → TakesBase platform settings.now earlier self.now ps
            → IsTrue result ↔ (All (CoversOn platform settings.now) ps
            × IsCounted (counts_asked earlier ++ counts_asked ps) settings.now.count) }
    {
        self.all_accept && self.counts.suits(settings.count)
    }
}

/// Adds what is asked of the number of buffers, if anything is.
fn count_asked(counts: &mut CountBounds, asked: Option<&Constraints>)
    requires { sum_of counts.old < 2 ^ 62 }
    ensures added { (ps : List Counted) → IsTallyOf counts.old ps → IsTallyOf counts.new
        (ps ++ counts_asked (cons_option (option_map (λ one. one.now) asked.entry) [])) }
    ensures grows { sum_of counts.new ≤ sum_of counts.old
        + length (cons_option (option_map (λ one. one.now) asked.entry) []) * 2 ^ 33 }
{
    if let Some(one) = asked {
        counts.add(one.counts());
    }
}

/// Adds what the participants among these nodes of a tree ask of the number of buffers.
fn add_counts(tree: &Tree, nodes: &[NodeId], counts: &mut CountBounds)
    requires there { All (HasNode tree.now.nodes) nodes.now }
    requires few { length nodes.now ≤ MOST_NODES }
    requires room { sum_of counts.old ≤ MOST_NODES * 2 ^ 33 }
    ensures added { (ps : List Counted) → IsTallyOf counts.old ps
        → IsTallyOf counts.new (ps ++ counts_asked (asked_in tree.now.nodes nodes.now)) }
    ensures grows { sum_of counts.new
        ≤ sum_of counts.old + length (asked_in tree.now.nodes nodes.now) * 2 ^ 33 }
{
    for node in nodes {
        count_asked(counts, tree.constraints_of(*node));
    }
}
