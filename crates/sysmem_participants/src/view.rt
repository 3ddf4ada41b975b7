//! What a member of a selection is shown.

ghost use Rattle.std.specs.Prelude.{◌≡◌, option_map};
ghost use Rattle.sysmem_alloc.specs.Sound.{MayWait};
ghost use Rattle.verdict_claims.specs.Base.{IsGivenBase};
ghost use Rattle.verdict_claims.specs.declared.verdict.Verdict.TheVariants as verdicts;
ghost use Rattle.sysmem_participants.specs.Told.{IsSelected, IsSet};
ghost use Rattle.sysmem_room.specs.Ruling.{IsRuling};

use negotiation_inputs::Platform;
use sysmem_merge::Settings;
use sysmem_room::Ruling;
use sysmem_tree::{DomainId, Prefix, Tree};
use verdict_claims::{Base, Chosen, Claim, Verdict};

/// What was decided of a collection's domain, and on what: all that a checker wants.
///
/// ```
/// let view = collection.check()?;
/// let checked = check(view.platform(), view.tree(), view.domain(), view.base(), view.claim());
/// ```
#[derive(Drop)]
pub struct View<'a> {
    ruling: &'a Ruling,
    /// What the ruling's verdict chose.
    chosen: &'a Chosen,
    ghost is_chosen: { ruling.now.claim.verdict ≡ verdicts.Chosen chosen.now },
}

impl<'a> View<'a> {
    /// Of a ruling that chose this.
    pub(crate) fn new(ruling: &'a Ruling, chosen: &'a Chosen) -> View<'a>
        requires { ruling.now.claim.verdict ≡ Verdict.Chosen chosen.now }
        ensures { result.ruling.now ≡ ruling.now }
    {
        View { ruling, chosen }
    }

    /// The platform for which it was decided.
    pub fn platform(&self) -> &Platform
        ensures { result.now ≡ self.now.ruling.now.frozen.platform }
    {
        self.ruling.frozen().platform()
    }

    /// The tree as it was when the decision was taken.
    pub fn tree(&self) -> &Tree
        ensures { result.now ≡ self.now.ruling.now.frozen.tree }
    {
        self.ruling.frozen().tree()
    }

    /// The domain that was decided.
    pub fn domain(&self) -> DomainId
        ensures domain { result ≡ self.now.ruling.now.frozen.domain }
        ensures waits { MayWait self.now.ruling.now.frozen.tree result }
    {
        self.ruling.frozen().domain()
    }

    /// What it was decided on; `None` for the initial domain.
    pub fn base(&self) -> Option<&Base>
        ensures base { option_map (λ base. base.now) result ≡ self.now.ruling.now.frozen.base }
        ensures given { IsGivenBase self.now.ruling.now.frozen.platform
            self.now.ruling.now.frozen.tree.nodes self.now.ruling.now.frozen.domain
            (option_map (λ base. base.now) result) }
    {
        self.ruling.frozen().base()
    }

    /// The verdict, with what proves it.
    pub fn claim(&self) -> &Claim
        ensures claim { result.now ≡ self.now.ruling.now.claim }
        ensures right { IsRuling (record {
          frozen = self.now.ruling.now.frozen;
          claim = result.now;
        }) }
    {
        self.ruling.claim()
    }

    /// For each group in effect the number of the chosen child, groups in pre-order.
    pub fn selection(&self) -> &Prefix
        ensures { IsSelected self.now.ruling.now.claim.verdict result.now }
    {
        self.chosen.selection()
    }

    /// The settings that all members share.
    pub fn settings(&self) -> Settings
        ensures { IsSet self.now.ruling.now.claim.verdict result }
    {
        self.chosen.settings()
    }
}
