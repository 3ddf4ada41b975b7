//! What a verdict is checked against.

ghost use Rattle.std.specs.Prelude.{◌≡◌, ◌≤◌, ◌++◌, ℕ, List, Some, length, option_map};
ghost use Rattle.sysmem_tree.specs.declared.tree.TheConstants.{MOST_NODES};
ghost use Rattle.verdict_claims.specs.Base.{IsGivenBase};
ghost use Rattle.verdict_claims.specs.Matter.{forest};
ghost use Rattle.verdict_claims.specs.Members.{members_at};
ghost use Rattle.verdict_claims.specs.Roll.{listed};
ghost use Rattle.sysmem_tree.specs.Domain.{HasDomain};
ghost use Rattle.sysmem_tree.specs.Forest.{Forest, choices, settled};
ghost use Rattle.sysmem_tree.specs.Selection.{IsPrefix, after};
ghost use Rattle.sysmem_tree.specs.Shape.{Member};

use crate::roll::Roll;
use negotiation_inputs::Platform;
use std::marker::Model;
use sysmem_tree::layout_laws::{choices_leave_one_forest, few_children, few_choices};
use sysmem_tree::{DomainId, Layout, Prefix, Tree};
use verdict_claims::Base;

/// A domain of a tree on a platform, with its base where it is an attached one.
#[derive(Drop)]
pub(crate) struct Checker<'a> {
    pub(crate) platform: &'a Platform,
    pub(crate) tree: &'a Tree,
    pub(crate) domain: DomainId,
    pub(crate) base: Option<&'a Base>,
    /// The domain's layout, made once for all choices.
    layout: Layout,
}

impl<'a> Model for Checker<'a> {
    ghost use Rattle.std.specs.Prelude.{option_map, []};
    ghost use Rattle.verdict_claims.specs.Base.{IsGivenBase};
    ghost use Rattle.verdict_claims.specs.Matter.{Matter};
    ghost use Rattle.sysmem_tree.specs.Domain.{HasDomain, IsSoundTree};
    ghost use Rattle.sysmem_tree.specs.Layout.{IsLayout};
    ghost use Rattle.sysmem_tree.specs.OpenGroups.{HoldsNodes};
    ghost use Rattle.sysmem_tree.specs.Shape.{by_number, forest_of};

    ghost Value = { Matter };

    ghost view = { λ c. record {
      platform = c.platform.now;
      nodes = c.tree.now.nodes;
      domain = c.domain;
      base = option_map (λ b. b.now) c.base;
    } };

    ghost invariant = { λ c. HasDomain c.tree.now.nodes c.domain × IsSoundTree c.tree.now
        × IsGivenBase c.platform.now c.tree.now.nodes c.domain
        (option_map (λ b. b.now) c.base)
        × IsLayout c.layout (forest_of by_number c.tree.now.nodes c.domain [])
        × HoldsNodes c.layout c.tree.now.nodes };
}

impl<'a> Checker<'a> {
    /// Of this domain of the tree.
    pub(crate) fn new(
        platform: &'a Platform,
        tree: &'a Tree,
        domain: DomainId,
        base: Option<&'a Base>,
    ) -> Checker<'a>
        requires domain { HasDomain tree.now.nodes domain }
        requires base { IsGivenBase platform.now tree.now.nodes domain
            (option_map (λ b. b.now) base) }
        ensures { result ≡ record {
          platform = platform.now;
          nodes = tree.now.nodes;
          domain = domain;
          base = option_map (λ b. b.now) base.entry;
        } }
    {
        tree.recall_sound();
        Checker {
            platform,
            tree,
            domain,
            base,
            layout: tree.layout(domain),
        }
    }

    /// The platform.
    pub(crate) fn platform(&self) -> &'a Platform
        ensures { result.now ≡ self.now.platform }
    {
        self.platform
    }

    /// The base, where the domain is an attached one.
    pub(crate) fn base(&self) -> Option<&'a Base>
        ensures { option_map (λ b. b.now) result ≡ self.now.base }
    {
        self.base
    }

    /// How many children the group has that is next after these choices;
    /// `None` where they are a selection.
    pub(crate) fn children(&self, prefix: &Prefix) -> Option<u8>
        requires { IsPrefix (forest self.now) prefix.now }
        ensures number { (d : Forest Member) → after (forest self.now) prefix.now ≡ Some d
            → option_map length (choices d) ≡ result }
    {
        choices_leave_one_forest();
        few_children();
        self.tree.recall_sound();
        let (_, children) = self.layout.next_group(prefix)?;
        Some(children as u8)
    }

    /// A domain has at most 128 choices, one after the other.
    pub(crate) fn few_choices(&self)
        ensures { (cs : List ℕ) → IsPrefix (forest self.now) cs → length cs ≤ MOST_NODES }
    {
        few_choices();
        choices_leave_one_forest();
        self.tree.recall_sound();
    }

    /// Those whom these choices settle.
    pub(crate) fn settled<'b>(&'b self, prefix: &'b Prefix) -> Roll<'b>
        requires { IsPrefix (forest self.now) prefix.now }
        ensures { (d : Forest Member) → after (forest self.now) prefix.now ≡ Some d
            → listed result ≡ settled d }
    {
        Roll::new(self.tree, self.domain, &self.layout, prefix, &[])
    }

    /// Those accepted before, by its base, and those whom these choices settle.
    pub(crate) fn with_accepted<'b>(&'b self, base: &'b Base, prefix: &'b Prefix) -> Roll<'b>
        requires base { self.now.base ≡ Some base.now }
        requires prefix { IsPrefix (forest self.now) prefix.now }
        ensures { (d : Forest Member) → after (forest self.now) prefix.now ≡ Some d
            → listed result ≡ members_at self.now.nodes base.now.accepted ++ settled d }
    {
        Roll::new(
            self.tree,
            self.domain,
            &self.layout,
            prefix,
            base.accepted(),
        )
    }
}
