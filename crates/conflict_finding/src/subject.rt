//! What conflicts are looked for in.

ghost use Rattle.std.specs.Prelude.{◌≡◌, [], option_map};
ghost use Rattle.conflict_finding.specs.Subject.{IsSubject};
ghost use Rattle.sysmem_tree.specs.Domain.{HasDomain};
ghost use Rattle.sysmem_tree.specs.Layout.{IsLayout};
ghost use Rattle.sysmem_tree.specs.OpenGroups.{HoldsNodes};
ghost use Rattle.sysmem_tree.specs.Shape.{by_number, forest_of};
ghost use Rattle.verdict_claims.specs.Base.{IsGivenBase};

use negotiation_inputs::Platform;
use std::alloc::Global;
use std::marker::Model;
use sysmem_tree::{DomainId, Layout, Tree};
use verdict_claims::Base;

/// A domain of a tree on a platform, with its base where it is an attached one, and where memory
/// for what is found of it comes from.
#[derive(Drop)]
pub struct Subject<'a> {
    pub(crate) alloc: Global,
    pub(crate) platform: &'a Platform,
    pub(crate) tree: &'a Tree,
    pub(crate) domain: DomainId,
    pub(crate) base: Option<&'a Base>,
}

impl<'a> Model for Subject<'a> {
    ghost use Rattle.std.specs.Prelude.{option_map};
    ghost use Rattle.conflict_finding.specs.Subject.{IsSubject};
    ghost use Rattle.verdict_claims.specs.Matter.{Matter};

    ghost Value = { Matter };

    ghost view = { λ s. record {
      platform = s.platform.now;
      nodes = s.tree.now.nodes;
      domain = s.domain;
      base = option_map (λ b. b.now) s.base;
    } };

    ghost invariant = { λ s. IsSubject (record {
      platform = s.platform.now;
      nodes = s.tree.now.nodes;
      domain = s.domain;
      base = option_map (λ b. b.now) s.base;
    }) };
}

impl<'a> Subject<'a> {
    /// This domain of the tree.
    pub fn new(
        alloc: Global,
        platform: &'a Platform,
        tree: &'a Tree,
        domain: DomainId,
        base: Option<&'a Base>,
    ) -> Subject<'a>
        requires domain { HasDomain tree.now.nodes domain }
        requires base { IsGivenBase platform.now tree.now.nodes domain
            (option_map (λ b. b.now) base) }
        ensures { result ≡ record {
          platform = platform.now;
          nodes = tree.now.nodes;
          domain = domain;
          base = option_map (λ b. b.now) base.entry;
        } }
    {
        tree.recall_sound();
        Subject {
            alloc,
            platform,
            tree,
            domain,
            base,
        }
    }

    /// Recalls, for a proof, what is true of each. It does nothing.
    pub fn recall(&self)
        ensures { IsSubject self.now }
    {
        let _ = &self.domain;
    }

    /// Where memory comes from.
    pub fn alloc(&self) -> Global {
        self.alloc
    }

    /// The platform.
    pub fn platform(&self) -> &'a Platform
        ensures { result.now ≡ self.now.platform }
    {
        self.platform
    }

    /// The tree.
    pub fn tree(&self) -> &'a Tree
        ensures { result.now.nodes ≡ self.now.nodes }
    {
        self.tree
    }

    /// The domain.
    pub fn domain(&self) -> DomainId
        ensures { result ≡ self.now.domain }
    {
        self.domain
    }

    /// The base, where the domain is an attached one.
    pub fn base(&self) -> Option<&'a Base>
        ensures { option_map (λ b. b.now) result ≡ self.now.base }
    {
        self.base
    }

    /// The domain's layout. It takes no memory, and one pass over the nodes.
    pub fn layout(&self) -> Layout
        ensures lays { IsLayout result (forest_of by_number self.now.nodes self.now.domain []) }
        ensures nodes { HoldsNodes result self.now.nodes }
    {
        self.tree.layout(self.domain)
    }
}
