//! What a decision is made from, apart from the book.

ghost use Rattle.std.specs.Prelude.{◌≡◌, option_map};
ghost use Rattle.sysmem_alloc.specs.Sound.{MayWait};
ghost use Rattle.verdict_claims.specs.Base.{IsGivenBase};

use negotiation_inputs::Platform;
use std::marker::Model;
use sysmem_tree::{DomainId, Tree};
use verdict_claims::Base;

/// Copies of a book's platform and tree, with the domain that is to be
/// decided next and what it is decided on.
#[derive(Debug)]
pub struct Frozen {
    platform: Platform,
    tree: Tree,
    domain: DomainId,
    base: Option<Base>,
}

impl Drop for Frozen {
    fn drop(self) {
        let Frozen {
            platform: _,
            tree: _,
            domain: _,
            base: _,
        } = self;
    }
}

impl Model for Frozen {
    ghost use Rattle.sysmem_alloc.specs.Frozen.{FrozenFacts, IsFrozen};

    ghost Value = { FrozenFacts };

    ghost view = { λ f. record {
      platform = f.platform;
      tree = f.tree;
      domain = f.domain;
      base = f.base;
    } };

    ghost invariant = { λ f. IsFrozen (record {
      platform = f.platform;
      tree = f.tree;
      domain = f.domain;
      base = f.base;
    }) };
}

impl Frozen {
    /// Of these: a domain that may wait for a decision, and what it is decided on.
    pub(crate) fn new(
        platform: Platform,
        tree: Tree,
        domain: DomainId,
        base: Option<Base>,
    ) -> Frozen
        requires waits { MayWait tree domain }
        requires given { IsGivenBase platform tree.nodes domain base }
        ensures { result ≡ record {
          platform = platform;
          tree = tree;
          domain = domain;
          base = base;
        } }
    {
        Frozen {
            platform,
            tree,
            domain,
            base,
        }
    }

    /// The platform for which it is decided.
    pub fn platform(&self) -> &Platform
        ensures { result.now ≡ self.now.platform }
    {
        &self.platform
    }

    /// The tree.
    pub fn tree(&self) -> &Tree
        ensures { result.now ≡ self.now.tree }
    {
        &self.tree
    }

    /// The domain that is to be decided.
    pub fn domain(&self) -> DomainId
        ensures domain { result ≡ self.now.domain }
        ensures waits { MayWait self.now.tree result }
    {
        self.domain
    }

    /// What it is decided on; `None` for the initial domain.
    pub fn base(&self) -> Option<&Base>
        ensures base { option_map (λ base. base.now) result ≡ self.now.base }
        ensures given { IsGivenBase self.now.platform self.now.tree.nodes self.now.domain
            (option_map (λ base. base.now) result) }
    {
        self.base.as_ref()
    }
}
