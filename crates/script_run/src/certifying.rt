//! Domains decided by a search, with the certificate of the decisions.

ghost use Rattle.std.specs.Prelude.{◌≡◌, ◌++◌, List, [], ◌∷◌, option_map, IfOk, OnOk};
ghost use Rattle.std.specs.Arc.{arc_value};
ghost use Rattle.script_replay.specs.Proving.{AreProved};
ghost use Rattle.script_run.specs.Certificate.{texts_of};
ghost use Rattle.script_replay.specs.Report.{Certified};
ghost use Rattle.sysmem_tree.specs.Domain.{HasDomain};
ghost use Rattle.sysmem_tree.specs.Path.{path_of};

use certificate_pieces::CertificatePieces;
use script_replay::{Decider, Stop, proved_claim_for};
use std::alloc::{AllocError, Global};
use std::sync::Arc;
use sysmem_alloc::Book;
use sysmem_tree::DomainId;
use verdict_claims::Claim;

/// Searches for each verdict, proves it, and keeps it with its proof.
#[derive(Drop)]
pub(crate) struct Certifying {
    pieces: CertificatePieces,
}

impl Certifying {
    /// Begins before the first decision.
    pub(crate) fn new(alloc: Global) -> Result<Certifying, AllocError>
        ensures { IfOk result (λ certifying. certifying.pieces ≡ []) }
    {
        let pieces = CertificatePieces::new(alloc)?;
        Ok(Certifying { pieces })
    }

    /// Keeps a decision.
    fn put(
        &mut self,
        book: &Book,
        domain: DomainId,
        claim: &Option<Arc<Claim>>,
    ) -> Result<(), AllocError>
        requires { HasDomain book.now.state.tree.nodes domain }
        ensures { (cs : List Certified) → self.old.pieces ≡ texts_of book.now.platform cs
            → OnOk result (self.new.pieces ≡ texts_of book.now.platform
            (cs ++ (
              path_of book.now.state.tree.nodes domain,
              option_map (λ shared. arc_value shared) claim.now,
            ) ∷ [])) }
    {
        let tree = book.tree();
        let path = tree.path_of(tree.root_of(domain))?;
        let platform = book.platform();
        self.pieces.put(platform, &path, claim)?;
        Ok(())
    }

    /// The certificate of the decisions, which is to be written.
    pub(crate) fn finish(self) -> CertificatePieces
        ensures { result ≡ self.pieces }
    {
        let Certifying { pieces } = self;
        pieces
    }
}

impl Decider for Certifying {
    ghost gave = { λ certifying platform decisions.
        (certifying.pieces ≡ texts_of platform decisions) × AreProved decisions };

    ghost objects = { λ _ platform book domain objection. ⊥ };

    ghost given = { λ _. [] };

    fn decide(
        &mut self,
        alloc: Global,
        book: &Book,
        domain: DomainId,
    ) -> Result<Option<Arc<Claim>>, Stop> {
        let claim = proved_claim_for(alloc, book, domain);
        self.put(book, domain, &claim)?;
        Ok(claim)
    }
}
