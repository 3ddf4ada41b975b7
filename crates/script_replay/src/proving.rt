//! Domains decided by a search, each decision with what proves it.

ghost use Rattle.std.specs.Prelude.{[]};
ghost use Rattle.script_replay.specs.Proving.{AreProved};

use crate::decider::{Decider, Stop};
use crate::deciding::proved_claim_for;
use std::alloc::Global;
use std::sync::Arc;
use sysmem_alloc::Book;
use sysmem_tree::DomainId;
use verdict_claims::Claim;

/// Searches for each verdict, and proves it. Memory that is refused to either is the decision.
#[derive(Clone, Copy)]
pub struct Proving;

impl Decider for Proving {
    ghost gave = { λ _ platform decisions. AreProved decisions };

    ghost objects = { λ _ platform book domain objection. ⊥ };

    ghost given = { λ _. [] };

    fn decide(
        &mut self,
        alloc: Global,
        book: &Book,
        domain: DomainId,
    ) -> Result<Option<Arc<Claim>>, Stop> {
        Ok(proved_claim_for(alloc, book, domain))
    }
}
