//! Domains decided by a search.

ghost use Rattle.std.specs.Prelude.{◌≡◌, [], ⊤};

use crate::decider::{Decider, Stop};
use crate::deciding::claim_for;
use std::alloc::Global;
use std::sync::Arc;
use sysmem_alloc::Book;
use sysmem_tree::DomainId;
use verdict_claims::Claim;

/// Searches for each verdict, and asks for no proof. Where memory is refused to a search, that is
/// the decision.
#[derive(Drop)]
pub struct Searching {
    visits: u64,
}

impl Searching {
    ghost use Rattle.script_replay.specs.Searching.{visits_of};

    /// Begins before the first search.
    pub fn new() -> Searching
        ensures { visits_of result ≡ 0 }
    {
        Searching { visits: 0 }
    }

    /// How many prefixes its searches visited so far, at most `u64::MAX`.
    pub(crate) fn visits(&self) -> u64
        ensures { result ≡ visits_of self.now }
    {
        self.visits
    }
}

impl Decider for Searching {
    ghost gave = { λ _ platform decisions. ⊤ };

    ghost objects = { λ _ platform book domain objection. ⊥ };

    ghost given = { λ _. [] };

    fn decide(
        &mut self,
        alloc: Global,
        book: &Book,
        domain: DomainId,
    ) -> Result<Option<Arc<Claim>>, Stop> {
        Ok(claim_for(alloc, book, domain, &mut self.visits))
    }
}
