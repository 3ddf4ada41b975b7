//! What the participants of one choice ask for, made once for a search.

ghost use Rattle.std.specs.Prelude.{◌≡◌, ◌+◌, ◌<◌, ◌++◌, List, [], ◌∷◌, IfOk};
ghost use Rattle.sysmem_merge.specs.Share.{IsShareOf};
ghost use Rattle.negotiation_inputs.specs.Participant.{Participant};
ghost use Rattle.sysmem_merge.specs.declared.sum.TheConstants.{MOST_ADDED};

use crate::sum::Sum;
use negotiation_inputs::{Constraints, Platform};
use std::alloc::{AllocError, Global};
use std::marker::Model;

/// What the participants that one choice settles ask for together.
#[derive(Debug, Drop)]
pub struct Share {
    sum: Sum,
}

impl Model for Share {
    ghost use Rattle.sysmem_merge.specs.Share.{ShareFacts};

    ghost Value = { ShareFacts };

    ghost view = { λ s. record { sum = s.sum } };
}

impl Share {
    /// The share of no participant at all.
    pub fn new(alloc: Global, platform: &Platform) -> Result<Share, AllocError>
        ensures { IfOk result (λ made. IsShareOf made platform.now []) }
    {
        let sum = Sum::new(alloc, platform)?;
        Ok(Share { sum })
    }

    /// Adds one more participant, where fewer than 1,024 were added. The platform is
    /// that of `new`. It takes no memory.
    pub fn add(&mut self, platform: &Platform, asked: &Constraints)
        requires { self.old.sum.added < MOST_ADDED }
        ensures asks { (ps : List Participant) → IsShareOf self.old platform.now ps
            → IsShareOf self.new platform.now (ps ++ asked.now ∷ []) }
        ensures grows { self.new.sum.added ≡ self.old.sum.added + 1 }
    {
        self.sum.add(platform, asked);
    }

    /// The participants' sum.
    pub(crate) fn sum(&self) -> &Sum
        ensures { result.now ≡ self.now.sum }
    {
        &self.sum
    }
}
