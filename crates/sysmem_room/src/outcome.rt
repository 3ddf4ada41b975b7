//! What is published of a domain.

ghost use Rattle.std.specs.Prelude.{◌≡◌, true};
ghost use Rattle.std.specs.Arc.{arc_value};
ghost use Rattle.verdict_claims.specs.Claim.{IsTrueClaim};

use std::marker::Model;
use std::sync::Arc;
use sysmem_alloc::Frozen;
use sysmem_proof::check;
use verdict_claims::Claim;

/// A claim with what was frozen for it, of which it is true.
#[derive(Drop)]
pub struct Ruling {
    frozen: Frozen,
    claim: Arc<Claim>,
}

impl Model for Ruling {
    ghost use Rattle.std.specs.Arc.{arc_value};
    ghost use Rattle.sysmem_room.specs.Ruling.{RulingFacts, IsRuling};

    ghost Value = { RulingFacts };

    ghost view = { λ r. record { frozen = r.frozen; claim = arc_value r.claim } };

    ghost invariant = { λ r. IsRuling (record { frozen = r.frozen; claim = arc_value r.claim }) };
}

/// What became of a domain.
pub enum Outcome {
    /// It was decided.
    Decided(Ruling),
    /// It failed, and no decision was taken.
    Failed,
    /// Memory was refused to its decision.
    NoMemory,
}

impl Drop for Outcome {
    fn drop(self) {
        match self {
            Outcome::Decided(_) => {}
            Outcome::Failed => {}
            Outcome::NoMemory => {}
        }
    }
}

impl Ruling {
    /// A true claim with what it was decided on.
    pub(crate) fn new(frozen: Frozen, claim: Arc<Claim>) -> Ruling
        requires { IsTrueClaim frozen.platform frozen.tree.nodes frozen.domain frozen.base
            (arc_value claim) }
        ensures { result ≡ record { frozen = frozen; claim = arc_value claim } }
    {
        Ruling { frozen, claim }
    }

    /// What it was decided on.
    pub fn frozen(&self) -> &Frozen
        ensures { result.now ≡ self.now.frozen }
    {
        &self.frozen
    }

    /// The verdict, with what proves it.
    pub fn claim(&self) -> &Claim
        ensures claim { result.now ≡ self.now.claim }
        ensures right { IsTrueClaim self.now.frozen.platform self.now.frozen.tree.nodes
            self.now.frozen.domain self.now.frozen.base result.now }
    {
        &self.claim
    }

    /// Whether `check` of `sysmem_proof` says yes: it does.
    pub fn is_checked(&self) -> bool
        ensures { result ≡ true }
    {
        let frozen = self.frozen();
        check(
            frozen.platform(),
            frozen.tree(),
            frozen.domain(),
            frozen.base(),
            self.claim(),
        )
        .is_ok()
    }
}
