//! A decision that is being made.

ghost use Rattle.std.specs.Prelude.{◌≡◌, option_map, IfSome, None, Some};
ghost use Rattle.std.specs.Arc.{arc_value};
ghost use Rattle.verdict_claims.specs.Claim.{IsTrueClaim};
ghost use Rattle.live_book.specs.Decision.{DecisionFacts};

use std::marker::Model;
use std::sync::Arc;
use sysmem_alloc::Frozen;
use verdict_claims::Claim;

/// What a decision is made from, and, once it is made, a claim that is true of that.
pub struct Decision {
    frozen: Frozen,
    claim: Option<Arc<Claim>>,
}

impl Drop for Decision {
    fn drop(self) {
        let Decision {
            frozen: _,
            claim: _,
        } = self;
    }
}

impl Model for Decision {
    ghost use Rattle.std.specs.Prelude.{option_map, IfSome};
    ghost use Rattle.std.specs.Arc.{arc_value};
    ghost use Rattle.verdict_claims.specs.Claim.{IsTrueClaim};
    ghost use Rattle.live_book.specs.Decision.{DecisionFacts};

    ghost Value = { DecisionFacts };

    ghost view = { λ j. record {
      frozen = j.frozen;
      claim = option_map (λ shared. arc_value shared) j.claim;
    } };

    ghost invariant = { λ j. IfSome (option_map (λ shared. arc_value shared) j.claim)
        (IsTrueClaim j.frozen.platform j.frozen.tree.nodes j.frozen.domain j.frozen.base) };
}

impl Decision {
    /// Of what was frozen, before there is a claim.
    pub(crate) fn new(frozen: Frozen) -> Decision
        ensures { result ≡ record { frozen = frozen; claim = None } }
    {
        Decision {
            frozen,
            claim: None,
        }
    }

    /// Of what was frozen, with a claim that is true of it.
    pub(crate) fn decided(frozen: Frozen, claim: Arc<Claim>) -> Decision
        requires { IsTrueClaim frozen.platform frozen.tree.nodes frozen.domain frozen.base
            (arc_value claim) }
        ensures { result ≡ record { frozen = frozen; claim = Some (arc_value claim) } }
    {
        Decision {
            frozen,
            claim: Some(claim),
        }
    }

    /// What the decision was made from, and the claim.
    pub(crate) fn into_parts(self) -> (Frozen, Option<Arc<Claim>>)
        ensures frozen { result.0 ≡ self.frozen }
        ensures claim { option_map (λ shared. arc_value shared) result.1 ≡ self.claim }
        ensures right { IfSome result.1 (λ shared.
            IsTrueClaim result.0.platform result.0.tree.nodes result.0.domain result.0.base
            (arc_value shared)) }
    {
        let Decision { frozen, claim } = self;
        (frozen, claim)
    }
}
