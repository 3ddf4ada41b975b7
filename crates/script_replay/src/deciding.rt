//! The decision of the first domain that waits, and what is told of it.

ghost use Rattle.std.specs.Prelude.{◌≡◌, Some, option_map, IfOk, IfSome};
ghost use Rattle.std.specs.Arc.{arc_value};
ghost use Rattle.sysmem_alloc.specs.Claims.{HasProof};
ghost use Rattle.sysmem_alloc.specs.Entry.{Decided};
ghost use Rattle.sysmem_alloc.specs.History.{Allows};
ghost use Rattle.sysmem_alloc.specs.Sound.{MayWait};
ghost use Rattle.sysmem_alloc.specs.State.{next_ready};
ghost use Rattle.verdict_claims.specs.Base.{IsGivenBase};
ghost use Rattle.verdict_claims.specs.Claim.{IsTrueClaim};
ghost use Rattle.sysmem_image.specs.Corners.{IsCorner};
ghost use Rattle.script_replay.specs.Deciding.{CanBeTold, HasCorner};
ghost use Rattle.script_replay.specs.Events.{CanBeShown, IsDecidedBy, fate_seen};

use crate::event::{Decision, DomainFate};
use negotiation_inputs::Platform;
use std::alloc::{AllocError, Global};
use std::sync::Arc;
use sysmem_alloc::Book;
use sysmem_image::laws::no_corner;
use sysmem_image::{Corner, corner};
use sysmem_search::{NoGate, prove, search};
use sysmem_tree::{DomainId, Tree};
use verdict_claims::{Base, Chosen, Claim, Proof, Verdict};

/// What stands for the corner where no settings were chosen.
const NO_IMAGE: Corner = Corner {
    width: 0,
    height: 0,
    bytes_per_row: 0,
    bytes: 0,
};

/// An optimal verdict of the first domain that waits, without what proves it; `None` where memory
/// is refused. The prefixes that its search visits are added to those visited before.
pub fn claim_for(
    alloc: Global,
    book: &Book,
    domain: DomainId,
    visits: &mut u64,
) -> Option<Arc<Claim>>
    requires next { next_ready book.now.state ≡ Some domain }
    requires waits { MayWait book.now.state.tree domain }
    ensures { Allows book.now.platform book.now.state (Decided (record {
      domain = domain;
      claim = option_map (λ shared. arc_value shared) result;
    })) }
{
    let Ok(base) = book.base(domain) else {
        return None;
    };
    let platform = book.platform();
    let Ok(found) = search(alloc, platform, book.tree(), domain, base.as_ref(), &NoGate) else {
        return None;
    };
    *visits = visits.saturating_add(found.visits);
    let claim = Claim {
        verdict: found.verdict,
        proof: Proof::Nothing,
    };
    let Ok(shared) = Arc::new(alloc, claim) else {
        return None;
    };
    Some(shared)
}

/// An optimal verdict of the first domain that waits, with what proves it; `None` where memory is
/// refused.
pub fn proved_claim_for(alloc: Global, book: &Book, domain: DomainId) -> Option<Arc<Claim>>
    requires next { next_ready book.now.state ≡ Some domain }
    requires waits { MayWait book.now.state.tree domain }
    ensures allowed { Allows book.now.platform book.now.state (Decided (record {
      domain = domain;
      claim = option_map (λ shared. arc_value shared) result;
    })) }
    ensures proved { IfSome result (λ shared. HasProof (arc_value shared)) }
{
    let Ok(base) = book.base(domain) else {
        return None;
    };
    let platform = book.platform();
    let tree = book.tree();
    let Ok(claim) = proved_claim(alloc, platform, tree, domain, base.as_ref()) else {
        return None;
    };
    let Ok(shared) = Arc::new(alloc, claim) else {
        return None;
    };
    Some(shared)
}

/// What a search finds, with what proves it.
fn proved_claim(
    alloc: Global,
    platform: &Platform,
    tree: &Tree,
    domain: DomainId,
    base: Option<&Base>,
) -> Result<Claim, AllocError>
    requires waits { MayWait tree.now domain }
    requires base { IsGivenBase platform.now tree.now.nodes domain
        (option_map (λ b. b.now) base) }
    ensures { IfOk result (IsTrueClaim platform.now tree.now.nodes domain
        (option_map (λ b. b.now) base.entry)) }
{
    let found = search(alloc, platform, tree, domain, base, &NoGate)?;
    let proof = prove(alloc, platform, tree, domain, base, &found.verdict)?;
    Ok(Claim {
        verdict: found.verdict,
        proof,
    })
}

/// What becomes of a domain by a decision that the book allows.
pub(crate) fn decided_by(
    book: &Book,
    domain: DomainId,
    claim: &Option<Arc<Claim>>,
) -> Result<DomainFate, AllocError>
    requires { Allows book.now.platform book.now.state (Decided (record {
      domain = domain;
      claim = option_map (λ shared. arc_value shared) claim.now;
    })) }
    ensures { IfOk result (λ fate.
        IsDecidedBy (option_map (λ shared. arc_value shared) claim.now) (fate_seen fate)) }
{
    no_corner();
    book.recall_legal();
    let Some(shared) = claim else {
        return Ok(DomainFate::Decided(Decision {
            claim: None,
            corner: NO_IMAGE,
        }));
    };
    let corner = corner_in(&shared.verdict);
    let claim = Some(Arc::try_clone(shared)?);
    Ok(DomainFate::Decided(Decision { claim, corner }))
}

/// The corner of what is chosen by a verdict that a decision can have.
fn corner_in(verdict: &Verdict) -> Corner
    requires { CanBeTold verdict.now }
    ensures { CanBeShown (Some verdict.now) result }
{
    match verdict {
        Verdict::Chosen(chosen) => corner_of(chosen),
        Verdict::IntersectionEmpty => NO_IMAGE,
        Verdict::TooMany => NO_IMAGE,
        Verdict::Failed => NO_IMAGE,
        Verdict::NoMemory => NO_IMAGE,
    }
}

/// The corner of what is chosen.
fn corner_of(chosen: &Chosen) -> Corner
    requires { HasCorner chosen.now.settings }
    ensures { IsCorner chosen.now.settings.offer chosen.now.settings.bounds result }
{
    let settings = chosen.settings();
    match corner(&settings.bounds, &settings.offer) {
        Ok(corner) => corner,
        Err(_) => NO_IMAGE,
    }
}
