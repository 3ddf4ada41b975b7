//! What a handle is told by what became of its domain.

ghost use Rattle.std.specs.Prelude.{◌≡◌, ◌≢◌, ◌↔◌, IfErr, IfOk, IsTrue};
ghost use Rattle.sysmem_room.specs.Log.{shown_by};
ghost use Rattle.sysmem_participants.specs.Told.{Asks, IsChosenFor, IsRefusedBy, IsShownAt, IsTold};

use crate::view::View;
use negotiation_inputs::Platform;
use std::sync::ledger::Ledger;
use sysmem_alloc::Frozen;
use sysmem_room::{Log, Outcome, Ruling, is_member};
use sysmem_tree::Refusal;
use verdict_claims::Verdict;

/// Whether a ruling is for this platform.
fn is_for(ruling: &Ruling, platform: &Platform) -> bool
    ensures { IsTrue result ↔ (ruling.now.frozen.platform ≡ platform.now) }
{
    ruling.frozen().platform().is_same(platform)
}

/// Whether the tree that was decided on has the log's constraints at its path.
fn has_own<L: Ledger>(frozen: &Frozen, log: &Log<L>) -> bool
    ensures { IsTrue result ↔ Asks frozen.now log.now.path (shown_by log.now).constraints }
{
    let tree = frozen.tree();
    match tree.node_at(log.path()) {
        Some(node) => log.asks_as(tree, node),
        None => false,
    }
}

/// What the handle of a log is told by a ruling for its platform.
fn shown<'a, L: Ledger>(ruling: &'a Ruling, log: &Log<L>) -> Result<View<'a>, Refusal>
    ensures same { IfOk result (λ view. view.ruling.now ≡ ruling.now) }
    ensures chosen { IfOk result (λ view.
        IsChosenFor log.now.path view.ruling.now.frozen view.ruling.now.claim.verdict) }
    ensures own { IfOk result (λ view.
        Asks view.ruling.now.frozen log.now.path (shown_by log.now).constraints) }
    ensures known { IfErr result (λ refusal. refusal ≢ Refusal.Pending) }
    ensures told { IfErr result (IsRefusedBy ruling.now.frozen.platform log.now.path
        (shown_by log.now).constraints ruling.now) }
{
    match &ruling.claim().verdict {
        Verdict::Chosen(chosen) => {
            if !is_member(ruling.frozen(), chosen.selection(), log.path()) {
                return Err(Refusal::NotSelected);
            }
            if !has_own(ruling.frozen(), log) {
                return Err(Refusal::Strange);
            }
            Ok(View::new(ruling, chosen))
        }
        Verdict::IntersectionEmpty => Err(Refusal::ConstraintsIntersectionEmpty),
        Verdict::TooMany => Err(Refusal::TooManyGroupChildCombinations),
        Verdict::Failed | Verdict::NoMemory => unreachable!(),
    }
}

/// What the handle of a log is told by what became of its domain.
pub(crate) fn told<'a, L: Ledger>(
    outcome: &'a Outcome,
    platform: &Platform,
    log: &Log<L>,
) -> Result<View<'a>, Refusal>
    ensures decided { IfOk result (λ view. outcome.now ≡ Outcome.Decided view.ruling.now) }
    ensures shown { IfOk result (λ view. IsShownAt platform.now log.now.path
        (shown_by log.now).constraints view.ruling.now) }
    ensures known { IfErr result (λ refusal. refusal ≢ Refusal.Pending) }
    ensures told { IfErr result (IsTold platform.now log.now.path
        (shown_by log.now).constraints outcome.now) }
{
    let ruling = match outcome {
        Outcome::Decided(ruling) => ruling,
        Outcome::Failed => return Err(Refusal::DomainFailed),
        Outcome::NoMemory => return Err(Refusal::NoMemory),
    };
    if !is_for(ruling, platform) {
        return Err(Refusal::Strange);
    }
    ruling.claim();
    shown(ruling, log)
}
