//! The best settings of a list, or where it stops having some.

ghost use Rattle.flat_negotiation.specs.declared.negotiating.TheConstants.{MOST_PARTICIPANTS};
ghost use Rattle.std.specs.Prelude.{◌≤◌, length, true, false, IfErr, IfOk, IfSome};
ghost use Rattle.sysmem_merge.specs.Aggregate.{StandsFor};
ghost use Rattle.sysmem_merge.specs.Best.{IsBest, IsUnmet};
ghost use Rattle.sysmem_merge.specs.Reasons.{IsFirstReason};
ghost use Rattle.flat_negotiation.specs.Blame.{IsBlamed, IsLone, IsStop};
ghost use Rattle.flat_negotiation.specs.Unsettled.{AreUnmet};

use crate::blaming::{alone, blamed};
use crate::unsettled::{ListStop, Refusal, Unsettled};
use negotiation_inputs::{Constraints, Platform};
use std::alloc::{AllocError, Global};
use sysmem_merge::{Aggregate, Reason, Settings};

/// What is kept of all of a list.
fn aggregate_of<'p>(
    alloc: Global,
    platform: &'p Platform,
    asked: &[Constraints],
) -> Result<Aggregate<'p>, AllocError>
    requires { length asked.now ≤ MOST_PARTICIPANTS }
    ensures { IfOk result (λ aggregate. StandsFor aggregate platform.now asked.now) }
{
    let mut aggregate = Aggregate::new(alloc, platform)?;
    for index in 0..asked.len() {
        aggregate.add(&asked[index])?;
    }
    Ok(aggregate)
}

/// Where a list stops having settings that meet it, for a list that has none, for this reason.
fn stop_of(
    alloc: Global,
    platform: &Platform,
    asked: &[Constraints],
    reason: Reason,
) -> Result<ListStop, AllocError>
    requires few { length asked.now ≤ MOST_PARTICIPANTS }
    requires unmet { IsUnmet true platform.now asked.now }
    requires reason { IsFirstReason true platform.now asked.now reason }
    ensures { IfOk result (IsStop platform.now asked.now) }
{
    let mut aggregate = Aggregate::new(alloc, platform)?;
    let mut shared = aggregate.best_settings(false).ok();
    for who in 0..asked.len() {
        aggregate.add(&asked[who])?;
        match aggregate.best_settings(false) {
            Ok(settings) => shared = Some(settings),
            Err(reason) => {
                return Ok(ListStop {
                    who,
                    whole: false,
                    reason,
                    shared,
                });
            }
        }
    }
    Ok(ListStop {
        who: asked.len(),
        whole: true,
        reason,
        shared,
    })
}

/// The best settings for all of a list of at most 1,024 participants. It fails where memory is
/// refused, and where there are none.
pub fn settled(
    alloc: Global,
    platform: &Platform,
    asked: &[Constraints],
) -> Result<Settings, Unsettled>
    requires { length asked.now ≤ MOST_PARTICIPANTS }
    ensures best { IfOk result (IsBest true platform.now asked.now) }
    ensures unmet { IfErr result (AreUnmet platform.now asked.now) }
{
    let aggregate = aggregate_of(alloc, platform, asked)?;
    match aggregate.best_settings(true) {
        Ok(settings) => Ok(settings),
        Err(reason) => Err(refused(alloc, platform, asked, reason)),
    }
}

/// Who is in the way of a list that has no settings, for this reason.
fn refused(alloc: Global, platform: &Platform, asked: &[Constraints], reason: Reason) -> Unsettled
    requires few { length asked.now ≤ MOST_PARTICIPANTS }
    requires unmet { IsUnmet true platform.now asked.now }
    requires reason { IsFirstReason true platform.now asked.now reason }
    ensures { AreUnmet platform.now asked.now result }
{
    match blame_of(alloc, platform, asked, reason) {
        Ok(Some(refusal)) => Unsettled::Unmet(refusal),
        // By the reason some field is in the way.
        _ => Unsettled::NoMemory,
    }
}

/// Who is in the way, and in which field. It fails where memory is refused.
fn blame_of(
    alloc: Global,
    platform: &Platform,
    asked: &[Constraints],
    reason: Reason,
) -> Result<Option<Refusal>, AllocError>
    requires few { length asked.now ≤ MOST_PARTICIPANTS }
    requires unmet { IsUnmet true platform.now asked.now }
    requires reason { IsFirstReason true platform.now asked.now reason }
    ensures { IfOk result (λ found. IfSome found (IsBlamed platform.now asked.now)) }
{
    let stop = stop_of(alloc, platform, asked, reason)?;
    let lone = lone_reason(alloc, platform, asked, &stop)?;
    Ok(blamed(platform, asked, stop, lone))
}

/// Why the participant at whom a list stops can't be met even by itself, if it can't. It fails
/// where memory is refused.
fn lone_reason(
    alloc: Global,
    platform: &Platform,
    asked: &[Constraints],
    stop: &ListStop,
) -> Result<Option<Reason>, AllocError>
    ensures { IfOk result (IsLone platform.now asked.now stop.now) }
{
    if stop.whole {
        return Ok(None);
    }
    let aggregate = aggregate_of(alloc, platform, alone(asked, stop.who))?;
    match aggregate.best_settings(false) {
        Ok(_) => Ok(None),
        Err(reason) => Ok(Some(reason)),
    }
}
