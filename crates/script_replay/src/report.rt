//! The report of a script's calls.

ghost use Rattle.std.specs.Prelude.{◌≡◌, [], map, IfErr, IfOk, IfSome};
ghost use Rattle.std.specs.String.{string_bytes};
ghost use Rattle.script_reading.specs.Seen.{call_seen};
ghost use Rattle.script_replay.specs.Events.{Adds, pending_events};
ghost use Rattle.script_replay.specs.Marks.{pending_at};
ghost use Rattle.script_replay.specs.Report.{IsReported};
ghost use Rattle.script_replay.specs.Stop.{IfObjects, IsStopped};
ghost use Rattle.sysmem_tree.specs.Domain.{HasDomain};

use crate::decider::{Decider, Stop};
use crate::event::{DomainFate, Events};
use crate::replayed::replayed_of;
use negotiation_inputs::Platform;
use script_reading::Call;
use std::alloc::{AllocError, Global};
use sysmem_alloc::Book;
use sysmem_tree::DomainId;

/// A report.
#[derive(Debug, Drop)]
pub struct Report {
    /// A line for each call, for each domain that was decided or failed, and for each domain
    /// without a verdict.
    pub text: String,
    /// Whether memory was refused in a reply or a decision.
    pub starved: bool,
}

/// The report of the calls on a platform, made in their order on one collection whose domains are
/// decided so. Memory that is refused outside of a reply or a decision is the `Err`, and so is an
/// objection to a decision.
pub fn report_of<D: Decider>(
    alloc: Global,
    platform: Platform,
    calls: &[Call<'_>],
    decider: &mut D,
) -> Result<Report, Stop>
    requires { D.gave decider.old platform [] }
    ensures report { IfOk result (λ report. IsReported platform (map call_seen calls.now)
        (D.gave decider.new platform) (string_bytes report.text) report.starved) }
    ensures stops { IfErr result (λ stop. IfObjects stop (IsStopped platform
        (map call_seen calls.now) (D.gave decider.old platform) (D.gave decider.new platform)
        (D.objects decider.new))) }
    ensures given { D.given decider.new ≡ D.given decider.old }
{
    match replayed_of(alloc, platform, calls, decider) {
        Ok(replayed) => Ok(replayed.into_report()),
        Err(stop) => Err(stop),
    }
}

/// The domain of this index, if it has no verdict.
fn pending_at(book: &Book, index: u32) -> Option<DomainId>
    ensures domain { result ≡ pending_at book.now.state index }
    ensures there { IfSome result (HasDomain book.now.state.tree.nodes) }
{
    let domain = book.tree().domain_at(index)?;
    match book.verdict_of(domain) {
        Some(_) => None,
        None => Some(domain),
    }
}

/// Adds each domain without a verdict, in order of creation of their roots.
pub(crate) fn add_pending(events: &mut Events<'_>, book: &Book) -> Result<(), AllocError>
    ensures { Adds result events.old events.new (pending_events book.now.state) }
{
    let tree = book.tree();
    for index in 0..tree.domain_count() {
        let Some(domain) = pending_at(book, index) else {
            continue;
        };
        events.add_domain(tree, domain, DomainFate::Pending)?;
    }
    Ok(())
}
