//! A script's calls, made on a collection, with their report.

ghost use Rattle.std.specs.Prelude.{◌≡◌, [], None, map, slice_get, unwrap_or, IfErr, IfOk};
ghost use Rattle.std.specs.String.{string_bytes};
ghost use Rattle.script_reading.specs.Seen.{call_seen};
ghost use Rattle.script_replay.specs.Events.{HappensTo, events_of, events_text};
ghost use Rattle.script_replay.specs.Outcome.{anyhow};
ghost use Rattle.script_replay.specs.Replayed.{LeavesIn, end_of};
ghost use Rattle.script_replay.specs.Report.{IsReported};
ghost use Rattle.script_replay.specs.Stop.{IfObjects, IsStopped};

use crate::decider::{Decider, Stop};
use crate::event::Events;
use crate::report::{Report, add_pending};
use crate::runner::Runner;
use crate::searching::Searching;
use negotiation_inputs::Platform;
use script_reading::Call;
use std::alloc::{AllocError, Global};
use sysmem_alloc::Book;

/// A collection on which calls were made, and their report.
#[derive(Debug)]
pub struct ReplayedCalls<'a> {
    pub report: Report,
    /// What its lines tell.
    pub events: Events<'a>,
    /// How many prefixes its searches visited, at most `u64::MAX`.
    pub visits: u64,
    runner: Runner,
}

impl Drop for ReplayedCalls<'_> {
    fn drop(self) {
        let ReplayedCalls {
            report: _,
            events: _,
            visits: _,
            runner: _,
        } = self;
    }
}

impl ReplayedCalls<'_> {
    /// The book of the collection, as the last call left it.
    pub fn book(&self) -> &Book
        ensures platform { result.now.platform ≡ (end_of self.now).platform }
        ensures state { result.now.state ≡ (end_of self.now).book }
    {
        self.runner.book()
    }

    /// The number of the node that the name at a place stands for, 0 being the root's place, and
    /// that of each call that makes a name the next; `None` where there is none, or that call was
    /// not made.
    pub fn node_named(&self, place: usize) -> Option<u32>
        ensures { result ≡ unwrap_or (slice_get (end_of self.now).names place) None }
    {
        self.runner.node_number(place)
    }

    /// The report alone.
    pub(crate) fn into_report(self) -> Report
        ensures { result ≡ self.entry.report }
    {
        let ReplayedCalls {
            report,
            events: _events,
            visits: _visits,
            runner: _runner,
        } = self;
        report
    }
}

/// Makes the calls on a platform, as `run` does, and keeps the collection beside their report.
/// `AllocError` where memory is refused outside of a reply or a decision.
pub fn replay<'a>(
    alloc: Global,
    platform: Platform,
    calls: &[Call<'a>],
) -> Result<ReplayedCalls<'a>, AllocError>
    ensures report { IfOk result (λ replayed. IsReported platform (map call_seen calls.now)
        (anyhow platform) (string_bytes replayed.report.text) replayed.report.starved) }
    ensures leaves { IfOk result (λ replayed. LeavesIn platform (map call_seen calls.now)
        (string_bytes replayed.report.text) (end_of replayed)) }
    ensures happens { IfOk result (λ replayed. HappensTo platform (map call_seen calls.now)
        (anyhow platform) (events_of replayed.events) (end_of replayed)) }
    ensures starved { IfOk result (λ replayed.
        replayed.report.starved ≡ (end_of replayed).starved) }
    ensures text { IfOk result (λ replayed.
        string_bytes replayed.report.text ≡ events_text platform (events_of replayed.events)) }
{
    let mut searching = Searching::new();
    match replayed_of(alloc, platform, calls, &mut searching) {
        Ok(mut replayed) => {
            replayed.visits = searching.visits();
            Ok(replayed)
        }
        Err(_) => Err(AllocError),
    }
}

/// The calls on a platform, made in their order on one collection whose domains are decided so.
/// Memory that is refused outside of a reply or a decision is the `Err`, and so is an objection to
/// a decision.
pub fn replayed_of<'a, D: Decider>(
    alloc: Global,
    platform: Platform,
    calls: &[Call<'a>],
    decider: &mut D,
) -> Result<ReplayedCalls<'a>, Stop>
    requires { D.gave decider.old platform [] }
    ensures report { IfOk result (λ replayed. IsReported platform (map call_seen calls.now)
        (D.gave decider.new platform) (string_bytes replayed.report.text) replayed.report.starved) }
    ensures leaves { IfOk result (λ replayed. LeavesIn platform (map call_seen calls.now)
        (string_bytes replayed.report.text) (end_of replayed)) }
    ensures happens { IfOk result (λ replayed. HappensTo platform (map call_seen calls.now)
        (D.gave decider.new platform) (events_of replayed.events) (end_of replayed)) }
    ensures starved { IfOk result (λ replayed.
        replayed.report.starved ≡ (end_of replayed).starved) }
    ensures text { IfOk result (λ replayed.
        string_bytes replayed.report.text ≡ events_text platform (events_of replayed.events)) }
    ensures stops { IfErr result (λ stop. IfObjects stop (IsStopped platform
        (map call_seen calls.now) (D.gave decider.old platform) (D.gave decider.new platform)
        (D.objects decider.new))) }
    ensures given { D.given decider.new ≡ D.given decider.old }
{
    let mut runner = Runner::new(alloc, platform)?;
    let mut events = Events::new(alloc);
    for (index, call) in calls.iter().enumerate() {
        if let Err(stop) = runner.take(alloc, index + 1, call, decider, &mut events) {
            return Err(runner.stopped(stop));
        }
    }
    add_pending(&mut events, runner.book())?;
    let mut text = String::new(alloc);
    events.put_text(&mut text, runner.book().platform())?;
    let report = Report {
        text,
        starved: runner.is_starved(),
    };
    Ok(ReplayedCalls {
        report,
        events,
        visits: 0,
        runner,
    })
}
