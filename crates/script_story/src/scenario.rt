//! What is tried: the script's calls with others after them or in their place.

ghost use Rattle.std.specs.Prelude.{◌≡◌, map, IfOk, IfSome};
ghost use Rattle.std.specs.String.{string_bytes};
ghost use Rattle.script_reading.specs.Seen.{call_seen};
ghost use Rattle.script_replay.specs.Events.{HappensTo, events_of, events_text, fate_seen};
ghost use Rattle.script_replay.specs.Outcome.{anyhow};
ghost use Rattle.script_replay.specs.Replayed.{LeavesIn, end_of};
ghost use Rattle.script_replay.specs.Report.{IsReported};
ghost use Rattle.script_story.specs.Told.{BecomesOn, IsReportedOn};

use crate::effort::Effort;
use crate::outcome::Outcome;
use negotiation_inputs::Platform;
use script_reading::Call;
use script_replay::{DomainFate, Event, Events, ReplayedCalls, replay, text_of_path};
use std::alloc::{AllocError, Global};

/// A script's platform and its calls, with what its runs cost so far.
#[derive(Clone, Copy)]
pub struct Scenario<'a> {
    pub platform: &'a Platform,
    pub calls: &'a [Call<'a>],
    pub effort: &'a Effort,
}

impl<'a> Scenario<'a> {
    /// What these calls do on the platform: the report of a script with them, and its collection.
    pub fn tell<'c>(
        &self,
        alloc: Global,
        calls: &[Call<'c>],
    ) -> Result<ReplayedCalls<'c>, AllocError>
        ensures report { IfOk result (λ told. IsReported self.now.platform.now
            (map call_seen calls.now) (anyhow self.now.platform.now)
            (string_bytes told.report.text) told.report.starved) }
        ensures leaves { IfOk result (λ told. LeavesIn self.now.platform.now
            (map call_seen calls.now) (string_bytes told.report.text) (end_of told)) }
        ensures happens { IfOk result (λ told. HappensTo self.now.platform.now
            (map call_seen calls.now) (anyhow self.now.platform.now) (events_of told.events)
            (end_of told)) }
        ensures text { IfOk result (λ told. string_bytes told.report.text
            ≡ events_text self.now.platform.now (events_of told.events)) }
        ensures starved { IfOk result (λ told. told.report.starved ≡ (end_of told).starved) }
    {
        let platform = self.platform.copy()?;
        let told = replay(alloc, platform, calls)?;
        add_run(self.effort, &told);
        Ok(told)
    }

    /// What becomes of the domain at a path at last by these calls, and what their report says of
    /// it; `None` where it has no line on it, and where nothing more is to be tried. `AllocError`
    /// also where memory was refused in a reply or a decision.
    pub fn outcome(
        &self,
        alloc: Global,
        calls: &[Call<'_>],
        path: &str,
    ) -> Result<Option<Outcome>, AllocError>
        ensures { IfOk result (λ said. IfSome said (λ what. IsReportedOn self.now.platform.now
            (map call_seen calls.now) path.now what)) }
    {
        if self.effort.is_spent() {
            return Ok(None);
        }
        let told = self.tell(alloc, calls)?;
        if told.report.starved {
            return Err(AllocError);
        }
        match last_on(&told.events, alloc, path)? {
            Some(fate) => Ok(Some(Outcome::of(alloc, told.book().platform(), fate)?)),
            None => Ok(None),
        }
    }
}

/// Adds the cost of a run.
fn add_run(effort: &Effort, told: &ReplayedCalls<'_>) {
    effort.add_run(told.visits);
}

/// What becomes of the domain at a path at last; `None` where nothing does.
fn last_on<'a>(
    events: &'a Events<'_>,
    alloc: Global,
    path: &str,
) -> Result<Option<&'a DomainFate>, AllocError>
    ensures { IfOk result (λ said. IfSome said (λ fate.
        BecomesOn (events_of events.now) path.now (fate_seen fate.now))) }
{
    let mut last = None;
    for event in events.as_slice() {
        if let Event::Domain(one) = event
            && text_of_path(alloc, &one.path)?.as_str() == path
        {
            last = Some(&one.fate);
        }
    }
    Ok(last)
}
