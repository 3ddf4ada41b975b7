//! A change of one participant's constraints, tried by a run of the changed script.

ghost use Rattle.std.specs.Prelude.{◌≡◌, [], ◌∷◌, map, IfOk, IfSome, IsTrue};
ghost use Rattle.serde_json.specs.View.{view};
ghost use Rattle.script_reading.specs.Seen.{call_seen};
ghost use Rattle.script_story.specs.Told.{IsReportedOn};
ghost use Rattle.constraint_changes.specs.Edited.{IsEdited, IsTried, stating};

use crate::trials::editing::is_edit;
use crate::trials::group::Group;
use crate::trials::parties::Party;
use crate::trials::unmet::least_met;
use constraint_edits::{Amount, Change, Edit, EditedConstraints, Halving, Reached, is_absurd};
use explanation_text::Text;
use script_reading::{Act, Call, Stated};
use script_story::{Outcome, Scenario};
use serde_json::Value;
use std::alloc::{AllocError, Global};
use std::slice::from_ref;

/// How often the way to the least change is halved at most.
pub const MOST_HALVINGS: usize = 140;

/// A change that helps, with the decision that comes then.
pub struct TrialResult {
    pub change: Change,
    pub words: Text,
    pub outcome: Outcome,
    /// The constraints with the change.
    pub value: Value,
}

impl Drop for TrialResult {
    fn drop(self) {
        let TrialResult {
            change: _,
            words: _,
            outcome: _,
            value: _,
        } = self;
    }
}

impl TrialResult {
    /// A change by which this comes.
    pub fn of(changed: EditedConstraints, outcome: Outcome) -> TrialResult
        ensures change { result.change ≡ changed.change }
        ensures value { result.value ≡ changed.value }
        ensures outcome { result.outcome ≡ outcome }
    {
        let change = changed.change;
        let (value, words) = changed.into_parts();
        TrialResult {
            change,
            words,
            outcome,
            value,
        }
    }

    /// What comes then alone.
    pub fn into_outcome(self) -> Outcome
        ensures { result ≡ self.outcome }
    {
        let TrialResult {
            change: _,
            outcome,
            words: _,
            value: _,
        } = self;
        outcome
    }
}

/// Trying constraints of a participant, for the domain at a path.
#[derive(Clone, Copy)]
pub struct Trial<'a, 'b> {
    pub scenario: &'b Scenario<'a>,
    pub path: &'b str,
    /// The place of the call that states its constraints, from 0.
    pub place: usize,
}

impl Trial<'_, '_> {
    /// What the domain becomes where the participant states these constraints, if it is chosen
    /// then.
    pub fn outcome(&self, alloc: Global, value: &Value) -> Result<Option<Outcome>, AllocError>
        ensures { IfOk result (λ said. IfSome said (λ what. IsReportedOn
            self.now.scenario.now.platform.now (stating (map call_seen
            self.now.scenario.now.calls.now) self.now.place (view value.now)) self.now.path.now
            what)) }
    {
        let calls = replaced(alloc, self.scenario.calls, self.place, value)?;
        chosen_with(alloc, self.scenario, &calls, self.path)
    }

    /// Whether the participant's record with these constraints is read as what it asks after a
    /// change.
    pub fn is_edit(&self, alloc: Global, change: &Change, value: &Value) -> Result<bool, AllocError>
        ensures { IfOk result (λ is. IsTrue is → IsEdited self.now.scenario.now.platform.now.heaps
            (map call_seen self.now.scenario.now.calls.now) self.now.place (change.now ∷ [])
            (stating (map call_seen self.now.scenario.now.calls.now) self.now.place
            (view value.now))) }
    {
        let scenario = self.scenario;
        let heaps = scenario.platform.heaps();
        let changes = from_ref(change);
        is_edit(alloc, heaps, scenario.calls, self.place, changes, value)
    }

    /// The least change of the field that an edit leaves out, where leaving it out does, for the
    /// domain of a group, whose parties these are.
    pub fn least(
        &self,
        alloc: Global,
        group: Group<'_, '_>,
        parties: &[Party<'_>],
        value: &Value,
        edit: Edit,
        found: TrialResult,
    ) -> Result<TrialResult, AllocError>
        requires { IsTried self.now.scenario.now.platform.now
            (map call_seen self.now.scenario.now.calls.now) self.now.place (view found.value)
            self.now.path.now found.outcome }
        ensures { IfOk result (λ best. IsTried self.now.scenario.now.platform.now
            (map call_seen self.now.scenario.now.calls.now) self.now.place (view best.value)
            self.now.path.now best.outcome) }
    {
        let reached = reached_by(&found.outcome);
        let Some(change) = least_met(alloc, group, parties, self.place, value, edit, reached)?
        else {
            return Ok(found);
        };
        match self.promised(alloc, change)? {
            Some(least) => Ok(least),
            None => self.least_run(alloc, value, edit, found),
        }
    }

    /// The same, where each change is run.
    fn least_run(
        &self,
        alloc: Global,
        value: &Value,
        edit: Edit,
        found: TrialResult,
    ) -> Result<TrialResult, AllocError>
        requires { IsTried self.now.scenario.now.platform.now
            (map call_seen self.now.scenario.now.calls.now) self.now.place (view found.value)
            self.now.path.now found.outcome }
        ensures { IfOk result (λ best. IsTried self.now.scenario.now.platform.now
            (map call_seen self.now.scenario.now.calls.now) self.now.place (view best.value)
            self.now.path.now best.outcome) }
    {
        let mut best = found;
        let Some(mut halving) = Halving::of(value, edit, reached_by(&best.outcome)) else {
            return Ok(best);
        };
        for _halving in 0..MOST_HALVINGS {
            let Some(amount) = self.next(&halving) else {
                break;
            };
            let change = halving.changed(alloc, value, amount)?;
            let told = self.promised(alloc, change)?;
            halving.learn(amount, told.is_some());
            if let Some(least) = told {
                best = least;
            }
        }
        Ok(best)
    }

    /// The value that is to be tried next; `None` where none is left, or nothing more is to be tried.
    fn next(&self, halving: &Halving) -> Option<Amount> {
        let effort = self.scenario.effort;
        effort.change(self.place, 1);
        if effort.is_spent() {
            return None;
        }
        halving.next()
    }

    /// A change with the decision that comes then, if one is chosen that may be meant.
    pub(crate) fn promised(
        &self,
        alloc: Global,
        change: EditedConstraints,
    ) -> Result<Option<TrialResult>, AllocError>
        ensures { IfOk result (λ told. IfSome told (λ found. IsTried
            self.now.scenario.now.platform.now (map call_seen self.now.scenario.now.calls.now)
            self.now.place (view found.value) self.now.path.now found.outcome)) }
    {
        match self.outcome(alloc, &change.value)? {
            Some(outcome) if !is_absurd(reached_by(&outcome), false) => {
                Ok(Some(TrialResult::of(change, outcome)))
            }
            _ => Ok(None),
        }
    }
}

/// What the domain at a path becomes by these calls, if it is chosen.
pub fn chosen_with(
    alloc: Global,
    scenario: &Scenario<'_>,
    calls: &[Call<'_>],
    path: &str,
) -> Result<Option<Outcome>, AllocError>
    ensures { IfOk result (λ said. IfSome said (λ what. IsReportedOn
        scenario.now.platform.now (map call_seen calls.now) path.now what)) }
{
    match scenario.outcome(alloc, calls, path)? {
        Some(outcome) if outcome.is_chosen() => Ok(Some(outcome)),
        _ => Ok(None),
    }
}

/// What a decision reached; nothing where none chose.
pub fn reached_by(outcome: &Outcome) -> Reached {
    match (outcome.decision(), outcome.chosen()) {
        (Some(decision), Some(chosen)) => {
            let settings = chosen.settings();
            let (count, size_bytes) = (settings.count, settings.size_bytes);
            Reached::of(count, size_bytes, settings.offer, decision.corner)
        }
        _ => Reached::NOTHING,
    }
}

/// The calls, of which that at a place states these constraints.
pub(crate) fn replaced<'a>(
    alloc: Global,
    calls: &[Call<'a>],
    place: usize,
    value: &'a Value,
) -> Result<Vec<Call<'a>>, AllocError>
    ensures { IfOk result (λ made.
        map call_seen made.items ≡ stating (map call_seen calls.now) place (view value.now)) }
{
    let mut copy = Vec::from_slice(alloc, calls)?;
    if place >= calls.len() {
        return Ok(copy);
    }
    copy[place].act = Act::SetConstraints(Some(Stated::of(value)));
    Ok(copy)
}
