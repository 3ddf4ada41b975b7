//! Changes that are run, and those told by which comes what is wanted.

ghost use Rattle.std.specs.Prelude.{map, IfOk, IfSome};
ghost use Rattle.serde_json.specs.View.{view};
ghost use Rattle.script_reading.specs.Seen.{call_seen};
ghost use Rattle.constraint_changes.specs.Edited.{IsTried};

use crate::beyond::{Farthest, words_of};
use crate::changes::put_change;
use crate::preferred::wish::Wish;
use crate::trials::{
    Group, RestatedConstraints, Trial, TrialResult, are_sized, put_choice, reached_by,
};
use constraint_edits::{Change, EditedConstraints, is_absurd};
use domain_reasons::choices_in;
use explanation_text::{Items, Label, Text};
use script_story::{Effort, Milestone, Outcome};
use std::alloc::{AllocError, Global};
use std::slice::from_ref;
use value_sources::NamedParticipant;

/// How many changes are told.
const MOST: usize = 5;

/// How many are run.
const RUNS: usize = 32;

/// A change that was told.
#[derive(Drop)]
pub struct ToldChange {
    /// How many items there are up to its decision and the children that this chooses, with the one
    /// above all changes.
    pub end: usize,
    /// What a call states by it.
    pub stated: RestatedConstraints,
    /// Whether its decision has another count or size.
    pub is_sized_otherwise: bool,
}

/// A change that was told, by the place of its call.
#[derive(Clone, Copy, PartialEq, Eq)]
pub(crate) struct MadeChange {
    place: usize,
    change: Change,
}

/// What is wanted by a try.
#[derive(Clone, Copy)]
pub(crate) enum Wanted {
    Child,
    /// A pair, or a colour space of it.
    Image,
    /// A place, or a kind of memory.
    Place,
}

/// How many children, images and places weren't tried.
#[derive(Clone, Copy)]
pub(crate) struct Untried {
    pub(crate) children: usize,
    pub(crate) images: usize,
    pub(crate) places: usize,
}

impl Untried {
    /// Counts one more.
    pub(crate) fn add(&mut self, wanted: Wanted) {
        match wanted {
            Wanted::Child => self.children = self.children.saturating_add(1),
            Wanted::Image => self.images = self.images.saturating_add(1),
            Wanted::Place => self.places = self.places.saturating_add(1),
        }
    }

    /// How many weren't tried in all.
    pub(crate) fn sum(self) -> usize {
        let images = self.children.saturating_add(self.images);
        images.saturating_add(self.places)
    }
}

/// What was found so far.
#[derive(Drop)]
pub(crate) struct Found {
    pub(crate) items: Items,
    /// The changes among them.
    pub(crate) told: Vec<ToldChange>,
    /// The same by their calls.
    pub(crate) made: Vec<MadeChange>,
    pub(crate) count: usize,
    pub(crate) runs: usize,
    /// What wasn't tried, since enough was.
    pub(crate) untried: Untried,
}

impl Found {
    /// Nothing yet.
    pub(crate) fn new(alloc: Global) -> Found {
        Found {
            items: Items::new(alloc),
            told: Vec::new(alloc),
            made: Vec::new(alloc),
            count: 0,
            runs: 0,
            untried: Untried {
                children: 0,
                images: 0,
                places: 0,
            },
        }
    }

    /// Whether enough were found or run.
    pub(crate) fn is_done(&self, effort: &Effort) -> bool {
        self.count >= MOST || self.runs >= RUNS || effort.is_spent()
    }

    /// The same, where one more child, image or place would be tried; it is counted.
    pub(crate) fn leaves(&mut self, wanted: Wanted, effort: &Effort) -> bool {
        let is_done = self.is_done(effort);
        if is_done {
            self.untried.add(wanted);
        }
        is_done
    }

    /// The label of one more.
    pub(crate) fn label(&mut self) -> Label {
        let label = Label::Alone(self.count);
        self.count = self.count.saturating_add(1);
        label
    }
}

/// Where the constraints of a participant are stated.
pub(crate) fn trial_of<'a, 'b>(
    group: Group<'a, 'b>,
    participant: &NamedParticipant<'_>,
) -> Option<Trial<'a, 'b>> {
    let number = group
        .story
        .milestone(participant.node, Milestone::SetConstraints)?;
    Some(Trial {
        scenario: group.scenario,
        path: group.path,
        place: number.saturating_sub(1),
    })
}

/// An edit of a call's constraints, run; `None` where what is wanted doesn't come by it.
pub(crate) fn tried(
    alloc: Global,
    found: &mut Found,
    wish: Wish<'_, '_>,
    trial: Trial<'_, '_>,
    change: EditedConstraints,
) -> Result<Option<TrialResult>, AllocError>
    ensures { IfOk result (λ said. IfSome said (λ one. IsTried
        trial.entry.scenario.now.platform.now (map call_seen trial.entry.scenario.now.calls.now)
        trial.entry.place (view one.value) trial.entry.path.now one.outcome)) }
{
    trial.scenario.effort.change(trial.place, 1);
    found.runs = found.runs.saturating_add(1);
    match trial.outcome(alloc, &change.value)? {
        Some(outcome) if wish.is_met(&outcome) => Ok(Some(TrialResult::of(change, outcome))),
        _ => Ok(None),
    }
}

/// Tells a change of a participant by which comes what is wanted, under the same conditions; it may
/// be known what comes farthest beyond it.
pub(crate) fn put_of(
    found: &mut Found,
    wish: Wish<'_, '_>,
    trial: Trial<'_, '_>,
    participant: &NamedParticipant<'_>,
    far: Option<&Farthest>,
    one: TrialResult,
) -> Result<(), AllocError>
    requires { IsTried trial.scenario.now.platform.now
        (map call_seen trial.scenario.now.calls.now) trial.place (view one.value)
        trial.path.now one.outcome }
{
    let alloc = found.items.alloc();
    let group = wish.group;
    let who = group.who_changes(alloc, participant, one.change.edit, &one.value)?;
    let what = words_of(alloc, group, trial.place, participant, &one, far)?;
    put_wanted(found, wish, trial, from_ref(&who), &what, one)
}

/// Tells a change in these words by which comes what is wanted, if it may be meant, isn't told yet,
/// and its record is read as what it asks then.
#[tactic(auto, using(crate::proofs::Promises::promised_alone))]
pub(crate) fn put_wanted(
    found: &mut Found,
    wish: Wish<'_, '_>,
    trial: Trial<'_, '_>,
    who: &[Text],
    what: &Text,
    one: TrialResult,
) -> Result<(), AllocError>
    requires { IsTried trial.scenario.now.platform.now
        (map call_seen trial.scenario.now.calls.now) trial.place (view one.value)
        trial.path.now one.outcome }
{
    let made = MadeChange {
        place: trial.place,
        change: one.change,
    };
    if found.made.contains(&made) || !may_be_meant(wish, &one.outcome) {
        return Ok(());
    }
    let alloc = found.items.alloc();
    if !trial.is_edit(alloc, &one.change, &one.value)? {
        return Ok(());
    }
    let choice = choice_of(alloc, wish, &one.outcome)?;
    let is_sized_otherwise = has_other_numbers(&one.outcome, wish.now);
    let value = one.value.clone()?;
    let label = found.label();
    put_change(&mut found.items, trial, label, who, what, one);
    put_choice(&mut found.items, 3, choice);
    found.made.push(made)?;
    let stated = RestatedConstraints {
        place: trial.place,
        value,
    };
    found.told.push(ToldChange {
        end: found.items.len().saturating_add(1),
        stated,
        is_sized_otherwise,
    })?;
    Ok(())
}

/// Whether a decision may be meant in the place of the one that came: of a tiny image only where
/// that is tiny too.
fn may_be_meant(wish: Wish<'_, '_>, then: &Outcome) -> bool {
    let is_sized = are_sized(wish.group.participants) && !is_absurd(reached_by(wish.now), true);
    !is_absurd(reached_by(then), is_sized)
}

/// Whether two decisions differ in the count of buffers, or in the size of one.
fn has_other_numbers(one: &Outcome, other: &Outcome) -> bool {
    match (one.chosen(), other.chosen()) {
        (Some(one), Some(other)) => {
            let (one, other) = (one.settings(), other.settings());
            one.count != other.count || one.size_bytes != other.size_bytes
        }
        _ => false,
    }
}

/// The children that a decision chooses, if they are others than now.
fn choice_of(alloc: Global, wish: Wish<'_, '_>, then: &Outcome) -> Result<Text, AllocError> {
    if then.selection() == wish.now.selection() {
        return Ok(Text::new(alloc));
    }
    choices_in(alloc, wish.group.story, wish.group.root, then.selection())
}
