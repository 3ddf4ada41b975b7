//! Several changes that together make an empty decision one that chooses, where no single one does.

ghost use Rattle.std.specs.Prelude.{map, IfOk, IfSome};
ghost use Rattle.script_reading.specs.Seen.{call_seen};
ghost use Rattle.constraint_changes.specs.Edited.{IsPromised, IsPromisedSo, edits_of};

use crate::asked_before::add_asked_before;
use crate::beyond::Farthest;
use crate::camping::add_whole_counts;
use crate::known::{RecordCache, RestatedParticipants};
use crate::lost::losses_by;
use crate::parts::{
    PartyChange, after, all_but, asked_with, edited_call, has_own, own_of, set_amount, takes_cpu,
    with_cpu,
};
use crate::trials::{
    EditedCall, Group, MOST_HALVINGS, Party, Promise, ReadRecord, RestatedConstraints, are_sized,
    chosen_with, edited_calls, is_worth, leave_none, parties_of, put_choice, put_promise,
    reached_by, restated,
};
use crate::turned::add_turned;
use crate::walk::{Run, Walk};
use constraint_edits::{Amount, Edit, Halving, Reached, changes, is_absurd};
use domain_reasons::choices_in;
use explanation_text::{Items, Label, ListBuilder, Text, TextBuilder};
use script_story::{Milestone, Outcome};
use serde_json::Value;
use std::alloc::{AllocError, Global};
use value_sources::NamedParticipant;

/// How many changes are made at once at most.
const MOST: usize = 96;
/// How many may lack a format or a colour space that they are to take.
const FEW: usize = 2;
/// How often changes are taken back at most.
const MOST_STEPS: usize = 1024;
/// How many changes together are told.
const TOLD: usize = 6;

/// Tells the fewest changes found with which, made together, the domain at a path would have
/// settings, and the decision that would come: the line of the report of the changed script. Where
/// others do that take the use by a CPU away, those are told beside them. Where nothing is found
/// before nothing more is to be tried, it says so. Gives what calls state by the first that are
/// told; nothing where none are.
pub fn add_together(
    items: &mut Items,
    group: Group<'_, '_>,
    edits: &[Edit],
) -> Result<Vec<RestatedConstraints>, AllocError> {
    if group.scenario.effort.is_spent() {
        return Ok(Vec::new(items.alloc()));
    }
    let before = items.len();
    let first = add_all(items, group, edits)?;
    if items.len() == before && group.scenario.effort.is_spent() {
        items.list_text(1, Label::Change, "to try several together would take long");
    }
    Ok(first)
}

/// Tells the same, as far as it is tried.
fn add_all(
    items: &mut Items,
    group: Group<'_, '_>,
    edits: &[Edit],
) -> Result<Vec<RestatedConstraints>, AllocError> {
    let alloc = items.alloc();
    let parties = parties_of(alloc, group)?;
    let joint = CombinedChange {
        group,
        parties: &parties,
    };
    let all = joint.parts(alloc, edits)?;
    let mut shelf = RecordCache::new(alloc);
    let whole = add_whole_counts(items, joint)?;
    let turned = add_turned(items, joint, word_before(&whole))?;
    let first = behind(items, group, whole, turned)?;
    let asked = add_asked_before(items, group, word_before(&first))?;
    let first = behind(items, group, first, asked)?;
    let plain = joint.put_plain(items, &mut shelf, &all, word_before(&first))?;
    let first = behind(items, group, first, plain)?;
    let others = joint.put_others(items, &mut shelf, &all)?;
    behind(items, group, first, others)
}

/// What stands before changes that are told behind those by which calls state this.
fn word_before(first: &[RestatedConstraints]) -> &'static str {
    if first.is_empty() { "" } else { "or " }
}

/// Of changes that are told one behind the other what calls state by the first; nothing where none
/// are. Of the next it is told which other domains lose theirs.
fn behind(
    items: &mut Items,
    group: Group<'_, '_>,
    first: Vec<RestatedConstraints>,
    next: Vec<RestatedConstraints>,
) -> Result<Vec<RestatedConstraints>, AllocError> {
    if first.is_empty() {
        return Ok(next);
    }
    if !next.is_empty() {
        losses_by(items.alloc(), group, &next, 2)?.put_into(items);
    }
    Ok(first)
}

/// Tells changes that help together, each as small as it can be, and gives what calls state then;
/// nothing where they aren't told.
fn add_least_changes(
    items: &mut Items,
    joint: CombinedChange<'_, '_>,
    shelf: &mut RecordCache,
    fewest: &[PartyChange],
    before: &str,
) -> Result<Vec<RestatedConstraints>, AllocError> {
    let alloc = items.alloc();
    if fewest.len() < 2 || fewest.len() > TOLD {
        return Ok(Vec::new(alloc));
    }
    let mut parts = Vec::from_slice(alloc, fewest)?;
    let Some(mut outcome) = joint.outcome(alloc, &parts)? else {
        return Ok(Vec::new(alloc));
    };
    for index in 0..parts.len() {
        if let Some(other) = joint.lessen(shelf, alloc, &mut parts, index, reached_by(&outcome))? {
            outcome = other;
        }
    }
    joint.tell(items, &parts, before, "fewer weren't found")
}

/// Changes made together, for those of a group.
#[derive(Clone, Copy)]
pub(crate) struct CombinedChange<'a, 'b> {
    pub(crate) group: Group<'a, 'b>,
    pub(crate) parties: &'b [Party<'a>],
}

impl CombinedChange<'_, '_> {
    /// Tells the fewest of some changes that help without taking the use by a CPU away.
    pub(crate) fn put_plain(
        &self,
        items: &mut Items,
        shelf: &mut RecordCache,
        all: &[PartyChange],
        before: &str,
    ) -> Result<Vec<RestatedConstraints>, AllocError> {
        let plain = with_cpu(items.alloc(), all)?;
        if !self.does(items.alloc(), &plain)? {
            return Ok(Vec::new(items.alloc()));
        }
        let fewest = self.fewest(shelf, items.alloc(), &plain)?;
        add_least_changes(items, *self, shelf, &fewest, before)
    }

    /// Tells the fewest of all changes that help, where they take the use by a CPU away.
    fn put_others(
        &self,
        items: &mut Items,
        shelf: &mut RecordCache,
        all: &[PartyChange],
    ) -> Result<Vec<RestatedConstraints>, AllocError> {
        let alloc = items.alloc();
        if !takes_cpu(all) || !self.does(alloc, all)? {
            return Ok(Vec::new(alloc));
        }
        let others = self.needed(shelf, alloc, all, false)?;
        if takes_cpu(&others) {
            return add_least_changes(items, *self, shelf, &others, "or ");
        }
        Ok(Vec::new(alloc))
    }

    /// Each change of each participant that is worth a try, of the first where there are very many.
    pub(crate) fn parts(
        &self,
        alloc: Global,
        edits: &[Edit],
    ) -> Result<Vec<PartyChange>, AllocError> {
        let mut parts: Vec<PartyChange> = Vec::new(alloc);
        for edit in edits {
            self.add_parts(&mut parts, *edit)?;
        }
        Ok(parts)
    }

    fn add_parts(&self, parts: &mut Vec<PartyChange>, edit: Edit) -> Result<(), AllocError> {
        let alloc = *parts.allocator();
        let heaps = self.group.scenario.platform.heaps();
        for (person, one) in self.group.participants.iter().enumerate() {
            let Some(value) = one.stated else {
                continue;
            };
            if parts.len() < MOST
                && is_worth(edit, one, self.group.participants, self.group.scenario, FEW)
                && changes(alloc, value, edit, heaps)?
            {
                parts.push(PartyChange {
                    person,
                    edit,
                    amount: None,
                })?;
            }
        }
        Ok(())
    }

    /// Of changes that help together some without each of which the others don't.
    fn fewest(
        &self,
        shelf: &mut RecordCache,
        alloc: Global,
        all: &[PartyChange],
    ) -> Result<Vec<PartyChange>, AllocError> {
        let likely = self.needed(shelf, alloc, all, true)?;
        let others = self.needed(shelf, alloc, all, false)?;
        if others.len() < likely.len() {
            return Ok(others);
        }
        Ok(likely)
    }

    /// What is left of changes that help together, once each is taken back without which the rest
    /// do: from the last on, or from the first. That the rest do is run once for all, and each time
    /// only where that isn't so.
    fn needed(
        &self,
        shelf: &mut RecordCache,
        alloc: Global,
        all: &[PartyChange],
        from_last: bool,
    ) -> Result<Vec<PartyChange>, AllocError> {
        let mut known = self.known_of(shelf, alloc, all, all)?;
        if known.is_some() {
            let kept = self.left_of(shelf, alloc, all, from_last, &mut known)?;
            if self.does(alloc, &kept)? {
                return Ok(kept);
            }
        }
        self.left_of(shelf, alloc, all, from_last, &mut None)
    }

    /// The same, of which several are taken back at once as long as that goes. Where it is known
    /// what participants ask after all the parts, the rest do if they aren't known to leave no
    /// settings; else that is run.
    fn left_of(
        &self,
        shelf: &mut RecordCache,
        alloc: Global,
        all: &[PartyChange],
        from_last: bool,
        known: &mut Option<RestatedParticipants>,
    ) -> Result<Vec<PartyChange>, AllocError> {
        let mut kept = Vec::from_slice(alloc, all)?;
        let mut walk = Walk::over(all.len(), from_last);
        for _step in 0..MOST_STEPS {
            let Some(run) = self.next_run(&walk, kept.len()) else {
                break;
            };
            let others = all_but(alloc, &kept, run)?;
            let back = kept.get(run.start..run.end).unwrap_or(&[]);
            let does = self.do_others(shelf, alloc, known, back, &others)?;
            walk.learn(run, does);
            if does {
                kept = others;
            }
        }
        Ok(kept)
    }

    /// The next run of a list of so many parts; `None` where each was tried, or nothing more is to be
    /// tried.
    fn next_run(&self, walk: &Walk, many: usize) -> Option<Run> {
        if self.group.scenario.effort.is_spent() {
            return None;
        }
        walk.next(many)
    }

    /// Whether the rest of some parts do once some are taken back: where it is known what
    /// participants ask, that is read anew of those whose parts are taken back, and known then if
    /// they do.
    fn do_others(
        &self,
        shelf: &mut RecordCache,
        alloc: Global,
        known: &mut Option<RestatedParticipants>,
        back: &[PartyChange],
        others: &[PartyChange],
    ) -> Result<bool, AllocError> {
        let Some(known) = known else {
            return self.does(alloc, others);
        };
        let Some(changed) = self.known_of(shelf, alloc, back, others)? else {
            return Ok(false);
        };
        let does = self.are_kept(shelf, alloc, known, &changed)?;
        if does {
            known.learn(&changed);
        }
        Ok(does)
    }

    /// Whether participants aren't known to leave no settings where some ask otherwise than is
    /// known.
    fn are_kept(
        &self,
        shelf: &RecordCache,
        alloc: Global,
        known: &RestatedParticipants,
        changed: &RestatedParticipants,
    ) -> Result<bool, AllocError> {
        let read = self.read(shelf, alloc, known, changed)?;
        Ok(!leave_none(alloc, self.group, self.parties, &read)?)
    }

    /// What participants ask, of whom some ask otherwise than is known.
    fn read<'c>(
        &self,
        shelf: &'c RecordCache,
        alloc: Global,
        known: &RestatedParticipants,
        changed: &RestatedParticipants,
    ) -> Result<Vec<ReadRecord<'c>>, AllocError> {
        let mut read = Vec::new(alloc);
        for (person, one) in self.group.participants.iter().enumerate() {
            let place = changed.place(person).or(known.place(person));
            if let Some(asked) = shelf.asked(place) {
                let node = one.node;
                read.push(ReadRecord { node, asked })?;
            }
        }
        Ok(read)
    }

    /// What those participants ask after some parts who have one of some others; `None` where that
    /// has a fault, or nothing more is to be tried.
    fn known_of(
        &self,
        shelf: &mut RecordCache,
        alloc: Global,
        others: &[PartyChange],
        parts: &[PartyChange],
    ) -> Result<Option<RestatedParticipants>, AllocError> {
        let mut known = RestatedParticipants::new(alloc);
        for (person, one) in self.group.participants.iter().enumerate() {
            let mut place = None;
            if one.stated.is_some() && has_own(others, person) {
                if self.group.scenario.effort.is_spent() {
                    return Ok(None);
                }
                place = self.place_after(shelf, alloc, person, one, parts)?;
                if place.is_none() {
                    return Ok(None);
                }
            }
            known.push(place)?;
        }
        Ok(Some(known))
    }

    /// Where it is kept what a participant asks after those of some parts that are its own, once it
    /// is read; `None` where that has a fault.
    fn place_after(
        &self,
        shelf: &mut RecordCache,
        alloc: Global,
        person: usize,
        participant: &NamedParticipant<'_>,
        parts: &[PartyChange],
    ) -> Result<Option<usize>, AllocError> {
        let own = own_of(alloc, parts, person)?;
        if let Some(place) = shelf.place_of(person, &own) {
            return Ok(Some(place));
        }
        self.add_changes(participant, own.len());
        let heaps = self.group.scenario.platform.heaps();
        match asked_with(alloc, participant, &own, heaps)? {
            Some(asked) => Ok(Some(shelf.keep(person, own, asked)?)),
            None => Ok(None),
        }
    }

    /// Adds that the constraints of a participant are changed so often.
    fn add_changes(&self, participant: &NamedParticipant<'_>, times: usize) {
        let number = self
            .group
            .story
            .milestone(participant.node, Milestone::SetConstraints);
        if let Some(number) = number {
            let place = number.saturating_sub(1);
            self.group.scenario.effort.change(place, times);
        }
    }

    /// Finds the least change of the part of an index with which all do still, where by leaving its
    /// field out this is reached; and what comes then, if it can be less.
    fn lessen(
        &self,
        shelf: &mut RecordCache,
        alloc: Global,
        parts: &mut [PartyChange],
        index: usize,
        reached: Reached,
    ) -> Result<Option<Outcome>, AllocError> {
        let known = self.known_of(shelf, alloc, parts, parts)?;
        for others in [known.as_ref(), None] {
            let best = self.least(shelf, alloc, parts, index, reached, others)?;
            set_amount(parts, index, best);
            if best.is_none() {
                return Ok(None);
            }
            if let Some(other) = self.outcome(alloc, parts)? {
                return Ok(Some(other));
            }
        }
        set_amount(parts, index, None);
        Ok(None)
    }

    /// The least value of the part of an index with which all do: where it is known what others
    /// ask, with which they aren't known to leave no settings.
    fn least(
        &self,
        shelf: &mut RecordCache,
        alloc: Global,
        parts: &mut [PartyChange],
        index: usize,
        reached: Reached,
        others: Option<&RestatedParticipants>,
    ) -> Result<Option<Amount>, AllocError> {
        let mut best = None;
        let Some(mut halving) = self.halving(parts.get(index), reached) else {
            return Ok(best);
        };
        for _halving in 0..MOST_HALVINGS {
            let Some(amount) = halving.next() else {
                break;
            };
            if self.group.scenario.effort.is_spent() {
                break;
            }
            set_amount(parts, index, Some(amount));
            let does = match others {
                Some(known) => self.does_unrun(shelf, alloc, parts, index, known)?,
                None => self.does(alloc, parts)?,
            };
            halving.learn(amount, does);
            if does {
                best = Some(amount);
            }
        }
        Ok(best)
    }

    /// The values that a part leaves between, where by leaving its field out this is reached.
    fn halving(&self, part: Option<&PartyChange>, reached: Reached) -> Option<Halving> {
        let part = part?;
        let value = self.group.participants.get(part.person)?.stated?;
        Halving::of(value, part.edit, reached)
    }

    /// Whether participants aren't known to leave no settings with the part of an index, where it
    /// is known what others ask.
    fn does_unrun(
        &self,
        shelf: &mut RecordCache,
        alloc: Global,
        parts: &[PartyChange],
        index: usize,
        known: &RestatedParticipants,
    ) -> Result<bool, AllocError> {
        let own = parts.get(index..index.saturating_add(1)).unwrap_or(&[]);
        match self.known_of(shelf, alloc, own, parts)? {
            Some(changed) => self.are_kept(shelf, alloc, known, &changed),
            None => Ok(false),
        }
    }

    /// Whether the domain is chosen by some changes, with a row that may be meant.
    fn does(&self, alloc: Global, parts: &[PartyChange]) -> Result<bool, AllocError> {
        Ok(self.outcome(alloc, parts)?.is_some())
    }

    /// What the domain becomes by some changes, if it is chosen then with a row that may be meant.
    fn outcome(&self, alloc: Global, parts: &[PartyChange]) -> Result<Option<Outcome>, AllocError>
        ensures { IfOk result (λ said. IfSome said (λ what. IsPromisedSo
            self.now.group.scenario.now.platform.now
            (map call_seen self.now.group.scenario.now.calls.now)
            self.now.group.path.now what)) }
    {
        if self.leave_none_after(alloc, parts)? || self.group.scenario.effort.is_spent() {
            return Ok(None);
        }
        let stated = self.stated(alloc, parts)?;
        self.outcome_of(alloc, &stated)
    }

    /// The same where participants state this.
    fn outcome_of(
        &self,
        alloc: Global,
        stated: &[RestatedConstraints],
    ) -> Result<Option<Outcome>, AllocError>
        ensures { IfOk result (λ said. IfSome said (λ what. IsPromisedSo
            self.now.group.scenario.now.platform.now
            (map call_seen self.now.group.scenario.now.calls.now)
            self.now.group.path.now what)) }
    {
        let calls = restated(alloc, self.group.scenario.calls, stated)?;
        match chosen_with(alloc, self.group.scenario, &calls, self.group.path)? {
            Some(outcome) if !is_absurd(reached_by(&outcome), false) => Ok(Some(outcome)),
            _ => Ok(None),
        }
    }

    /// Whether participants have no settings after some changes; only a yes says something.
    fn leave_none_after(&self, alloc: Global, parts: &[PartyChange]) -> Result<bool, AllocError> {
        let mut shelf = RecordCache::new(alloc);
        match self.known_of(&mut shelf, alloc, parts, parts)? {
            Some(changed) => {
                let read = self.read(&shelf, alloc, &changed, &changed)?;
                leave_none(alloc, self.group, self.parties, &read)
            }
            None => Ok(false),
        }
    }

    /// The constraints of each participant after some changes.
    fn stated(
        &self,
        alloc: Global,
        parts: &[PartyChange],
    ) -> Result<Vec<RestatedConstraints>, AllocError> {
        let mut stated = ListBuilder::new(alloc);
        for person in 0..self.group.participants.len() {
            if has_own(parts, person) {
                self.add_stated(&mut stated, person, parts)?;
            }
        }
        stated.done()
    }

    /// Adds the constraints of a participant after some changes, if it has stated some.
    fn add_stated(
        &self,
        stated: &mut ListBuilder<RestatedConstraints>,
        person: usize,
        parts: &[PartyChange],
    ) -> Result<(), AllocError> {
        let Some(one) = self.group.participants.get(person) else {
            return Ok(());
        };
        let number = self
            .group
            .story
            .milestone(one.node, Milestone::SetConstraints);
        let (Some(number), Some(value)) = (number, one.stated) else {
            return Ok(());
        };
        let place = number.saturating_sub(1);
        let scenario = self.group.scenario;
        scenario.effort.change(place, 1);
        let heaps = scenario.platform.heaps();
        let value = after(stated.alloc(), value, person, parts, heaps)?;
        stated.add(RestatedConstraints { place, value });
        Ok(())
    }

    /// What is promised of some changes: the decision that comes by them, if one is chosen with a
    /// row that may be meant, and each record is read as what is asked after its changes.
    fn promise(&self, alloc: Global, parts: &[PartyChange]) -> Result<Option<Promise>, AllocError>
        ensures { IfOk result (λ made. IfSome made (λ promise. IsPromised
            self.now.group.scenario.now.platform.now
            (map call_seen self.now.group.scenario.now.calls.now) (edits_of promise.edits.items)
            self.now.group.path.now promise.outcome)) }
    {
        if self.leave_none_after(alloc, parts)? || self.group.scenario.effort.is_spent() {
            return Ok(None);
        }
        let edits = self.edits(alloc, parts)?;
        self.promise_of(alloc, edits)
    }

    /// What is promised where calls state edited records.
    pub(crate) fn promise_of(
        &self,
        alloc: Global,
        edits: Vec<EditedCall>,
    ) -> Result<Option<Promise>, AllocError>
        ensures { IfOk result (λ made. IfSome made (λ promise. IsPromised
            self.now.group.scenario.now.platform.now
            (map call_seen self.now.group.scenario.now.calls.now) (edits_of promise.edits.items)
            self.now.group.path.now promise.outcome)) }
    {
        match self.outcome_by(alloc, &edits)? {
            Some(outcome) => Ok(Some(Promise { edits, outcome })),
            None => Ok(None),
        }
    }

    /// The decision that comes where calls state edited records.
    fn outcome_by(&self, alloc: Global, edits: &[EditedCall]) -> Result<Option<Outcome>, AllocError>
        ensures { IfOk result (λ said. IfSome said (λ what. IsPromised
            self.now.group.scenario.now.platform.now
            (map call_seen self.now.group.scenario.now.calls.now) (edits_of edits.now)
            self.now.group.path.now what)) }
    {
        let scenario = self.group.scenario;
        let heaps = scenario.platform.heaps();
        let Some(calls) = edited_calls(alloc, heaps, scenario.calls, edits)? else {
            return Ok(None);
        };
        match chosen_with(alloc, scenario, &calls, self.group.path)? {
            Some(outcome) if !is_absurd(reached_by(&outcome), false) => Ok(Some(outcome)),
            _ => Ok(None),
        }
    }

    /// The call of each participant of whom some changes are.
    pub(crate) fn edits(
        &self,
        alloc: Global,
        parts: &[PartyChange],
    ) -> Result<Vec<EditedCall>, AllocError> {
        let mut edits = Vec::new(alloc);
        for (person, one) in self.group.participants.iter().enumerate() {
            let number = self
                .group
                .story
                .milestone(one.node, Milestone::SetConstraints);
            if !has_own(parts, person) {
                continue;
            }
            if let (Some(number), Some(value)) = (number, one.stated) {
                let own = own_of(alloc, parts, person)?;
                let place = number.saturating_sub(1);
                let scenario = self.group.scenario;
                scenario.effort.change(place, 1);
                let heaps = scenario.platform.heaps();
                edits.push(edited_call(alloc, place, value, &own, heaps)?)?;
            }
        }
        Ok(edits)
    }

    /// Tells changes, with these words on why they are as many, and the decision that comes by them;
    /// gives what calls state then.
    pub(crate) fn tell(
        &self,
        items: &mut Items,
        parts: &[PartyChange],
        before: &str,
        why: &str,
    ) -> Result<Vec<RestatedConstraints>, AllocError> {
        let alloc = items.alloc();
        let Some(promise) = self.promise(alloc, parts)? else {
            return Ok(Vec::new(alloc));
        };
        let reached = reached_by(&promise.outcome);
        if is_absurd(reached, are_sized(self.group.participants)) {
            return Ok(Vec::new(alloc));
        }
        let stated = promise.stated(alloc)?;
        let is_alone = !self.is_so_beyond(alloc, parts, &stated, &promise.outcome)?;
        self.put_head(items, parts.len(), before, why);
        self.put_each(items, parts, is_alone)?;
        let selection = promise.outcome.selection();
        let choice = choices_in(alloc, self.group.story, self.group.root, selection)?;
        put_promise(items, self.group, 2, promise);
        put_choice(items, 2, choice);
        Ok(stated)
    }

    /// Whether the same comes with all values beyond those of some changes, by which calls state
    /// this, and this comes.
    fn is_so_beyond(
        &self,
        alloc: Global,
        parts: &[PartyChange],
        stated: &[RestatedConstraints],
        outcome: &Outcome,
    ) -> Result<bool, AllocError> {
        if !parts.iter().any(|part| part.amount.is_some()) {
            return Ok(true);
        }
        let mut bare = Vec::from_slice(alloc, parts)?;
        for index in 0..parts.len() {
            set_amount(&mut bare, index, None);
        }
        let Some(beyond) = self.outcome(alloc, &bare)? else {
            return Ok(false);
        };
        let far = Farthest::of(alloc, self.stated(alloc, &bare)?, &beyond)?;
        far.is_as(alloc, self.group, stated, outcome)
    }

    /// Puts above changes that so many help together, and why they are as many.
    fn put_head(&self, items: &mut Items, count: usize, before: &str, why: &str) {
        let mut words = TextBuilder::of(items.alloc(), before);
        words
            .put("these ")
            .put_number(count)
            .put(" together suffice (")
            .put(why)
            .put("):");
        items.say(1, Label::Change, words);
    }

    /// Puts changes that help together, each by what those before it leave; alone, if other values
    /// than theirs may not do.
    pub(crate) fn put_each(
        &self,
        items: &mut Items,
        parts: &[PartyChange],
        is_alone: bool,
    ) -> Result<(), AllocError> {
        for index in 0..parts.len() {
            self.put_part(items, parts, index, is_alone)?;
        }
        Ok(())
    }

    /// Puts the change of an index, as it is once those before it were made.
    fn put_part(
        &self,
        items: &mut Items,
        parts: &[PartyChange],
        index: usize,
        is_alone: bool,
    ) -> Result<(), AllocError> {
        let alloc = items.alloc();
        let (Some(part), Some(earlier)) = (parts.get(index), parts.get(..index)) else {
            return Ok(());
        };
        let Some(one) = self.group.participants.get(part.person) else {
            return Ok(());
        };
        let Some(value) = one.stated else {
            return Ok(());
        };
        let heaps = self.group.scenario.platform.heaps();
        let now = after(alloc, value, part.person, earlier, heaps)?;
        let Some(change) = part.told(alloc, &now, heaps, is_alone)? else {
            return Ok(());
        };
        let who = match part.told(alloc, value, heaps, is_alone)? {
            Some(alone) if alone.words == change.words => {
                self.group.who_changes(alloc, one, part.edit, &alone.value)?
            }
            _ => {
                let then = stating(one, &now);
                self.group
                    .who_changes(alloc, &then, part.edit, &change.value)?
            }
        };
        add_change(items, &who, &change.words);
        Ok(())
    }
}

/// A participant as it states something else.
fn stating<'a>(participant: &NamedParticipant<'a>, value: &'a Value) -> NamedParticipant<'a> {
    let stated = Some(value);
    NamedParticipant {
        node: participant.node,
        name: participant.name,
        asked: participant.asked,
        stated,
    }
}

/// Tells a participant, and what it changes.
fn add_change(items: &mut Items, who: &Text, change: &Text) {
    let mut words = TextBuilder::of_text(items.alloc(), who);
    words.put(": ").put_text(change);
    items.say(2, Label::And, words)
}
