//! Single changes that make an empty decision one that chooses, found by trying each.

ghost use Rattle.std.specs.Prelude.{[], ◌∷◌, map, IfOk};
ghost use Rattle.script_reading.specs.Seen.{call_seen};
ghost use Rattle.serde_json.specs.View.{view};
ghost use Rattle.constraint_changes.specs.Edited.{IsPromised, IsTried};

use crate::asked_before::{bounds_asked, host_of, initial_of, is_out_of_reach, multiple_before};
use crate::beyond::{Farthest, words_of};
use crate::camping::try_whole_count;
use crate::exchanges::try_exchanges;
use crate::lost::losses_by;
use crate::together::add_together;
use crate::told::{Rank, ToldChange, joined, place_like, place_of, put_told};
use crate::trials::{
    Group, Party, RestatedConstraints, Trial, TrialResult, are_sized, can_help, change_leaves_none,
    entries_behind, has_groups, is_worth, leaves_none, parties_of, put_choice, reached_by,
};
use constraint_edits::{
    Amount, Change, Edit, Slip, changes, edited, edited_alone, entries_without, is_absurd, slips_of,
};
use domain_reasons::{choices_in, rooms_needed};
use explanation_text::wording::put_joined;
use explanation_text::{Items, Label, Text, TextBuilder};
use script_story::{Effort, Milestone, asked_in};
use serde_json::Value;
use std::alloc::{AllocError, Global};
use std::slice::from_ref;
use value_sources::NamedParticipant;

/// How many changes are told.
const MOST: usize = 5;
/// How many are tried.
const TRIES: usize = 300;
/// Of how many entries of a record each is tried alone.
const MOST_ENTRIES: usize = 4;

/// What was found of changes so far.
#[derive(Drop)]
pub(crate) struct Search<'a, 'b> {
    pub(crate) alloc: Global,
    /// Those that are told.
    told: Vec<ToldChange>,
    /// Those of the group of whom one is asked whatever is selected.
    pub(crate) parties: &'b [Party<'a>],
    /// How many help.
    pub(crate) count: usize,
    pub(crate) tried: usize,
    /// How many help and can't be meant.
    pub(crate) absurd: usize,
    /// Whether sizes are asked for.
    pub(crate) is_sized: bool,
}

impl Search<'_, '_> {
    /// Whether enough were found or tried.
    pub(crate) fn is_done(&self, effort: &Effort) -> bool {
        self.told.len() >= MOST || self.tried >= TRIES || effort.is_spent()
    }

    /// Adds one that helps: before those whose decision is farther from what was preferred.
    pub(crate) fn add(&mut self, told: ToldChange) -> Result<(), AllocError> {
        let place = place_of(&self.told, &told);
        self.add_at(place, told)
    }

    /// Adds one that helps, before that of an index.
    fn add_at(&mut self, place: usize, told: ToldChange) -> Result<(), AllocError> {
        self.count = self.count.saturating_add(1);
        let end = self.told.len();
        let at = if place < end { place } else { end };
        self.told.insert(at, told)?;
        Ok(())
    }

    /// Takes the change of an index out, if there is one.
    fn take(&mut self, place: Option<usize>) -> Option<ToldChange> {
        let place = place?;
        if place >= self.told.len() {
            return None;
        }
        Some(self.told.remove(place))
    }
}

/// Tells the changes of one field of one participant with which the domain at a path would have
/// settings, each with the decision that would come: the line of the report of the changed script;
/// of one participant an entry put first. Where there is none, of two participants the exchange,
/// after several changes that do together. Gives what calls state by the first that is told; nothing
/// where none is.
pub fn list_changes(
    items: &mut Items,
    group: Group<'_, '_>,
    index: usize,
    edits: &[Edit],
) -> Result<Vec<RestatedConstraints>, AllocError> {
    let parties = parties_of(items.alloc(), group)?;
    let mut search = Search {
        alloc: items.alloc(),
        told: Vec::new(items.alloc()),
        parties: &parties,
        count: 0,
        tried: 0,
        absurd: 0,
        is_sized: are_sized(group.participants),
    };
    try_all(&mut search, group, index, edits)?;
    if search.count == 0 {
        try_exchanges(&mut search, group, index)?;
        return list_exchanges(items, search, group, edits);
    }
    put_head(items, &search, group.scenario.effort);
    Ok(put_told(items, search.told, false))
}

/// Tells the exchanges that help, where no other change does alone: after several that do together,
/// if some do.
fn list_exchanges(
    items: &mut Items,
    search: Search<'_, '_>,
    group: Group<'_, '_>,
    edits: &[Edit],
) -> Result<Vec<RestatedConstraints>, AllocError> {
    let mut together = Items::new(search.alloc);
    let first = if search.told.is_empty() {
        Vec::new(search.alloc)
    } else {
        add_together(&mut together, group, edits)?
    };
    if first.is_empty() {
        put_head(items, &search, group.scenario.effort);
        return Ok(put_told(items, search.told, false));
    }
    items.append(together);
    let words = match search.count {
        1 => "or this exchange suffices:",
        _ => "or one of these exchanges suffices:",
    };
    items.list_text(1, Label::Change, words);
    let _exchanged = put_told(items, search.told, true);
    Ok(first)
}

/// Tries all changes of one participant, those first that are likely meant.
fn try_all(
    search: &mut Search<'_, '_>,
    group: Group<'_, '_>,
    index: usize,
    edits: &[Edit],
) -> Result<(), AllocError> {
    try_room(search, group, index)?;
    for participant in group.participants {
        try_entries(search, group, participant)?;
    }
    for edit in edits {
        try_edit(search, group, *edit)?;
    }
    Ok(())
}

/// Tries that more is asked for in the initial domain, where what was decided doesn't do for the one
/// of an index, which was attached: more buffers, or the bounds that are asked for late.
fn try_room(
    search: &mut Search<'_, '_>,
    group: Group<'_, '_>,
    index: usize,
) -> Result<(), AllocError> {
    for count in &rooms_needed(search.alloc, group.story, index)? {
        try_before(search, group, index, Edit::LeastCount(*count))?;
    }
    for edit in &bounds_asked(search.alloc, group, index)? {
        try_before(search, group, index, *edit)?;
    }
    Ok(())
}

/// Tries that somebody asks for more in the initial domain by an edit, until one helps: first whom
/// the domain of an index was attached to.
fn try_before(
    search: &mut Search<'_, '_>,
    group: Group<'_, '_>,
    index: usize,
    edit: Edit,
) -> Result<(), AllocError> {
    let alloc = search.alloc;
    let story = group.story;
    let Some(host) = host_of(story, index) else {
        return Ok(());
    };
    let participants = asked_in(alloc, story, initial_of(story), true)?;
    for whom in [Whom::Host, Whom::Stating, Whom::Others] {
        if try_whom(search, group, &participants, whom, host, edit)? {
            break;
        }
    }
    Ok(())
}

/// Those who may ask for more.
#[derive(Clone, Copy)]
enum Whom {
    /// Whom a domain was attached to.
    Host,
    /// Others who state a least count.
    Stating,
    Others,
}

impl Whom {
    /// Whether a participant is one of them, where the domain was attached to this node.
    fn is(self, participant: &NamedParticipant<'_>, host: usize) -> bool {
        let is_stating = participant.asked.counts().min_buffer_count > 0;
        match self {
            Whom::Host => participant.node == host,
            Whom::Stating => participant.node != host && is_stating,
            Whom::Others => participant.node != host && !is_stating,
        }
    }
}

/// Tries an edit of each of these participants, until one helps; whether one does.
fn try_whom(
    search: &mut Search<'_, '_>,
    group: Group<'_, '_>,
    participants: &[NamedParticipant<'_>],
    whom: Whom,
    host: usize,
    edit: Edit,
) -> Result<bool, AllocError> {
    let before = search.count;
    for participant in participants {
        let is_left = search.count == before && !search.is_done(group.scenario.effort);
        if is_left && whom.is(participant, host) {
            try_one(search, group, participant, edit)?;
        }
    }
    Ok(search.count > before)
}

/// Tries to put an entry of a participant first, behind another that takes a pair of the platform
/// which it takes, until one helps.
fn try_entries(
    search: &mut Search<'_, '_>,
    group: Group<'_, '_>,
    participant: &NamedParticipant<'_>,
) -> Result<(), AllocError> {
    let alloc = search.alloc;
    let before = search.count;
    for index in &entries_behind(alloc, group.scenario.platform, participant)? {
        if search.count == before && !search.is_done(group.scenario.effort) {
            try_one(search, group, participant, Edit::EntryFirst(*index))?;
        }
    }
    Ok(())
}

/// Tries an edit of each participant's constraints.
fn try_edit(
    search: &mut Search<'_, '_>,
    group: Group<'_, '_>,
    edit: Edit,
) -> Result<(), AllocError> {
    let few = if has_groups(group.story) {
        group.participants.len()
    } else {
        1
    };
    for participant in group.participants {
        if search.is_done(group.scenario.effort) {
            break;
        }
        if is_worth(edit, participant, group.participants, group.scenario, few)
            || edit == Edit::NoCpu && is_out_of_reach(group)
        {
            try_where(search, group, participant, edit)?;
        }
    }
    Ok(())
}

/// Tries an edit of a participant's constraints: that a colour space is taken first of each of its
/// entries alone, if these are few, and of all only where none of these helps.
fn try_where(
    search: &mut Search<'_, '_>,
    group: Group<'_, '_>,
    participant: &NamedParticipant<'_>,
    edit: Edit,
) -> Result<(), AllocError> {
    let (Edit::TakesColour(colour), Some(value)) = (edit, participant.stated) else {
        return try_one(search, group, participant, edit);
    };
    let before = search.count;
    let entries = entries_without(search.alloc, value, colour)?;
    if entries.len() <= MOST_ENTRIES {
        for index in &entries {
            if !search.is_done(group.scenario.effort) {
                try_one(
                    search,
                    group,
                    participant,
                    Edit::TakesColourIn(colour, *index),
                )?;
            }
        }
    }
    if search.count > before || entries.len() == 1 {
        return Ok(());
    }
    try_one(search, group, participant, edit)
}

/// Tries an edit of a participant's constraints, if it has stated some.
fn try_one(
    search: &mut Search<'_, '_>,
    group: Group<'_, '_>,
    participant: &NamedParticipant<'_>,
    edit: Edit,
) -> Result<(), AllocError> {
    let Some(number) = group
        .story
        .milestone(participant.node, Milestone::SetConstraints)
    else {
        return Ok(());
    };
    let trial = Trial {
        scenario: group.scenario,
        path: group.path,
        place: number.saturating_sub(1),
    };
    try_change(search, group, trial, participant, edit)
}

/// Tries an edit of a participant's constraints, and tells it where it helps.
fn try_change(
    search: &mut Search<'_, '_>,
    group: Group<'_, '_>,
    trial: Trial<'_, '_>,
    participant: &NamedParticipant<'_>,
    edit: Edit,
) -> Result<(), AllocError> {
    let alloc = search.alloc;
    let Some(value) = participant.stated else {
        return Ok(());
    };
    let heaps = trial.scenario.platform.heaps();
    if !changes(alloc, value, edit, heaps)? {
        return Ok(());
    }
    search.tried = search.tried.saturating_add(1);
    let known = leaves_none_unstated(alloc, search, group, participant, edit)?;
    if known == Some(true) {
        return Ok(());
    }
    trial.scenario.effort.change(trial.place, 1);
    let Some(change) = edited(alloc, value, edit, heaps)? else {
        return Ok(());
    };
    let made = change.change;
    let (value_then, words) = change.into_parts();
    let stated = RestatedConstraints {
        place: trial.place,
        value: value_then,
    };
    if known.is_none() && leaves_none(alloc, group, search.parties, from_ref(&stated))? {
        return Ok(());
    }
    let Some(outcome) = trial.outcome(alloc, &stated.value)? else {
        return Ok(());
    };
    let found = TrialResult {
        change: made,
        words,
        outcome,
        value: stated.into_value(),
    };
    put_least(search, group, trial, participant, edit, found)
}

/// Tells an edit that helps; where it leaves a field out, by what is likely meant, and by the least
/// change of it.
fn put_least(
    search: &mut Search<'_, '_>,
    group: Group<'_, '_>,
    trial: Trial<'_, '_>,
    participant: &NamedParticipant<'_>,
    edit: Edit,
    found: TrialResult,
) -> Result<(), AllocError>
    requires { IsTried trial.scenario.now.platform.now
        (map call_seen trial.scenario.now.calls.now) trial.place (view found.value)
        trial.path.now found.outcome }
{
    let alloc = search.alloc;
    let Some(value) = participant.stated else {
        return Ok(());
    };
    try_whole_count(search, group, trial, participant, edit, &found)?;
    let far = Farthest::by(alloc, trial.place, &found)?;
    let least = trial.least(alloc, group, search.parties, value, edit, found)?;
    let least = as_before(alloc, group, trial, value, edit, least)?;
    let enough = least.change.amount;
    let meant = try_slips(search, group, trial, participant, edit, enough)?;
    if meant.is_some() && (meant == enough || search.is_done(group.scenario.effort)) {
        return Ok(());
    }
    let is_meant = is_likely(edit);
    put_found(
        search,
        group,
        trial,
        participant,
        is_meant,
        Some(&far),
        least,
    )
}

/// The change of a multiple to what was decided of it before an attached domain, where that helps and
/// leaving the multiple out is the least that does; else that one.
fn as_before(
    alloc: Global,
    group: Group<'_, '_>,
    trial: Trial<'_, '_>,
    value: &Value,
    edit: Edit,
    least: TrialResult,
) -> Result<TrialResult, AllocError>
    requires { IsTried trial.scenario.now.platform.now
        (map call_seen trial.scenario.now.calls.now) trial.place (view least.value)
        trial.path.now least.outcome }
    ensures { IfOk result (λ best. IsTried trial.entry.scenario.now.platform.now
        (map call_seen trial.entry.scenario.now.calls.now) trial.entry.place (view best.value)
        trial.entry.path.now best.outcome) }
{
    let (Edit::NoBound(field), None) = (edit, least.change.amount) else {
        return Ok(least);
    };
    let Some(amount) = multiple_before(group, field) else {
        return Ok(least);
    };
    let Some(change) = edited_alone(alloc, value, edit, amount)? else {
        return Ok(least);
    };
    trial.scenario.effort.change(trial.place, 1);
    match trial.promised(alloc, change)? {
        Some(same) => Ok(same),
        None => Ok(least),
    }
}

/// Whether an edit is tried before others since it is likely meant, or asks the same in another
/// order.
fn is_likely(edit: Edit) -> bool {
    matches!(
        edit,
        Edit::MeansHeap(_) | Edit::EntryFirst(_) | Edit::LeastCount(_)
    )
}

/// Tries the values that may be meant in the place of the one of the field that an edit leaves out,
/// where this one suffices, until one helps, and tells that; gives it.
fn try_slips(
    search: &mut Search<'_, '_>,
    group: Group<'_, '_>,
    trial: Trial<'_, '_>,
    participant: &NamedParticipant<'_>,
    edit: Edit,
    enough: Option<Amount>,
) -> Result<Option<Amount>, AllocError> {
    let Some(value) = participant.stated else {
        return Ok(None);
    };
    let before = search.count;
    for slip in &slips_of(search.alloc, value, edit, enough)? {
        if search.tried >= TRIES || group.scenario.effort.is_spent() {
            break;
        }
        try_slip(search, group, trial, participant, *slip)?;
        if search.count > before {
            return Ok(Some(slip.amount));
        }
    }
    Ok(None)
}

/// Tries a value that may be meant in the place of one of a field, and tells it where it helps.
fn try_slip(
    search: &mut Search<'_, '_>,
    group: Group<'_, '_>,
    trial: Trial<'_, '_>,
    participant: &NamedParticipant<'_>,
    slip: Slip,
) -> Result<(), AllocError> {
    let alloc = search.alloc;
    let Some(value) = participant.stated else {
        return Ok(());
    };
    search.tried = search.tried.saturating_add(1);
    let change = Change::plain(slip.edit, Some(slip.amount));
    if change_leaves_none(alloc, group, search.parties, participant, change)? == Some(true) {
        return Ok(());
    }
    trial.scenario.effort.change(trial.place, 1);
    let Some(made) = slip.changed(alloc, value)? else {
        return Ok(());
    };
    match trial.promised(alloc, made)? {
        Some(found) => put_found(search, group, trial, participant, true, None, found),
        None => Ok(()),
    }
}

/// Tells a change that helps, likely meant or not, if it may be meant and its record is read as what
/// it asks then; it may be known what comes farthest beyond it.
#[tactic(auto, using(crate::proofs::Promises::promised_alone))]
fn put_found(
    search: &mut Search<'_, '_>,
    group: Group<'_, '_>,
    trial: Trial<'_, '_>,
    participant: &NamedParticipant<'_>,
    is_likely: bool,
    far: Option<&Farthest>,
    found: TrialResult,
) -> Result<(), AllocError>
    requires { IsTried trial.scenario.now.platform.now
        (map call_seen trial.scenario.now.calls.now) trial.place (view found.value)
        trial.path.now found.outcome }
{
    if is_absurd(reached_by(&found.outcome), search.is_sized) {
        search.absurd = search.absurd.saturating_add(1);
        return Ok(());
    }
    let alloc = search.alloc;
    if !trial.is_edit(alloc, &found.change, &found.value)? {
        return Ok(());
    }
    let choice = choices_in(alloc, group.story, group.root, found.outcome.selection())?;
    let who = group.who_changes(alloc, participant, found.change.edit, &found.value)?;
    let words = words_of(alloc, group, trial.place, participant, &found, far)?;
    let stated = RestatedConstraints {
        place: trial.place,
        value: found.value.clone()?,
    };
    let losses = losses_by(alloc, group, from_ref(&stated), 3)?;
    let like = place_like(&search.told, &words, &found.outcome, &losses);
    let asked = usize::from(matches!(found.change.edit, Edit::States(_, _)));
    let lost = losses.count().saturating_add(asked);
    let rank = Rank::of(group, &found.outcome, is_likely, lost);
    let (whose, stated) = joined(alloc, search.take(like), who, stated)?;
    let mut items = Items::new(alloc);
    put_change(&mut items, trial, Label::Alone(0), &whose, &words, found);
    put_choice(&mut items, 3, choice);
    let told = ToldChange::by(whose, words, stated, rank, items, losses);
    match like {
        Some(place) => search.add_at(place, told),
        None => search.add(told),
    }
}

/// Whether those of a group have no settings after an edit of a participant, where that is told
/// without the record that would state it.
fn leaves_none_unstated(
    alloc: Global,
    search: &Search<'_, '_>,
    group: Group<'_, '_>,
    participant: &NamedParticipant<'_>,
    edit: Edit,
) -> Result<Option<bool>, AllocError> {
    if !can_help(search.parties, participant.node) {
        return Ok(Some(true));
    }
    let change = Change::plain(edit, None);
    change_leaves_none(alloc, group, search.parties, participant, change)
}

fn put_head(items: &mut Items, search: &Search<'_, '_>, effort: &Effort) {
    let mut words = head_of(items.alloc(), search);
    if search.count == 0 && effort.is_spent() {
        words.put("; to try more would take long");
    }
    items.say(1, Label::Change, words)
}

fn head_of(alloc: Global, search: &Search<'_, '_>) -> TextBuilder {
    let mut words = TextBuilder::new(alloc);
    match search.count {
        0 => {
            words
                .put("none was found that helps alone, of ")
                .put_number(search.tried)
                .put(" that were tried");
            if search.absurd > 0 {
                words
                    .put(", but ")
                    .put_number(search.absurd)
                    .put(" that leave a tiny image or a row long beyond measure");
            }
        }
        1 => {
            words.put("this alone suffices (maybe not the only one that does):");
        }
        _ => {
            words.put("each of these alone suffices:");
        }
    }
    words
}

/// Puts a change that was tried, in these words, and what it gives; it is the last one's of those
/// who may make it.
pub(crate) fn put_change(
    items: &mut Items,
    trial: Trial<'_, '_>,
    label: Label,
    who: &[Text],
    what: &Text,
    found: TrialResult,
)
    requires { IsPromised trial.scenario.now.platform.now
        (map call_seen trial.scenario.now.calls.now) ((trial.place, found.change ∷ []) ∷ [])
        trial.path.now found.outcome }
{
    let mut words = TextBuilder::new(items.alloc());
    put_joined(&mut words, who, "or");
    words.put(": ").put_text(what);
    items.say(2, label, words);
    found.into_outcome().promise(items, 3)
}
