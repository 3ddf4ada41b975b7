//! What a script means once each part of it is corrected of which it is known what may be meant; and
//! once its calls are made otherwise that were refused.

ghost use Rattle.std.specs.Prelude.{◌≤◌};

use crate::drafts::{Draft, places_of, remade, restated, shown_calls, spelled, with_stated};
use crate::helping::{HELPED, LEVELS, add_why, children_of, index_at};
use crate::idle_modifiers::add_idle_modifiers;
use crate::mended::mended;
use crate::mended_words::put_corrections;
use crate::not_chosen::add_not_chosen;
use constraint_changes::put_choice;
use domain_reasons::{add_shortly, answer_of, domain_now, put_head};
use explanation_text::{Correction, Item, Items, Kind, Label, TextBuilder, repeated_keys};
use other_outcomes::{list_added, list_meant, list_moved};
use script_faults::{Document, add_fault};
use script_reading::{
    ParseFault, Script, ScriptFault, parse_script, read_records, read_script, shared_calls,
};
use script_story::{Became, Domain, Effort, Scenario, Story, story_of};
use serde_json::Value;
use std::alloc::{AllocError, Global};

/// How many keys are looked at that are given twice.
const MOST: usize = 13;
/// How long a text may be that is corrected, or whose calls are made otherwise, in bytes: what comes
/// then is one value more, of up to 175 bytes a byte.
const LONGEST: usize = 262_144;

/// How far a script goes on at most that is corrected, or whose calls are made otherwise: so often,
/// and then as far as what would help does.
pub(crate) const FARTHEST: usize = LEVELS + HELPED;

/// Whether a script's text is too long to be made otherwise.
pub(crate) fn is_too_long(document: &Document<'_>) -> bool {
    document.bytes.len() > LONGEST
}

/// Tells that it isn't told what comes of a script for that, as words say it.
pub(crate) fn add_too_long(items: &mut Items, what: &str) {
    let mut words = TextBuilder::of(items.alloc(), what);
    words
        .put(" isn't told: the text is longer than ")
        .put_number(LONGEST)
        .put(" bytes");
    items.say(1, Label::Note, words)
}

/// What may be meant where faults are shown; nothing where of one of them that isn't known.
fn corrections_in<'b>(alloc: Global, shown: &'b [Item]) -> Result<Vec<&'b Correction>, AllocError> {
    let mut all = Vec::new(alloc);
    for item in shown {
        if item.kind != Kind::Source {
            continue;
        }
        match item.correction() {
            Some(one) => all.push(one)?,
            None => return Ok(Vec::new(alloc)),
        }
    }
    Ok(all)
}

/// The story of a script that is refused: nothing is said of a domain.
pub(crate) fn no_story<'a>(alloc: Global) -> Story<'a> {
    Story {
        calls: Vec::new(alloc),
        nodes: Vec::new(alloc),
        domains: Vec::new(alloc),
        order: Vec::new(alloc),
    }
}

/// What the script has once what may be meant stands where faults are shown, if of each of them that
/// is known: its answer, which calls are refused then, and what is chosen unless that is said now.
pub(crate) fn corrected(
    alloc: Global,
    document: &Document<'_>,
    shown: &[Item],
    effort: Option<&Effort>,
    now: &Story<'_>,
) -> Result<Items, AllocError> {
    let mut items = Items::new(alloc);
    let draft = spelled(*document);
    let _is_told = add_corrected(&mut items, &draft, shown, effort, Some(now), FARTHEST)?;
    Ok(items)
}

/// Tells the same; whether something is told. The story goes on so far at most.
#[cycle(list_help)]
fn add_corrected(
    items: &mut Items,
    draft: &Draft<'_>,
    shown: &[Item],
    effort: Option<&Effort>,
    now: Option<&Story<'_>>,
    levels: usize,
) -> Result<bool, AllocError> {
    let Some(levels) = levels.checked_sub(1) else {
        return add_no_more(items, shown);
    };
    let Some((bytes, value)) = meant_in(items, &draft.text, shown)? else {
        return Ok(false);
    };
    let text = Document {
        file: draft.text.file,
        bytes: &bytes,
        value: &value,
        whole: draft.text.whole,
    };
    if draft.is_spelled {
        add_answer(items, &spelled(text), effort, now, levels)?;
        return Ok(true);
    }
    let stated = with_stated(items.alloc(), draft, &text)?;
    add_answer(
        items,
        &restated(&*draft, text, &stated),
        effort,
        now,
        levels,
    )?;
    Ok(true)
}

/// How far a script goes on that is told of: not with calls or its text made otherwise, where only
/// so much is left as what would help takes.
fn levels_left(levels: usize) -> usize
    ensures { result ≤ levels }
{
    if levels == HELPED { 0 } else { levels }
}

/// Tells that it isn't told what comes once faults are corrected that are shown, if of each of them
/// it is known what may be meant; whether that is so.
fn add_no_more(items: &mut Items, shown: &[Item]) -> Result<bool, AllocError> {
    let is_known = !corrections_in(items.alloc(), shown)?.is_empty();
    if is_known {
        let text = "what comes once this is corrected too isn't told";
        items.list_text(1, Label::Note, text);
    }
    Ok(is_known)
}

/// The script in which what may be meant stands where faults are shown, and what it spells, if of
/// each of them that is known; tells what is corrected, or that the text is too long for it.
fn meant_in(
    items: &mut Items,
    document: &Document<'_>,
    shown: &[Item],
) -> Result<Option<(Vec<u8>, Value)>, AllocError> {
    let alloc = items.alloc();
    let corrections = corrections_in(alloc, shown)?;
    if corrections.is_empty() {
        return Ok(None);
    }
    if is_too_long(document) {
        add_too_long(items, "what comes once this is corrected");
        return Ok(None);
    }
    let Some(bytes) = mended(alloc, document, &corrections)? else {
        return Ok(None);
    };
    match parse_script(alloc, &bytes) {
        Ok(value) => {
            if has_more_repeats(alloc, document, &bytes, &value)? {
                return Ok(None);
            }
            add_meant(items, document, &corrections)?;
            Ok(Some((bytes, value)))
        }
        Err(ParseFault::NoMemory) => Err(AllocError),
        Err(ParseFault::Refused(_)) => Ok(None),
    }
}

/// Whether more keys are given twice than in the document, of the first ones.
fn has_more_repeats(
    alloc: Global,
    document: &Document<'_>,
    bytes: &[u8],
    value: &Value,
) -> Result<bool, AllocError> {
    let before = repeated_keys(alloc, document.bytes, document.value, MOST)?;
    let after = repeated_keys(alloc, bytes, value, MOST)?;
    Ok(before.len() < after.len())
}

/// Tells what is corrected.
fn add_meant(
    items: &mut Items,
    document: &Document<'_>,
    corrections: &[&Correction],
) -> Result<(), AllocError> {
    let mut words = TextBuilder::of(items.alloc(), "with ");
    put_corrections(&mut words, document, corrections)?;
    words.put(" the script has:");
    items.say(1, Label::Then, words);
    Ok(())
}

/// A script whose calls are made otherwise.
#[derive(Drop)]
struct Recalled {
    value: Value,
    /// The places of the script's calls, from 0, in the order in which they are made; empty where
    /// that is the script's.
    order: Vec<usize>,
    /// Whether what is chosen then stands with a domain that waits.
    is_told_there: bool,
}

/// Tells what the script has once refused calls are made on the nodes that they may mean, if some
/// do; else once calls are made that are missing; else once those are moved that stand too early.
/// What is said now isn't told again, unless this script has something else in its place; nor what it
/// has, where nothing is given for now. Whether something is told; the story goes on so far at most.
#[cycle(list_help)]
pub(crate) fn add_called_otherwise(
    items: &mut Items,
    draft: &Draft<'_>,
    scenario: &Scenario<'_>,
    story: &Story<'_>,
    now: Option<&Story<'_>>,
    levels: usize,
) -> Result<bool, AllocError> {
    let Some(less) = levels.checked_sub(1) else {
        return Ok(false);
    };
    match now {
        Some(now) if are_kept(now, story) => {
            add_recalled(items, draft, scenario, story, Some(now), less)
        }
        Some(_) => {
            let none = no_story(items.alloc());
            add_recalled(items, draft, scenario, story, Some(&none), less)
        }
        None => add_recalled(items, draft, scenario, story, None, less),
    }
}

/// The same, with so far to go on then; where nothing is given for now, that is this story.
#[cycle(list_help)]
fn add_recalled(
    items: &mut Items,
    draft: &Draft<'_>,
    scenario: &Scenario<'_>,
    story: &Story<'_>,
    now: Option<&Story<'_>>,
    levels: usize,
) -> Result<bool, AllocError> {
    let Some(made) = called_otherwise(items, draft, story)? else {
        return Ok(false);
    };
    let order = places_of(items.alloc(), draft, &made.order)?;
    let other = remade(&*draft, &made.value, &order, made.order.is_empty());
    let is_first = levels.saturating_add(1) == FARTHEST;
    let effort = Some(scenario.effort);
    match now {
        _ if made.is_told_there && is_first => add_answer(items, &other, effort, None, levels),
        None => add_answer(items, &other, effort, Some(story), levels),
        Some(now) => add_answer(items, &other, effort, Some(now), levels),
    }?;
    Ok(true)
}

/// The script with refused calls made otherwise, if that is known and its text isn't too long; tells
/// how.
fn called_otherwise(
    items: &mut Items,
    draft: &Draft<'_>,
    story: &Story<'_>,
) -> Result<Option<Recalled>, AllocError> {
    if is_too_long(&draft.text) {
        return Ok(None);
    }
    let script = draft.document.value;
    if let Some(value) = list_meant(items, script, story)? {
        return Ok(Some(Recalled {
            value,
            order: Vec::new(items.alloc()),
            is_told_there: false,
        }));
    }
    if let Some((value, order)) = list_added(items, script, story)? {
        return Ok(Some(Recalled {
            value,
            order,
            is_told_there: false,
        }));
    }
    let Some((value, order)) = list_moved(items, script, story)? else {
        return Ok(None);
    };
    Ok(Some(Recalled {
        value,
        order,
        is_told_there: is_one_pending(story),
    }))
}

/// Whether a domain waits.
fn is_one_pending(story: &Story<'_>) -> bool {
    story
        .domains
        .iter()
        .any(|domain| domain.became == Became::Pending)
}

/// Tells the answer of a script, which of its calls are refused, what would help its domains, and
/// what is chosen unless that is said now, or it isn't to be told as nothing is given for now; or
/// that it is refused itself. What is tried costs of this effort, if one is given. The story goes on
/// so far at most.
#[cycle(list_help)]
pub(crate) fn add_answer(
    items: &mut Items,
    draft: &Draft<'_>,
    effort: Option<&Effort>,
    now: Option<&Story<'_>>,
    levels: usize,
) -> Result<(), AllocError> {
    let alloc = items.alloc();
    match read_script(alloc, draft.document.value) {
        Ok(script) => add_read(items, draft, script, effort, now, levels),
        Err(ParseFault::NoMemory) => Err(AllocError),
        Err(ParseFault::Refused(fault)) => {
            let shown = fault_in(alloc, &draft.document, fault)?;
            let mut below = Items::new(alloc);
            let left = levels_left(levels);
            let _is_told = add_corrected(&mut below, draft, &shown, effort, now, left)?;
            add_shown(items, shown);
            add_one_deeper(items, below)
        }
    }
}

/// Tells the same of a script that isn't refused, whose records are read once.
#[cycle(list_help)]
fn add_read(
    items: &mut Items,
    draft: &Draft<'_>,
    script: Script<'_>,
    effort: Option<&Effort>,
    now: Option<&Story<'_>>,
    levels: usize,
) -> Result<(), AllocError> {
    let alloc = items.alloc();
    let Script { platform, calls } = script;
    let read = read_records(alloc, &calls)?;
    let shared = shared_calls(alloc, &read)?;
    let script = Script {
        platform,
        calls: shared,
    };
    add_weighed(items, draft, &script, effort, now, levels)
}

/// The same, where what is tried costs of this, or as much as of a script by itself.
#[cycle(list_help)]
fn add_weighed(
    items: &mut Items,
    draft: &Draft<'_>,
    script: &Script<'_>,
    effort: Option<&Effort>,
    now: Option<&Story<'_>>,
    levels: usize,
) -> Result<(), AllocError> {
    match effort {
        Some(effort) => { add_script(items, &*draft, &*script, effort, now, levels) },
        None => {
            let effort = Effort::new(items.alloc(), &script.platform, &script.calls)?;
            add_script(items, &*draft, &*script, &effort, now, levels)
        }
    }
}

/// What is told of a fault of a script.
fn fault_in(
    alloc: Global,
    document: &Document<'_>,
    fault: ScriptFault,
) -> Result<Vec<Item>, AllocError> {
    let mut told = Items::new(alloc);
    add_fault(&mut told, document, fault)?;
    told.into_list()
}

/// Puts what is told of faults, but for titles, below a correction.
fn add_shown(items: &mut Items, shown: Vec<Item>) {
    for mut item in shown {
        if item.kind == Kind::Title {
            continue;
        }
        if item.kind == Kind::Answer {
            item.kind = Kind::Words;
        }
        item.depth = item.depth.max(1).saturating_add(1);
        items.add(item);
    }
}

/// Puts items one deeper after others.
fn add_one_deeper(items: &mut Items, below: Items) -> Result<(), AllocError> {
    for mut item in below.into_list()? {
        item.depth = item.depth.saturating_add(1);
        items.add(item);
    }
    Ok(())
}

/// Tells the answer of a script that isn't refused, which of its calls are, what would help its
/// domains, and what is chosen unless that is said now; or what it has once faults are corrected, or
/// its calls made otherwise that were refused.
#[cycle(list_help)]
fn add_script<'a>(
    items: &mut Items,
    draft: &Draft<'a>,
    script: &Script<'a>,
    effort: &Effort,
    now: Option<&Story<'_>>,
    levels: usize,
) -> Result<(), AllocError> {
    let alloc = items.alloc();
    let scenario = Scenario {
        platform: &script.platform,
        calls: &script.calls,
        effort,
    };
    let told = scenario.tell(alloc, &script.calls)?;
    if told.report.starved {
        return Err(AllocError);
    }
    let story = story_of(alloc, draft.document.value, &script.calls, &told)?;
    let left = levels_left(levels);
    if add_mended(items, draft, &scenario, &story, now, left)? {
        return Ok(());
    }
    add_domains_then(items, draft, &scenario, &story, now, levels)
}

/// Tells the answer of a story, which of its calls are refused, and what the script has once faults
/// are corrected, or else these calls made otherwise; whether that is told. The story goes on so far
/// at most.
#[cycle(list_help)]
pub(crate) fn add_mended(
    items: &mut Items,
    draft: &Draft<'_>,
    scenario: &Scenario<'_>,
    story: &Story<'_>,
    now: Option<&Story<'_>>,
    levels: usize,
) -> Result<bool, AllocError> {
    let alloc = items.alloc();
    let shown = shown_calls(alloc, draft, story)?;
    let mut below = Items::new(alloc);
    let effort = Some(scenario.effort);
    let is_told = add_corrected(&mut below, draft, &shown, effort, now, levels)?
        || add_called_otherwise(&mut below, draft, scenario, story, now, levels)?;
    items.say(2, Label::Plain, answer_of(alloc, story));
    add_shown(items, shown);
    add_one_deeper(items, below)?;
    Ok(is_told)
}

/// Tells why each domain has no settings, or none with an earlier child, and what would help; and
/// what is chosen unless that is said now.
#[cycle(list_help)]
fn add_domains_then(
    items: &mut Items,
    draft: &Draft<'_>,
    scenario: &Scenario<'_>,
    story: &Story<'_>,
    now: Option<&Story<'_>>,
    levels: usize,
) -> Result<(), AllocError> {
    for (index, domain) in story.domains.iter().enumerate() {
        match now {
            _ if domain.became != Became::Chosen => {
                add_unmet(items, draft, scenario, story, index, levels.min(HELPED))?
            }
            Some(now) => add_chosen(items, &draft.document, scenario, story, index, now)?,
            None => add_shortly(items, scenario.platform, story, index)?,
        }
    }
    Ok(())
}

/// Tells why a domain has no settings, and what would help it; above that stands which it is, where
/// there are several.
#[cycle(list_help)]
fn add_unmet(
    items: &mut Items,
    draft: &Draft<'_>,
    scenario: &Scenario<'_>,
    story: &Story<'_>,
    index: usize,
    levels: usize,
) -> Result<(), AllocError> {
    let Some(domain) = story.domains.get(index) else {
        return Ok(());
    };
    if story.domains.len() < 2 {
        return add_why(items, draft, scenario, story, index, levels, 1);
    }
    put_head(items, story, domain, 2);
    add_why(items, draft, scenario, story, index, levels, 2)
}

/// Tells what is chosen in a domain, unless that is said now, and what isn't; above that stands which
/// it is, where there are several.
fn add_chosen(
    items: &mut Items,
    document: &Document<'_>,
    scenario: &Scenario<'_>,
    story: &Story<'_>,
    index: usize,
    now: &Story<'_>,
) -> Result<(), AllocError> {
    let Some(domain) = story.domains.get(index) else {
        return Ok(());
    };
    if is_said(now, story, domain) && !leaves_out_more(now, story, index) {
        return Ok(());
    }
    let depth = if story.domains.len() < 2 {
        2
    } else {
        put_head(items, story, domain, 2);
        3
    };
    let mut told = Items::new(items.alloc());
    domain.told.tell(&mut told, depth);
    for mut item in told.into_list()? {
        item.label = Label::Promised;
        items.add(item);
    }
    put_choice(items, depth, children_of(items.alloc(), story, index)?);
    add_not_chosen(items, scenario, document.value, story, index, depth)?;
    add_idle_modifiers(items, document, story, index, depth)
}

/// Whether more participants in the domain of an index have constraints and aren't chosen then than
/// now: one of them may be a child that would do too.
fn leaves_out_more(now: &Story<'_>, then: &Story<'_>, index: usize) -> bool {
    match index_at(now, then.path(then.root_of(index))) {
        Some(known) => left_in(now, known) < left_in(then, index),
        None => true,
    }
}

/// How many participants in the domain of an index have constraints and aren't chosen.
fn left_in(story: &Story<'_>, domain: usize) -> usize {
    story
        .nodes
        .iter()
        .filter(|node| node.domain == domain && node.constraints.is_some() && !node.is_selected)
        .count()
}

/// Whether of each domain that is chosen now the same is said then.
fn are_kept(now: &Story<'_>, then: &Story<'_>) -> bool {
    for domain in &then.domains {
        match domain_now(now, then, domain) {
            Some(known) if known.became == Became::Chosen && !is_said(now, then, domain) => {
                return false;
            }
            _ => {}
        }
    }
    true
}

/// Whether the same is said of a domain now.
fn is_said(now: &Story<'_>, then: &Story<'_>, domain: &Domain) -> bool {
    match domain_now(now, then, domain) {
        Some(known) => known.told.said.as_str() == domain.told.said.as_str(),
        None => false,
    }
}
