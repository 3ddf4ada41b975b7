//! What would help a domain; and where calls made otherwise leave it without settings, why, and what
//! would help then.

ghost use Rattle.std.specs.Prelude.{◌≡◌};

use crate::corrected::add_mended;
use crate::domains::add_edits;
use crate::drafts::{Draft, places_of, remade};
use crate::not_chosen::add_not_chosen;
use constraint_changes::{RestatedConstraints, put_choice, restated};
use domain_reasons::{
    add_domain, add_gone, add_reasons, choices_in, domain_now, put_end, put_head,
};
use explanation_text::{Items, Label, Text, TextBuilder, are_same};
use other_outcomes::{
    Otherwise, add_ended_earlier, add_groups_exchanged, add_later_children, add_onlooker,
    add_released, add_taken_pairs, add_then, add_without, reordered, with_calls,
};
use script_reading::Call;
use script_story::{Became, Domain, Scenario, Story, refused_calls, story_of};
use serde_json::Value;
use std::alloc::{AllocError, Global};
use sysmem_tree::Refusal;

/// How often a story goes on at most.
pub(crate) const LEVELS: usize = 3;
/// How often it goes on with what would help at most, once calls or the text are others.
pub(crate) const HELPED: usize = 2;

/// The domain at a path, whose story goes on so often at most.
#[derive(Clone, Copy)]
struct Place<'a> {
    path: &'a str,
    levels: usize,
    /// Whether there are groups, whose children are chosen, or other domains.
    has_more: bool,
    /// Whether it is chosen as the calls are.
    is_chosen: bool,
}

/// Tells what would help a domain that is pending or empty, and what else one could be that is
/// chosen; of calls made otherwise that choose nothing it goes on so often at most.
#[cycle(list_help)]
pub(crate) fn list_help(
    items: &mut Items,
    draft: &Draft<'_>,
    scenario: &Scenario<'_>,
    story: &Story<'_>,
    index: usize,
    levels: usize,
) -> Result<(), AllocError> {
    let Some(domain) = story.domains.get(index) else {
        return Ok(());
    };
    let path = story.path(domain.root);
    let place = place_of(story, path, levels, domain.became);
    match domain.became {
        Became::Pending => {
            let then = add_then(items, scenario, story, path)?;
            if levels < LEVELS || chooses(&then) {
                add_further(items, draft, scenario, story, then, place)?;
            } else {
                add_above(items, &then);
            }
            let is_first = levels == LEVELS;
            let then = add_without(items, scenario, story, index, path, is_first)?;
            add_further(items, draft, scenario, story, then, place)
        }
        Became::Empty if scenario.effort.is_spent() => Ok(()),
        Became::Empty => {
            let stated = add_edits(items, &draft.document, scenario, story, index)?;
            add_onlooker(items, scenario, story, index, path)?;
            add_changed(items, draft, scenario, story, &stated, levels)
        }
        Became::Failed => {
            let then = add_released(items, scenario, story, index, path)?;
            add_further(items, draft, scenario, story, then, place)
        }
        Became::Chosen => {
            let once = place_of(story, path, if levels > 0 { 1 } else { 0 }, domain.became);
            let then = add_ended_earlier(items, scenario, story, index, path)?;
            add_further(items, draft, scenario, story, then, once)?;
            let then = add_groups_exchanged(
                items,
                scenario,
                draft.document.value,
                story,
                index,
                path,
            )?;
            add_further(items, draft, scenario, story, then, once)?;
            add_later(items, scenario, draft.document.value, story, index, path)
        }
        _ => Ok(()),
    }
}

/// Tells what the script has where calls state this, if one is answered otherwise then, or a domain
/// isn't chosen. The story goes on so often at most.
#[cycle(list_help)]
fn add_changed(
    items: &mut Items,
    draft: &Draft<'_>,
    scenario: &Scenario<'_>,
    story: &Story<'_>,
    stated: &[RestatedConstraints],
    levels: usize,
) -> Result<(), AllocError> {
    let Some(levels) = levels.checked_sub(1) else {
        return Ok(());
    };
    let is_alone = refused_calls(story) == 0 && story.domains.len() < 2;
    if stated.is_empty() || is_alone || scenario.effort.is_spent() {
        return Ok(());
    }
    let calls = restated(items.alloc(), scenario.calls, stated)?;
    add_replayed(items, draft, scenario, story, &calls, levels)
}

/// The same of these calls.
#[cycle(list_help)]
fn add_replayed(
    items: &mut Items,
    draft: &Draft<'_>,
    scenario: &Scenario<'_>,
    now: &Story<'_>,
    calls: &Vec<Call<'_>>,
    levels: usize,
) -> Result<(), AllocError> {
    let alloc = items.alloc();
    let other = Scenario {
        platform: &*scenario.platform,
        calls: &*calls,
        effort: &*scenario.effort,
    };
    let told = other.tell(alloc, calls)?;
    if told.report.starved {
        return Err(AllocError);
    }
    let story = story_of(alloc, draft.document.value, calls, &told)?;
    if !is_answered_otherwise(now, &story) && are_all_chosen(&story) {
        return Ok(());
    }
    let text = "with the first of these decisions the script has";
    let mut words = TextBuilder::of(items.alloc(), text);
    words.head();
    items.say(1, Label::Then, words);
    add_refused(items, draft, &other, &story, levels)?;
    add_new(items, draft, &other, &story, now, None, levels)?;
    add_empty_otherwise(items, draft, &other, &story, now, levels)
}

/// Tells of the late domains that are empty now and then, for other reasons, why that is then, and
/// what would help.
#[cycle(list_help)]
fn add_empty_otherwise(
    items: &mut Items,
    draft: &Draft<'_>,
    scenario: &Scenario<'_>,
    story: &Story<'_>,
    now: &Story<'_>,
    levels: usize,
) -> Result<(), AllocError> {
    for (index, domain) in story.domains.iter().enumerate() {
        let is_told = is_empty_otherwise(items.alloc(), scenario, now, story, index)?;
        if is_told && !scenario.effort.is_spent() {
            put_head(items, story, domain, 2);
            add_why(items, draft, scenario, story, index, levels, 2)?;
        }
    }
    Ok(())
}

/// Whether the late domain of an index is empty now and then, for other reasons.
fn is_empty_otherwise(
    alloc: Global,
    scenario: &Scenario<'_>,
    now: &Story<'_>,
    then: &Story<'_>,
    index: usize,
) -> Result<bool, AllocError> {
    let Some(domain) = then.domains.get(index) else {
        return Ok(false);
    };
    let Some(before) = index_at(now, then.path(domain.root)) else {
        return Ok(false);
    };
    let was_empty = matches!(now.domains.get(before), Some(known) if known.became == Became::Empty);
    if domain.host.is_none() || domain.became != Became::Empty || !was_empty {
        return Ok(false);
    }
    let mut reasons = Items::new(alloc);
    add_domain(&mut reasons, scenario.platform, now, before)?;
    let mut others = Items::new(alloc);
    add_domain(&mut others, scenario.platform, then, index)?;
    let is_same = are_same(&reasons, &others);
    let _told = (reasons.into_list()?, others.into_list()?);
    Ok(!is_same)
}

/// Tells the answer of a story of these calls, which of them are refused, and what the script has
/// once their faults are corrected, or those that are refused made otherwise too.
#[cycle(list_help)]
fn add_refused(
    items: &mut Items,
    draft: &Draft<'_>,
    scenario: &Scenario<'_>,
    story: &Story<'_>,
    levels: usize,
) -> Result<(), AllocError> {
    if refused_calls(story) == 0 || scenario.effort.is_spent() {
        let _is_told = add_mended(items, draft, scenario, story, Some(story), 0)?;
        return Ok(());
    }
    let value = with_calls(items.alloc(), draft.document.value, scenario.calls)?;
    let other = remade(&*draft, &value, draft.order, false);
    let _is_told = add_mended(items, &other, scenario, story, Some(story), levels)?;
    Ok(())
}

/// Whether each domain has settings.
fn are_all_chosen(story: &Story<'_>) -> bool {
    for domain in &story.domains {
        if domain.became != Became::Chosen {
            return false;
        }
    }
    true
}

/// Whether one of the same calls, but those that ask for the decision, is answered otherwise then.
fn is_answered_otherwise(now: &Story<'_>, then: &Story<'_>) -> bool {
    now.calls.iter().zip(&then.calls).any(|(before, after)| !after.asks()
        && before.reply != after.reply)
}

/// Tells of later children and pairs what would be decided if they came before what is chosen.
pub(crate) fn add_later(
    items: &mut Items,
    scenario: &Scenario<'_>,
    value: &Value,
    story: &Story<'_>,
    index: usize,
    path: &str,
) -> Result<(), AllocError> {
    add_later_children(items, scenario, value, story, index, path)?;
    add_taken_pairs(items, scenario, value, story, index, path)
}

/// The domain at a path of a story, of which this became, and which goes on so often at most.
fn place_of<'a>(story: &Story<'_>, path: &'a str, levels: usize, became: Became) -> Place<'a>
    ensures { result.levels ≡ levels }
{
    Place {
        path,
        levels,
        has_more: are_groups(story) || story.domains.len() > 1,
        is_chosen: became == Became::Chosen,
    }
}

/// Whether one of the nodes is a group.
fn are_groups(story: &Story<'_>) -> bool {
    for node in 0..story.nodes.len() {
        if story.is_group(node) {
            return true;
        }
    }
    false
}

/// Whether settings are chosen where calls are made otherwise.
fn chooses(then: &Option<Otherwise<'_>>) -> bool {
    match then {
        Some(then) => then.is_chosen,
        None => false,
    }
}

/// Tells where it is told why calls that are moved choose nothing, if some are.
fn add_above(items: &mut Items, then: &Option<Otherwise<'_>>) {
    if then.is_some() {
        items.list_text(
            2,
            Label::Plain,
            "why, and what would help, stands with the calls to look at",
        )
    }
}

/// Goes on with the domain at a path where these calls are made: which children are chosen; or why
/// there are no settings, and what would help then.
#[cycle(list_help)]
fn add_further(
    items: &mut Items,
    draft: &Draft<'_>,
    scenario: &Scenario<'_>,
    story: &Story<'_>,
    then: Option<Otherwise<'_>>,
    place: Place<'_>,
) -> Result<(), AllocError> {
    let Some(then) = then else {
        return Ok(());
    };
    let Some(levels) = place.levels.checked_sub(1) else {
        return Ok(());
    };
    let is_all = then.is_chosen && place.is_chosen && !place.has_more;
    if is_all || scenario.effort.is_spent() {
        return Ok(());
    }
    let place = Place { levels, ..place };
    if then.order.is_empty() {
        return add_made(items, draft, scenario, story, &then, place);
    }
    let alloc = items.alloc();
    let value = reordered(alloc, draft.document.value, &then.order)?;
    let order = places_of(alloc, draft, &then.order)?;
    let other = remade(&*draft, &value, &order, false);
    add_made(items, &other, scenario, story, &then, place)
}

/// The same, with the calls where the draft has them; which of them are refused then for another
/// reason than that their domain failed; and then of the domains that there are only with these calls.
#[cycle(list_help)]
fn add_made(
    items: &mut Items,
    draft: &Draft<'_>,
    scenario: &Scenario<'_>,
    now: &Story<'_>,
    then: &Otherwise<'_>,
    place: Place<'_>,
) -> Result<(), AllocError> {
    let alloc = items.alloc();
    let other = Scenario {
        platform: &*scenario.platform,
        calls: &then.calls,
        effort: &*scenario.effort,
    };
    let told = other.tell(alloc, &then.calls)?;
    if told.report.starved {
        return Err(AllocError);
    }
    let story = story_of(alloc, draft.document.value, &then.calls, &told)?;
    let own = index_at(&story, place.path);
    if let Some(index) = own {
        add_index(items, draft, &other, &story, index, place)?;
    }
    if then.order.is_empty() && is_refused_otherwise(now, &story) {
        add_refused(items, draft, &other, &story, place.levels)?;
    }
    add_new(items, draft, &other, &story, now, own, place.levels)?;
    add_gone(items, &story, now, 2);
    Ok(())
}

/// Whether one of the same calls is refused for another reason than that its domain failed.
fn is_refused_otherwise(now: &Story<'_>, then: &Story<'_>) -> bool {
    now.calls.iter().zip(&then.calls).any(|(before, after)| {
        before.is_refused_as(Refusal::DomainFailed)
            && !after.is_refused_as(Refusal::DomainFailed)
            && !after.is_accepted()
            && !after.asks()
    })
}

/// Tells of the domains that there aren't now, or that are chosen now, or failed now and not for
/// themselves, which have no settings then, why that is, and what would help; but of that one whose
/// story it is.
#[cycle(list_help)]
fn add_new(
    items: &mut Items,
    draft: &Draft<'_>,
    scenario: &Scenario<'_>,
    story: &Story<'_>,
    now: &Story<'_>,
    own: Option<usize>,
    levels: usize,
) -> Result<(), AllocError> {
    for (index, domain) in story.domains.iter().enumerate() {
        let is_other = own != Some(index) && is_new(now, story, domain);
        let is_told = is_other && domain.became != Became::Chosen;
        if is_told && !scenario.effort.is_spent() {
            put_head(items, story, domain, 2);
            add_why(items, draft, scenario, story, index, levels, 2)?;
        }
    }
    Ok(())
}

/// Tells why a domain has no settings, so much deeper, and what would help it.
#[cycle(list_help)]
pub(crate) fn add_why(
    items: &mut Items,
    draft: &Draft<'_>,
    scenario: &Scenario<'_>,
    story: &Story<'_>,
    index: usize,
    levels: usize,
    deeper: usize,
) -> Result<(), AllocError> {
    add_reasons(items, scenario.platform, story, index, deeper)?;
    if scenario.effort.is_spent() {
        return Ok(());
    }
    add_help_then(items, draft, scenario, story, index, levels, deeper)
}

/// Whether there isn't a domain now, or it is chosen, or it failed since the one to which it was
/// attached has no settings, and doesn't then.
fn is_new(now: &Story<'_>, then: &Story<'_>, domain: &Domain) -> bool {
    match domain_now(now, then, domain) {
        Some(known) if known.became == Became::Failed => {
            known.host.is_some() && domain.became != Became::Failed
        }
        Some(known) => known.became == Became::Chosen && domain.became != Became::Chosen,
        None => true,
    }
}

/// The domain at a path, by index.
pub(crate) fn index_at(story: &Story<'_>, path: &str) -> Option<usize> {
    for (index, domain) in story.domains.iter().enumerate() {
        if story.path(domain.root) == path {
            return Some(index);
        }
    }
    None
}

/// The same of the domain of an index.
#[cycle(list_help)]
fn add_index(
    items: &mut Items,
    draft: &Draft<'_>,
    scenario: &Scenario<'_>,
    story: &Story<'_>,
    index: usize,
    place: Place<'_>,
) -> Result<(), AllocError> {
    let Some(domain) = story.domains.get(index) else {
        return Ok(());
    };
    if domain.became == Became::Chosen {
        return add_chosen(items, draft, scenario, story, index, place.is_chosen);
    }
    if place.is_chosen {
        return add_reasons(items, scenario.platform, story, index, 1);
    }
    add_why(items, draft, scenario, story, index, place.levels, 1)
}

/// Tells which children a domain chooses then; and what isn't chosen, unless it is chosen as the
/// calls are.
fn add_chosen(
    items: &mut Items,
    draft: &Draft<'_>,
    scenario: &Scenario<'_>,
    story: &Story<'_>,
    index: usize,
    is_now: bool,
) -> Result<(), AllocError> {
    put_choice(items, 2, children_of(items.alloc(), story, index)?);
    if is_now {
        Ok(())
    } else {
        add_not_chosen(items, scenario, draft.document.value, story, index, 2)
    }
}

/// Which children the domain of an index chooses.
pub(crate) fn children_of(
    alloc: Global,
    story: &Story<'_>,
    index: usize,
) -> Result<Text, AllocError> {
    match story.domains.get(index) {
        Some(domain) => choices_in(alloc, story, domain.root, domain.told.selection()),
        None => Ok(Text::new(alloc)),
    }
}

/// Tells what would help a domain then, so much deeper, if the story is to go on.
#[cycle(list_help)]
pub(crate) fn add_help_then(
    items: &mut Items,
    draft: &Draft<'_>,
    scenario: &Scenario<'_>,
    story: &Story<'_>,
    index: usize,
    levels: usize,
    deeper: usize,
) -> Result<(), AllocError> {
    if levels == 0 {
        put_end(items, story, index, deeper);
        return Ok(());
    }
    let mut help = Items::new(items.alloc());
    list_help(&mut help, draft, scenario, story, index, levels)?;
    items.append_section(help, deeper, usize::MAX)
}
