//! A platform that has another pair first, where participants list that before the chosen one, or
//! all take it.

ghost use Rattle.std.specs.Prelude.{◌≡◌, IfOk, IfSome};
ghost use Rattle.other_outcomes.specs.OtherPlatform.{IsPromisedOn, with_first};

use crate::platforms::{heaps_of, outcome_on};
use domain_reasons::Losses;
use explanation_text::{Items, Label, TextBuilder};
use negotiation_inputs::Platform;
use script_story::{Outcome, Scenario, Story, asked_in};
use serde_json::Value;
use settings_reasons::{is_taken, listed_before};
use std::alloc::{AllocError, Global};
use sysmem_formats::{Offer, Pair};
use sysmem_image::Entry;
use value_sources::NamedParticipant;

/// How many pairs are tried.
const MOST: usize = 3;

/// Tells of pairs that stand after the chosen one on the platform what would be decided if they
/// stood first there: of those that participants of a chosen domain list before the chosen one, and
/// of those that a participant names and all take, wherever they list them. Tells which other
/// domains have no settings then.
pub fn add_taken_pairs(
    items: &mut Items,
    scenario: &Scenario<'_>,
    value: &Value,
    story: &Story<'_>,
    index: usize,
    path: &str,
) -> Result<(), AllocError> {
    let alloc = items.alloc();
    let Some(chosen) = pair_of(story, index) else {
        return Ok(());
    };
    let mut pairs = listed_in(alloc, scenario, story, index, chosen)?;
    let participants = asked_in(alloc, story, index, true)?;
    for pair in after(scenario.platform.pairs(), chosen) {
        if are_taking(&participants, *pair) && !pairs.contains(pair) {
            pairs.push(*pair)?;
        }
    }
    try_each(items, scenario, value, story, &pairs, path, chosen)
}

/// Tells what the domain at a path would be if one of some pairs stood first on the platform, of
/// each of the first of them.
fn try_each(
    items: &mut Items,
    scenario: &Scenario<'_>,
    value: &Value,
    story: &Story<'_>,
    pairs: &[Pair],
    path: &str,
    chosen: Pair,
) -> Result<(), AllocError> {
    for pair in pairs.iter().take(MOST) {
        if try_pair_first(items, scenario, path, *pair, chosen)? {
            add_lost_then(items, scenario, value, story, *pair)?;
        }
    }
    Ok(())
}

/// Tells which other domains have no settings with a pair first on the platform.
fn add_lost_then(
    items: &mut Items,
    scenario: &Scenario<'_>,
    value: &Value,
    story: &Story<'_>,
    pair: Pair,
) -> Result<(), AllocError> {
    let alloc = items.alloc();
    let pairs = pairs_from(alloc, scenario.platform.pairs(), pair)?;
    let heaps = heaps_of(alloc, scenario.platform)?;
    let colours = Vec::from_slice(alloc, scenario.platform.colours())?;
    let Ok(platform) = Platform::of(heaps, pairs, colours) else {
        return Ok(());
    };
    let other = Scenario {
        platform: &platform,
        calls: scenario.calls,
        effort: scenario.effort,
    };
    Losses::by(items.alloc(), &other, value, story, 2)?.put_into(items);
    Ok(())
}

/// The pairs after one of them; none where it isn't there.
fn after(pairs: &[Pair], chosen: Pair) -> &[Pair] {
    for (k, pair) in pairs.iter().enumerate() {
        if *pair == chosen {
            return pairs.get(k.saturating_add(1)..).unwrap_or(&[]);
        }
    }
    &[]
}

/// Whether all participants with entries take a pair, and one of them names its format.
fn are_taking(participants: &[NamedParticipant<'_>], pair: Pair) -> bool {
    let mut is_named = false;
    for participant in participants {
        let entries = participant.asked.entries();
        if !entries.is_empty() && !is_taken_by(entries, pair) {
            return false;
        }
        is_named = is_named || is_named_by(entries, pair);
    }
    is_named
}

/// Whether one of some entries takes a pair.
fn is_taken_by(entries: &[Entry], pair: Pair) -> bool {
    entries.iter().any(|entry| is_taken(entry, pair))
}

/// Whether one of some entries names a pair's format, and takes the pair.
fn is_named_by(entries: &[Entry], pair: Pair) -> bool {
    entries
        .iter()
        .any(|entry| entry.format.is_some() && is_taken(entry, pair))
}

/// The pairs that participants of a domain list before the chosen one.
fn listed_in(
    alloc: Global,
    scenario: &Scenario<'_>,
    story: &Story<'_>,
    index: usize,
    chosen: Pair,
) -> Result<Vec<Pair>, AllocError> {
    let participants = asked_in(alloc, story, index, true)?;
    listed_before(alloc, scenario.platform, &participants, chosen)
}

/// Tells what the domain at a path would be if a pair stood first on the platform, if that would be
/// chosen; whether it would.
fn try_pair_first(
    items: &mut Items,
    scenario: &Scenario<'_>,
    path: &str,
    pair: Pair,
    chosen: Pair,
) -> Result<bool, AllocError> {
    let Some(outcome) = outcome_first(items.alloc(), scenario, path, pair)? else {
        return Ok(false);
    };
    add_pair(items, pair, chosen);
    put_promised(items, scenario, path, pair, outcome);
    Ok(true)
}

/// The pair that was chosen for a domain that isn't attached.
fn pair_of(story: &Story<'_>, index: usize) -> Option<Pair> {
    let domain = story.domains.get(index)?;
    if domain.host.is_some() {
        return None;
    }
    match domain.settings.as_ref()?.offer {
        Offer::Image(pair, _) => Some(pair),
        Offer::NoImage => None,
    }
}

fn add_pair(items: &mut Items, pair: Pair, chosen: Pair) {
    let mut words = TextBuilder::new(items.alloc());
    words.format(pair.format).put(" ").modifier(pair.modifier);
    words.put(" would do too, but stands after ");
    words.format(chosen.format).put(" ");
    words.modifier(chosen.modifier);
    words.put(" on the platform, whose order decides, not the entries'; ");
    words.put("with it first there it would be:");
    items.say(1, Label::Then, words)
}

/// What the domain at a path would be if a pair stood first on the platform, if that would be
/// chosen.
fn outcome_first(
    alloc: Global,
    scenario: &Scenario<'_>,
    path: &str,
    pair: Pair,
) -> Result<Option<Outcome>, AllocError>
    ensures { IfOk result (λ said. IfSome said (λ what. IsPromisedOn scenario.now.platform.now
        scenario.now.platform.now.heaps (with_first scenario.now.platform.now.pairs pair)
        scenario.now.calls.now path.now what)) }
{
    let pairs = pairs_from(alloc, scenario.platform.pairs(), pair)?;
    let heaps = heaps_of(alloc, scenario.platform)?;
    match outcome_on(alloc, scenario, heaps, pairs, path)? {
        Some(outcome) if is_of(&outcome, pair) => Ok(Some(outcome)),
        _ => Ok(None),
    }
}

/// The pairs of a platform with one of them first.
fn pairs_from(alloc: Global, pairs: &[Pair], first: Pair) -> Result<Vec<Pair>, AllocError>
    ensures { IfOk result (λ made. made.items ≡ with_first pairs.now first) }
{
    let mut made = Vec::new(alloc);
    made.push(first)?;
    for other in pairs {
        if *other != first {
            made.push(*other)?;
        }
    }
    Ok(made)
}

/// Whether an image of a pair was chosen.
fn is_of(outcome: &Outcome, pair: Pair) -> bool {
    match outcome.chosen() {
        Some(chosen) => matches!(chosen.settings().offer, Offer::Image(other, _) if other == pair),
        None => false,
    }
}

/// Puts the decision that comes with a pair first.
fn put_promised(
    items: &mut Items,
    scenario: &Scenario<'_>,
    path: &str,
    pair: Pair,
    outcome: Outcome,
)
    requires { IsPromisedOn scenario.now.platform.now scenario.now.platform.now.heaps
        (with_first scenario.now.platform.now.pairs pair) scenario.now.calls.now path.now outcome }
{
    outcome.promise(items, 2)
}
