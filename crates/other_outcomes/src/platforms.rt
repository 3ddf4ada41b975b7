//! A platform with one pair more, where participants take a format that it lacks.

ghost use Rattle.std.specs.Prelude.{◌≡◌, IfOk, IfSome};
ghost use Rattle.other_outcomes.specs.OtherPlatform.{IsPromisedOn, with_pair};

use explanation_text::{Items, Label, TextBuilder};
use negotiation_inputs::Platform;
use script_story::{Outcome, Scenario};
use std::alloc::{AllocError, Global};
use sysmem_formats::{Modifier, Pair};
use sysmem_memory::{Heap, HeapInfo};
use value_sources::NamedParticipant;

/// How many pairs are tried.
const MOST: usize = 4;

/// Tells the first pair that participants name and the platform lacks with which the domain at a
/// path would have settings, and what would be decided then.
pub fn add_platform(
    items: &mut Items,
    scenario: &Scenario<'_>,
    path: &str,
    participants: &[NamedParticipant<'_>],
) -> Result<(), AllocError> {
    let alloc = items.alloc();
    let lacked = lacked_pairs(alloc, scenario.platform, participants)?;
    for pair in lacked.iter().take(MOST) {
        if let Some(outcome) = outcome_with(alloc, scenario, path, *pair)? {
            add_pair(items, *pair);
            put_promised(items, scenario, path, *pair, outcome);
            return Ok(());
        }
    }
    Ok(())
}

fn add_pair(items: &mut Items, pair: Pair) {
    let mut words = TextBuilder::of(items.alloc(), "with ");
    words.format(pair.format).put(" ");
    words.modifier(pair.modifier);
    words.put(" on the platform it would be:");
    items.say(1, Label::Then, words)
}

/// What the domain at a path would be on the platform with one pair more, if it would be chosen.
fn outcome_with(
    alloc: Global,
    scenario: &Scenario<'_>,
    path: &str,
    pair: Pair,
) -> Result<Option<Outcome>, AllocError>
    ensures { IfOk result (λ said. IfSome said (λ what. IsPromisedOn scenario.now.platform.now
        scenario.now.platform.now.heaps (with_pair scenario.now.platform.now.pairs pair)
        scenario.now.calls.now path.now what)) }
{
    let mut pairs = Vec::from_slice(alloc, scenario.platform.pairs())?;
    pairs.push(pair)?;
    let heaps = heaps_of(alloc, scenario.platform)?;
    outcome_on(alloc, scenario, heaps, pairs, path)
}

/// The pairs that participants name and the platform lacks, each once; without a modifier the
/// linear one is meant.
fn lacked_pairs(
    alloc: Global,
    platform: &Platform,
    participants: &[NamedParticipant<'_>],
) -> Result<Vec<Pair>, AllocError> {
    let mut lacked: Vec<Pair> = Vec::new(alloc);
    for participant in participants {
        for entry in participant.asked.entries() {
            let Some(format) = entry.format else {
                continue;
            };
            let modifier = entry.modifier.unwrap_or(Modifier::Linear);
            let pair = Pair { format, modifier };
            if !platform.pairs().contains(&pair) && !lacked.contains(&pair) {
                lacked.push(pair)?;
            }
        }
    }
    Ok(lacked)
}

/// The platform's heaps.
pub(crate) fn heaps_of(alloc: Global, platform: &Platform) -> Result<Vec<HeapInfo>, AllocError>
    ensures { IfOk result (λ made. made.items ≡ platform.now.heaps) }
{
    let mut heaps = Vec::new(alloc);
    for info in platform.heaps() {
        heaps.push(same_info(info)?)?;
    }
    Ok(heaps)
}

/// The same heap, with what the platform says of it.
fn same_info(info: &HeapInfo) -> Result<HeapInfo, AllocError>
    ensures { IfOk result (λ same. same ≡ info.now) }
{
    Ok(HeapInfo {
        heap: Heap {
            heap_type: info.heap.heap_type.clone()?,
            id: info.heap.id,
        },
        contiguous: info.contiguous,
        secure: info.secure,
        domains: info.domains,
    })
}

/// What the domain at a path would be on the platform with these heaps and pairs, if it would be
/// chosen.
pub(crate) fn outcome_on(
    alloc: Global,
    scenario: &Scenario<'_>,
    heaps: Vec<HeapInfo>,
    pairs: Vec<Pair>,
    path: &str,
) -> Result<Option<Outcome>, AllocError>
    ensures { IfOk result (λ said. IfSome said (λ what. IsPromisedOn scenario.now.platform.now
        heaps.items pairs.items scenario.now.calls.now path.now what)) }
{
    let colours = Vec::from_slice(alloc, scenario.platform.colours())?;
    let Ok(platform) = Platform::of(heaps, pairs, colours) else {
        return Ok(None);
    };
    let other = Scenario {
        platform: &platform,
        calls: scenario.calls,
        effort: scenario.effort,
    };
    match other.outcome(alloc, scenario.calls, path)? {
        Some(outcome) if outcome.is_chosen() => Ok(Some(outcome)),
        _ => Ok(None),
    }
}

/// Puts the decision that comes with one pair more.
fn put_promised(
    items: &mut Items,
    scenario: &Scenario<'_>,
    path: &str,
    pair: Pair,
    outcome: Outcome,
)
    requires { IsPromisedOn scenario.now.platform.now scenario.now.platform.now.heaps
        (with_pair scenario.now.platform.now.pairs pair) scenario.now.calls.now path.now outcome }
{
    outcome.promise(items, 2)
}
