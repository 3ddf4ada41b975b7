//! Which domains have failed, and which of them a call or a decision made fail.

ghost use Rattle.std.specs.Prelude.{◌≡◌, ◌<◌, ℕ, None, false, get_or, IfSome};
ghost use Rattle.script_reading.specs.Seen.{act_seen};
ghost use Rattle.script_replay.specs.Answer.{AsksVerdict};
ghost use Rattle.script_replay.specs.Events.{Adds, events_of, failed_events};
ghost use Rattle.script_replay.specs.Marks.{AreMarksOf, failed_at, failed_unmarked_at};
ghost use Rattle.sysmem_tree.specs.Domain.{HasDomain, TreeFacts};

use crate::event::{DomainFate, Events};
use script_reading::Act;
use std::alloc::AllocError;
use sysmem_tree::{DomainId, MOST_NODES, Tree};

/// The domains that have failed, marked in order of creation of their roots; `None` before an act
/// that only asks for the verdict, as it makes none fail.
pub(crate) fn failed_before(tree: &Tree, act: &Act<'_>) -> Option<[bool; MOST_NODES]>
    ensures marks { IfSome result
        (λ marks. (k : ℕ) → get_or marks k false ≡ failed_at tree.now k) }
    ensures asks { result ≡ None → AsksVerdict (act_seen act.now) }
{
    match act {
        Act::Check => None,
        Act::Wait => None,
        _ => Some(tree.failed_domains()),
    }
}

/// The domain of this index, if it has failed and hadn't, both by marks.
fn newly_failed_at(
    tree: &Tree,
    have_failed: &[bool; MOST_NODES],
    had_failed: &[bool; MOST_NODES],
    index: u32,
) -> Option<DomainId>
    requires small { index < MOST_NODES }
    requires marks { (k : ℕ) → get_or have_failed.now k false ≡ failed_at tree.now k }
    ensures domain { result ≡ failed_unmarked_at tree.now had_failed.now index }
    ensures there { IfSome result (HasDomain tree.now.nodes) }
{
    let is_new = have_failed[index as usize] && !had_failed[index as usize];
    if is_new { tree.domain_at(index) } else { None }
}

/// Adds each domain that has failed and isn't marked, in order of creation of their roots.
pub(crate) fn add_failed(
    events: &mut Events<'_>,
    tree: &Tree,
    marks: &[bool; MOST_NODES],
) -> Result<(), AllocError>
    ensures { (old : TreeFacts) → AreMarksOf old tree.now marks.now
        → Adds result events.old events.new (failed_events old tree.now) }
{
    let have_failed = tree.failed_domains();
    for index in 0..tree.domain_count() {
        let Some(domain) = newly_failed_at(tree, &have_failed, marks, index) else {
            continue;
        };
        events.add_domain(tree, domain, DomainFate::Failed)?;
    }
    Ok(())
}

/// Adds these where there are marks; without any it adds none.
pub(crate) fn add_failed_since(
    events: &mut Events<'_>,
    tree: &Tree,
    marks: &Option<[bool; MOST_NODES]>,
) -> Result<(), AllocError>
    ensures some { IfSome marks.now (λ set. (old : TreeFacts) → AreMarksOf old tree.now set
        → Adds result events.old events.new (failed_events old tree.now)) }
    ensures none { marks.now ≡ None → events_of events.new ≡ events_of events.old }
{
    match marks {
        Some(set) => add_failed(events, tree, set),
        None => Ok(()),
    }
}
