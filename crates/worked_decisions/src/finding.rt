//! What a search finds of what a book froze, as text. What proves it is shown by the certificates
//! of `tests/data/rows`.

use std::alloc::{AllocError, Global};
use std::cell::Cell;
use sysmem_alloc::Frozen;
use sysmem_search::{Gate, search};
use verdict_claims::Verdict;

// Counts the visits of which it is told, and keeps how many choices there were at most.
#[derive(Drop)]
struct VisitCounter {
    visits: Cell<u64>,
    most_choices: Cell<u32>,
}

impl Gate for VisitCounter {
    fn at_prefix(&self, length: u32) {
        self.visits.set(self.visits.get().saturating_add(1));
        self.most_choices.set(self.most_choices.get().max(length));
    }
}

/// A verdict, the number of visits, and what the gate was told: how many visits, and of how many
/// choices at most.
#[derive(Drop)]
pub(crate) struct SearchRun {
    pub(crate) verdict: Verdict,
    pub(crate) visits: u64,
    pub(crate) told: u64,
    most_choices: u32,
}

/// Searches what is frozen.
pub(crate) fn search_frozen(alloc: Global, frozen: &Frozen) -> Result<SearchRun, AllocError> {
    let gate = VisitCounter {
        visits: Cell::new(0),
        most_choices: Cell::new(0),
    };
    let platform = frozen.platform();
    let tree = frozen.tree();
    let domain = frozen.domain();
    let base = frozen.base();
    let found = search(alloc, platform, tree, domain, base, &gate)?;
    Ok(SearchRun {
        verdict: found.verdict,
        visits: found.visits,
        told: gate.visits.get(),
        most_choices: gate.most_choices.get(),
    })
}

fn tell_verdict(text: &mut String, verdict: &Verdict) -> Result<(), AllocError> {
    match verdict {
        Verdict::Chosen(chosen) => {
            let choices = chosen.selection().choices();
            write!(text, "chosen {choices:?} count {}", chosen.settings().count)
        }
        Verdict::IntersectionEmpty => text.push_str("empty"),
        Verdict::TooMany => text.push_str("too_many"),
        _ => text.push_str("other"),
    }
}

/// What was found: the verdict with the choices and the number of buffers, the visits, and those of
/// which the gate was told with the most choices of one.
pub(crate) fn tell_search(text: &mut String, found: &SearchRun) -> Result<(), AllocError> {
    tell_verdict(text, &found.verdict)?;
    let (visits, told, most) = (found.visits, found.told, found.most_choices);
    write!(text, " visits {visits} told {told} most {most}")
}
