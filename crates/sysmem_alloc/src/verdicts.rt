//! The verdicts that a history has.

ghost use Rattle.std.specs.Prelude.{◌≡◌, ◌≢◌, true, false, map, option_map};
ghost use Rattle.std.specs.Arc.{arc_value};
ghost use Rattle.std.specs.List.{filter_map};
ghost use Rattle.sysmem_alloc.specs.Decision.{choices_of, decision_for, verdict_in};
ghost use Rattle.sysmem_alloc.specs.Entry.{decision_in};
ghost use Rattle.sysmem_alloc.specs.Sound.{AreDistinct};
ghost use Rattle.sysmem_tree.specs.declared.fate.Fate.TheVariants as fates;

use book_events::Entry;
use std::sync::Arc;
use sysmem_tree::{DomainId, Fate};
use verdict_claims::{Claim, Verdict};

/// Whether what became of a domain is that it failed.
pub(crate) fn has_failed(fate: Fate) -> bool
    ensures failed { result ≡ true → fate ≡ fates.Failed }
    ensures other { result ≡ false → fate ≢ fates.Failed }
{
    matches!(fate, Fate::Failed)
}

/// Whether what became of a domain is that no decision was taken.
pub(crate) fn is_undecided(fate: Fate) -> bool
    ensures undecided { result ≡ true → fate ≡ fates.Undecided }
    ensures other { result ≡ false → fate ≢ fates.Undecided }
{
    matches!(fate, Fate::Undecided)
}

/// The choices of a verdict that chose.
pub(crate) fn choices_of(claim: &Option<Arc<Claim>>) -> Option<&[u8]>
    ensures { option_map (λ choices. choices.now) result
        ≡ choices_of (verdict_in (option_map (λ shared. arc_value shared) claim.now)) }
{
    match claim {
        Some(shared) => match &shared.verdict {
            Verdict::Chosen(chosen) => Some(chosen.selection().choices()),
            _ => None,
        },
        None => None,
    }
}

/// The claim that was entered for a domain, if any was: at most one is, so the entries are read
/// from the last to the first, as the decisions that are asked for are mostly late ones.
pub(crate) fn entered_for(history: &[Entry], domain: DomainId) -> Option<&Option<Arc<Claim>>>
    requires { AreDistinct (map (λ d. d.domain) (filter_map decision_in history.now)) }
    ensures { option_map
        (λ claim. verdict_in (option_map (λ shared. arc_value shared) claim.now)) result
        ≡ option_map (λ d. d.verdict) (decision_for (filter_map decision_in history.now) domain) }
{
    for index in (0..history.len()).rev() {
        if let Entry::Decided(decided, claim) = &history[index] {
            if *decided == domain {
                return Some(claim);
            }
        }
    }
    None
}
