//! What proves each decision, counted where a second replay makes the proofs.

use crate::json::PlayedScript;
use explanation_text::wording::put_count;
use explanation_text::{ListBuilder, TextBuilder};
use script_replay::{DomainFate, Event, Proving, ReplayedCalls, replayed_of};
use script_story::{Story, put_domain};
use std::alloc::{AllocError, Global};
use verdict_claims::{Certificate, Claim, Conflict, EarlierChoices, Item, Proof, Refutation};

/// How many conflicts there are, and lines in them.
#[derive(Clone, Copy, Default)]
struct Tally {
    conflicts: usize,
    lines: usize,
}

impl Tally {
    /// Counts the conflicts of a refutation, its splits left out.
    fn add(&mut self, refutation: &Refutation) {
        for item in refutation.items() {
            if let Item::Leaf(conflict) = item {
                self.lines = self.lines.saturating_add(lines_of(conflict));
                self.conflicts = self.conflicts.saturating_add(1);
            }
        }
    }

    /// Counts those of the choices before a chosen one.
    fn add_all(&mut self, choices: &EarlierChoices) {
        for refutation in choices.refutations() {
            self.add(refutation);
        }
    }
}

/// How many lines a conflict has.
fn lines_of(conflict: &Conflict) -> usize {
    match conflict {
        Conflict::Places(lines) | Conflict::Offers(lines) => lines.as_slice().len().max(1),
        Conflict::Count(_) | Conflict::Fixed(_, _) => 1,
    }
}

/// A sentence for each decision of a script. `AllocError` also where memory was refused to one.
pub(crate) fn proofs_of(
    alloc: Global,
    played: PlayedScript<'_, '_>,
) -> Result<Vec<String>, AllocError> {
    let platform = played.platform.copy()?;
    match replayed_of(alloc, platform, played.calls, &mut Proving) {
        Ok(replayed) if !replayed.report.starved => told_of(alloc, played.story, &replayed),
        _ => Err(AllocError),
    }
}

/// A sentence for each decision of a replay.
fn told_of(
    alloc: Global,
    story: &Story<'_>,
    replayed: &ReplayedCalls<'_>,
) -> Result<Vec<String>, AllocError> {
    let tree = replayed.book().tree();
    let mut proofs = ListBuilder::new(alloc);
    for event in replayed.events.as_slice() {
        if let Event::Domain(domain) = event
            && let DomainFate::Decided(one) = &domain.fate
            && let Some(shared) = &one.claim
            && let Some(root) = tree.node_at(domain.path.ordinals())
        {
            let root = tree.number_of(root) as usize;
            proofs.add_words(proof_of(alloc, story, root, &**shared));
        }
    }
    proofs.done()
}

/// What proves a claim about the domain of a root, in words.
fn proof_of(alloc: Global, story: &Story<'_>, root: usize, claim: &Claim) -> TextBuilder {
    let mut words = TextBuilder::new(alloc);
    put_domain(&mut words, story, root);
    words.put(": ");
    match &claim.proof {
        Proof::Empty(refutation) => put_empty(&mut words, refutation),
        Proof::Choice(certificate) => put_chosen(&mut words, story, root, certificate),
        Proof::Nothing => {
            words.put("more than 4096 selections, which nothing has to prove");
        }
    }
    words
}

fn put_empty(text: &mut TextBuilder, refutation: &Refutation) {
    let mut tally = Tally::default();
    tally.add(refutation);
    put_tally(text, tally);
    text.put(if tally.conflicts == 1 {
        " leaves no settings to any selection"
    } else {
        " leave no settings to any selection"
    });
}

fn put_tally(text: &mut TextBuilder, tally: Tally) {
    put_count(text, tally.conflicts, "conflict", "conflicts");
    text.put(" of ");
    put_count(text, tally.lines, "line", "lines")
}

/// Puts what proves settings after a text: of an attached domain they were decided before.
fn put_chosen(text: &mut TextBuilder, story: &Story<'_>, root: usize, certificate: &Certificate) {
    if is_attached(story, root) {
        text.put("the settings decided before suit all");
    } else {
        let (offers, places) = (certificate.offers(), certificate.places());
        put_count(text, offers.as_slice().len(), "line", "lines");
        text.put(" for the offers and ");
        put_count(text, places.as_slice().len(), "line", "lines");
        text.put(" for the places before the chosen ones");
    }
    put_earlier(text, certificate.earlier())
}

/// Whether the domain of a root is an attached one.
fn is_attached(story: &Story<'_>, root: usize) -> bool {
    match story.domain_of(root) {
        Some(domain) => domain.host.is_some(),
        None => false,
    }
}

/// Puts what refutes the children before the chosen ones after a text.
fn put_earlier(text: &mut TextBuilder, earlier: &[EarlierChoices]) {
    let mut tally = Tally::default();
    let mut children = 0usize;
    for choices in earlier {
        children = children.saturating_add(choices.refutations().len());
        tally.add_all(choices);
    }
    if children == 0 {
        return;
    }
    text.put("; ");
    put_tally(text, tally);
    text.put(" for ");
    put_count(text, children, "earlier child", "earlier children")
}
