//! The objects of a report, one for each event, and one that ends them.

use crate::call_object::put_call;
use crate::domain_object::{Choice, Root, put_chosen, put_word};
use crate::names::Names;
use crate::reasons::put_empty;
use negotiation_inputs::Platform;
use script_replay::{Decision, DomainEvent, DomainFate, Event, ReplayedCalls, text_of_path};
use std::alloc::{AllocError, Global};
use std::fmt::Write;
use sysmem_image::Corner;
use verdict_claims::{Chosen, Verdict};

/// The objects so far, with what is needed for the next.
#[derive(Drop)]
struct Telling<'s, 'a> {
    platform: &'s Platform,
    names: Names<'a>,
    calls: usize,
    decided: usize,
    out: String,
}

/// The objects of what happened in a replay whose decisions have what proves them.
pub(crate) fn objects_of(
    alloc: Global,
    replayed: &ReplayedCalls<'_>,
) -> Result<String, AllocError> {
    let mut telling = Telling {
        platform: replayed.book().platform(),
        names: Names::of(alloc, replayed)?,
        calls: 0,
        decided: 0,
        out: String::new(alloc),
    };
    for event in replayed.events.as_slice() {
        telling.tell(event)?;
    }
    telling.end()?;
    Ok(telling.out)
}

impl Telling<'_, '_> {
    fn tell(&mut self, event: &Event<'_>) -> Result<(), AllocError> {
        match event {
            Event::Call(called) => {
                self.calls = self.calls.saturating_add(1);
                put_call(&mut self.out, called)
            }
            Event::Domain(domain) => self.add_domain(domain),
        }
    }

    fn add_domain(&mut self, domain: &DomainEvent) -> Result<(), AllocError> {
        let path = text_of_path(*self.out.allocator(), &domain.path)?;
        let root = Root {
            path: path.as_str(),
            name: self.names.at(domain.path.ordinals()),
        };
        match &domain.fate {
            DomainFate::Decided(one) => {
                self.decided = self.decided.saturating_add(1);
                self.add_decision(root, one)
            }
            DomainFate::Failed => put_word(&mut self.out, root, "failed"),
            DomainFate::Pending => put_word(&mut self.out, root, "pending"),
        }
    }

    fn add_decision(&mut self, root: Root<'_>, one: &Decision) -> Result<(), AllocError> {
        match one.verdict() {
            Some(Verdict::Chosen(chosen)) => {
                put_chosen(
                    &mut self.out,
                    self.platform,
                    root,
                    &choice_of(chosen, one.corner),
                )
            }
            Some(Verdict::IntersectionEmpty) => put_empty(&mut self.out, &self.names, root, one),
            Some(Verdict::TooMany) => put_word(&mut self.out, root, "too_many"),
            Some(Verdict::Failed) => put_word(&mut self.out, root, "failed"),
            Some(Verdict::NoMemory) | None => put_word(&mut self.out, root, "no_memory"),
        }
    }

    /// Tells how many calls and decisions there are, by which a reader knows that it has all.
    fn end(&mut self) -> Result<(), AllocError> {
        let calls = self.calls;
        let decided = self.decided;
        writeln!(
            self.out,
            "{{\"calls\":{calls},\"decisions\":{decided},\"end\":true}}"
        )
    }
}

/// What is told of a choice.
fn choice_of(chosen: &Chosen, corner: Corner) -> Choice<'_> {
    let settings = chosen.settings();
    Choice {
        selection: chosen.selection().choices(),
        count: settings.count,
        size_bytes: settings.size_bytes,
        place: settings.place,
        offer: settings.offer,
        corner,
    }
}
