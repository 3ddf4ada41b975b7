//! What happens where a script's calls are made: what the lines of a report tell.

ghost use Rattle.std.specs.Prelude.{◌≡◌, [], ◌∷◌, map, option_map};
ghost use Rattle.std.specs.Arc.{arc_value};
ghost use Rattle.sysmem_alloc.specs.Decision.{verdict_in};
ghost use Rattle.script_reading.specs.Seen.{call_seen};
ghost use Rattle.script_replay.specs.Events.{Adds, event_seen, events_of, events_text, line_of, verdict_text};
ghost use Rattle.script_replay.specs.Events.{becomes, called, fate_seen, fate_text};
ghost use Rattle.script_replay.specs.Lines.{Puts, domain_line};
ghost use Rattle.sysmem_tree.specs.Domain.{HasDomain};
ghost use Rattle.sysmem_tree.specs.Path.{path_of};

use crate::domain_line::{put_chosen_text, put_path};
use crate::line::put_call;
use crate::reply::Reply;
use negotiation_inputs::Platform;
use script_reading::Call;
use std::alloc::{AllocError, Global};
use std::sync::Arc;
use sysmem_image::Corner;
use sysmem_tree::{DomainId, Path, Tree};
use verdict_claims::{Claim, Verdict};

/// A call with its number, counted from 1, and its reply.
#[derive(Clone, Copy, Debug)]
pub struct CallEvent<'a> {
    pub number: usize,
    pub call: Call<'a>,
    pub reply: Reply,
}

/// A decision.
#[derive(Debug, Drop)]
pub struct Decision {
    /// The verdict with what proves it; `None` where memory was refused to it.
    pub claim: Option<Arc<Claim>>,
    /// The smallest image that the chosen settings admit; it tells nothing where none were chosen.
    pub corner: Corner,
}

impl Decision {
    /// The verdict; `None` where memory was refused to it.
    pub fn verdict(&self) -> Option<&Verdict>
        ensures { option_map (λ verdict. verdict.now) result
            ≡ verdict_in (option_map (λ shared. arc_value shared) self.now.claim) }
    {
        match &self.claim {
            Some(shared) => Some(&shared.verdict),
            None => None,
        }
    }
}

/// What becomes of a domain.
#[derive(Debug, Drop)]
pub enum DomainFate {
    Decided(Decision),
    /// It can't be decided any more.
    Failed,
    /// It has no verdict after the last call.
    Pending,
}

/// What becomes of the domain whose root is at a path.
#[derive(Debug, Drop)]
pub struct DomainEvent {
    pub path: Path,
    pub fate: DomainFate,
}

/// What a line of a report tells.
#[derive(Debug, Drop)]
pub enum Event<'a> {
    /// A call was made or refused.
    Call(CallEvent<'a>),
    Domain(DomainEvent),
}

/// What happened, in its order.
#[derive(Debug, Drop)]
pub struct Events<'a> {
    list: Vec<Event<'a>>,
}

impl<'a> Events<'a> {
    /// Nothing has happened yet.
    pub(crate) fn new(alloc: Global) -> Events<'a>
        ensures { events_of result ≡ [] }
    {
        Events {
            list: Vec::new(alloc),
        }
    }

    /// What happened, in its order.
    pub fn as_slice(&self) -> &[Event<'a>]
        ensures { map event_seen result.now ≡ events_of self.now }
    {
        &self.list
    }

    /// Adds a call with its reply.
    pub(crate) fn add_call(&mut self, one: CallEvent<'a>) -> Result<(), AllocError>
        ensures { Adds result self.old self.new
            (called one.entry.number (call_seen one.entry.call) one.entry.reply ∷ []) }
    {
        self.add(Event::Call(one))
    }

    /// Adds what becomes of a domain of the tree.
    pub(crate) fn add_domain(
        &mut self,
        tree: &Tree,
        domain: DomainId,
        fate: DomainFate,
    ) -> Result<(), AllocError>
        requires { HasDomain tree.now.nodes domain }
        ensures { Adds result self.old self.new
            (becomes (path_of tree.now.nodes domain) (fate_seen fate) ∷ []) }
    {
        let path = tree.path_of(tree.root_of(domain))?;
        self.add(Event::Domain(DomainEvent { path, fate }))
    }

    fn add(&mut self, event: Event<'a>) -> Result<(), AllocError>
        ensures { Adds result self.old self.new (event_seen event.entry ∷ []) }
    {
        self.list.push(event)?;
        Ok(())
    }

    /// Puts a line for each after the text.
    pub fn put_text(&self, text: &mut String, platform: &Platform) -> Result<(), AllocError>
        ensures { Puts result text.old text.new (events_text platform.now (events_of self.now)) }
    {
        put_events(text, platform, &self.list)
    }
}

/// Puts the lines of events after the text.
fn put_events(
    text: &mut String,
    platform: &Platform,
    events: &[Event<'_>],
) -> Result<(), AllocError>
    ensures { Puts result text.old text.new
        (events_text platform.now (map event_seen events.now)) }
{
    for event in events {
        put_event(text, platform, event)?;
    }
    Ok(())
}

/// Puts the line of an event after the text.
fn put_event(text: &mut String, platform: &Platform, event: &Event<'_>) -> Result<(), AllocError>
    ensures { Puts result text.old text.new (line_of platform.now (event_seen event.now)) }
{
    match event {
        Event::Call(one) => put_call(text, one.number, &one.call, one.reply),
        Event::Domain(one) => put_domain(text, platform, one),
    }
}

/// Puts the line of what becomes of a domain after the text.
fn put_domain(text: &mut String, platform: &Platform, one: &DomainEvent) -> Result<(), AllocError>
    ensures { Puts result text.old text.new
        (domain_line one.now.path (fate_text platform.now (fate_seen one.now.fate))) }
{
    put_path(text, &one.path)?;
    text.push_str(" ")?;
    put_fate(text, platform, &one.fate)?;
    text.push_str("\n")?;
    Ok(())
}

/// Puts what a line says of a domain after the text: `empty`, `chosen - count 2 ..`.
pub fn put_fate(text: &mut String, platform: &Platform, fate: &DomainFate) -> Result<(), AllocError>
    ensures { Puts result text.old text.new (fate_text platform.now (fate_seen fate.now)) }
{
    match fate {
        DomainFate::Decided(one) => put_verdict(text, platform, one.verdict(), one.corner),
        DomainFate::Failed => text.push_str("failed"),
        DomainFate::Pending => text.push_str("pending"),
    }
}

/// Puts what is said of a verdict after the text, or of none where memory was wanted.
fn put_verdict(
    text: &mut String,
    platform: &Platform,
    verdict: Option<&Verdict>,
    corner: Corner,
) -> Result<(), AllocError>
    ensures { Puts result text.old text.new (verdict_text platform.now
        (option_map (λ verdict. verdict.now) verdict.entry) corner) }
{
    let Some(verdict) = verdict else {
        return text.push_str("no_memory");
    };
    match verdict {
        Verdict::Chosen(chosen) => put_chosen_text(text, platform, chosen, corner),
        Verdict::IntersectionEmpty => text.push_str("empty"),
        Verdict::TooMany => text.push_str("too_many"),
        Verdict::Failed => text.push_str("failed"),
        Verdict::NoMemory => text.push_str("no_memory"),
    }
}
