//! Domains that are chosen now, and have no settings once something is otherwise.

use crate::domains::add_domain;
use explanation_text::{Fact, Items, Label, TextBuilder, are_same};
use negotiation_inputs::Platform;
use script_story::{Became, Domain, MadeCall, Scenario, Story, left_out, put_domain, story_of};
use serde_json::Value;
use std::alloc::{AllocError, Global};
use sysmem_tree::Refusal;

/// How many lines are told of why a domain has no settings.
const MOST: usize = 12;

/// What other domains lose once something is otherwise.
#[derive(Drop)]
pub struct Losses {
    /// How many have no settings then that are chosen now.
    count: usize,
    /// Which they are, and why.
    items: Items,
}

impl Losses {
    /// Nothing is lost.
    fn none(alloc: Global) -> Losses {
        Losses {
            count: 0,
            items: Items::new(alloc),
        }
    }

    /// What they lose in a scenario, told so deep; nothing where nothing more is to be tried.
    pub fn by(
        alloc: Global,
        scenario: &Scenario<'_>,
        value: &Value,
        now: &Story<'_>,
        depth: usize,
    ) -> Result<Losses, AllocError> {
        if now.domains.len() < 2 || !is_one_chosen(now) || scenario.effort.is_spent() {
            return Ok(Losses::none(alloc));
        }
        let told = scenario.tell(alloc, scenario.calls)?;
        if told.report.starved {
            return Err(AllocError);
        }
        let then = story_of(alloc, value, scenario.calls, &told)?;
        Losses::of(alloc, scenario.platform, &then, now, depth)
    }

    /// What they lose in another story, told so deep.
    fn of(
        alloc: Global,
        platform: &Platform,
        then: &Story<'_>,
        now: &Story<'_>,
        depth: usize,
    ) -> Result<Losses, AllocError> {
        let mut losses = Losses::none(alloc);
        for domain in &now.domains {
            if domain.became == Became::Chosen {
                losses.add(platform, then, now, domain, depth)?;
            }
        }
        Ok(losses)
    }

    /// Adds a domain that is chosen now, if it has no settings in another story: its reasons too if
    /// nodes are numbered there as they are.
    fn add(
        &mut self,
        platform: &Platform,
        then: &Story<'_>,
        now: &Story<'_>,
        domain: &Domain,
        depth: usize,
    ) -> Result<(), AllocError> {
        match domain_named(then, now.name(domain.root)) {
            Some((_, other)) if other.became == Became::Chosen => return Ok(()),
            Some((index, other)) => {
                let is_why = then.nodes.len() == now.nodes.len();
                let is_head = is_why || other.became == Became::Empty;
                put_became(&mut self.items, then, other, depth, is_head);
                if is_why {
                    add_reasons(&mut self.items, platform, then, index, depth)?;
                }
                put_end(&mut self.items, then, index, depth);
            }
            None => put_gone(&mut self.items, then, now, domain, depth),
        }
        self.count = self.count.saturating_add(1);
        Ok(())
    }

    /// How many other domains lose theirs.
    pub fn count(&self) -> usize {
        self.count
    }

    /// Whether the same domains lose theirs as by something else, for the same reasons.
    pub fn are_as(&self, other: &Losses) -> bool {
        self.count == other.count && are_same(&self.items, &other.items)
    }

    /// Puts them after a list.
    pub fn put_into(self, items: &mut Items) {
        let Losses {
            count: _,
            items: own,
        } = self;
        items.append(own);
    }
}

/// Tells so deep which domains that are chosen now have no settings in a story, and why.
pub fn add_lost(
    items: &mut Items,
    scenario: &Scenario<'_>,
    then: &Story<'_>,
    now: &Story<'_>,
    depth: usize,
) -> Result<(), AllocError> {
    Losses::of(items.alloc(), scenario.platform, then, now, depth)?.put_into(items);
    Ok(())
}

/// Whether a domain is chosen.
fn is_one_chosen(story: &Story<'_>) -> bool {
    story
        .domains
        .iter()
        .any(|domain| domain.became == Became::Chosen)
}

/// The domain now whose root has the name that another's has then: paths are others where groups or
/// children come in another order, or calls are refused.
pub fn domain_now<'b>(now: &'b Story<'_>, then: &Story<'_>, domain: &Domain) -> Option<&'b Domain> {
    let (_, known) = domain_named(now, then.name(domain.root))?;
    Some(known)
}

/// The domain whose root has a name, with its index.
fn domain_named<'b>(story: &'b Story<'_>, name: &str) -> Option<(usize, &'b Domain)> {
    for (index, domain) in story.domains.iter().enumerate() {
        if story.name(domain.root) == name {
            return Some((index, domain));
        }
    }
    None
}

/// Puts so deep what would become of a domain, above why.
pub fn put_head(items: &mut Items, story: &Story<'_>, domain: &Domain, depth: usize) {
    put_became(items, story, domain, depth, true)
}

/// The same, also where nothing stands below.
fn put_became(items: &mut Items, story: &Story<'_>, domain: &Domain, depth: usize, is_head: bool) {
    let mut words = TextBuilder::new(items.alloc());
    let (path, name) = put_domain(&mut words, story, domain.root);
    words.put(" would be ").put(domain.became.word());
    if is_head {
        words.head();
        words.tell(Fact::Value(path));
        words.tell(Fact::Value(name));
    }
    items.say(depth, Label::Plain, words)
}

/// Tells why a domain has no settings, so much deeper.
pub fn add_reasons(
    items: &mut Items,
    platform: &Platform,
    story: &Story<'_>,
    index: usize,
    deeper: usize,
) -> Result<(), AllocError> {
    let mut why = Items::new(items.alloc());
    add_domain(&mut why, platform, story, index)?;
    items.append_section(why, deeper, MOST)
}

/// Tells that the story of an empty domain ends here.
pub fn put_end(items: &mut Items, story: &Story<'_>, index: usize, deeper: usize) {
    if matches!(story.domains.get(index), Some(domain) if domain.became == Became::Empty) {
        let text = "what would help then isn't told";
        items.list_text(deeper.saturating_add(1), Label::Note, text);
    }
}

/// Tells so deep which domains that are chosen now there aren't in a story, since their tokens aren't
/// attached then.
pub fn add_gone(items: &mut Items, then: &Story<'_>, now: &Story<'_>, depth: usize) {
    for domain in &now.domains {
        let is_there = domain_named(then, now.name(domain.root)).is_some();
        if domain.became == Became::Chosen && !is_there {
            put_gone(items, then, now, domain, depth);
        }
    }
}

/// Tells why there isn't a domain that is chosen now: `domain /1/0/0 (late) wouldn't be there: g
/// chose b and not a, after call 9; call 10 would be refused (E5 NotSelected)`.
fn put_gone(items: &mut Items, story: &Story<'_>, now: &Story<'_>, domain: &Domain, depth: usize) {
    let mut words = TextBuilder::new(items.alloc());
    put_domain(&mut words, now, domain.root);
    words.put(" wouldn't be there");
    if let Some(number) = maker_of(story, now.name(domain.root))
        && let Some(call) = story.call(number)
    {
        put_why(&mut words, story, call);
        words.put("call ").call(number).put(" would be refused (");
        call.put_reply(&mut words);
        words.put(")");
    }
    items.say(depth, Label::Plain, words)
}

/// Puts why a call that attaches a token is refused after a text, if that is since another child was
/// chosen.
fn put_why(text: &mut TextBuilder, story: &Story<'_>, call: &MadeCall<'_>) {
    text.put(": ");
    match call.node {
        Some(node) if call.is_refused_as(Refusal::NotSelected) => {
            let words = left_out(text.alloc(), story, node);
            text.put_words(&words).put("; ");
        }
        _ => {}
    }
}

/// The number of the call that makes a name.
fn maker_of(story: &Story<'_>, name: &str) -> Option<usize> {
    for (k, call) in story.calls.iter().enumerate() {
        if call.act.name_made() == Some(name) {
            return Some(k.saturating_add(1));
        }
    }
    None
}
