//! The story of a script's calls, told from their replay.

ghost use Rattle.std.specs.Prelude.{◌≡◌, All, Contains, IfOk, IfSome, IsTrue, List, OnOk, slice_get};
ghost use Rattle.script_replay.specs.Events.{EventFacts, becomes, events_of, fate_seen};
ghost use Rattle.script_replay.specs.Replayed.{end_of};
ghost use Rattle.script_story.specs.Became.{became_of};
ghost use Rattle.script_story.specs.Paths.{path_at};
ghost use Rattle.script_story.specs.Told.{AreTold, IsUntold};
ghost use Rattle.sysmem_tree.specs.Domain.{HasDomain};
ghost use Rattle.sysmem_tree.specs.Nodes.{HasNode};

use crate::outcome::Outcome;
use crate::story::{Became, Domain, MadeCall, Milestones, Node, Story};
use explanation_text::ListBuilder;
use negotiation_inputs::Platform;
use script_faults::actor_of;
use script_reading::Call;
use script_replay::{DomainEvent, Event, ReplayedCalls, Reply, text_of_path};
use serde_json::Value;
use std::alloc::{AllocError, Global};
use sysmem_alloc::Book;
use sysmem_merge::Settings;
use sysmem_tree::{DomainId, NodeId, Tree};
use verdict_claims::Verdict;

/// The story of a script's calls, whose actors the script's value names.
pub fn story_of<'a>(
    alloc: Global,
    value: &'a Value,
    calls: &[Call<'a>],
    told: &'a ReplayedCalls<'_>,
) -> Result<Story<'a>, AllocError>
    ensures { IfOk result (AreTold (end_of told.now).platform (events_of told.now.events)) }
{
    let mut nodes = nodes_of(alloc, told.book().tree())?;
    name_nodes(&mut nodes, calls, told);
    let calls = calls_of(alloc, value, calls, told)?;
    note_deeds(&mut nodes, &calls);
    let mut story = Story {
        calls,
        nodes,
        domains: domains_of(alloc, told.book())?,
        order: Vec::new(alloc),
    };
    keep_fates(&mut story, told)?;
    Ok(story)
}

/// The calls with their answers.
fn calls_of<'a>(
    alloc: Global,
    value: &'a Value,
    calls: &[Call<'a>],
    told: &ReplayedCalls<'_>,
) -> Result<Vec<MadeCall<'a>>, AllocError> {
    let mut made = Vec::new(alloc);
    let values = match value.get("calls") {
        Some(Value::Array(values)) => values.as_slice(),
        _ => &[],
    };
    for event in told.events.as_slice() {
        let Event::Call(called) = event else {
            continue;
        };
        let index = called.number.saturating_sub(1);
        if let Some(call) = calls.get(index) {
            made.push(made_of(values.get(index), told, call, called.reply))?;
        }
    }
    Ok(made)
}

/// A call with its answer, whose actor the value of the call names.
fn made_of<'a>(
    value: Option<&'a Value>,
    told: &ReplayedCalls<'_>,
    call: &Call<'a>,
    reply: Reply,
) -> MadeCall<'a> {
    MadeCall {
        act: call.act,
        on: call.on,
        place: call.place,
        actor: match value {
            Some(value) => actor_of(value),
            None => "",
        },
        node: match told.node_named(call.place) {
            Some(number) => Some(number as usize),
            None => None,
        },
        reply,
    }
}

fn nodes_of<'a>(alloc: Global, tree: &'a Tree) -> Result<Vec<Node<'a>>, AllocError> {
    let mut nodes = ListBuilder::new(alloc);
    for number in 0..tree.node_count() {
        if let Some(node) = tree.node(number) {
            nodes.add(node_of(alloc, tree, node)?);
        }
    }
    nodes.done()
}

fn node_of<'a>(alloc: Global, tree: &'a Tree, node: NodeId) -> Result<Node<'a>, AllocError>
    requires { HasNode tree.now.nodes node }
{
    let place = tree.path_of(node)?;
    Ok(Node {
        name: "",
        path: text_of_path(alloc, &place)?,
        parent: parent_of(tree, place.ordinals()),
        domain: index_of(tree, tree.domain_of(node)),
        state: tree.state(node),
        made_by: None,
        is_selected: tree.is_selected(node),
        constraints: tree.constraints_of(node),
        milestones: Milestones::default(),
    })
}

/// The number of the parent of the node at a path.
fn parent_of(tree: &Tree, path: &[u32]) -> Option<usize> {
    let (_, above) = path.split_last()?;
    let node = tree.node_at(above)?;
    Some(tree.number_of(node) as usize)
}

/// The index of a domain.
fn index_of(tree: &Tree, domain: DomainId) -> usize {
    for index in 0..tree.domain_count() {
        if tree.domain_at(index) == Some(domain) {
            return index as usize;
        }
    }
    0
}

/// Gives each node the name that the script has for it.
fn name_nodes<'a>(nodes: &mut [Node<'a>], calls: &[Call<'a>], told: &ReplayedCalls<'_>) {
    if let Some(root) = nodes.first_mut() {
        root.name = "root";
    }
    let mut place = 0usize;
    for (index, call) in calls.iter().enumerate() {
        let Some(name) = call.act.name_made() else {
            continue;
        };
        place = place.saturating_add(1);
        let Some(number) = told.node_named(place) else {
            continue;
        };
        if let Some(node) = nodes.get_mut(number as usize) {
            node.name = name;
            node.made_by = Some(index.saturating_add(1));
        }
    }
}

/// Keeps at each node which calls did something to it.
fn note_deeds(nodes: &mut [Node<'_>], calls: &[MadeCall<'_>]) {
    for (index, call) in calls.iter().enumerate() {
        let (true, Some(number)) = (call.is_accepted(), call.node) else {
            continue;
        };
        if let Some(node) = nodes.get_mut(number) {
            node.milestones.note(&call.act, index.saturating_add(1));
        }
    }
}

/// The domains, of which nothing is told yet.
fn domains_of(alloc: Global, book: &Book) -> Result<Vec<Domain>, AllocError>
    ensures { IfOk result (λ domains. All IsUntold domains.items) }
{
    let tree = book.tree();
    let mut domains = Vec::new(alloc);
    for index in 0..tree.domain_count() {
        if let Some(domain) = tree.domain_at(index) {
            domains.push(domain_of(alloc, book, domain))?;
        }
    }
    Ok(domains)
}

/// A domain of which nothing is told yet.
fn domain_of(alloc: Global, book: &Book, domain: DomainId) -> Domain
    requires { HasDomain book.now.state.tree.nodes domain }
    ensures { IsUntold result }
{
    let tree = book.tree();
    let host = match tree.host_of(domain) {
        Some(host) => Some(tree.number_of(host) as usize),
        None => None,
    };
    Domain {
        root: tree.number_of(tree.root_of(domain)) as usize,
        host,
        became: Became::Pending,
        told: Outcome::untold(alloc),
        ended: None,
        settings: settings_in(book.verdict_of(domain)),
    }
}

/// The settings that a verdict chooses.
fn settings_in(verdict: Option<&Verdict>) -> Option<Settings> {
    match verdict {
        Some(Verdict::Chosen(chosen)) => Some(chosen.settings()),
        _ => None,
    }
}

/// Keeps what became of each domain, and after which call.
fn keep_fates(story: &mut Story<'_>, told: &ReplayedCalls<'_>) -> Result<(), AllocError>
    requires { AreTold (end_of told.now).platform (events_of told.now.events) story.old }
    ensures { OnOk result
        (AreTold (end_of told.now).platform (events_of told.now.events) story.new) }
{
    let platform = told.book().platform();
    let mut number = 0usize;
    for event in told.events.as_slice() {
        match event {
            Event::Call(called) => number = called.number,
            Event::Domain(one) => keep_fate(story, platform, one, number)?,
        }
    }
    Ok(())
}

/// Keeps what becomes of a domain after the call of a number.
fn keep_fate(
    story: &mut Story<'_>,
    platform: &Platform,
    one: &DomainEvent,
    number: usize,
) -> Result<(), AllocError>
    ensures { OnOk result ((events : List EventFacts)
        → Contains events (becomes one.now.path (fate_seen one.now.fate))
        → AreTold platform.now events story.old → AreTold platform.now events story.new) }
{
    let alloc = *story.order.allocator();
    let path = text_of_path(alloc, &one.path)?;
    let Some(index) = index_at(story, &path) else {
        return Ok(());
    };
    story.order.push(index)?;
    let told = Outcome::of(alloc, platform, &one.fate)?;
    let Some(domain) = story.domains.get(index) else {
        return Ok(());
    };
    let next = with_fate(domain, told, number);
    story.domains[index] = next;
    Ok(())
}

/// A domain once this became of it after the call of a number.
fn with_fate(domain: &Domain, told: Outcome, number: usize) -> Domain
    ensures root { result.root ≡ domain.now.root }
    ensures told { result.told ≡ told }
    ensures became { result.became ≡ became_of (fate_seen told.fate) }
{
    let became = told.became();
    let ended = match became {
        Became::Pending => domain.ended,
        _ => Some(number),
    };
    Domain {
        root: domain.root,
        host: domain.host,
        became,
        told,
        ended,
        settings: domain.settings,
    }
}

/// The index of the domain whose root is at a path.
fn index_at(story: &Story<'_>, path: &str) -> Option<usize>
    ensures { IfSome result (λ index. IfSome (slice_get story.now.domains.items index)
        (λ domain. path.now ≡ path_at story.now.nodes.items domain.root)) }
{
    for (index, domain) in story.domains.iter().enumerate() {
        if is_at(story, domain.root, path) {
            return Some(index);
        }
    }
    None
}

/// Whether a node, by number, is at a path.
fn is_at(story: &Story<'_>, node: usize, path: &str) -> bool
    ensures { IsTrue result → path.now ≡ path_at story.now.nodes.items node }
{
    story.path(node) == path
}
