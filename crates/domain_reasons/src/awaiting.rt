//! Who is awaited, and what helps.

use explanation_text::wording::put_count;
use explanation_text::{Fact, Items, Label, ListBuilder, Said, Text, TextBuilder};
use script_reading::Act;
use script_story::{Domain, Milestone, Story, put_domain};
use std::alloc::{AllocError, Global};
use sysmem_tree::NodeKind;

/// How many who are awaited are named for one reason.
const MOST_ROWS: usize = 6;

/// What a node that is awaited is, and what helps.
#[derive(Drop)]
struct AwaitedNode {
    node: usize,
    what: Text,
    help: Text,
}

/// Tells who a domain waits for.
pub(crate) fn add_pending(
    items: &mut Items,
    story: &Story<'_>,
    index: usize,
    domain: &Domain,
) -> Result<(), AllocError> {
    let awaited = all_awaited(items.alloc(), story, index)?;
    add_awaited(items, story, &awaited);
    if let Some(above) = undecided_above(story, index) {
        add_host(items, story, domain, story.root_of(above));
    }
    Ok(())
}

/// Whom the domain of an index waits for.
fn all_awaited(
    alloc: Global,
    story: &Story<'_>,
    index: usize,
) -> Result<Vec<AwaitedNode>, AllocError> {
    let mut awaited = ListBuilder::new(alloc);
    for node in &story.awaited(alloc, index, usize::MAX)? {
        awaited.add(awaited_of(alloc, story, *node)?);
    }
    awaited.done()
}

/// Tells that the domain of a root is awaited, to which this one was attached.
fn add_host(items: &mut Items, story: &Story<'_>, domain: &Domain, above: usize) {
    let mut words = TextBuilder::new(items.alloc());
    put_domain(&mut words, story, above);
    words
        .put(", to which ")
        .name(story.called(domain.root))
        .put(" was attached");
    items.say(1, Label::Awaits, words)
}

/// Those whose end would let the domain of an index be decided: whom it waits for, and whom those
/// above it wait for, to which it was attached. Empty where a call on one of them was refused that
/// would have helped; on a group this counts only if it is said so.
pub fn who_holds_up(
    alloc: Global,
    story: &Story<'_>,
    index: usize,
    counts_groups: bool,
) -> Result<Vec<usize>, AllocError> {
    let domains = undecided_from(alloc, story, index)?;
    let mut awaited = Vec::new(alloc);
    for (node, known) in story.nodes.iter().enumerate() {
        if domains.contains(&known.domain) && story.is_awaited(node, usize::MAX) {
            awaited.push(node)?;
        }
    }
    if is_one_refused(story, &awaited, counts_groups) {
        return Ok(Vec::new(alloc));
    }
    Ok(awaited)
}

/// The domain of an index, and those above it that have no verdict, by index.
fn undecided_from(
    alloc: Global,
    story: &Story<'_>,
    index: usize,
) -> Result<Vec<usize>, AllocError> {
    let mut domains = Vec::new(alloc);
    let mut next = Some(index);
    for _level in 0..story.domains.len() {
        let Some(index) = next else {
            break;
        };
        domains.push(index)?;
        next = undecided_above(story, index);
    }
    Ok(domains)
}

/// The domain to which that of an index was attached, by index, where it has no verdict.
fn undecided_above(story: &Story<'_>, index: usize) -> Option<usize> {
    let host = story.domains.get(index)?.host?;
    let above = story.nodes.get(host)?.domain;
    match story.domains.get(above)?.ended {
        Some(_) => None,
        None => Some(above),
    }
}

/// Whether a call on one of some nodes was refused that would have helped, groups counted or not.
fn is_one_refused(story: &Story<'_>, nodes: &[usize], counts_groups: bool) -> bool {
    for node in nodes {
        let counts = counts_groups || !story.is_group(*node);
        if counts && refused_on(story, *node).is_some() {
            return true;
        }
    }
    false
}

/// Tells who is awaited, those for whom the same helps together.
fn add_awaited(items: &mut Items, story: &Story<'_>, awaited: &[AwaitedNode]) {
    for (k, first) in awaited.iter().enumerate() {
        if !helps_before(awaited, k, &first.help) {
            add_those(items, story, awaited, &first.help);
        }
    }
}

/// Whether the same helps for one of the first so many.
fn helps_before(awaited: &[AwaitedNode], count: usize, help: &Text) -> bool {
    for one in awaited.iter().take(count) {
        if one.help == *help {
            return true;
        }
    }
    false
}

/// Tells those who are awaited for whom this helps.
fn add_those(items: &mut Items, story: &Story<'_>, awaited: &[AwaitedNode], help: &Text) {
    let mut seen = 0usize;
    for one in awaited {
        if one.help != *help {
            continue;
        }
        seen = seen.saturating_add(1);
        if seen <= MOST_ROWS {
            add_one(items, story, one);
        }
    }
    let more = seen.saturating_sub(MOST_ROWS);
    if more > 0 {
        let mut words = TextBuilder::new(items.alloc());
        words.tell(Fact::Value(Said::Number(more as u64)));
        words.put_number(more).put(" more: ").put_text(help);
        items.say(1, Label::Awaits, words);
    }
}

fn add_one(items: &mut Items, story: &Story<'_>, one: &AwaitedNode) {
    let mut words = TextBuilder::of_name(items.alloc(), story.called(one.node));
    words.put(" ").put(story.path(one.node));
    words
        .put(", a ")
        .put_text(&one.what)
        .put(": ")
        .put_text(&one.help);
    items.say(1, Label::Awaits, words)
}

/// The last call on a node that was refused and would have helped.
fn refused_on(story: &Story<'_>, node: usize) -> Option<usize> {
    let mut last = None;
    for (index, call) in story.calls.iter().enumerate() {
        if call.node == Some(node) && !call.is_accepted() && is_helpful(&call.act) {
            last = Some(index.saturating_add(1));
        }
    }
    last
}

fn is_helpful(act: &Act<'_>) -> bool {
    matches!(
        act,
        Act::Bind | Act::SetConstraints(_) | Act::AllChildrenPresent | Act::Release
    )
}

/// What an awaited node is, and what helps.
fn awaited_of(alloc: Global, story: &Story<'_>, node: usize) -> Result<AwaitedNode, AllocError> {
    let kind = story.kind_before(node, usize::MAX);
    let tried = refused_on(story, node);
    let help = help_of(alloc, story, node, kind, tried)?;
    let what = what_of(alloc, story, node, kind, tried).into_text()?;
    Ok(AwaitedNode { node, what, help })
}

/// What an awaited node is, and which call on it was refused.
fn what_of(
    alloc: Global,
    story: &Story<'_>,
    node: usize,
    kind: NodeKind,
    tried: Option<usize>,
) -> TextBuilder {
    let mut words = TextBuilder::new(alloc);
    put_what(&mut words, story, node, kind);
    if let Some(call) = story.call(tried.unwrap_or(0)) {
        words.put(", whose ").put(call.name()).put(" was refused");
    }
    words
}

/// Puts what an awaited node is after a text: `a token of call 3 (main)`, without the article.
fn put_what(text: &mut TextBuilder, story: &Story<'_>, node: usize, kind: NodeKind) {
    let (what, origin) = match kind {
        NodeKind::Token => ("token", story.maker(node)),
        NodeKind::Collection => ("collection", story.milestone(node, Milestone::Bind)),
        NodeKind::Group => ("group", story.maker(node)),
    };
    text.put(what).put(" of ");
    put_origin(text, story, origin);
    if kind == NodeKind::Group {
        put_children(text, story, node);
    }
}

/// Puts how many children a group has after a text.
fn put_children(text: &mut TextBuilder, story: &Story<'_>, node: usize) {
    match story.children(text.alloc(), node) {
        Ok(children) => {
            text.put(" of ");
            put_count(text, children.len(), "child", "children")
        }
        Err(AllocError) => text.refuse(),
    }
}

fn put_origin(text: &mut TextBuilder, story: &Story<'_>, number: Option<usize>) {
    match number {
        Some(number) => {
            let actor = story.actor(number);
            text.put("call ").call(number).put(" (").put(actor).put(")")
        }
        None => text.put("the program"),
    };
}

/// What makes that a domain no longer waits for a node.
fn help_of(
    alloc: Global,
    story: &Story<'_>,
    node: usize,
    kind: NodeKind,
    tried: Option<usize>,
) -> Result<Text, AllocError> {
    if let Some(number) = tried {
        return help_after(alloc, story, node, kind, number).into_text();
    }
    let help = match kind {
        NodeKind::Token => if story.children(alloc, node)?.is_empty() {
            "bind it and set_constraints, or release it"
        } else {
            "release it if it only passes others on, or bind it and set_constraints"
        },
        NodeKind::Collection => "set_constraints, or release it",
        NodeKind::Group => if story.children(alloc, node)?.is_empty() {
            "create_child, then all_children_present"
        } else {
            "all_children_present"
        },
    };
    TextBuilder::of(alloc, help).into_text()
}

/// What helps after the call of a number was refused.
fn help_after(
    alloc: Global,
    story: &Story<'_>,
    node: usize,
    kind: NodeKind,
    number: usize,
) -> TextBuilder {
    let is_set = match story.call(number) {
        Some(call) => matches!(call.act, Act::SetConstraints(_)),
        None => false,
    };
    let mut words = TextBuilder::new(alloc);
    if is_set && kind == NodeKind::Token {
        words.put("bind it before call ").call(number);
    } else if is_set && story.kind_before(node, number) == NodeKind::Token {
        let bound = story.milestone(node, Milestone::Bind).unwrap_or(0);
        words.put("move call ").call(number);
        words
            .put(" after call ")
            .call(bound)
            .put(", which binds it");
    } else {
        words.put("correct call ").call(number);
    }
    words
}
