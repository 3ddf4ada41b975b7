//! What a script has once calls that were refused are made on the nodes that they may mean, or as
//! what they may mean.

use crate::added::lacks_bind;
use crate::moved::is_read;
use crate::unchosen::meant_for_left_out;
use explanation_text::wording::mark_after;
use explanation_text::{Items, Label, ListBuilder, TextBuilder};
use script_reading::Act;
use script_story::{Became, MadeCall, Milestone, Story};
use serde_json::{Map, Value};
use std::alloc::{AllocError, Global};
use sysmem_tree::{ActionKind, NodeKind, Refusal};

/// How many calls may be meant otherwise.
const MOST: usize = 4;

/// A call, by number, and what it may mean.
#[derive(Clone, Copy)]
pub(crate) struct MeantCall {
    number: usize,
    meaning: Meaning,
}

/// What a call may mean.
#[derive(Clone, Copy)]
enum Meaning {
    /// The same on this node.
    Node(usize),
    /// The next child of the group on which it is made.
    Child,
    /// A token that is attached to the collection on which it is made.
    Late,
}

impl Meaning {
    /// The kind of call that it is, if it is of another kind.
    fn kind(self) -> Option<ActionKind> {
        match self {
            Meaning::Node(_) => None,
            Meaning::Child => Some(ActionKind::CreateChild),
            Meaning::Late => Some(ActionKind::AttachToken),
        }
    }
}

impl MeantCall {
    /// The call of a number, which may mean a node.
    pub(crate) fn on(number: usize, node: usize) -> MeantCall {
        MeantCall {
            number,
            meaning: Meaning::Node(node),
        }
    }
}

/// Tells which calls may mean another node, a child or an attached token, if some do, and gives the
/// script in which they are made so, if that isn't refused.
pub fn list_meant(
    items: &mut Items,
    value: &Value,
    story: &Story<'_>,
) -> Result<Option<Value>, AllocError> {
    let alloc = items.alloc();
    let meant = meant_in(alloc, story)?;
    if meant.is_empty() || meant.len() > MOST {
        return Ok(None);
    }
    let other = with_meant(alloc, value, story, &meant)?;
    if !is_read(alloc, &other)? {
        return Ok(None);
    }
    add_meant(items, story, &meant);
    Ok(Some(other))
}

/// The calls that may mean something else since one was refused: a child, an attached token, or
/// another node where just one suits it.
fn meant_in(alloc: Global, story: &Story<'_>) -> Result<Vec<MeantCall>, AllocError> {
    let mut meant = Vec::new(alloc);
    for (index, call) in story.calls.iter().enumerate() {
        let number = index.saturating_add(1);
        match meant_for(alloc, story, call, number)? {
            Some(one) if meaning_of(&meant, one.number).is_none() => meant.push(one)?,
            _ => {}
        }
    }
    Ok(meant)
}

/// The call that may mean something else since the call of a number was refused, if one does.
fn meant_for(
    alloc: Global,
    story: &Story<'_>,
    call: &MadeCall<'_>,
    number: usize,
) -> Result<Option<MeantCall>, AllocError> {
    if call.is_refused_as(Refusal::NotSelected) || is_left_behind(story, call) {
        return meant_for_left_out(alloc, story, call, number);
    }
    if !call.is_refused_as(Refusal::WrongState) || is_too_early(story, call, number) {
        return Ok(None);
    }
    if is_child(story, call, number) {
        return Ok(Some(MeantCall {
            number,
            meaning: Meaning::Child,
        }));
    }
    if is_late(story, call, number) {
        return Ok(Some(MeantCall {
            number,
            meaning: Meaning::Late,
        }));
    }
    if lacks_bind(alloc, story, call, number)? {
        return Ok(None);
    }
    let nodes = suited(alloc, story, call, number)?;
    match nodes.as_slice() {
        [node] => Ok(Some(MeantCall::on(misplaced(story, call, number), *node))),
        _ => Ok(None),
    }
}

/// Whether a call duplicates a group that hasn't all its children yet, as if it were a token.
fn is_child(story: &Story<'_>, call: &MadeCall<'_>, number: usize) -> bool {
    let (Act::Duplicate(_), Some(group)) = (call.act, call.node) else {
        return false;
    };
    let is_complete = story
        .milestone_before(group, Milestone::Complete, number)
        .is_some();
    !is_complete && is_open(story, group, NodeKind::Group, number)
}

/// Whether a call duplicates a collection of its actor, whose domain was chosen before, as if it were
/// a token.
fn is_late(story: &Story<'_>, call: &MadeCall<'_>, number: usize) -> bool {
    let (Act::Duplicate(_), Some(node)) = (call.act, call.node) else {
        return false;
    };
    let bound = story.milestone_before(node, Milestone::Bind, number);
    let is_own = matches!(bound, Some(by) if story.actor(by) == call.actor);
    let is_decided = match story.domain_of(node) {
        Some(domain) => {
            domain.became == Became::Chosen && matches!(domain.ended, Some(ended) if ended < number)
        }
        None => false,
    };
    is_own && is_decided && is_open(story, node, NodeKind::Collection, number)
}

/// Whether a call attaches a token to a node that wasn't selected later on, and a call on what it
/// makes was refused since that domain failed.
fn is_left_behind(story: &Story<'_>, call: &MadeCall<'_>) -> bool {
    let (Act::AttachToken(name), Some(host)) = (call.act, call.node) else {
        return false;
    };
    let is_chosen = match story.domain_of(host) {
        Some(domain) => domain.became == Became::Chosen,
        None => false,
    };
    is_chosen
        && !story.is_selected(host)
        && call.is_accepted()
        && story.calls.iter().any(|other| {
            other.is_refused_as(Refusal::DomainFailed) && name_of(story, other) == name
        })
}

/// The name of the node on which a call is made.
fn name_of<'a>(story: &Story<'a>, call: &MadeCall<'_>) -> &'a str {
    match call.node {
        Some(node) => story.name(node),
        None => "",
    }
}

/// Whether its actor binds the node on which the call of a number is made later on: the call stands
/// too early then.
fn is_too_early(story: &Story<'_>, call: &MadeCall<'_>, number: usize) -> bool {
    match call
        .node
        .and_then(|node| story.milestone(node, Milestone::Bind))
    {
        Some(bound) => number < bound && story.actor(bound) == call.actor,
        None => false,
    }
}

/// Whether a call is made on an open token, before the call of a number.
fn is_on_token(story: &Story<'_>, call: &MadeCall<'_>, number: usize) -> bool {
    match call.node {
        Some(node) => is_open(story, node, NodeKind::Token, number),
        None => true,
    }
}

/// Whether a node is of a kind before the call of a number, and neither released nor closed.
pub(crate) fn is_open(story: &Story<'_>, node: usize, kind: NodeKind, number: usize) -> bool {
    let is_gone = story
        .milestone_before(node, Milestone::End, number)
        .is_some();
    !is_gone && story.kind_before(node, number) == kind
}

/// Whether another actor than that of a call binds its node, if somebody does.
fn is_of_another(story: &Story<'_>, call: &MadeCall<'_>) -> bool {
    let Some(node) = call.node else {
        return false;
    };
    match story.milestone(node, Milestone::Bind) {
        Some(bound) => story.actor(bound) != call.actor,
        None => false,
    }
}

/// The nodes that would suit the call of a number.
fn suited(
    alloc: Global,
    story: &Story<'_>,
    call: &MadeCall<'_>,
    number: usize,
) -> Result<Vec<usize>, AllocError> {
    let mut nodes = Vec::new(alloc);
    for node in 0..story.nodes.len() {
        if suits(story, call, node, number) {
            nodes.push(node)?;
        }
    }
    Ok(nodes)
}

/// Whether a node would suit the call of a number: to bind, a token that is never bound; to state
/// constraints, a collection that has none, and on a token that another binds one of the call's
/// actor; to attach a token, a collection of that actor.
fn suits(story: &Story<'_>, call: &MadeCall<'_>, node: usize, number: usize) -> bool {
    let bound = story.milestone_before(node, Milestone::Bind, number);
    let is_own = matches!(bound, Some(by) if story.actor(by) == call.actor);
    let is_awaited = story.is_awaited(node, usize::MAX);
    let is_on_token = is_on_token(story, call, number);
    match call.act {
        Act::Bind => {
            let is_made = matches!(story.maker(node), Some(made) if made < number);
            let is_token = story.kind_before(node, usize::MAX) == NodeKind::Token;
            is_made && is_awaited && is_token
        }
        Act::SetConstraints(_) if is_on_token => {
            is_own && is_awaited && is_of_another(story, call)
        }
        Act::SetConstraints(_) => bound.is_some() && is_awaited,
        Act::AttachToken(_) => {
            let ended = story.milestone_before(node, Milestone::End, number);
            is_own && ended.is_none()
        }
        _ => false,
    }
}

/// Which call may be meant where the call of a number was refused: the earlier one that stated
/// constraints in its place, if another actor than that which bound the node made that one.
fn misplaced(story: &Story<'_>, call: &MadeCall<'_>, number: usize) -> usize {
    let Some(node) = call.node else {
        return number;
    };
    let bound = story.milestone_before(node, Milestone::Bind, number);
    let stated = story.milestone_before(node, Milestone::SetConstraints, number);
    match (call.act, bound, stated) {
        (Act::SetConstraints(_), Some(bound), Some(stated)) => {
            let owner = story.actor(bound);
            if call.actor == owner && story.actor(stated) != owner {
                stated
            } else {
                number
            }
        }
        _ => number,
    }
}

/// The script with calls made as they may be meant.
fn with_meant(
    alloc: Global,
    value: &Value,
    story: &Story<'_>,
    meant: &[MeantCall],
) -> Result<Value, AllocError> {
    let mut copy = value.clone()?;
    if let Some(Value::Array(calls)) = copy.get_mut("calls") {
        let list = all_meant(alloc, calls, story, meant)?;
        *calls = list;
    }
    Ok(copy)
}

/// Calls, of which some are made as they may be meant.
fn all_meant(
    alloc: Global,
    calls: &[Value],
    story: &Story<'_>,
    meant: &[MeantCall],
) -> Result<Vec<Value>, AllocError> {
    let mut list = ListBuilder::new(alloc);
    for (index, call) in calls.iter().enumerate() {
        let made = match meaning_of(meant, index.saturating_add(1)) {
            Some(Meaning::Node(node)) => with_word(alloc, call, "on", story.name(node))?,
            Some(meaning) => match meaning.kind() {
                Some(kind) => with_word(alloc, call, "call", kind.name())?,
                None => call.clone()?,
            },
            None => call.clone()?,
        };
        list.add(made);
    }
    list.done()
}

/// What the call of a number may mean, if it is one of these.
fn meaning_of(meant: &[MeantCall], number: usize) -> Option<Meaning> {
    for one in meant {
        if one.number == number {
            return Some(one.meaning);
        }
    }
    None
}

/// A call, with a word for one of its members.
fn with_word(alloc: Global, call: &Value, key: &str, word: &str) -> Result<Value, AllocError> {
    let mut members = Map::new(alloc);
    let Value::Object(others) = call else {
        return Ok(Value::Object(members));
    };
    for (name, member) in others.iter() {
        let made = if name.as_str() == key {
            Value::String(String::from_str(alloc, word)?)
        } else {
            member.clone()?
        };
        let _before = members.insert(name.clone()?, made)?;
    }
    Ok(Value::Object(members))
}

/// Tells on which nodes calls are made, and which make children, or attach tokens.
fn add_meant(items: &mut Items, story: &Story<'_>, meant: &[MeantCall]) {
    let mut words = TextBuilder::of(items.alloc(), "with ");
    let mut are_some = put_on_nodes(&mut words, story, meant);
    for kind in [ActionKind::CreateChild, ActionKind::AttachToken] {
        let mark = if are_some { " and " } else { "" };
        if put_of_kind(&mut words, meant, kind, mark) {
            are_some = true;
        }
    }
    words.put(" the script has:");
    items.say(1, Label::Then, words)
}

/// Puts on which nodes calls are made after a text: `call 5 on camera and call 6 on display`;
/// whether some are.
fn put_on_nodes(text: &mut TextBuilder, story: &Story<'_>, meant: &[MeantCall]) -> bool {
    let mut are_some = false;
    for one in meant {
        if let Meaning::Node(node) = one.meaning {
            text.put(if are_some { " and call " } else { "call " });
            text.call(one.number).put(" on ");
            text.name(story.called(node));
            are_some = true;
        }
    }
    are_some
}

/// Puts which calls are of a kind after a text with a mark: `calls 2 and 3 as create_child`; whether
/// some are.
fn put_of_kind(text: &mut TextBuilder, meant: &[MeantCall], kind: ActionKind, mark: &str) -> bool {
    let count = meant.iter().filter(|one| is_of_kind(one, kind)).count();
    if count == 0 {
        return false;
    }
    text.put(mark)
        .put(if count == 1 { "call " } else { "calls " });
    let mut put = 0usize;
    for one in meant {
        if is_of_kind(one, kind) {
            text.call(one.number).put(mark_after(put, count));
            put = put.saturating_add(1);
        }
    }
    text.put(" as ").put(kind.name());
    true
}

/// Whether a call may mean one of a kind.
fn is_of_kind(one: &MeantCall, kind: ActionKind) -> bool {
    one.meaning.kind() == Some(kind)
}
