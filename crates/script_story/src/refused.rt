//! Why calls were refused.

use crate::story::{Became, MadeCall, Milestone, Story};
use crate::unchosen::{end_of, put_left_out};
use explanation_text::wording::{MOST_NAMES, put_few, put_joined};
use explanation_text::{Items, Label, Name, Phrase, Said, Standing, Step, Text, TextBuilder};
use record_reading::{Code, Fault, FaultPlace};
use script_faults::{Document, add_record_fault};
use script_reading::Act;
use script_replay::Reply;
use std::alloc::{AllocError, Global};
use sysmem_tree::{NodeKind, Refusal};

/// How many rows of refused calls are told; one more is shown rather than counted.
const MOST_ROWS: usize = 12;

/// How many numbers of calls are told.
const MOST_NUMBERS: usize = 8;

/// The number of a call.
#[derive(Clone, Copy)]
struct CallNumber(usize);

impl Phrase for CallNumber {
    fn put_into(&self, words: &mut TextBuilder) {
        words.call(self.0);
    }
}

/// A call that was refused, with its number.
#[derive(Clone, Copy)]
struct Refused<'b, 'a> {
    story: &'b Story<'a>,
    call: &'b MadeCall<'a>,
    number: usize,
}

/// Calls that have one reply and one cause.
#[derive(Drop)]
struct RefusedCalls<'b, 'a> {
    first: Refused<'b, 'a>,
    numbers: Vec<CallNumber>,
    cause: Text,
}

/// How many calls were refused: those whose reply isn't `ok`, the answers of `check` and `wait`
/// left out.
pub fn refused_calls(story: &Story<'_>) -> usize {
    story.calls.iter().filter(|call| is_refused(call)).count()
}

fn is_refused(call: &MadeCall<'_>) -> bool {
    match call.reply {
        Reply::Accepted => false,
        Reply::Refused(Refusal::WrongState) | Reply::Skipped => true,
        Reply::Refused(_) | Reply::Misread(_) => !call.asks(),
    }
}

/// Tells the calls that were refused, those with one cause in one row.
pub fn list_refused(
    items: &mut Items,
    document: &Document<'_>,
    story: &Story<'_>,
) -> Result<(), AllocError> {
    let rows = rows_of(items.alloc(), story)?;
    if !rows.is_empty() {
        add_rows(items, document, &rows);
    }
    Ok(())
}

fn add_rows(items: &mut Items, document: &Document<'_>, rows: &[RefusedCalls<'_, '_>]) {
    let is_short = rows.len() <= MOST_ROWS.saturating_add(1);
    let most = if is_short { rows.len() } else { MOST_ROWS };
    items.title("calls to look at", Standing::Bad);
    for row in rows.iter().take(most) {
        row.add(items, document);
    }
    if !is_short {
        let mut words = TextBuilder::of(items.alloc(), "and ");
        words
            .put_number(rows.len().saturating_sub(most))
            .put(" more");
        items.say(1, Label::Plain, words)
    }
}

fn rows_of<'b, 'a>(
    alloc: Global,
    story: &'b Story<'a>,
) -> Result<Vec<RefusedCalls<'b, 'a>>, AllocError> {
    let mut rows: Vec<RefusedCalls<'b, 'a>> = Vec::new(alloc);
    for (index, call) in story.calls.iter().enumerate() {
        let number = index.saturating_add(1);
        let one = Refused {
            story,
            call,
            number,
        };
        if one.is_told() {
            add_row(&mut rows, one.row(alloc)?)?;
        }
    }
    Ok(rows)
}

/// Adds a row, to one with its reply and its cause where there is one.
fn add_row<'b, 'a>(
    rows: &mut Vec<RefusedCalls<'b, 'a>>,
    row: RefusedCalls<'b, 'a>,
) -> Result<(), AllocError> {
    for other in rows.iter_mut() {
        if other.is_like(&row) {
            other.numbers.extend_from_slice(&row.numbers)?;
            return Ok(());
        }
    }
    rows.push(row)?;
    Ok(())
}

impl RefusedCalls<'_, '_> {
    /// Whether another one's calls have the same reply and the same cause, and no fault, each of
    /// which has a place of its own.
    fn is_like(&self, other: &RefusedCalls<'_, '_>) -> bool {
        self.first.fault().is_none()
            && self.first.call.reply == other.first.call.reply
            && self.cause == other.cause
    }

    /// Tells why they were refused.
    fn add(&self, items: &mut Items, document: &Document<'_>) {
        let words = self.words(items.alloc());
        items.say(1, Label::Plain, words);
        let Some(fault) = self.first.fault() else {
            return;
        };
        let base = [
            Step::Key("calls"),
            Step::Item(self.first.number.saturating_sub(1)),
            Step::Key("constraints"),
        ];
        let told = add_record_fault(items, 2, document, &base, fault, false);
        items.note(told)
    }

    /// Which they are and why they were refused, and behind it their reply; of a fault only its
    /// field and its code, for it is told below.
    fn words(&self, alloc: Global) -> TextBuilder {
        let mut words = TextBuilder::new(alloc);
        if self.numbers.len() == 1 {
            self.first.put(&mut words);
        } else {
            words.put("calls ");
            put_few(&mut words, &self.numbers, MOST_NUMBERS);
        }
        words.put(": ");
        let Some(fault) = self.first.fault() else {
            words.put_text(&self.cause).put(" (");
            self.first.call.put_reply(&mut words);
            words.put(")");
            return words;
        };
        put_fault(&mut words, fault);
        words.put(" (").put(fault.code.name()).put(")");
        words
    }
}

/// Puts a fault after a text: `a fault in usage`.
fn put_fault(text: &mut TextBuilder, fault: Fault) {
    if let Code::UnknownField = fault.code {
        text.put("a key that isn't known");
        return;
    }
    text.put("a fault in ");
    match fault.at {
        FaultPlace::At(field) => text.field(field),
        FaultPlace::Whole => text.put("its constraints"),
    };
}

impl<'b, 'a> Refused<'b, 'a> {
    /// Whether it is to be looked at: the answers that its domain's own section tells are left out.
    fn is_told(self) -> bool {
        match self.call.reply {
            Reply::Accepted
            | Reply::Refused(Refusal::ConstraintsIntersectionEmpty)
            | Reply::Refused(Refusal::TooManyGroupChildCombinations) => false,
            Reply::Refused(Refusal::Pending) => {
                matches!(self.call.node, Some(node) if end_of(self.story, node).is_some())
            }
            _ => true,
        }
    }

    /// The fault of the constraints that it states, if it was refused for one.
    fn fault(self) -> Option<Fault> {
        match self.call.reply {
            Reply::Misread(fault) => Some(fault),
            _ => None,
        }
    }

    /// Its row.
    fn row(self, alloc: Global) -> Result<RefusedCalls<'b, 'a>, AllocError> {
        if matches!(self.fault(), Some(fault) if matches!(fault.code, Code::WantOfMemory)) {
            return Err(AllocError);
        }
        let mut words = TextBuilder::new(alloc);
        self.put_cause(&mut words);
        Ok(RefusedCalls {
            first: self,
            numbers: vec![in alloc; CallNumber(self.number)]?,
            cause: words.into_text()?,
        })
    }

    /// Puts which it is after a text: `call 3, bind a`.
    fn put(self, text: &mut TextBuilder) {
        text.put("call ").call(self.number).put(", ");
        text.put(self.call.name()).put(" ");
        self.call.put_on(text);
        let Some(made) = self.call.act.name_made() else {
            return;
        };
        text.put(" ");
        match self.node_of(made) {
            Some(node) => text.name(self.story.called(node)),
            None => text.put(made),
        };
    }

    /// Puts the name on which it was made after a text, and words behind it.
    fn put_on(self, text: &mut TextBuilder, words: &str) {
        self.call.put_on(text);
        text.put(words);
    }

    /// The node of a name, by number.
    fn node_of(self, name: &str) -> Option<usize> {
        self.story.nodes.iter().position(|node| node.name == name)
    }

    /// The number of the call before it that did this to a node.
    fn earlier(self, node: usize, milestone: Milestone) -> Option<usize> {
        self.story.milestone_before(node, milestone, self.number)
    }

    /// Puts why it was refused after a text.
    fn put_cause(self, text: &mut TextBuilder) {
        let Some(node) = self.call.node else {
            return self.put_unmade(text);
        };
        let Reply::Refused(refusal) = self.call.reply else {
            text.put("its constraints have a fault, so it wasn't made");
            return;
        };
        match refusal {
            Refusal::WrongState => self.put_wrong_state(text, node),
            Refusal::NoChildren => self.put_childless(text, node),
            Refusal::NotSelected => put_left_out(text, self.story, node),
            Refusal::DomainFailed => self.put_ended(text, node),
            Refusal::Pending => self.put_too_early(text, node),
            Refusal::NoMemory => {
                text.put("memory was refused");
            }
            Refusal::TooManyNodes => {
                text.put("there are 128 nodes already, those that are gone included");
            }
            Refusal::ConstraintsIntersectionEmpty
            | Refusal::TooManyGroupChildCombinations
            | Refusal::Strange => {}
        }
    }

    /// Of a call that was skipped: the one that makes its name wasn't made.
    fn put_unmade(self, text: &mut TextBuilder) {
        let on = self.call.on;
        let mut calls = self.story.calls.iter();
        let Some(index) = calls.position(|other| other.act.name_made() == Some(on)) else {
            text.put(on).put(" wasn't made");
            return;
        };
        text.put("call ").call(index.saturating_add(1));
        text.put(", which makes ").put(on).put(", wasn't made");
    }

    /// Puts what became of the domain of a node, and after which call, after a text.
    fn put_ended(self, text: &mut TextBuilder, node: usize) {
        let Some(domain) = self.story.domain_of(node) else {
            return;
        };
        put_domain(text, self.story, domain.root);
        let number = domain.ended.unwrap_or(0);
        if domain.became == Became::Failed {
            text.put(" failed after call ").call(number);
        } else {
            text.put(" was decided after call ").call(number);
            text.put(": ").put(domain.became.word());
        }
    }

    /// Puts who was still awaited when a verdict was asked for, and what is to be done for that,
    /// after a text.
    fn put_too_early(self, text: &mut TextBuilder, node: usize) {
        let Some(known) = self.story.nodes.get(node) else {
            return;
        };
        let alloc = text.alloc();
        match self.story.awaited(alloc, known.domain, self.number) {
            Ok(nodes) => {
                text.put("asked too early, ");
                put_awaited(text, self.story.names(alloc, &nodes));
                self.put_remedy(text, node, &nodes)
            }
            Err(AllocError) => text.refuse(),
        }
    }

    /// Of a call that asks for the verdict on a node while others are awaited puts the refused call
    /// that is to be mended; or when the verdict came, if it did.
    fn put_remedy(self, text: &mut TextBuilder, node: usize, awaited: &[usize]) {
        if let Some(number) = self.refused_for(awaited) {
            return self.put_refused(text, ": ", number);
        }
        let Some(domain) = self.story.domain_of(node) else {
            return;
        };
        // Later there is no verdict to be had either.
        if domain.became == Became::Failed {
            return;
        }
        self.put_when(text, node, domain.ended.unwrap_or(0), awaited)
    }

    /// Puts that a call which asks for the verdict on a node, for which these are awaited, is to be
    /// moved after the call of the number `ended`, with which it comes; or who has released the node
    /// by then.
    fn put_when(self, text: &mut TextBuilder, node: usize, ended: usize, awaited: &[usize]) {
        let next = ended.saturating_add(1);
        if let Some(gone) = self.story.milestone_before(node, Milestone::End, next) {
            text.put(": a verdict comes only after call ").call(ended);
            text.put(", when call ").call(gone).put(" has released ");
            return self.call.put_on(text);
        }
        text.put(": move it after call ").call(ended);
        if let Act::Check = self.call.act {
            text.put(", or use wait");
        }
        if let [late] = awaited {
            self.put_attached(text, *late);
        }
    }

    /// Puts that a node may come later by another call than the one that made it after a text, where
    /// that is a duplicate and no call was made on the node yet.
    fn put_attached(self, text: &mut TextBuilder, late: usize) {
        let Some(number) = self.story.nodes.get(late).and_then(|node| node.made_by) else {
            return;
        };
        let is_duplicate = match self.story.call(number) {
            Some(call) => matches!(call.act, Act::Duplicate(_)),
            None => false,
        };
        let mut before = self.story.calls.iter().take(self.number);
        if is_duplicate && !before.any(|call| call.node == Some(late)) {
            text.put("; or, if ").name(self.story.called(late));
            text.put(" is to come later, make it after this call by attach_token, not in call ");
            text.call(number).put(" by duplicate");
        }
    }

    /// The number of the first call for whose refusal these nodes are awaited; `None` where one of
    /// them is for another reason too.
    fn refused_for(self, nodes: &[usize]) -> Option<usize> {
        let mut first = None;
        for node in nodes {
            let needed = if self.story.is_group(*node) {
                "all_children_present"
            } else {
                "set_constraints"
            };
            let refused = self.refused_on(*node, needed)?;
            if first.is_none() {
                first = Some(refused);
            }
        }
        first
    }

    /// The number of the first earlier call of a name on a node that was refused, if there is one:
    /// what it would have done is needed now.
    fn refused_on(self, node: usize, name: &str) -> Option<usize> {
        let before = self.number.saturating_sub(1);
        let index = self.story.calls.iter().take(before).position(|call| {
            call.node == Some(node) && call.name() == name && !call.is_accepted()
        })?;
        Some(index.saturating_add(1))
    }

    /// Puts words and the call of a number, which was refused, after a text.
    fn put_refused(self, text: &mut TextBuilder, words: &str, number: usize) {
        let Some(call) = self.story.call(number) else {
            return;
        };
        text.put(words);
        let story = self.story;
        Refused {
            story,
            call,
            number,
        }
        .put(text);
        text.put(", was refused");
    }

    /// Puts that an earlier call of a name on its node, which does what it needs, was refused after a
    /// text; or what it needs, where there is none.
    fn put_needed(self, text: &mut TextBuilder, node: usize, name: &str, does: &str, needed: &str) {
        let Some(number) = self.refused_on(node, name) else {
            text.put(needed);
            return;
        };
        text.put("call ").call(number);
        text.put(", which ").put(does).put(", was refused");
    }

    /// Puts which state of its node doesn't allow it after a text.
    fn put_wrong_state(self, text: &mut TextBuilder, node: usize) {
        if let Some(gone) = self.earlier(node, Milestone::End) {
            return self.put_gone(text, gone);
        }
        let makes = matches!(self.call.act, Act::CreateChild(_) | Act::AllChildrenPresent);
        match self.story.kind_before(node, self.number) {
            NodeKind::Token if makes => self.put_on(text, " is a token, no group"),
            NodeKind::Token => self.put_unbound(text, node),
            NodeKind::Group if makes => self.put_complete(text, node),
            NodeKind::Group => self.put_wrong_group(text, node),
            NodeKind::Collection => self.put_wrong_collection(text, node),
        }
    }

    /// A call on a node that the call of the number `gone` released or closed.
    fn put_gone(self, text: &mut TextBuilder, gone: usize) {
        let how = match self.story.call(gone) {
            Some(milestone) if matches!(milestone.act, Act::Close) => " was closed by call ",
            _ => " was released by call ",
        };
        self.put_on(text, how);
        text.call(gone);
        text.put(" (").put(self.story.actor(gone)).put(")");
        self.put_unset(text, "; it may mean ")
    }

    /// A call that needs a child, on a group without one.
    fn put_childless(self, text: &mut TextBuilder, node: usize) {
        self.put_on(text, " has no child: ");
        let needed = "create_child comes first";
        self.put_needed(text, node, "create_child", "makes one", needed)
    }

    /// A call that needs a collection, on a token.
    fn put_unbound(self, text: &mut TextBuilder, node: usize) {
        let Some(later) = self.story.milestone(node, Milestone::Bind) else {
            self.put_on(text, " is a token: ");
            let needed = "bind makes it a collection";
            return self.put_needed(text, node, "bind", "binds it", needed);
        };
        self.put_on(text, " is a token until call ");
        text.call(later).put(" binds it");
        if self.call.asks()
            && let Some(number) = self.refused_for(&[node])
        {
            return self.put_refused(text, ", and ", number);
        }
        text.put(": move this call after call ").call(later);
        self.put_unset(text, ", or it means ")
    }

    /// A call that makes a child or says that there are all, on a group that has all.
    fn put_complete(self, text: &mut TextBuilder, node: usize) {
        let last = self.earlier(node, Milestone::Complete).unwrap_or(0);
        self.put_on(text, " got its last child before call ");
        text.call(last).put(", all_children_present");
        self.put_move(text, last)
    }

    /// Any other call on a group.
    fn put_wrong_group(self, text: &mut TextBuilder, node: usize) {
        if !matches!(self.call.act, Act::Release) {
            return self.put_on(
                text,
                " is a group: only create_child, all_children_present, release and close suit it",
            );
        }
        self.put_on(text, " isn't complete: ");
        let name = "all_children_present";
        let needed = "all_children_present comes first";
        self.put_needed(text, node, name, "says that it is", needed)
    }

    fn put_wrong_collection(self, text: &mut TextBuilder, node: usize) {
        match self.call.act {
            Act::SetConstraints(_) => self.put_set_before(text, node),
            Act::Duplicate(_) | Act::CreateGroup(_) | Act::Bind => self.put_bound(text, node),
            _ => self.put_on(text, " is a collection, no group"),
        }
    }

    /// A call that needs a token, on a collection.
    fn put_bound(self, text: &mut TextBuilder, node: usize) {
        let bound = self.earlier(node, Milestone::Bind).unwrap_or(0);
        self.put_on(text, " is no token any more: call ");
        text.call(bound).put(" bound it");
        let is_own = self.story.actor(bound) == self.call.actor;
        if let (Act::Duplicate(_), Some(ended)) = (self.call.act, self.decided_before(node))
            && is_own
        {
            text.put("; its domain was decided after call ").call(ended);
            text.put(": who comes then, comes by attach_token");
            return;
        }
        self.put_move(text, bound)
    }

    /// The number of the call after which the domain of a node was chosen, if that came before.
    fn decided_before(self, node: usize) -> Option<usize> {
        let domain = self.story.domain_of(node)?;
        let ended = domain.ended?;
        if domain.became == Became::Chosen && ended < self.number {
            Some(ended)
        } else {
            None
        }
    }

    /// Puts that an earlier call is to be moved, for a call that makes a name.
    fn put_move(self, text: &mut TextBuilder, earlier: usize) {
        if self.call.act.name_made().is_some() {
            text.put("; move call ").call(earlier);
            text.put(" after this call");
        }
    }

    /// Constraints on a collection that has some; maybe a node whose name is that of the actor is
    /// meant.
    fn put_set_before(self, text: &mut TextBuilder, node: usize) {
        let first = self.earlier(node, Milestone::SetConstraints).unwrap_or(0);
        text.put("call ").call(first).put(" already set ");
        self.put_on(text, "; call ");
        text.call(self.number).put(" changed nothing");
        match self.node_of(self.call.actor) {
            Some(node) if self.call.actor != self.call.on => {
                put_meant(text, self.story.called(node))
            }
            _ => self.put_unset(text, ": it may mean "),
        }
    }

    /// Of a call that states constraints puts who was bound before it and has none after a text, if
    /// somebody is, with words before it: it may be meant.
    fn put_unset(self, text: &mut TextBuilder, before: &str) {
        if !matches!(self.call.act, Act::SetConstraints(_)) {
            return;
        }
        match self.unset(text.alloc()) {
            Ok(names) if names.is_empty() => {}
            Ok(names) => {
                text.put(before);
                put_joined(text, &names, "or");
                put_by_count(text, &names, ", which isn't set", ", which aren't set")
            }
            Err(AllocError) => text.refuse(),
        }
    }

    /// The names of those who were bound before it and have no constraints.
    fn unset(self, alloc: Global) -> Result<Vec<Name<'a>>, AllocError> {
        let mut names = Vec::new(alloc);
        for node in 0..self.story.nodes.len() {
            let is_bound = self.earlier(node, Milestone::Bind).is_some();
            if is_bound && self.story.is_awaited(node, usize::MAX) {
                names.push(self.story.called(node))?;
            }
        }
        Ok(names)
    }
}

/// Puts a domain with its root's name after a text: `domain /0 (camera)`. Gives where the path and
/// the name stand.
pub fn put_domain(text: &mut TextBuilder, story: &Story<'_>, root: usize) -> (Said, Said) {
    text.put("domain ");
    let start = text.len();
    text.put(story.path(root));
    let path = text.since(start);
    text.put(" (");
    let start = text.len();
    text.name(story.called(root));
    let name = text.since(start);
    text.put(")");
    (path, name)
}

/// Puts those who are still awaited after a text.
fn put_awaited(text: &mut TextBuilder, names: Result<Vec<Name<'_>>, AllocError>) {
    match names {
        Ok(names) if names.is_empty() => {
            text.put("the domain that it was attached to is still awaited");
        }
        Ok(names) => {
            put_few(text, &names, MOST_NAMES);
            put_by_count(text, &names, " is still awaited", " are still awaited")
        }
        Err(AllocError) => text.refuse(),
    }
}

/// Puts words on one name after a text, or those on several.
fn put_by_count(text: &mut TextBuilder, names: &[Name<'_>], one: &str, many: &str) {
    text.put(if names.len() == 1 { one } else { many });
}

/// Puts who may be meant after a text: a node that is called as the actor is.
fn put_meant(text: &mut TextBuilder, name: Name<'_>) {
    text.put(" (is ").name(name);
    text.put(" meant? its actor is ").put(name.text).put(")");
}
