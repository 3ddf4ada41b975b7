//! What a script's calls did, call by call and node by node.

ghost use Rattle.std.specs.Prelude.{◌≡◌, IfOk};
ghost use Rattle.std.specs.String.{string_bytes};
ghost use Rattle.script_replay.specs.Lines.{reply_text};
ghost use Rattle.script_story.specs.Became.{became_word};
ghost use Rattle.script_story.specs.Paths.{path_at};

use crate::outcome::Outcome;
use explanation_text::{Name, Standing, TextBuilder};
use negotiation_inputs::Constraints;
use script_reading::Act;
use script_replay::{Reply, put_reply_text};
use std::alloc::{AllocError, Global};
use sysmem_merge::Settings;
use sysmem_tree::{NodeKind, NodeState, Refusal};

/// A call, with its answer.
#[derive(Clone, Copy)]
pub struct MadeCall<'a> {
    pub act: Act<'a>,
    /// The name on which it is made.
    pub on: &'a str,
    pub place: usize,
    pub actor: &'a str,
    /// The node on which it is made, by number, if there is one.
    pub node: Option<usize>,
    pub reply: Reply,
}

impl<'a> MadeCall<'a> {
    /// Puts the name on which it is made after a text.
    pub fn put_on(&self, text: &mut TextBuilder) {
        match self.node {
            Some(node) => text.name(Name {
                node,
                text: self.on,
            }),
            None => text.put(self.on),
        };
    }

    /// Whether it was made.
    pub fn is_accepted(&self) -> bool {
        matches!(self.reply, Reply::Accepted)
    }

    /// Whether it was refused so.
    pub fn is_refused_as(&self, refusal: Refusal) -> bool {
        matches!(self.reply, Reply::Refused(found) if found == refusal)
    }

    /// Puts its reply after a text, as a report has it.
    pub fn put_reply(&self, text: &mut TextBuilder) {
        match self.reply_words(text.alloc()) {
            Ok(words) => {
                text.put(&words);
            }
            Err(AllocError) => text.refuse(),
        }
    }

    /// Its reply, as a report has it: `ok`, `E9 Pending`.
    fn reply_words(&self, alloc: Global) -> Result<String, AllocError>
        ensures { IfOk result (λ words. string_bytes words ≡ reply_text self.now.reply) }
    {
        let mut words = String::new(alloc);
        put_reply_text(&mut words, self.reply)?;
        Ok(words)
    }

    /// Whether it asks for a verdict alone.
    pub fn asks(&self) -> bool {
        matches!(self.act, Act::Check | Act::Wait)
    }

    /// Its name.
    pub fn name(&self) -> &'static str {
        self.act.name()
    }
}

/// What is done to a node once.
#[derive(Clone, Copy)]
pub enum Milestone {
    Bind,
    SetConstraints,
    /// It is released or closed.
    End,
    /// A group has all its children.
    Complete,
}

/// The milestone that a call does, if it does one.
fn milestone_of(act: &Act<'_>) -> Option<Milestone> {
    match act {
        Act::Bind => Some(Milestone::Bind),
        Act::SetConstraints(_) => Some(Milestone::SetConstraints),
        Act::Release | Act::Close => Some(Milestone::End),
        Act::AllChildrenPresent => Some(Milestone::Complete),
        _ => None,
    }
}

/// The numbers of the first calls that did a node's milestones.
#[derive(Clone, Copy, Default)]
pub struct Milestones {
    bind: Option<usize>,
    set_constraints: Option<usize>,
    end: Option<usize>,
    complete: Option<usize>,
}

impl Milestones {
    fn of(&self, milestone: Milestone) -> Option<usize> {
        match milestone {
            Milestone::Bind => self.bind,
            Milestone::SetConstraints => self.set_constraints,
            Milestone::End => self.end,
            Milestone::Complete => self.complete,
        }
    }

    /// Keeps the number of a call that was made, where it is the first that does its milestone.
    pub fn note(&mut self, act: &Act<'_>, number: usize) {
        let Some(milestone) = milestone_of(act) else {
            return;
        };
        if self.of(milestone).is_some() {
            return;
        }
        match milestone {
            Milestone::Bind => self.bind = Some(number),
            Milestone::SetConstraints => self.set_constraints = Some(number),
            Milestone::End => self.end = Some(number),
            Milestone::Complete => self.complete = Some(number),
        }
    }
}

/// A node, as the last call left it.
#[derive(Drop)]
pub struct Node<'a> {
    pub name: &'a str,
    /// Its path, as a report has it.
    pub path: String,
    /// Its parent, by number.
    pub parent: Option<usize>,
    /// Its domain, by index.
    pub domain: usize,
    pub state: NodeState,
    /// The number of the call that made it; `None` of the root.
    pub made_by: Option<usize>,
    pub is_selected: bool,
    pub constraints: Option<&'a Constraints>,
    /// What was done to it, by which calls.
    pub milestones: Milestones,
}

/// What became of a domain.
#[derive(Clone, Copy, PartialEq, Eq)]
pub enum Became {
    /// It has no verdict.
    Pending,
    Chosen,
    /// No settings meet its participants.
    Empty,
    /// It has too many selections.
    TooMany,
    /// Memory was refused to its decision.
    NoMemory,
    Failed,
}

impl Became {
    /// The word that a report has for it.
    pub fn word(self) -> &'static str
        ensures { result.now ≡ became_word self }
    {
        match self {
            Became::Pending => "pending",
            Became::Chosen => "chosen",
            Became::Empty => "empty",
            Became::TooMany => "too_many",
            Became::NoMemory => "no_memory",
            Became::Failed => "failed",
        }
    }

    /// How what is told of such a domain stands with a decision.
    pub fn standing(self) -> Standing {
        match self {
            Became::Chosen => Standing::Chosen,
            Became::Pending => Standing::Open,
            Became::Empty | Became::TooMany | Became::NoMemory | Became::Failed => Standing::Bad,
        }
    }
}

/// A domain, as the last call left it.
#[derive(Drop)]
pub struct Domain {
    /// Its root, by number.
    pub root: usize,
    /// The node to which its root was attached, by number; `None` of the initial one.
    pub host: Option<usize>,
    pub became: Became,
    /// What became of it, and what the report says of it.
    pub told: Outcome,
    /// The call after which that came; `None` where it has no verdict.
    pub ended: Option<usize>,
    /// The settings that were chosen.
    pub settings: Option<Settings>,
}

/// What a script's calls did.
pub struct Story<'a> {
    pub calls: Vec<MadeCall<'a>>,
    pub nodes: Vec<Node<'a>>,
    pub domains: Vec<Domain>,
    /// The domains by index, in the order of the report.
    pub order: Vec<usize>,
}

impl Drop for Story<'_> {
    fn drop(self) {
        let Story {
            calls: _,
            nodes: _,
            domains: _,
            order: _,
        } = self;
    }
}

impl<'a> Story<'a> {
    /// The name of a node.
    pub fn name(&self, node: usize) -> &'a str {
        match self.nodes.get(node) {
            Some(node) => node.name,
            None => "",
        }
    }

    /// The path of a node, as a report has it; empty where there is no such node.
    pub fn path(&self, node: usize) -> &str
        ensures { result.now ≡ path_at self.now.nodes.items node }
    {
        match self.nodes.get(node) {
            Some(node) => &node.path,
            None => "",
        }
    }

    /// A node, by number, with its name.
    pub fn called(&self, node: usize) -> Name<'a> {
        Name {
            node,
            text: self.name(node),
        }
    }

    /// The parent of a node, by number.
    pub fn parent(&self, node: usize) -> Option<usize> {
        self.nodes.get(node)?.parent
    }

    /// The number of the call that made a node.
    pub fn maker(&self, node: usize) -> Option<usize> {
        self.nodes.get(node)?.made_by
    }

    /// Whether a node is a group.
    pub fn is_group(&self, node: usize) -> bool {
        match self.nodes.get(node) {
            Some(known) => known.state.kind == NodeKind::Group,
            None => false,
        }
    }

    /// Whether a node is selected.
    pub fn is_selected(&self, node: usize) -> bool {
        match self.nodes.get(node) {
            Some(known) => known.is_selected,
            None => false,
        }
    }

    /// The call of this number, from 1.
    pub fn call(&self, number: usize) -> Option<&MadeCall<'a>> {
        match number.checked_sub(1) {
            Some(index) => self.calls.get(index),
            None => None,
        }
    }

    /// The actor of the call of this number.
    pub fn actor(&self, number: usize) -> &'a str {
        match self.call(number) {
            Some(call) => call.actor,
            None => "",
        }
    }

    /// The number of the first call that did this to a node.
    pub fn milestone(&self, node: usize, milestone: Milestone) -> Option<usize> {
        match self.nodes.get(node) {
            Some(node) => node.milestones.of(milestone),
            None => None,
        }
    }

    /// The same, before the call of a number.
    pub fn milestone_before(
        &self,
        node: usize,
        milestone: Milestone,
        number: usize,
    ) -> Option<usize> {
        match self.milestone(node, milestone) {
            Some(made) if made < number => Some(made),
            _ => None,
        }
    }

    /// What a node is before the call of a number.
    pub fn kind_before(&self, node: usize, number: usize) -> NodeKind {
        let Some(known) = self.nodes.get(node) else {
            return NodeKind::Token;
        };
        if known.state.kind == NodeKind::Group {
            return NodeKind::Group;
        }
        if self
            .milestone_before(node, Milestone::Bind, number)
            .is_some()
        {
            NodeKind::Collection
        } else {
            NodeKind::Token
        }
    }

    /// The children of a node that lie in its domain, by number.
    pub fn children(&self, alloc: Global, node: usize) -> Result<Vec<usize>, AllocError> {
        let mut children = Vec::new(alloc);
        let Some(parent) = self.nodes.get(node) else {
            return Ok(children);
        };
        for (number, child) in self.nodes.iter().enumerate() {
            if child.parent == Some(node) && child.domain == parent.domain {
                children.push(number)?;
            }
        }
        Ok(children)
    }

    /// Whether a decision of its domain waits for a node, before the call of a number.
    pub fn is_awaited(&self, node: usize, number: usize) -> bool {
        let Some(known) = self.nodes.get(node) else {
            return false;
        };
        if matches!(known.made_by, Some(made) if made >= number) {
            return false;
        }
        let is_open = self
            .milestone_before(node, Milestone::End, number)
            .is_none();
        match self.kind_before(node, number) {
            NodeKind::Token => is_open,
            NodeKind::Collection => {
                let is_set = self
                    .milestone_before(node, Milestone::SetConstraints, number)
                    .is_some();
                is_open && !is_set
            }
            NodeKind::Group => self
                .milestone_before(node, Milestone::Complete, number)
                .is_none(),
        }
    }

    /// The nodes for which the decision of a domain waits, before the call of a number, in the
    /// order in which they were made.
    pub fn awaited(
        &self,
        alloc: Global,
        domain: usize,
        number: usize,
    ) -> Result<Vec<usize>, AllocError> {
        let mut awaited = Vec::new(alloc);
        for (node, known) in self.nodes.iter().enumerate() {
            if known.domain == domain && self.is_awaited(node, number) {
                awaited.push(node)?;
            }
        }
        Ok(awaited)
    }

    /// The names of nodes.
    pub fn names(&self, alloc: Global, nodes: &[usize]) -> Result<Vec<Name<'a>>, AllocError> {
        let mut names = Vec::new(alloc);
        for node in nodes {
            names.push(self.called(*node))?;
        }
        Ok(names)
    }

    /// The root of the domain of an index, by number.
    pub fn root_of(&self, index: usize) -> usize {
        match self.domains.get(index) {
            Some(domain) => domain.root,
            None => 0,
        }
    }

    /// The domain of a node.
    pub fn domain_of(&self, node: usize) -> Option<&Domain> {
        match self.nodes.get(node) {
            Some(node) => self.domains.get(node.domain),
            None => None,
        }
    }
}
