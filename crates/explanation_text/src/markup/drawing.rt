//! What a page shows beside the items: the tree, the calls by actor, and what proves the decisions.

use std::alloc::{AllocError, Global};

/// What a joint of the tree is.
#[derive(Clone, Copy, PartialEq, Eq)]
pub enum Shape {
    Token,
    Collection,
    Group,
}

/// How a joint, or a call, stands with a decision.
#[derive(Clone, Copy, PartialEq, Eq)]
pub enum Standing {
    /// It has no part in one.
    Plain,
    /// It is chosen.
    Chosen,
    /// It is awaited, or nothing is decided yet.
    Open,
    /// It is in the way, was refused, or nothing was chosen.
    Bad,
}

/// A joint of the tree.
#[derive(Drop)]
pub struct Joint<'a> {
    pub name: &'a str,
    pub path: &'a str,
    /// The index of the joint above it; `None` of the first.
    pub above: Option<usize>,
    /// How many stand above it.
    pub depth: usize,
    pub shape: Shape,
    /// Whether it was attached later.
    pub is_late: bool,
    /// What it is, and what its participant asks.
    pub state: String,
    pub standing: Standing,
    /// How it stands, in a word or two; may be empty.
    pub word: &'a str,
}

/// A line of what was done.
#[derive(Drop)]
pub struct Line {
    /// The number of a call; `None` of a decision.
    pub number: Option<usize>,
    /// The index of the call's actor.
    pub actor: usize,
    pub words: String,
    pub standing: Standing,
}

/// What a page shows of a script's calls.
#[derive(Drop)]
pub struct Drawing<'a> {
    /// The tree's joints: each after the one above it, and before what isn't below it.
    pub joints: Vec<Joint<'a>>,
    pub actors: Vec<&'a str>,
    pub lines: Vec<Line>,
    /// What proves each decision.
    pub proofs: Vec<String>,
}

impl<'a> Drawing<'a> {
    /// An empty one.
    pub fn new(alloc: Global) -> Drawing<'a> {
        Drawing {
            joints: Vec::new(alloc),
            actors: Vec::new(alloc),
            lines: Vec::new(alloc),
            proofs: Vec::new(alloc),
        }
    }

    /// The index of an actor, which is a new one where it wasn't met before.
    pub fn column(&mut self, actor: &'a str) -> Result<usize, AllocError> {
        for (index, known) in self.actors.iter().enumerate() {
            if *known == actor {
                return Ok(index);
            }
        }
        let index = self.actors.len();
        self.actors.push(actor)?;
        Ok(index)
    }
}

/// The word by which the page's style knows how something stands.
pub(crate) fn class_of(standing: Standing) -> &'static str {
    match standing {
        Standing::Plain => "",
        Standing::Chosen => "chosen",
        Standing::Open => "open",
        Standing::Bad => "bad",
    }
}
