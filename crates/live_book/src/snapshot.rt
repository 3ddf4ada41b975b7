//! A copy of a collection.

ghost use Rattle.std.specs.Prelude.{◌≡◌, ◌≤◌, ◌<◌, ◌⊎◌, ℕ, [], None, IfOk, IfSome, IsSomeAnd, IsTrue, List, drop, false, length, map, option_map, slice_get, take};
ghost use Rattle.std.specs.Arc.{arc_value};
ghost use Rattle.sysmem_tree.specs.Node.{NodeFacts};
ghost use Rattle.sysmem_alloc.specs.Entry.{entry_in};
ghost use Rattle.sysmem_alloc.specs.State.{next_ready};
ghost use Rattle.live_book.specs.Eager.{IsEager};
ghost use Rattle.live_book.specs.Snapshot.{HasLedTo, IsCopyOf, IsKeptAction, IsKeptDecision, IsOneCall, IsSettled, IsSettledPart};

use crate::acting::is_waited_for;
use crate::collection::Collection;
use book_events::Entry;
use negotiation_inputs::Platform;
use node_names::Names;
use std::alloc::{AllocError, Global};
use std::marker::Model;
use std::sync::Arc;
use sysmem_alloc::Book;
use sysmem_tree::Tree;
use verdict_claims::Claim;

/// What a script and a certificate of a collection are written from, outside its lock: its history
/// as of the last moment when no domain waited for a decision.
pub struct Snapshot {
    platform: Platform,
    tree: Tree,
    history: Vec<Entry>,
    names: Names,
}

impl Drop for Snapshot {
    fn drop(self) {
        let Snapshot {
            platform: _,
            tree: _,
            history: _,
            names: _,
        } = self;
    }
}

impl Model for Snapshot {
    ghost use Rattle.std.specs.Prelude.{map};
    ghost use Rattle.sysmem_alloc.specs.Entry.{entry_in};
    ghost use Rattle.live_book.specs.Snapshot.{IsSnapshot, SnapshotFacts};

    ghost Value = { SnapshotFacts };

    ghost view = { λ s. record {
      platform = s.platform;
      tree = s.tree;
      history = map (entry_in s.tree.nodes) s.history.items;
      names = s.names;
    } };

    ghost invariant = { λ s. IsSnapshot s.platform s.tree
        (map (entry_in s.tree.nodes) s.history.items) };
}

/// One more owner of a claim, if there is one.
fn shared(claim: &Option<Arc<Claim>>) -> Result<Option<Arc<Claim>>, AllocError>
    ensures { IfOk result (λ copy. option_map (λ one. arc_value one) copy
        ≡ option_map (λ one. arc_value one) claim.now) }
{
    match claim {
        Some(one) => Ok(Some(Arc::try_clone(one)?)),
        None => Ok(None),
    }
}

/// A copy of an entry, which shares the claim.
fn copied_entry(entry: &Entry) -> Result<Entry, AllocError>
    ensures { IfOk result (λ copy. (nodes : List NodeFacts)
        → entry_in nodes copy ≡ entry_in nodes entry.now) }
{
    match entry {
        Entry::Acted(node, kind) => Ok(Entry::Acted(*node, *kind)),
        Entry::Decided(domain, claim) => Ok(Entry::Decided(*domain, shared(claim)?)),
    }
}

fn copied_history(alloc: Global, history: &[Entry]) -> Result<Vec<Entry>, AllocError>
    ensures { IfOk result (λ copy. (nodes : List NodeFacts)
        → map (entry_in nodes) copy.items ≡ map (entry_in nodes) history.now) }
{
    let mut copy = Vec::new(alloc);
    for entry in history {
        copy.push(copied_entry(entry)?)?;
    }
    Ok(copy)
}

fn is_action(entry: &Entry) -> bool
    ensures action { IsTrue result → IsKeptAction entry.now }
    ensures decision { result ≡ false → IsKeptDecision entry.now }
{
    match entry {
        Entry::Acted(_, _) => true,
        Entry::Decided(_, _) => false,
    }
}

/// How many entries stand before the last action; 0 where there is none.
fn before_last_action(history: &[Entry]) -> usize
    ensures within { result ≤ length history.now }
    ensures action { (result ≡ 0) ⊎ IsSomeAnd (slice_get history.now result) IsKeptAction }
    ensures later { (k : ℕ) → result < k → IfSome (slice_get history.now k) IsKeptDecision }
{
    let mut count = history.len();
    while count > 0 {
        count -= 1;
        if is_action(&history[count]) {
            return count;
        }
    }
    0
}

/// How many entries there were at the last moment when no domain waited for a decision.
fn settled_count(book: &Book) -> usize
    requires { IsEager book.now.history }
    ensures within { result ≤ length book.now.history }
    ensures settled { IsSettled book.now.platform (take result book.now.history) }
    ensures one_call { IsOneCall (drop result book.now.history) }
    ensures all { next_ready book.now.state ≡ None → drop result book.now.history ≡ [] }
{
    let history = book.history();
    if is_waited_for(book) {
        before_last_action(history)
    } else {
        history.len()
    }
}

/// The history as of the last moment when no domain waited for a decision.
fn settled_history(alloc: Global, book: &Book) -> Result<Vec<Entry>, AllocError>
    requires { IsEager book.now.history }
    ensures { IfOk result (λ copy. IsSettledPart book.now
        (map (entry_in book.now.state.tree.nodes) copy.items)) }
{
    let count = settled_count(book);
    let history = book.history();
    let part = &history[..count];
    let copy = copied_history(alloc, part)?;
    Ok(copy)
}

impl Snapshot {
    /// A copy of a collection, as of the last moment when no domain waited for a decision.
    /// `AllocError` where memory is refused.
    pub fn of(alloc: Global, collection: &Collection) -> Result<Snapshot, AllocError>
        ensures { IfOk result (IsCopyOf collection.now) }
    {
        let book = collection.book();
        let history = settled_history(alloc, book)?;
        let copy = Snapshot {
            platform: book.platform().copy()?,
            tree: book.tree().copy()?,
            history,
            names: collection.names().copy()?,
        };
        Ok(copy)
    }

    /// The platform.
    pub fn platform(&self) -> &Platform
        ensures { result.now ≡ self.now.platform }
    {
        &self.platform
    }

    /// The tree, which the last call may have changed already.
    pub fn tree(&self) -> &Tree
        ensures { result.now ≡ self.now.tree }
    {
        &self.tree
    }

    /// Recalls, for a proof, that no domain waits behind the history, as behind each, and that the
    /// tree is what it has led to. It does nothing.
    pub fn recall_settled(&self)
        ensures settled { IsSettled self.now.platform self.now.history }
        ensures led { HasLedTo self.now.platform self.now.history self.now.tree }
    {
        let _ = &self.history;
    }

    /// What was entered, the oldest first.
    pub fn history(&self) -> &[Entry]
        ensures { map (entry_in self.now.tree.nodes) result.now ≡ self.now.history }
    {
        &self.history
    }

    /// The names that nodes were given.
    pub fn names(&self) -> &Names
        ensures { result.now ≡ self.now.names }
    {
        &self.names
    }
}
