//! Whether stubs and a book say the same.

ghost use Rattle.std.specs.Prelude.{◌≡◌, ◌<◌, ◌≤◌, ◌↔◌, ℕ, Some, false, true, get_or, length, IfErr, IfOk};
ghost use Rattle.sysmem_participants.specs.Audit.{AreRead, IsAudited, IsFirstFault, IsRead, decisions_in};
ghost use Rattle.sysmem_room.specs.Agreeing.{IsKnown, book_log};
ghost use Rattle.sysmem_room.specs.Counting.{actions_in};
ghost use Rattle.sysmem_tree.specs.Nodes.{HasNode};
ghost use Rattle.sysmem_tree.specs.Path.{node_at};

use crate::faults::{Audit, AuditFault};
use crate::stub::Stub;
use book_events::Entry;
use std::sync::ledger::Ledger;
use sysmem_alloc::Book;
use sysmem_alloc::laws::few_entries;
use sysmem_room::{has_actions, has_verdict};
use sysmem_tree::{MOST_NODES, NodeId};

/// What a stub and its node have in common.
#[derive(Clone, Copy)]
struct Agreement {
    /// The calls, in their order.
    calls: bool,
    /// The verdict, where the stub knows one.
    verdict: bool,
}

impl Agreement {
    /// What both have in common.
    fn and(self, other: Agreement) -> Agreement
        ensures calls { (result.calls ≡ true) ↔ ((self.calls ≡ true) × (other.calls ≡ true)) }
        ensures verdict { (result.verdict ≡ true)
            ↔ ((self.verdict ≡ true) × (other.verdict ≡ true)) }
    {
        Agreement {
            calls: self.calls && other.calls,
            verdict: self.verdict && other.verdict,
        }
    }
}

/// Reads a stub's cell, and compares the stub with the node at its path.
fn agreement_of<L: Ledger>(book: &Book, node: NodeId, stub: &mut Stub<L>) -> Agreement
    requires there { HasNode book.now.state.tree.nodes node }
    requires at { node_at book.now.state.tree.nodes stub.old.path ≡ Some node }
    ensures at { node_at book.now.state.tree.nodes stub.new.path ≡ Some node }
    ensures calls { (result.calls ≡ true) ↔ (book_log book.now.history node ≡ stub.new.deeds) }
    ensures verdict { (result.verdict ≡ true) ↔ IsKnown book.now node stub.new.known }
    ensures read { IsRead stub.old stub.new }
{
    let calls = has_actions(book, node, stub.log.actions());
    let known = stub.cell.get_as(&mut stub.note);
    let verdict = has_verdict(book, node, known);
    Agreement { calls, verdict }
}

/// How many of the entries are actions.
fn actions_of(book: &Book) -> usize
    ensures actions { result ≡ actions_in book.now.history }
    ensures within { result ≤ length book.now.history }
{
    let entries = book.history();
    let mut actions = 0;
    for entry in entries {
        if let Entry::Acted(..) = entry {
            actions += 1;
        }
    }
    actions
}

/// What there is to count in a book.
fn counted(book: &Book) -> Audit
    ensures nodes { result.nodes ≡ length book.now.state.tree.nodes }
    ensures actions { result.actions ≡ actions_in book.now.history }
    ensures decisions { result.decisions ≡ decisions_in book.now.history }
{
    few_entries();
    book.platform();
    let actions = actions_of(book);
    let decisions = book.history().len() - actions;
    Audit {
        nodes: book.tree().node_count(),
        actions: actions as u32,
        decisions: decisions as u32,
    }
}

/// Whether the node with each of these numbers is marked.
fn are_marked(marks: &[bool; MOST_NODES], nodes: u32) -> bool
    requires { nodes ≤ MOST_NODES }
    ensures all { result ≡ true → (i : ℕ) → i < nodes → get_or marks.now i false ≡ true }
    ensures one { result ≡ false → (i : ℕ) × (i < nodes) × (get_or marks.now i false ≡ false) }
{
    for number in 0..nodes {
        if !marks[number as usize] {
            return false;
        }
    }
    true
}

/// Reads the stubs' cells: whether there is one stub for each node of a book, with the node's
/// actions and, where the stub knows a verdict then, that of the node's domain; and what there is
/// to count in the book. Else the first fault, of all stubs, in the order `Stubs`, `Calls`,
/// `Verdicts`.
pub fn stubs_agree<L: Ledger>(book: &Book, stubs: &mut [Stub<L>]) -> Result<Audit, AuditFault>
    ensures agree { IfOk result (IsAudited book.now stubs.new) }
    ensures fault { IfErr result (IsFirstFault book.now stubs.new) }
    ensures read { AreRead stubs.old stubs.new }
{
    let nodes = book.tree().node_count();
    if stubs.len() != nodes as usize {
        return Err(AuditFault::Stubs);
    }
    let mut marks = [false; MOST_NODES];
    let mut all = Agreement {
        calls: true,
        verdict: true,
    };
    for index in 0..stubs.len() {
        let stub = &mut stubs[index];
        let Some(node) = book.tree().node_at(stub.log.path()) else {
            return Err(AuditFault::Stubs);
        };
        marks[book.tree().number_of(node) as usize] = true;
        all = all.and(agreement_of(book, node, stub));
    }
    let have_stubs = are_marked(&marks, nodes);
    if !have_stubs {
        return Err(AuditFault::Stubs);
    }
    let Agreement { calls, verdict } = all;
    if !calls {
        return Err(AuditFault::Calls);
    }
    if !verdict {
        return Err(AuditFault::Verdicts);
    }
    Ok(counted(book))
}
