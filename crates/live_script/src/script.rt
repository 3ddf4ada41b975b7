//! A collection's history as a script: the accepted calls, in their order.

ghost use Rattle.std.specs.Prelude.{◌≡◌, ◌≤◌, ◌++◌, ◌∷◌, ℕ, [], IfErr, IfOk, IfSome, List, Ok, OnOk, Option, option_map};
ghost use Rattle.std.specs.List.{AllByRecursion};
ghost use Rattle.std.specs.String.{string_bytes};
ghost use Rattle.live_script.specs.Script.{IsScriptOf, IsTooLong, act_told, actor_told, asked_by, call_told, called, calls_told, nodes_then};
ghost use Rattle.live_script.specs.Calls.{HasItsNode, IsRead, nodes_behind};
ghost use Rattle.live_script.specs.declared.script.TheConstants.{MANY_NODES};
ghost use Rattle.live_script.specs.declared.script.Unwritten.TheVariants.{TooLong};
ghost use Rattle.negotiation_inputs.specs.Participant.{Participant};
ghost use Rattle.negotiation_inputs.specs.Platform.{PlatformFacts};
ghost use Rattle.node_names.specs.Names.{NamedNode};
ghost use Rattle.record_laws.specs.Sparse.{participant_written};
ghost use Rattle.record_reading.specs.Reading.{participant_of};
ghost use Rattle.script_reading.specs.Seen.{act_seen};
ghost use Rattle.script_writing.specs.Call.{WrittenCall};
ghost use Rattle.script_writing.specs.Script.{HasTaken, IsScriptText};
ghost use Rattle.serde_json.specs.View.{view};
ghost use Rattle.sysmem_alloc.specs.Entry.{Acted, deed_with, entry_in};
ghost use Rattle.sysmem_tree.specs.Nodes.{HasNode};
ghost use Rattle.verdict_claims.specs.Asked.{asks_at};

use crate::laws::settled_calls_recur;
use book_events::Entry;
use live_book::Snapshot;
use node_names::Names;
use record_writing::write_constraints;
use script_reading::{Act, LONGEST, Stated};
use script_writing::ScriptWriter;
use serde_json::Value;
use std::alloc::{AllocError, Global};
use sysmem_alloc::laws::few_entries;
use sysmem_tree::{ActionKind, NodeId, Tree};

/// As many actors as a script may have, but for `main`.
const MOST_NAMED_ACTORS: usize = 15;

/// More nodes than the entries of a history make: these are at most 639.
const MANY_NODES: u32 = 1000;

/// Who makes the calls on a node: it itself, by the name that it was given, where few were given
/// one.
fn actor_of(names: &Names, number: u32) -> Option<&str>
    ensures { option_map (λ name. name.now) result ≡ actor_told names.now number }
{
    if names.count() <= MOST_NAMED_ACTORS {
        names.given(number)
    } else {
        None
    }
}

/// What a node is called in a script.
fn called(alloc: Global, names: &Names, number: u32) -> Result<String, AllocError>
    ensures { IfOk result (λ name. string_bytes name ≡ called names.now number) }
{
    if number == 0 {
        return String::from_str(alloc, "root");
    }
    let mut name = String::new(alloc);
    names.put(&mut name, number)?;
    Ok(name)
}

/// The record of the constraints of a node, if it set some.
fn record_of(alloc: Global, tree: &Tree, node: NodeId) -> Result<Option<Value>, AllocError>
    requires { HasNode tree.now.nodes node }
    ensures written { IfOk result (λ value. option_map view value
        ≡ option_map participant_written (asks_at tree.now.nodes node)) }
    ensures read { OnOk result (IfSome (asks_at tree.now.nodes node)
        (λ p. participant_of (participant_written p) ≡ Ok p)) }
{
    match tree.constraints_of(node) {
        Some(asked) => Ok(Some(write_constraints(alloc, asked)?)),
        None => Ok(None),
    }
}

/// The record of the constraints that an action sets, if it sets some.
fn stated(
    alloc: Global,
    tree: &Tree,
    node: NodeId,
    kind: ActionKind,
) -> Result<Option<Value>, AllocError>
    requires { HasNode tree.now.nodes node }
    ensures written { IfOk result (λ value. option_map view value
        ≡ option_map participant_written
        (asked_by (deed_with (asks_at tree.now.nodes node) kind))) }
    ensures read { OnOk result
        (IsRead (Acted node (deed_with (asks_at tree.now.nodes node) kind))) }
{
    match kind {
        ActionKind::SetConstraints => record_of(alloc, tree, node),
        _ => Ok(None),
    }
}

/// What a call does for an action of a kind, with the name of the node that it makes and the record
/// that it states.
fn act_of<'a>(kind: ActionKind, made: &'a str, stated: Option<&'a Value>) -> Act<'a>
    ensures { (names : List NamedNode) (n : ℕ) (set : Option Participant)
        → made.now ≡ called names n → option_map (λ one. view one.now) stated.entry
        ≡ option_map participant_written (asked_by (deed_with set kind))
        → act_seen result ≡ act_told names n (deed_with set kind) }
{
    match kind {
        ActionKind::Duplicate => Act::Duplicate(made),
        ActionKind::CreateGroup => Act::CreateGroup(made),
        ActionKind::Bind => Act::Bind,
        ActionKind::CreateChild => Act::CreateChild(made),
        ActionKind::AllChildrenPresent => Act::AllChildrenPresent,
        ActionKind::SetConstraints => Act::SetConstraints(stated.map(Stated::of)),
        ActionKind::AttachToken => Act::AttachToken(made),
        ActionKind::Release => Act::Release,
        ActionKind::Close => Act::Close,
    }
}

/// How many nodes there are after an action.
fn nodes_then(nodes: u32, kind: ActionKind) -> u32
    requires { nodes ≤ MANY_NODES }
    ensures { (set : Option Participant) → result ≡ nodes_then nodes (deed_with set kind) }
{
    if kind.makes().is_some() {
        nodes + 1
    } else {
        nodes
    }
}

/// Puts the call of an action, and tells how many nodes there are behind it.
fn put_action(
    alloc: Global,
    writer: &mut ScriptWriter,
    snapshot: &Snapshot,
    node: NodeId,
    kind: ActionKind,
    nodes: u32,
) -> Result<u32, AllocError>
    requires there { HasNode snapshot.now.tree.nodes node }
    requires few { nodes ≤ MANY_NODES }
    ensures put { (platform : PlatformFacts) (calls : List WrittenCall)
        → HasTaken writer.old platform calls → OnOk result (HasTaken writer.new platform
        (calls ++ call_told snapshot.now.names nodes node
        (deed_with (asks_at snapshot.now.tree.nodes node) kind) ∷ [])) }
    ensures read { OnOk result
        (IsRead (Acted node (deed_with (asks_at snapshot.now.tree.nodes node) kind))) }
    ensures behind { IfOk result (λ next. next
        ≡ nodes_then nodes (deed_with (asks_at snapshot.now.tree.nodes node) kind)) }
{
    let tree = snapshot.tree();
    let names = snapshot.names();
    let number = tree.number_of(node);
    let on = called(alloc, names, number)?;
    let made = called(alloc, names, nodes)?;
    let record = stated(alloc, tree, node, kind)?;
    let act = act_of(kind, &made, record.as_ref());
    writer.put(act, &on, actor_of(names, number))?;
    Ok(nodes_then(nodes, kind))
}

/// Puts the call of an entry, if it is an action, and tells how many nodes there are behind it.
fn put_entry(
    alloc: Global,
    writer: &mut ScriptWriter,
    snapshot: &Snapshot,
    entry: &Entry,
    nodes: u32,
) -> Result<u32, AllocError>
    requires there { HasItsNode snapshot.now.tree.nodes
        (entry_in snapshot.now.tree.nodes entry.now) }
    requires few { nodes ≤ MANY_NODES }
    ensures put { (platform : PlatformFacts) (calls : List WrittenCall)
        → HasTaken writer.old platform calls → OnOk result (HasTaken writer.new platform
        (calls ++ calls_told snapshot.now.names nodes
        (entry_in snapshot.now.tree.nodes entry.now ∷ []))) }
    ensures read { OnOk result (IsRead (entry_in snapshot.now.tree.nodes entry.now)) }
    ensures behind { IfOk result (λ next. next
        ≡ nodes_behind nodes (entry_in snapshot.now.tree.nodes entry.now)) }
{
    match entry {
        Entry::Acted(node, kind) => put_action(alloc, writer, snapshot, *node, *kind, nodes),
        Entry::Decided(_, _) => Ok(nodes),
    }
}

/// The text of a collection's script.
fn written(alloc: Global, snapshot: &Snapshot) -> Result<Vec<u8>, AllocError>
    ensures text { IfOk result (λ text. IsScriptText snapshot.now.platform
        (calls_told snapshot.now.names 1 snapshot.now.history) text.items) }
    ensures read { OnOk result (AllByRecursion IsRead snapshot.now.history) }
{
    few_entries();
    snapshot.recall_settled();
    let mut writer = ScriptWriter::new(alloc, snapshot.platform())?;
    let mut nodes = 1;
    let history = snapshot.history();
    for entry in history {
        nodes = put_entry(alloc, &mut writer, snapshot, entry, nodes)?;
    }
    writer.finish()
}

/// Why a collection's script isn't written.
#[derive(Clone, Copy, Debug, Drop)]
pub enum Unwritten {
    NoMemory,
    /// It would be longer than a script may be.
    TooLong,
}

impl From<AllocError> for Unwritten {
    ghost use Rattle.live_script.specs.declared.script.TheConstants.{MANY_NODES};
    ghost use Rattle.live_script.specs.declared.script.Unwritten.TheVariants.{NoMemory};

    ghost from_gives = { λ _ unwritten. unwritten ≡ NoMemory };

    fn from(_: AllocError) -> Unwritten {
        Unwritten::NoMemory
    }
}

/// The script of a collection: its accepted calls, in their order, by what its nodes are called.
pub fn script_of(alloc: Global, snapshot: &Snapshot) -> Result<Vec<u8>, Unwritten>
    ensures script { IfOk result (λ text. IsScriptOf snapshot.now text.items) }
    ensures long { IfErr result (λ why. why ≡ TooLong → IsTooLong snapshot.now) }
{
    settled_calls_recur();
    few_entries();
    snapshot.recall_settled();
    snapshot.names().recall_names();
    let text = written(alloc, snapshot)?;
    if text.len() > LONGEST {
        return Err(Unwritten::TooLong);
    }
    Ok(text)
}
