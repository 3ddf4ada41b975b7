//! A script played by its actors.

ghost use Rattle.std.specs.Prelude.{◌≡◌, IfOk, IsTrue};
ghost use Rattle.std.specs.String.{string_bytes};
ghost use Rattle.script_replay.specs.Lines.{Puts};
ghost use Rattle.script_threads.specs.Text.{AreLines, IsText, IsTold, audit_line};
ghost use Rattle.sysmem_room.specs.Counting.{all_parts};

use crate::actor::act;
use crate::domains::{Lines, lines_of};
use crate::handle::Handle;
use crate::planning::names_made;
use crate::stage::{Remains, Stage};
use crate::start::Signal;
use negotiation_inputs::Platform;
use script_reading::Call;
use std::alloc::{AllocError, Global};
use std::fmt::Write;
use std::sync::Wait;
use std::sync::ledger::{Blank, Ledger};
use std::thread;
use std::thread::Threads;
use sysmem_participants::{Allocator, Audit, AuditFault, Reader, Stub, Token, audit};
use sysmem_search::NoGate;

/// What is told of a script that was played.
#[derive(Drop)]
pub(crate) struct PlayReport {
    /// A line for each domain, and that of the audit.
    pub(crate) text: String,
    /// Whether memory was refused to a call or a decision.
    pub(crate) is_starved: bool,
}

/// Plays calls on a new collection for this platform, which this ledger counts.
pub(crate) fn play<L: Ledger + Send + Sync, R: Threads + Wait + Sync>(
    rt: &R,
    alloc: Global,
    blank: Blank,
    platform: Platform,
    calls: &[Call<'_>],
) -> Result<PlayReport, AuditFault>
    requires name { blank.name ≡ L.name }
    requires ledger { blank.parts ≡ L.parts }
    requires parts { blank.parts ≡ all_parts }
    ensures { IfOk result (λ told. IsTold told.is_starved (string_bytes told.text)) }
{
    let names = names_made(calls);
    let Ok(stubs) = Vec::with_capacity(alloc, names.saturating_add(1)) else {
        return Err(AuditFault::NoMemory);
    };
    let Ok(allocator) = Allocator::new(alloc, platform, NoGate) else {
        return Err(AuditFault::NoMemory);
    };
    let Ok(root) = allocator.allocate_shared::<L>(blank) else {
        return Err(AuditFault::NoMemory);
    };
    play_on(rt, alloc, root, names, stubs, calls)
}

/// Plays calls that make so many names on the collection of this root, and closes what is left of
/// it.
fn play_on<L: Ledger + Send + Sync, R: Threads + Wait + Sync>(
    rt: &R,
    alloc: Global,
    root: Token<L, NoGate>,
    names: usize,
    stubs: Vec<Stub<L>>,
    calls: &[Call<'_>],
) -> Result<PlayReport, AuditFault>
    ensures { IfOk result (λ told. IsTold told.is_starved (string_bytes told.text)) }
{
    let Ok(reader) = root.reader() else {
        let _stub = Handle::Token(root).close(rt);
        return Err(AuditFault::NoMemory);
    };
    let Ok(stage) = Stage::new(alloc, names, actors_of(calls)) else {
        let _stub = Handle::Token(root).close(rt);
        return Err(AuditFault::NoMemory);
    };
    stage.answer(rt, 0, Some(Handle::Token(root)));
    let signal = perform(rt, &stage, calls);
    let lines = lines_read(rt, alloc, &reader);
    let remains = stage.close(rt, stubs);
    match signal {
        Signal::Begin => tell(rt, lines, remains),
        Signal::CallOff => Err(AuditFault::NoMemory),
    }
}

/// Starts a thread for each actor, has all of them begin or none, and waits for their ends. The
/// signal is that which they got.
fn perform<L: Ledger + Send + Sync, R: Threads + Wait + Sync>(
    rt: &R,
    stage: &Stage<L>,
    calls: &[Call<'_>],
) -> Signal {
    let actors = actors_of(calls);
    thread::scope(thread::scope_env(), rt, |scope| {
        let mut signal = Signal::Begin;
        for actor in 0..actors {
            if scope.spawn(move || act(rt, stage, calls, actor)).is_err() {
                signal = Signal::CallOff;
                break;
            }
        }
        stage.start.give(rt, signal);
        signal
    })
}

/// How many actors make the calls.
fn actors_of(calls: &[Call<'_>]) -> usize {
    let mut actors = 0;
    for call in calls {
        actors = actors.max(call.actor.saturating_add(1));
    }
    actors
}

/// The lines of the collection's domains.
fn lines_read<L: Ledger, R: Wait>(
    rt: &R,
    alloc: Global,
    reader: &Reader<L>,
) -> Result<Lines, AllocError>
    ensures { IfOk result (λ lines. AreLines lines.is_starved (string_bytes lines.text)) }
{
    let reading = reader.read(rt);
    lines_of(alloc, reading.book())
}

/// Tells what came of it, once all handles are spent.
fn tell<L: Ledger, R: Wait>(
    rt: &R,
    lines: Result<Lines, AllocError>,
    remains: Remains<L>,
) -> Result<PlayReport, AuditFault>
    requires { IfOk lines (λ lines. AreLines lines.is_starved (string_bytes lines.text)) }
    ensures told { IfOk result (λ told. IsTold told.is_starved (string_bytes told.text)) }
    ensures starved { IfOk result (λ told. IsTrue remains.is_starved → IsTrue told.is_starved) }
{
    let Ok(lines) = lines else {
        return Err(AuditFault::NoMemory);
    };
    let audit = match audit(rt, remains.stubs) {
        Ok((audit, _seen)) => audit,
        Err((fault, _seen, _stubs)) => return Err(fault),
    };
    let is_starved = lines.is_starved || remains.is_starved;
    match with_audit(lines, audit) {
        Ok(text) => Ok(PlayReport { text, is_starved }),
        Err(_) => Err(AuditFault::NoMemory),
    }
}

/// The lines of domains, with that of an audit after them.
fn with_audit(lines: Lines, audit: Audit) -> Result<String, AllocError>
    requires { AreLines lines.is_starved (string_bytes lines.text) }
    ensures { IfOk result (λ text. IsText lines.is_starved (string_bytes text)) }
{
    let mut text = lines.text;
    put_audit(&mut text, audit)?;
    Ok(text)
}

/// Puts the line of an audit after the text.
fn put_audit(text: &mut String, audit: Audit) -> Result<(), AllocError>
    ensures { Puts result text.old text.new (audit_line audit) }
{
    let Audit {
        nodes,
        actions,
        decisions,
    } = audit;
    writeln!(
        text,
        "audit nodes {nodes} actions {actions} decisions {decisions}"
    )
}
