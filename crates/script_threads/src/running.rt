//! The run of a script on threads, from its bytes to what is told of it.

ghost use Rattle.std.specs.Prelude.{◌≡◌, ◌++◌, [], ◌∷◌, Err, IfOk, OnOk};
ghost use Rattle.std.specs.String.{string_bytes};
ghost use Rattle.serde_json.specs.View.{view};
ghost use Rattle.script_replay.specs.Among.{replies_in};
ghost use Rattle.script_replay.specs.Events.{event_seen, events_of};
ghost use Rattle.script_run.specs.Run.{IsCausedBy};
ghost use Rattle.script_threads.specs.Run.{Played, TellsOf, TellsOfValue};
ghost use Rattle.script_threads.specs.Text.{IsTold};

use crate::fault::PlayFault;
use crate::planning::settle_waits;
use crate::playing::{PlayReport, play};
use byte_transfer::{Sink, Source, read_up_to_limit, write_fully};
use negotiation_inputs::Platform;
use script_reading::{Call, LONGEST, Script, parse_script, read_script_apart};
use script_replay::{Event, Events, Reply, replay};
use script_run::{RunFault, RunOutcome};
use serde_json::Value;
use std::alloc::{AllocError, Global};
use std::marker::Brand;
use std::sync::Wait;
use std::sync::ledger::Blank;
use std::thread::Threads;
use sysmem_participants::AuditFault;

/// The parts of a collection's ledger: one for each node that there can be, and one for the lock.
const PARTS: u64 = 129;

/// Reads a script, has each of its actors make its calls on a thread of its own, and writes what
/// became of each domain, and what the audit counts.
///
/// Any failure of the reader is the fault `Read`, and any of the writer the fault `Write`; what was
/// written then is a prefix of such a text. No other fault is called so, and with another nothing
/// is written. A thread that can't be started is want of memory, and then no actor makes a call.
/// Where it is `Done`, no line says that memory was refused to a decision.
pub fn run_threads<T: Threads + Wait + Sync, R: Source, W: Sink>(
    rt: &T,
    alloc: Global,
    reader: &mut R,
    writer: &mut W,
) -> Result<RunOutcome, RunFault>
    ensures played { Played result
        (R.remaining reader.old) (W.contents writer.old) (W.contents writer.new) }
    ensures read_fault { IsCausedBy (result ≡ Err RunFault.Read)
        (R.failures reader.old) (R.failures reader.new) }
    ensures write_fault { IsCausedBy (result ≡ Err RunFault.Write)
        (W.failures writer.old) (W.failures writer.new) }
{
    let bytes = read_up_to_limit(alloc, reader, LONGEST)?;
    let told = play_bytes(rt, alloc, &bytes)?;
    write_fully(writer, told.text.as_bytes())?;
    if told.is_starved {
        return Ok(RunOutcome::MemoryRefused);
    }
    Ok(RunOutcome::Done)
}

/// Plays the script that bytes spell.
fn play_bytes<T: Threads + Wait + Sync>(
    rt: &T,
    alloc: Global,
    bytes: &[u8],
) -> Result<PlayReport, PlayFault>
    ensures tells { TellsOf bytes.now result }
    ensures text { IfOk result (λ told. IsTold told.is_starved (string_bytes told.text)) }
{
    match parse_script(alloc, bytes) {
        Ok(value) => play_value(rt, alloc, &value),
        Err(fault) => Err(PlayFault::Parse(fault)),
    }
}

/// Plays the script that a value stands for.
fn play_value<T: Threads + Wait + Sync>(
    rt: &T,
    alloc: Global,
    value: &Value,
) -> Result<PlayReport, PlayFault>
    ensures tells { TellsOfValue (view value.now) result }
    ensures text { IfOk result (λ told. IsTold told.is_starved (string_bytes told.text)) }
{
    let script = match read_script_apart(alloc, value) {
        Ok(script) => script,
        Err(fault) => return Err(PlayFault::Parse(fault)),
    };
    match play_script(rt, alloc, script) {
        Ok(told) => Ok(told),
        Err(fault) => Err(PlayFault::Audit(fault)),
    }
}

/// Plays a script, whose calls are made in order first, since that tells which waits are answered.
fn play_script<T: Threads + Wait + Sync>(
    rt: &T,
    alloc: Global,
    script: Script<'_>,
) -> Result<PlayReport, AuditFault>
    ensures { IfOk result (λ told. IsTold told.is_starved (string_bytes told.text)) }
{
    let Script {
        platform,
        mut calls,
    } = script;
    if planned(alloc, &platform, &mut calls).is_err() {
        return Err(AuditFault::NoMemory);
    }
    play::<Brand, T>(rt, alloc, Blank::new(PARTS), platform, &calls)
}

/// Makes checks of the waits that could last for ever, by what the calls answer in the order of the
/// script. It fails where memory is refused, to a reply or a decision too.
fn planned(alloc: Global, platform: &Platform, calls: &mut [Call<'_>]) -> Result<(), AllocError> {
    let replayed = replay(alloc, platform.copy()?, calls)?;
    if replayed.report.starved {
        return Err(AllocError);
    }
    let replies = replies_in(alloc, &replayed.events)?;
    settle_waits(calls, &replies);
    Ok(())
}

/// The replies to calls, in their order.
fn replies_in(alloc: Global, events: &Events<'_>) -> Result<Vec<Reply>, AllocError>
    ensures { IfOk result (λ replies. replies.items ≡ replies_in (events_of events.now)) }
{
    let mut replies = Vec::new(alloc);
    for event in events.as_slice() {
        put_reply(&mut replies, event)?;
    }
    Ok(replies)
}

/// Puts the reply behind those to the calls before, if the event is a call.
fn put_reply(replies: &mut Vec<Reply>, event: &Event<'_>) -> Result<(), AllocError>
    ensures { OnOk result (replies.new.items
        ≡ replies.old.items ++ replies_in (event_seen event.now ∷ [])) }
{
    match event {
        Event::Call(called) => {
            replies.push(called.reply)?;
            Ok(())
        }
        Event::Domain(_) => Ok(()),
    }
}
