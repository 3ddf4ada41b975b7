//! A script's run, from its bytes to the objects of its report.

ghost use Rattle.std.specs.Prelude.{◌≡◌, ◌≢◌, ◌++◌, [], ◌∷◌, Bool, Err, IfOk, IfSome, Ok, OnOk};
ghost use Rattle.serde_json.specs.View.{view};
ghost use Rattle.report_json.specs.Certified.{HappensIn, WritesCertificate, outcome_of};
ghost use Rattle.script_reading.specs.declared.fault.ScriptFault.{ScriptFault as FaultOfScript};
ghost use Rattle.script_replay.specs.Among.{decided_in};
ghost use Rattle.script_replay.specs.Events.{event_seen, events_of};
ghost use Rattle.script_replay.specs.Outcome.{RunsTo, ValueRunsTo, anyhow};
ghost use Rattle.script_replay.specs.Replayed.{end_of};
ghost use Rattle.script_run.specs.Certificate.{texts_of};
ghost use Rattle.script_run.specs.Run.{IsCausedBy, both_counts};

use crate::telling::objects_of;
use byte_transfer::{Counted, Sink, Source, read_up_to_limit, write_fully};
use certificate_pieces::CertificatePieces;
use negotiation_inputs::Platform;
use script_reading::{LONGEST, parse_script, read_script};
use script_replay::{DomainFate, Event, Proving, ReplayedCalls, replayed_of};
use script_run::{RunFault, RunOutcome};
use serde_json::Value;
use std::alloc::{AllocError, Global};

/// How a run ends that wrote its objects.
fn ended_by(starved: bool) -> RunOutcome
    ensures { result ≡ outcome_of starved }
{
    if starved {
        RunOutcome::MemoryRefused
    } else {
        RunOutcome::Done
    }
}

/// Reads a script, makes its calls, and writes an object of JSON for each line of their report, and
/// one that ends them.
///
/// Any failure of the reader is the fault `Read`, and any of the writer the fault `Write`; what was
/// written then is a prefix of the objects. No other fault is called so. A script that is refused
/// writes nothing.
#[tactic(auto, using(crate::proofs::Input::refused_input))]
pub fn run_as_json<R: Source, W: Sink>(
    alloc: Global,
    reader: &mut R,
    writer: &mut W,
) -> Result<RunOutcome, RunFault>
    ensures refused { (fault : FaultOfScript) → result ≡ Err (RunFault.Script fault)
        → IfSome (R.remaining reader.old) (λ input. RunsTo input (Err fault)) }
    ensures read_fault { IsCausedBy (result ≡ Err RunFault.Read)
        (R.failures reader.old) (R.failures reader.new) }
    ensures write_fault { IsCausedBy (result ≡ Err RunFault.Write)
        (W.failures writer.old) (W.failures writer.new) }
{
    let bytes = read_up_to_limit(alloc, reader, LONGEST)?;
    let value = parse_script(alloc, &bytes)?;
    let replayed = replayed_in(alloc, &value)?;
    let objects = objects_of(alloc, &replayed)?;
    write_fully(writer, objects.as_bytes())?;
    Ok(ended_by(replayed.report.starved))
}

/// The same, which then writes the certificate of the report's decisions to `proof`.
#[tactic(auto, using(crate::proofs::Input::refused_input))]
pub fn run_as_json_with_proof<R: Source, W: Sink, P: Sink>(
    alloc: Global,
    reader: &mut R,
    writer: &mut W,
    proof: &mut P,
) -> Result<RunOutcome, RunFault>
    ensures refused { (fault : FaultOfScript) → result ≡ Err (RunFault.Script fault)
        → IfSome (R.remaining reader.old) (λ input. RunsTo input (Err fault)) }
    ensures read_fault { IsCausedBy (result ≡ Err RunFault.Read)
        (R.failures reader.old) (R.failures reader.new) }
    ensures write_fault { IsCausedBy (result ≡ Err RunFault.Write)
        (both_counts (W.failures writer.old) (P.failures proof.old))
        (both_counts (W.failures writer.new) (P.failures proof.new)) }
    ensures certified { (starved : Bool) → result ≡ Ok (outcome_of starved)
        → IfSome (R.remaining reader.old) (λ input. WritesCertificate input starved
        (P.contents proof.old) (P.contents proof.new)) }
{
    let bytes = read_up_to_limit(alloc, reader, LONGEST)?;
    let value = parse_script(alloc, &bytes)?;
    let replayed = replayed_in(alloc, &value)?;
    let objects = objects_of(alloc, &replayed)?;
    let certificate = certificate_of(alloc, &replayed)?;
    write_fully(writer, objects.as_bytes())?;
    certificate.write(proof)?;
    Ok(ended_by(replayed.report.starved))
}

/// The calls of the script that a value spells, made with decisions that have what proves them. It
/// fails where the script is refused, by its first fault, and where memory is refused outside of a
/// decision.
fn replayed_in(alloc: Global, value: &Value) -> Result<ReplayedCalls<'_>, RunFault>
    ensures happens { IfOk result (λ replayed. HappensIn (view value.now)
        (events_of replayed.events) (end_of replayed)) }
    ensures starved { IfOk result (λ replayed.
        replayed.report.starved ≡ (end_of replayed).starved) }
    ensures refused { (fault : FaultOfScript) → result ≡ Err (RunFault.Script fault)
        → ValueRunsTo anyhow (view value.now) (Err fault) }
    ensures silent { (result ≢ Err RunFault.Read) × (result ≢ Err RunFault.Write) }
{
    let script = read_script(alloc, value)?;
    match replayed_of(alloc, script.platform, &script.calls, &mut Proving) {
        Ok(replayed) => Ok(replayed),
        Err(_) => Err(RunFault::NoMemory),
    }
}

/// The certificate of the decisions among what happened.
fn certificate_of(
    alloc: Global,
    replayed: &ReplayedCalls<'_>,
) -> Result<CertificatePieces, AllocError>
    ensures { IfOk result (λ pieces. pieces ≡ texts_of (end_of replayed.now).platform
        (decided_in (events_of replayed.now.events))) }
{
    let platform = replayed.book().platform();
    let mut pieces = CertificatePieces::new(alloc)?;
    for event in replayed.events.as_slice() {
        put_decision(&mut pieces, platform, event)?;
    }
    Ok(pieces)
}

/// Puts the decision that an event is, if it is one.
fn put_decision(
    pieces: &mut CertificatePieces,
    platform: &Platform,
    event: &Event<'_>,
) -> Result<(), AllocError>
    ensures { OnOk result (pieces.new ≡ pieces.old
        ++ texts_of platform.now (decided_in (event_seen event.now ∷ []))) }
{
    match event {
        Event::Call(_) => Ok(()),
        Event::Domain(domain) => match &domain.fate {
            DomainFate::Decided(one) => pieces.put(platform, &domain.path, &one.claim),
            DomainFate::Failed => Ok(()),
            DomainFate::Pending => Ok(()),
        },
    }
}
