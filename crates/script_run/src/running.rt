//! A script's run, from its bytes to its report.

ghost use Rattle.std.specs.Prelude.{◌≡◌, ◌≢◌, [], Err, IfOk, IfErr, OnErr, OnOk};
ghost use Rattle.std.specs.Io.KnownBytes.{Appends};
ghost use Rattle.std.specs.String.{string_bytes};
ghost use Rattle.serde_json.specs.View.{view};
ghost use Rattle.script_reading.specs.Faults.{GivesOneOf};
ghost use Rattle.script_reading.specs.Seen.{script_seen};
ghost use Rattle.script_reading.specs.Text.{IsValue, Outcome};
ghost use Rattle.script_replay.specs.Outcome.{RunsTo, RunsWith, ValueRunsTo, report_seen};
ghost use Rattle.script_replay.specs.Report.{IsReported};
ghost use Rattle.script_run.specs.Run.{IsCausedBy, Ran, RanWithProof, WritesFronts, both_counts};
ghost use Rattle.script_run.specs.Certificate.{CertifiesTo, certified_seen};
ghost use Rattle.certificate_pieces.specs.Texts.{pieces_text};
ghost use Rattle.negotiation_inputs.specs.Platform.{PlatformFacts};

use crate::certifying::Certifying;
use crate::fault::RunFault;
use byte_transfer::{Sink, Source, WriteFault, read_up_to_limit, write_fully};
use certificate_pieces::CertificatePieces;
use script_reading::{LONGEST, ParseFault, Script, parse_script, read_script};
use script_replay::{Decider, Report, Searching, report_of};
use serde_json::Value;
use std::alloc::Global;

/// How a run ends that wrote its whole report.
#[derive(Clone, Copy, Debug, PartialEq, Eq)]
pub enum RunOutcome {
    /// The report is written.
    Done,
    /// The report is written, and says that memory was refused.
    MemoryRefused,
    /// The report is written, and says that a certificate is wrong.
    CheckedNo,
}

/// Reads a script, makes its calls, and writes their report.
///
/// Any failure of the reader is the fault `Read`, and any of the writer the fault `Write`; what was
/// written then is a prefix of the report. No other fault is called so. A script that is refused
/// writes nothing.
pub fn run<R: Source, W: Sink>(
    alloc: Global,
    reader: &mut R,
    writer: &mut W,
) -> Result<RunOutcome, RunFault>
    ensures ran { Ran result
        (R.remaining reader.old) (W.contents writer.old) (W.contents writer.new) }
    ensures read_fault { IsCausedBy (result ≡ Err RunFault.Read)
        (R.failures reader.old) (R.failures reader.new) }
    ensures write_fault { IsCausedBy (result ≡ Err RunFault.Write)
        (W.failures writer.old) (W.failures writer.new) }
{
    let mut left = None;
    run_leaving(alloc, reader, writer, &mut left)
}

/// `run`, which leaves the value that the bytes spell, if they do, in `left`: where the process
/// ends next, it needn't be dropped.
pub fn run_leaving<R: Source, W: Sink>(
    alloc: Global,
    reader: &mut R,
    writer: &mut W,
    left: &mut Option<Value>,
) -> Result<RunOutcome, RunFault>
    ensures ran { Ran result
        (R.remaining reader.old) (W.contents writer.old) (W.contents writer.new) }
    ensures read_fault { IsCausedBy (result ≡ Err RunFault.Read)
        (R.failures reader.old) (R.failures reader.new) }
    ensures write_fault { IsCausedBy (result ≡ Err RunFault.Write)
        (W.failures writer.old) (W.failures writer.new) }
{
    let bytes = read_up_to_limit(alloc, reader, LONGEST)?;
    let report = report_leaving(alloc, bytes, &mut Searching::new(), left)?;
    write_fully(writer, report.text.as_bytes())?;
    if report.starved {
        return Ok(RunOutcome::MemoryRefused);
    }
    Ok(RunOutcome::Done)
}

/// Reads a script, makes its calls, and writes their report, and then the certificate of its
/// decisions to `proof`.
///
/// Any failure of the reader is the fault `Read`, and any of a writer the fault `Write`; what was
/// written then is a prefix of the report, or the whole report and a prefix of the certificate. No
/// other fault is called so. The certificate is written in pieces, whose room is taken before
/// anything is written: where memory is refused to it, nothing is, as where the script is refused.
pub fn run_with_proof<R: Source, W: Sink, P: Sink>(
    alloc: Global,
    reader: &mut R,
    writer: &mut W,
    proof: &mut P,
) -> Result<RunOutcome, RunFault>
    ensures ran { RanWithProof result (R.remaining reader.old)
        (W.contents writer.old) (W.contents writer.new)
        (P.contents proof.old) (P.contents proof.new) }
    ensures read_fault { IsCausedBy (result ≡ Err RunFault.Read)
        (R.failures reader.old) (R.failures reader.new) }
    ensures write_fault { IsCausedBy (result ≡ Err RunFault.Write)
        (both_counts (W.failures writer.old) (P.failures proof.old))
        (both_counts (W.failures writer.new) (P.failures proof.new)) }
{
    let mut left = None;
    run_with_proof_leaving(alloc, reader, writer, proof, &mut left)
}

/// `run_with_proof`, which leaves the value that the bytes spell, if they do, in `left`: where the
/// process ends next, it needn't be dropped.
pub fn run_with_proof_leaving<R: Source, W: Sink, P: Sink>(
    alloc: Global,
    reader: &mut R,
    writer: &mut W,
    proof: &mut P,
    left: &mut Option<Value>,
) -> Result<RunOutcome, RunFault>
    ensures ran { RanWithProof result (R.remaining reader.old)
        (W.contents writer.old) (W.contents writer.new)
        (P.contents proof.old) (P.contents proof.new) }
    ensures read_fault { IsCausedBy (result ≡ Err RunFault.Read)
        (R.failures reader.old) (R.failures reader.new) }
    ensures write_fault { IsCausedBy (result ≡ Err RunFault.Write)
        (both_counts (W.failures writer.old) (P.failures proof.old))
        (both_counts (W.failures writer.new) (P.failures proof.new)) }
{
    let bytes = read_up_to_limit(alloc, reader, LONGEST)?;
    let certified = certified_leaving(alloc, bytes, left)?;
    let CertifiedReport {
        report,
        certificate,
    } = certified;
    write_both(writer, report.text.as_bytes(), proof, certificate)?;
    if report.starved {
        return Ok(RunOutcome::MemoryRefused);
    }
    Ok(RunOutcome::Done)
}

/// A report, and the certificate of its decisions.
#[derive(Drop)]
pub struct CertifiedReport {
    pub report: Report,
    pub certificate: CertificatePieces,
}

/// The report of a script's bytes. The fault is the script's, or that memory was refused before
/// the first call or to the report's own text; where a call or a decision finds none, the report
/// says so.
pub fn report_of_bytes(alloc: Global, bytes: &[u8]) -> Result<Report, ParseFault>
    ensures { GivesOneOf report_seen result (RunsTo bytes.now) }
{
    report_on(alloc, bytes, &mut Searching::new())
}

/// The same with the certificate of its decisions, of which no text is made yet.
pub fn certified_of_bytes(alloc: Global, bytes: &[u8]) -> Result<CertifiedReport, ParseFault>
    ensures { GivesOneOf certified_seen result (CertifiesTo bytes.now) }
{
    let Ok(mut certifying) = Certifying::new(alloc) else {
        return Err(ParseFault::NoMemory);
    };
    let report = match report_on(alloc, bytes, &mut certifying) {
        Ok(report) => report,
        Err(fault) => return Err(fault),
    };
    Ok(CertifiedReport {
        report,
        certificate: certifying.finish(),
    })
}

/// The same of bytes that are dropped once they are read. The value that they spell, if they do,
/// is left in `left`.
fn certified_leaving(
    alloc: Global,
    bytes: Vec<u8>,
    left: &mut Option<Value>,
) -> Result<CertifiedReport, ParseFault>
    ensures { GivesOneOf certified_seen result (CertifiesTo bytes.items) }
{
    let Ok(mut certifying) = Certifying::new(alloc) else {
        return Err(ParseFault::NoMemory);
    };
    let report = match report_leaving(alloc, bytes, &mut certifying, left) {
        Ok(report) => report,
        Err(fault) => return Err(fault),
    };
    Ok(CertifiedReport {
        report,
        certificate: certifying.finish(),
    })
}

/// Writes a text, and then a certificate.
fn write_both<W: Sink, P: Sink>(
    writer: &mut W,
    text: &[u8],
    other: &mut P,
    proof: CertificatePieces,
) -> Result<(), WriteFault>
    ensures first { OnOk result
        (Appends (W.contents writer.old) (W.contents writer.new) text.now) }
    ensures then { OnOk result
        (Appends (P.contents other.old) (P.contents other.new) (pieces_text proof)) }
    ensures fronts { OnErr result (WritesFronts (W.contents writer.old) (W.contents writer.new)
        (P.contents other.old) (P.contents other.new) text.now (pieces_text proof)) }
    ensures worked { OnOk result (both_counts (W.failures writer.new) (P.failures other.new)
        ≡ both_counts (W.failures writer.old) (P.failures other.old)) }
    ensures failed { OnErr result (both_counts (W.failures writer.new) (P.failures other.new)
        ≢ both_counts (W.failures writer.old) (P.failures other.old)) }
{
    write_fully(writer, text)?;
    proof.write(other)?;
    Ok(())
}

/// The report of a script's bytes, whose domains are decided so.
fn report_on<D: Decider>(alloc: Global, bytes: &[u8], decider: &mut D) -> Result<Report, ParseFault>
    requires { (platform : PlatformFacts) → D.gave decider.old platform [] }
    ensures { GivesOneOf report_seen result (RunsWith (D.gave decider.new) bytes.now) }
{
    match parse_script(alloc, bytes) {
        Ok(value) => report_on_value(alloc, &value, decider),
        Err(fault) => Err(fault),
    }
}

/// The same of bytes that are dropped once they are read. The value that they spell, if they do,
/// is left in `left`.
fn report_leaving<D: Decider>(
    alloc: Global,
    bytes: Vec<u8>,
    decider: &mut D,
    left: &mut Option<Value>,
) -> Result<Report, ParseFault>
    requires { (platform : PlatformFacts) → D.gave decider.old platform [] }
    ensures { GivesOneOf report_seen result (RunsWith (D.gave decider.new) bytes.items) }
{
    match parse_owned(alloc, bytes) {
        Ok(value) => {
            let report = report_on_value(alloc, &value, decider);
            *left = Some(value);
            report
        }
        Err(fault) => Err(fault),
    }
}

/// The value that a script's bytes spell; the bytes are dropped.
fn parse_owned(alloc: Global, bytes: Vec<u8>) -> Result<Value, ParseFault>
    ensures { GivesOneOf view result (Outcome IsValue bytes.items) }
{
    parse_script(alloc, &bytes)
}

/// The report of a script's value.
fn report_on_value<D: Decider>(
    alloc: Global,
    value: &Value,
    decider: &mut D,
) -> Result<Report, ParseFault>
    requires { (platform : PlatformFacts) → D.gave decider.old platform [] }
    ensures { GivesOneOf report_seen result (ValueRunsTo (D.gave decider.new) (view value.now)) }
{
    match read_script(alloc, value) {
        Ok(script) => report_on_script(alloc, script, decider),
        Err(fault) => Err(fault),
    }
}

fn report_on_script<D: Decider>(
    alloc: Global,
    script: Script<'_>,
    decider: &mut D,
) -> Result<Report, ParseFault>
    requires { (platform : PlatformFacts) → D.gave decider.old platform [] }
    ensures report { IfOk result (λ report. IsReported (script_seen script.entry).platform
        (script_seen script.entry).calls (D.gave decider.new (script_seen script.entry).platform)
        (string_bytes report.text) report.starved) }
    ensures fault { IfErr result (λ fault. fault ≡ ParseFault.NoMemory) }
{
    match report_of(alloc, script.platform, &script.calls, decider) {
        Ok(report) => Ok(report),
        Err(_) => Err(ParseFault::NoMemory),
    }
}
